//! Texts in which no sign is read as SVG.
ghost use Rattle.std.specs.Prelude.{◌≡◌, ◌++◌, flat_map, OnOk};
ghost use Rattle.mintcx_picture.specs.Escapes.{escape_of, escaped};

use mintc_text::{Lines, OutOfMemory};

/// Writes a byte of a text.
#[tactic(auto, using(crate::proofs::EscapeLaws::plain))]
fn put_byte(lines: &mut Lines, byte: u8) -> Result<(), OutOfMemory>
    ensures { OnOk result (lines.new ≡ lines.old ++ escape_of byte) }
{
    match byte {
        b'&' => lines.put(b"&amp;"),
        b'<' => lines.put(b"&lt;"),
        b'>' => lines.put(b"&gt;"),
        b'"' => lines.put(b"&quot;"),
        b'\'' => lines.put(b"&#39;"),
        _ => lines.put(&[byte]),
    }
}

/// Writes a text with its signs escaped.
pub(crate) fn put_escaped(lines: &mut Lines, text: &[u8]) -> Result<(), OutOfMemory>
    ensures { OnOk result (lines.new ≡ lines.old ++ escaped text.now) }
{
    for byte in text {
        put_byte(lines, *byte)?;
    }
    Ok(())
}
