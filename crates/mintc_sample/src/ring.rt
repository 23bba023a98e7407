//! The netlist of a sample.
ghost use Rattle.std.specs.Prelude.{◌≡◌, ◌<◌, ◌≤◌, ◌++◌, IfOk, OnOk};
ghost use Rattle.mintc_text.specs.Lines.{ended};
ghost use Rattle.mintc_sample.specs.Samples.{numbered, gate_line, latch_line, ring_text, netlist_text};

use mintc_text::{Lines, OutOfMemory};
use std::alloc::Global;

/// The latches of a ring.
pub(crate) const LATCHES: u64 = 2_000;

/// Writes a word and a number after it.
pub(crate) fn put_numbered(lines: &mut Lines, word: &[u8], number: u64) -> Result<(), OutOfMemory>
    ensures { OnOk result (lines.new ≡ lines.old ++ numbered word.now number) }
{
    lines.put(word)?;
    lines.number(number as i128)
}

/// Writes the gate before a latch: from the latches one and three before it.
fn put_gate(lines: &mut Lines, latch: u64) -> Result<(), OutOfMemory>
    requires { latch < 2000 }
    ensures { OnOk result (lines.new ≡ lines.old ++ ended (gate_line latch)) }
{
    put_numbered(lines, b"MIX g", latch)?;
    put_numbered(lines, b" (.A(y", (latch + 1_999) % LATCHES)?;
    put_numbered(lines, b"), .B(y", (latch + 1_997) % LATCHES)?;
    put_numbered(lines, b"), .Y(x", latch)?;
    lines.put(b"));\n")
}

/// Writes a latch: on the first and the second phase in turn.
fn put_latch(lines: &mut Lines, latch: u64) -> Result<(), OutOfMemory>
    requires { latch < 2000 }
    ensures { OnOk result (lines.new ≡ lines.old ++ ended (latch_line latch)) }
{
    put_numbered(lines, b"LAT u", latch)?;
    put_numbered(lines, b" (.D(x", latch)?;
    put_numbered(lines, b"), .G(c", 1 + latch % 2)?;
    put_numbered(lines, b"), .Q(y", latch)?;
    lines.put(b"));\n")
}

/// Writes the gates and latches of the first places of a ring.
fn put_ring(lines: &mut Lines, count: u64) -> Result<(), OutOfMemory>
    requires { count ≤ 2000 }
    ensures { OnOk result (lines.new ≡ lines.old ++ ring_text count) }
{
    for latch in 0..count {
        put_gate(lines, latch)?;
        put_latch(lines, latch)?;
    }
    Ok(())
}

/// The netlist: one module, with a gate and a latch for each place of the ring.
pub(crate) fn netlist(alloc: Global) -> Result<Vec<u8>, OutOfMemory>
    ensures { IfOk result (λ text. text.items ≡ netlist_text) }
{
    let mut lines = Lines::new(alloc);
    lines.put(b"module ring(c1, c2);\ninput c1;\ninput c2;\n")?;
    put_ring(&mut lines, LATCHES)?;
    lines.put(b"endmodule\n")?;
    Ok(lines.into_bytes())
}
