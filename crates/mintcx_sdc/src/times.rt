//! Times, names and ports in SDC.
ghost use Rattle.std.specs.Prelude.{◌≡◌, ◌++◌, OnOk};
ghost use Rattle.mintcx_sdc.specs.Times.{braced, ports_text, time_text};

use mintc_fraction::Fraction;
use mintc_text::{Lines, OutOfMemory};
use mintcx_amounts::{Unit, put_amount};

/// Writes a whole number of femtoseconds as a decimal of nanoseconds, exactly.
pub(crate) fn put_time(lines: &mut Lines, time: i64) -> Result<(), OutOfMemory>
    ensures { OnOk result (lines.new ≡ lines.old ++ time_text time) }
{
    put_amount(lines, &Fraction::new(i128::from(time), 1), Unit::Nano)
}

/// Writes a name in braces.
pub(crate) fn put_braced(lines: &mut Lines, name: &[u8]) -> Result<(), OutOfMemory>
    ensures { OnOk result (lines.new ≡ lines.old ++ braced name.now) }
{
    lines.put(b"{")?;
    lines.put(name)?;
    lines.put(b"}")
}

/// Writes a port as the last word of a command.
pub(crate) fn put_ports(lines: &mut Lines, port: &[u8]) -> Result<(), OutOfMemory>
    ensures { OnOk result (lines.new ≡ lines.old ++ ports_text port.now) }
{
    lines.put(b" [get_ports ")?;
    put_braced(lines, port)?;
    lines.put(b"]")
}
