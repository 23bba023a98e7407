//! The four texts of a sample.
ghost use Rattle.std.specs.Prelude.{◌≡◌, IfOk};
ghost use Rattle.mintc_sample.specs.Samples.{netlist_text, delays_text, cells_text, clock_text};

use crate::ring::netlist;
use crate::weights::delays;
use mintc_text::{Bytes, Lines, OutOfMemory};
use std::alloc::Global;

/// The texts of a design of files.
#[derive(Drop)]
pub struct SampleFiles {
    pub netlist: Bytes,
    pub delays: Bytes,
    pub cells: Bytes,
    pub clock: Bytes,
}

/// The cell description: a gate of two inputs, and a latch.
const CELLS: &[u8] =
    b"[cell.MIX]\nkind = \"gate\"\ninputs = [\"A\", \"B\"]\noutputs = [\"Y\"]\n[cell.LAT]\nkind = \"latch\"\n\
     d = \"D\"\ng = \"G\"\noutputs = [\"Q\"]\nsetup = 30000\ndq_min = 20000\n";

/// The clock description: two phases.
const CLOCK: &[u8] =
    b"[[phase]]\nname = \"p1\"\nport = \"c1\"\n[[phase]]\nname = \"p2\"\nport = \"c2\"\n";

/// Some bytes of their own.
fn copy_bytes(alloc: Global, bytes: &[u8]) -> Result<Bytes, OutOfMemory>
    ensures { IfOk result (λ owned. owned ≡ bytes.now) }
{
    let mut lines = Lines::new(alloc);
    lines.put(bytes)?;
    Ok(Bytes::new(lines.into_bytes()))
}

/// The cells of each sample.
fn cells(alloc: Global) -> Result<Bytes, OutOfMemory>
    ensures { IfOk result (λ text. text ≡ cells_text) }
{
    copy_bytes(alloc, CELLS)
}

/// The clock of each sample.
fn clock(alloc: Global) -> Result<Bytes, OutOfMemory>
    ensures { IfOk result (λ text. text ≡ clock_text) }
{
    copy_bytes(alloc, CLOCK)
}

/// The texts of the sample of a number: a ring of 2,000 latches on two phases. The number alone decides them.
pub fn files(alloc: Global, number: u64) -> Result<SampleFiles, OutOfMemory>
    ensures netlist { IfOk result (λ files. files.netlist ≡ netlist_text) }
    ensures delays { IfOk result (λ files. files.delays ≡ delays_text number) }
    ensures cells { IfOk result (λ files. files.cells ≡ cells_text) }
    ensures clock { IfOk result (λ files. files.clock ≡ clock_text) }
{
    let netlist = netlist(alloc)?;
    let delays = delays(alloc, number)?;
    Ok(SampleFiles {
        netlist: Bytes::new(netlist),
        delays: Bytes::new(delays),
        cells: cells(alloc)?,
        clock: clock(alloc)?,
    })
}
