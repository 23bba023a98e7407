//! What the definitions of designs and refusals say: a law is the contract of a function that does nothing of its own.
ghost use Rattle.std.specs.Prelude.{[]};
ghost use Rattle.mintc_build.specs.FilesDesign.{described_by, library_by};
ghost use Rattle.mintcx_edges.specs.EdgeFiles.{described_without, description, library_with};
ghost use Rattle.mintcx_edges.specs.Laws.{AreEdgePlain, LibrariesArePlain, LibrariesAreNotHalted};
ghost use Rattle.mintcx_edges.specs.Laws.{CyclesAreNoGreater, DescribedEdgesMakeBoth, GatedCyclesAreNoGreater};
ghost use Rattle.mintcx_edges.specs.Laws.{GatedSchedulesAreKept, SchedulesAreKept};

use mintc_clock::{bad_clocks_are_determined, clocks_are_determined, clocks_are_not_refused};
use mintc_edges::{
    edge_cycles_are_no_greater, edge_designs_are_determined, edge_schedules_are_kept,
};
use mintc_sdf_edges::delays_merge;
use mintc_verilog::texts_are_plain;
use mintcx_sense_keys::{
    bad_sensed_cells_are_determined, cells_have_no_keys, keyless_texts_are_plain,
    plain_cells_are_determined, sensed_cells_are_not_refused,
};

/// A description without the keys says no senses: each edge of an input may make both edges of an output.
pub fn described_edges_make_both()
    ensures { DescribedEdgesMakeBoth }
{
    keyless_texts_are_plain();
}

/// Four files have one design with edges apart or one refusal at most, and never both, whether their cells are
/// described or those of a library with gates for the clock.
pub fn edge_files_are_plain()
    ensures described { AreEdgePlain description }
    ensures library { LibrariesArePlain }
{
    texts_are_plain();
    plain_cells_are_determined();
    sensed_cells_are_not_refused();
    bad_sensed_cells_are_determined();
    clocks_are_determined();
    clocks_are_not_refused();
    bad_clocks_are_determined();
    edge_designs_are_determined();
}

/// Where four files have a design with edges apart, nothing but memory can be wanting.
pub fn edge_libraries_are_not_halted()
    ensures { LibrariesAreNotHalted }
{
    edge_files_are_plain();
}

/// A schedule that is right for the merged design of four files is right for the one with edges apart, whether their
/// cells are described, those of a library, or those of a library with gates for the clock. Where a description has the
/// keys of senses, the merged design is that of the description without them.
pub fn edge_schedules_of_files_are_kept()
    ensures described { SchedulesAreKept described_by description }
    ensures without { SchedulesAreKept described_without description }
    ensures library { SchedulesAreKept library_by (library_with []) }
    ensures gated { GatedSchedulesAreKept }
{
    texts_are_plain();
    cells_have_no_keys();
    keyless_texts_are_plain();
    plain_cells_are_determined();
    clocks_are_determined();
    delays_merge();
    edge_schedules_are_kept();
}

/// The least cycle of four files with edges apart is at most that of their merged design.
pub fn edge_cycles_of_files_are_no_greater()
    ensures described { CyclesAreNoGreater described_by description }
    ensures without { CyclesAreNoGreater described_without description }
    ensures library { CyclesAreNoGreater library_by (library_with []) }
    ensures gated { GatedCyclesAreNoGreater }
{
    texts_are_plain();
    cells_have_no_keys();
    keyless_texts_are_plain();
    plain_cells_are_determined();
    clocks_are_determined();
    delays_merge();
    edge_cycles_are_no_greater();
}
