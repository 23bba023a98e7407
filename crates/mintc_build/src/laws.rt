//! What the definitions of designs and refusals say: a law is the contract of a function that does nothing of its own.
ghost use Rattle.mintc_build.specs.FilesDesign.{described_by, library_by};
ghost use Rattle.mintc_build.specs.Laws.{AcceptedAreNotRefused, ArePlain, CornersDifferInNumbers};
ghost use Rattle.mintc_build.specs.Laws.{DesignRefusalsAreDetermined, DesignsHaveSystemsOrRefusals};
ghost use Rattle.mintc_build.specs.Laws.{FilesHaveDesignOrRefusal};

use mintc_annotate::{
    annotate_refusals_are_determined, designs_are_determined, designs_are_not_refused,
    there_is_a_design_or_a_refusal,
};
use mintc_cells::{
    bad_cells_are_determined, cells_are_determined, cells_are_not_refused,
    texts_have_cells_or_refusals,
};
use mintc_clock::{
    bad_clocks_are_determined, clocks_are_determined, clocks_are_not_refused,
    texts_have_clocks_or_refusals,
};
use mintc_order::{arcs_have_order_or_loop, orders_exclude_loops};
use mintc_paths::ordered_designs_have_systems_or_refusals;
use mintc_timing::pairs_are_determined;
use mintc_verilog::texts_are_plain;

/// No accepted design is refused.
pub fn accepted_designs_are_not_refused()
    ensures { AcceptedAreNotRefused }
{}

/// A design has one refusal, but for the choice of a loop.
pub fn design_refusals_are_determined()
    ensures { DesignRefusalsAreDetermined }
{
    pairs_are_determined();
}

/// Each design has a system or a refusal.
pub fn designs_have_systems_or_refusals()
    ensures { DesignsHaveSystemsOrRefusals }
{
    arcs_have_order_or_loop();
    orders_exclude_loops();
    ordered_designs_have_systems_or_refusals();
}

/// Four files have one design or one refusal at most, and never both, whether their cells are described or a library's.
pub fn files_are_plain()
    ensures described { ArePlain described_by }
    ensures library { ArePlain library_by }
{
    texts_are_plain();
    cells_are_determined();
    cells_are_not_refused();
    bad_cells_are_determined();
    clocks_are_determined();
    clocks_are_not_refused();
    bad_clocks_are_determined();
    designs_are_determined();
    designs_are_not_refused();
    annotate_refusals_are_determined();
}

/// Four files have a design or a refusal, whether their cells are described or a library's.
pub fn files_have_designs_or_refusals()
    ensures described { FilesHaveDesignOrRefusal described_by }
    ensures library { FilesHaveDesignOrRefusal library_by }
{
    texts_are_plain();
    texts_have_cells_or_refusals();
    texts_have_clocks_or_refusals();
    there_is_a_design_or_a_refusal();
}

/// Designs of one netlist, one cell description and one clock differ in numbers alone, whatever their delays.
pub fn corners_differ_in_numbers()
    ensures { CornersDifferInNumbers }
{
    texts_are_plain();
    cells_are_determined();
    clocks_are_determined();
    designs_are_determined();
}
