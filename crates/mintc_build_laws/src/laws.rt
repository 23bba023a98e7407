//! What the definitions say of one another: a law is the contract of a function that only calls laws.
ghost use Rattle.mintc_build.specs.FilesDesign.{described_by, library_by};
ghost use Rattle.mintc_build_laws.specs.Sound.{DesignsAreSound};

use mintc_cells::cells_keep_rules;
use mintc_clock::clocks_keep_limits;
use mintc_flatten_hierarchy::hierarchies_are_in_shape;
use mintc_sdf::delays_are_within;
use mintc_verilog::texts_are_plain;

/// A design of four texts has its parts in their ranges, whether its cells are described or a library's.
pub fn designs_are_sound()
    ensures described { DesignsAreSound described_by }
    ensures library { DesignsAreSound library_by }
{
    texts_are_plain();
    delays_are_within();
    cells_keep_rules();
    clocks_keep_limits();
    hierarchies_are_in_shape();
}
