//! Paths from a cell of the clock, and what is met there.
ghost use Rattle.std.specs.Prelude.{◌≡◌, ◌++◌, ◌∷◌, [], IfOk, OnOk};
ghost use Rattle.mintcx_warnings_files.specs.Written.{paths_from};

use mintc_flatten_hierarchy::Join;
use mintc_text::{Items, OutOfMemory};
use mintcx_lint_data::DataPath;
use std::alloc::Global;

/// Adds a path, where it is from a cell.
fn push_from(found: &mut Vec<DataPath>, path: &DataPath, cell: u32) -> Result<(), OutOfMemory>
    ensures { OnOk result (found.new.items ≡ found.old.items ++ paths_from (path.now ∷ []) cell) }
{
    if path.cell == cell {
        found.push(*path)?;
    }
    Ok(())
}

/// Those of some paths that are from a cell.
pub(crate) fn paths_from(
    alloc: Global,
    paths: &[DataPath],
    cell: u32,
) -> Result<Items<DataPath>, OutOfMemory>
    ensures { IfOk result (λ found. found ≡ paths_from paths.now cell) }
{
    let mut found = Vec::new(alloc);
    for path in paths {
        push_from(&mut found, path, cell)?;
    }
    Ok(Items::new(found))
}

/// The bit to which the first join from a bit leads; the bit itself where there is none.
pub(crate) fn net_behind(joins: &[Join], bit: u32) -> u32 {
    for join in joins {
        if join.from == bit {
            return join.to;
        }
    }
    bit
}

/// The bytes of a name before its last part, with the point before that left out.
pub(crate) fn before_part<'a>(name: &'a [u8], part: &[u8]) -> &'a [u8] {
    let size = name.len().saturating_sub(part.len()).saturating_sub(1);
    match name.get(..size) {
        Some(front) => front,
        None => name,
    }
}
