//! What latches and flops are called.
ghost use Rattle.std.specs.Prelude.{◌≡◌, ◌<◌, ◌++◌, length, OnOk, IfOk};
ghost use Rattle.mintc_flatten_hierarchy.specs.Shape.{IsFlattened};
ghost use Rattle.mintc_annotate_resolve.specs.Names.{HasNames, front_of};
ghost use Rattle.mintc_annotate_resolve.specs.Pins.{scope_path, leaf_path, dotted};

use mintc_flatten_hierarchy::Hierarchy;
use mintc_text::{Lines, Name, OutOfMemory};
use std::alloc::Global;

/// Puts the names from the top down to a scope, each with a point behind it.
fn put_front(lines: &mut Lines, hierarchy: &Hierarchy, number: usize) -> Result<(), OutOfMemory>
    requires names { HasNames hierarchy.now }
    requires scope { number < length hierarchy.now.scopes }
    ensures { OnOk result (lines.new ≡ lines.old ++ front_of (scope_path hierarchy.now number)) }
{
    if number == 0 {
        return Ok(());
    }
    let scope = &hierarchy.scopes.items()[number];
    put_front(lines, hierarchy, scope.parent as usize)?;
    lines.put(scope.name.bytes())?;
    lines.put(b".")
}

/// What a leaf is called.
pub fn leaf_name(alloc: Global, hierarchy: &Hierarchy, number: usize) -> Result<Name, OutOfMemory>
    requires names { HasNames hierarchy.now }
    requires leaf { number < length hierarchy.now.leaves }
    ensures { IfOk result (λ name. name ≡ dotted (leaf_path hierarchy.now number)) }
{
    let leaf = &hierarchy.leaves.items()[number];
    let mut lines = Lines::new(alloc);
    put_front(&mut lines, hierarchy, leaf.scope as usize)?;
    lines.put(leaf.name.bytes())?;
    Name::new(alloc, &lines.into_bytes())
}
