//! Paths of instances, as far as the netlist alone tells.
ghost use Rattle.std.specs.Prelude.{◌≤◌, IfSome, length};

use crate::found::{Class, name_of};
use crate::names::given_in;
use crate::pins::module_of;
use crate::tops::top_module;
use crate::walk::{class_of, range_of};
use mintc_text::{Name, OutOfMemory};
use mintc_vlex::{is_endmodule, next_token, statement_end};
use mintcx_places::Range;
use std::alloc::Global;

/// Where a path of instances ends that leads to no cell: how many of its names are those of instances, and the name of
/// the module or of the cell that the last of these is of.
#[derive(Clone, Copy, Debug)]
pub struct PathEnd {
    pub known: usize,
    pub holder: Range,
    pub is_module: bool,
}

/// The cell of the instance of a name in a module.
fn cell_in(text: &[u8], module: &Range, name: &[u8]) -> Option<Range> {
    let mut from = module.to;
    while let Some(first) = next_token(text, from) {
        if is_endmodule(text, &first) {
            return None;
        }
        if class_of(text, &first) == Some(Class::Instance)
            && given_in(text, &first, name).is_some()
        {
            return Some(range_of(&first));
        }
        from = statement_end(text, &first);
    }
    None
}

/// Where a path of instances ends, from a module on. None where it leads to a cell.
fn end_from(text: &[u8], top: Range, path: &[Name]) -> Option<PathEnd> {
    let mut holder = top;
    for known in 0..path.len() {
        let Some(cell) = cell_in(text, &holder, path[known].bytes()) else {
            return Some(PathEnd {
                known,
                holder,
                is_module: true,
            });
        };
        match module_of(text, name_of(text, &cell)) {
            Some(module) => holder = range_of(&module),
            None if known + 1 == path.len() => return None,
            None => {
                return Some(PathEnd {
                    known: known + 1,
                    holder: cell,
                    is_module: false,
                });
            }
        }
    }
    Some(PathEnd {
        known: path.len(),
        holder,
        is_module: true,
    })
}

/// Where a path of instances of the top ends. None where it leads to a cell, or the top isn't clear.
pub fn path_end(alloc: Global, text: &[u8], path: &[Name]) -> Result<Option<PathEnd>, OutOfMemory> {
    match top_module(alloc, text, b"")? {
        Some(top) => Ok(end_from(text, top, path)),
        None => Ok(None),
    }
}
