//! Names that no table can have.
ghost use Rattle.std.specs.Prelude.{[], All, MatchOption};
ghost use Rattle.mintc_timing.specs.Design.{no_element};
ghost use Rattle.mintc_timing_text.specs.Fields.{IsName};
ghost use Rattle.mintcx_tables.specs.Obstacles.{HasNames, IsFirstWithout, IsNamed, IsObstacle};

use mintc_text::Name;
use mintc_timing::{Element, Flat};
use mintc_timing_text::is_name;

/// What of a design no table can say: the first name that isn't 1 to 1,000 bytes from 33 to 126, of a phase or else of
/// an element. Both are counted from 0.
#[derive(Clone, Copy, Debug, PartialEq, Eq, Drop)]
pub enum Obstacle {
    PhaseName { phase: usize },
    ElementName { element: usize },
}

/// The first phase whose name no table can have.
fn unnamed_phase(phases: &[Name]) -> Option<usize>
    ensures { MatchOption result (All IsName phases.now) (IsFirstWithout IsName [] phases.now) }
{
    for phase in 0..phases.len() {
        if !is_name(phases[phase].bytes()) {
            return Some(phase);
        }
    }
    None
}

/// The first element whose name no table can have.
fn unnamed_element(elements: &[Element]) -> Option<usize>
    ensures { MatchOption result (All IsNamed elements.now) (IsFirstWithout IsNamed no_element elements.now) }
{
    for element in 0..elements.len() {
        if !is_name(elements[element].name.bytes()) {
            return Some(element);
        }
    }
    None
}

/// What of a design no table can say. None where a table can say all.
pub fn obstacle_of(flat: &Flat) -> Option<Obstacle>
    ensures { MatchOption result (HasNames flat.now) (IsObstacle flat.now) }
{
    if let Some(phase) = unnamed_phase(flat.phases().items()) {
        return Some(Obstacle::PhaseName { phase });
    }
    match unnamed_element(flat.elements()) {
        Some(element) => Some(Obstacle::ElementName { element }),
        None => None,
    }
}
