//! The numbers of the nodes that links lead between: 0 is time 0, then come the start and the end of each phase, then a
//! moment of each element.
ghost use Rattle.std.specs.Prelude.{◌≡◌, ◌<◌};
ghost use Rattle.mintc_text.specs.declared.limits.TheConstants.{MOST_PHASES};
ghost use Rattle.mintc_timing.specs.Design.{element_count};
ghost use Rattle.mintc_timing.specs.Limits.{IsDesign, IsPhase, IsPoint};
ghost use Rattle.mintc_timing.specs.Links.{start_node as start_of, end_node as end_of, point_node as point_of};
ghost use Rattle.mintc_timing.specs.Links.{element_node as element_of, node_count};

use crate::{Flat, Point};

/// The node of a phase's start. Phases are counted from 1.
pub fn start_node(phase: u32) -> u32
    requires { IsPhase MOST_PHASES phase }
    ensures { result ≡ start_of phase }
{
    2 * phase - 1
}

/// The node of a phase's end. Phases are counted from 1.
pub fn end_node(phase: u32) -> u32
    requires { IsPhase MOST_PHASES phase }
    ensures { result ≡ end_of phase }
{
    2 * phase
}

/// The node of a point of the clock.
pub fn point_node(point: Point) -> u32
    requires { IsPoint MOST_PHASES point }
    ensures { result ≡ point_of point }
{
    match point {
        Point::Origin => 0,
        Point::Start(phase) => start_node(phase),
        Point::End(phase) => end_node(phase),
    }
}

impl Flat {
    /// How many nodes its links lead between.
    pub fn node_count(&self) -> u32
        ensures value { result ≡ node_count self.now }
        ensures kept { IsDesign self.now }
    {
        1 + 2 * self.phase_count() + self.element_count()
    }

    /// The node of an element's moment. Elements are counted from 0.
    pub fn element_node(&self, number: u32) -> u32
        requires { number < element_count self.now }
        ensures value { result ≡ element_of self.now number }
        ensures inside { result < node_count self.now }
        ensures kept { IsDesign self.now }
    {
        2 * self.phase_count() + 1 + number
    }
}
