//! What is said of an obstacle.

use crate::obstacles::Obstacle;
use std::error::Error;
use std::fmt;

impl fmt::Display for Obstacle {
    fn fmt<W: fmt::Write>(&self, f: &mut fmt::Formatter<W>) -> fmt::Result {
        match *self {
            Obstacle::PhaseName { phase } => write!(
                f,
                "the name of phase {} isn't 1 to 1000 bytes from 33 to 126",
                phase.saturating_add(1)
            ),
            Obstacle::ElementName { element } => write!(
                f,
                "the name of element {element} isn't 1 to 1000 bytes from 33 to 126"
            ),
        }
    }
}

impl Error for Obstacle {}
