//! The network whose greatest walks are the late departures.
use crate::clocked_system::ClockedSystem;
use mintc_graph_walks::{Arc, Network};

/// The elements as nodes, and the arc of each pair under its number. An arc into a latch weighs by how much later data
/// arrives; one into a flop, whose departure no data changes, is a closed arc there that no greatest walk takes.
impl Network for ClockedSystem<'_> {
    ghost use Rattle.mintc_departure.specs.Networks.{arcs_of};

    ghost arcs = { λ n. arcs_of n.system.now n.schedule.now };

    fn len(&self) -> usize {
        self.system.pairs().len()
    }

    fn arc(&self, number: usize) -> Arc {
        let pair = self.system.pair(number);
        if self.system.element(pair.to).flop {
            Arc {
                from: pair.to,
                to: pair.to,
                weight: -1,
            }
        } else {
            Arc {
                from: pair.from,
                to: pair.to,
                weight: i128::from(self.late_delay(number)),
            }
        }
    }
}
