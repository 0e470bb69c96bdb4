// How a queue diner is made from a graph.
ghost use Rattle.std.specs.Prelude.{◌≡◌};
ghost use Rattle.graph.specs.Ends.{neighbours};
ghost use Rattle.graph.specs.Graphs.{ends_of};
ghost use Rattle.queueing.specs.Queue.{started};
ghost use Rattle.queueing.specs.QueueDiners.{queue};

use crate::queue_diner::QueueDiner;
use arrayvec::ArrayVec;
use graph::{Graph, Neighbourhood};

impl QueueDiner {
    // All think: nobody is in the queue.
    pub fn new(graph: &Graph) -> QueueDiner
        ensures { queue result ≡ started graph.now.drinkers (neighbours (ends_of graph.now)) }
    {
        QueueDiner {
            neighbourhood: Neighbourhood::new(graph),
            entries: ArrayVec::new(),
        }
    }
}
