// The state of a queue diner, with what holds of it as long as it exists.
ghost use Rattle.std.specs.Prelude.{◌≡◌, true};
ghost use Rattle.graph.specs.Neighbourhoods.{near};
ghost use Rattle.queueing.specs.Orderly.{orderly};

use crate::entry::Entry;
use arrayvec::ArrayVec;
use graph::Neighbourhood;

pub mod calls;
mod changes;
mod looking;
pub mod making;

#[derive(Drop)]
pub struct QueueDiner {
    neighbourhood: Neighbourhood,
    // The queue, its oldest entry first.
    entries: ArrayVec<Entry, 16>,
    ghost sound: { orderly (near neighbourhood) neighbourhood.drinkers entries.items ≡ true },
}
