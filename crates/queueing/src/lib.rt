// A diner by a queue: the hungry eat in the order in which they became hungry, as far as they are neighbours.
#![tactic(auto)]

pub mod entry;
pub mod queue_diner;

pub use entry::Entry;
pub use queue_diner::QueueDiner;
