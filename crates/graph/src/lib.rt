// Drinkers and the bottles that they share, two by two.
#![tactic(auto)]

pub mod ends;
pub mod graph;
pub mod neighbourhood;

pub use ends::Ends;
pub use graph::Graph;
pub use neighbourhood::Neighbourhood;
