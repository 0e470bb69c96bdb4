// A relation between numbers below 16, which can be read and written pair by pair.
#![tactic(auto)]

pub mod relation;

pub use relation::Relation;
