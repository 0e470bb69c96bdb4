// A diner by precedence: of each two neighbours one precedes the other.
#![tactic(auto)]

pub mod fork_diner;

pub use fork_diner::ForkDiner;
