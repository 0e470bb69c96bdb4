// What a diner is: who thinks, who is hungry, who eats, and in which order the hungry are fed.
#![tactic(auto)]

pub mod diner;
pub mod passing;
pub mod phase;

pub use diner::Diner;
pub use passing::pass_on;
pub use phase::Phase;
