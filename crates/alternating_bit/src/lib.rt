// The alternating bit protocol on one channel: each message is sent with a bit, again and again, until that bit comes back.
#![tactic(auto)]

pub mod channel;

pub use channel::Channel;
