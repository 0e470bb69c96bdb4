// What carries frames: wires of 128 lines, which lose a frame now and then, but never too many in a row.
#![tactic(auto)]

pub mod faultless;
pub mod frame;
pub mod message;
pub mod pattern;
pub mod pattern_wire;
pub mod wire;

pub use faultless::FaultlessWire;
pub use frame::{Frame, Payload};
pub use message::Message;
pub use pattern::check_pattern;
pub use pattern_wire::PatternWire;
pub use wire::Wire;
