// What carries messages from one end of a bottle to the other: posts with channels, in which messages wait in order.
#![tactic(auto)]

pub mod event;
pub mod exchanging;
pub mod message_list;
pub mod post;
pub mod queue_post;

pub use event::{PostCall, PostEvent};
pub use exchanging::exchange;
pub use message_list::MessageList;
pub use post::Post;
pub use queue_post::QueuePost;
