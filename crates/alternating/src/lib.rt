// A post over a wire that loses frames: the alternating bit protocol on each channel.
#![tactic(auto)]

pub mod alternating_post;

pub use alternating_post::AlternatingPost;
