// How an alternating post is made.
ghost use Rattle.std.specs.Prelude.{◌≡◌, replicate};
ghost use Rattle.alternating_bit.specs.Channels.{unused};

use crate::alternating_post::{AlternatingPost, CHANNELS};
use alternating_bit::Channel;
use wires::Wire;

impl<W: Wire> AlternatingPost<W> {
    // No channel has been used.
    pub fn new(wire: W) -> AlternatingPost<W>
        ensures wire { result.wire ≡ wire }
        ensures channels { result.channels ≡ replicate 64 unused }
    {
        AlternatingPost {
            wire,
            channels: [Channel::new(); CHANNELS],
        }
    }
}
