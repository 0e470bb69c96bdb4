// What an alternating post tells of its channels and its wire.
ghost use Rattle.std.specs.Prelude.{◌≡◌};
ghost use Rattle.alternating.specs.AlternatingPosts.{ChannelAnswer, FrameAnswer};

use crate::alternating_post::AlternatingPost;
use alternating_bit::Channel;
use refusals::Refusal;
use wires::{Frame, Wire};

impl<W: Wire> AlternatingPost<W> {
    pub fn wire(&self) -> &W
        ensures { result.now ≡ self.now.wire }
    {
        &self.wire
    }

    // The frame that the next tick sends for this channel, or none.
    pub fn next_frame(&self, channel: usize) -> Result<Option<Frame>, Refusal>
        ensures { FrameAnswer self.now.channels channel result }
    {
        let found = self.channel(channel)?;
        Ok(found.frame())
    }

    // The state of a channel, where there is such a channel.
    pub(super) fn channel(&self, channel: usize) -> Result<Channel, Refusal>
        ensures { ChannelAnswer self.now.channels channel result }
    {
        self.channels
            .get(channel)
            .copied()
            .ok_or(Refusal::NothingSuchToCarry)
    }
}
