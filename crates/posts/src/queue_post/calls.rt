// The queue post behind the interface.
ghost use Rattle.std.specs.Prelude.{◌<◌, MatchResult};
ghost use Rattle.posts.specs.Answers.{NoSuchChannel};
ghost use Rattle.posts.specs.QueuePosts.{queue_meaning, QueuePut, QueueTake, QueueTick};
ghost use Rattle.std.proofs.Common.{rules};

use crate::post::Post;
use crate::queue_post::{CHANNELS, QueuePost};
use refusals::Refusal;
use wires::Message;

// Refuses a channel that there is not. The array is indexed after this: with `get_mut` in its place it stayed open what the array ends as.
fn check_channel(channel: usize) -> Result<(), Refusal>
    ensures { MatchResult result (λ _. channel < CHANNELS) (NoSuchChannel CHANNELS channel) }
{
    if channel >= CHANNELS {
        return Err(Refusal::NothingSuchToCarry);
    }
    Ok(())
}

impl Post for QueuePost {
    ghost means = { queue_meaning };

    ghost puts = { QueuePut };

    ghost takes = { QueueTake };

    ghost ticks = { QueueTick };

    ghost laws = { Prim.search rules };

    fn channels(&self) -> usize {
        CHANNELS
    }

    fn lag(&self) -> usize {
        1
    }

    fn waiting(&self, channel: usize) -> Result<usize, Refusal> {
        check_channel(channel)?;
        Ok(self.queues[channel].len())
    }

    fn put(&mut self, channel: usize, message: Message) -> Result<(), Refusal> {
        check_channel(channel)?;
        let queue = &mut self.queues[channel];
        queue.try_push(message).map_err(|_| Refusal::ChannelFull)
    }

    fn take(&mut self, channel: usize) -> Result<Option<Message>, Refusal> {
        check_channel(channel)?;
        // At most two wait, so the last that takes the place of the first is the next; `pop_at` would move memory by a call.
        Ok(self.queues[channel].swap_pop(0))
    }

    // What is put can be taken at once: there is nothing to bring nearer.
    fn tick(&mut self) {}
}
