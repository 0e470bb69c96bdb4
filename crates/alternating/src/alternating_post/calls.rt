// The alternating post behind the interface.
ghost use Rattle.alternating.specs.AlternatingPosts.{alternating_meaning, AlternatingPut, AlternatingTake};
ghost use Rattle.alternating.specs.Visits.{VisitedBelow};
ghost use Rattle.alternating.specs.Keeping.{lawful, put_lawful, take_lawful, tick_lawful};

use crate::alternating_post::visiting::Lines;
use crate::alternating_post::{AlternatingPost, CHANNELS};
use posts::Post;
use refusals::Refusal;
use wires::{Message, Wire};

impl<W: Wire> Post for AlternatingPost<W> {
    ghost means = { λ s. alternating_meaning (W.Wire.means s.wire) s.channels };

    ghost puts = { λ s c m t. AlternatingPut s.wire s.channels c m t.wire t.channels };

    ghost takes = { λ s c came t. AlternatingTake s.wire s.channels c came t.wire t.channels };

    ghost ticks = { λ s t. VisitedBelow W.Wire.carries s.wire s.channels 64 t.wire t.channels };

    ghost laws = { let laws = W.Wire.laws in
        record { always_lawful = lawful laws; put_is_lawful = put_lawful laws; take_is_lawful = take_lawful laws; tick_is_lawful = tick_lawful laws } };

    fn channels(&self) -> usize {
        CHANNELS
    }

    fn lag(&self) -> usize {
        let bound = self.wire.bound();
        (bound + 1) * (bound + 2)
    }

    fn waiting(&self, channel: usize) -> Result<usize, Refusal> {
        let found = self.channel(channel)?;
        Ok(found.waiting())
    }

    fn put(&mut self, channel: usize, message: Message) -> Result<(), Refusal> {
        let found = self.channel(channel)?;
        if !found.has_room() {
            return Err(Refusal::ChannelFull);
        }
        self.channels[channel] = found.put(message);
        Ok(())
    }

    fn take(&mut self, channel: usize) -> Result<Option<Message>, Refusal> {
        let found = self.channel(channel)?;
        self.channels[channel] = found.taken();
        Ok(found.arrived.first())
    }

    fn tick(&mut self) {
        for channel in 0..CHANNELS {
            self.visit(Lines { channel });
        }
    }
}
