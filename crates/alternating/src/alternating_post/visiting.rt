// A visit of one channel: a message is sent, and acknowledged where it comes through.
ghost use Rattle.std.specs.Prelude.{◌≡◌, ◌+◌, ◌*◌, ◌<◌, Some};
ghost use Rattle.alternating_bit.specs.Channels.{frame_of, after_frame};
ghost use Rattle.alternating.specs.Visits.{Carried, Acknowledging, Visit, Visited};
ghost use Rattle.alternating.specs.declared.alternating_post.TheConstants.{CHANNELS};

use crate::alternating_post::AlternatingPost;
use alternating_bit::Channel;
use wires::{Frame, Payload, Wire};

// Carries a frame on a line that there is, so that it is never refused: does it come through?
fn comes_through<W: Wire>(wire: &mut W, line: usize, frame: Frame) -> bool
    requires { line < 128 }
    ensures { Carried W.Wire.carries line wire.old frame result wire.new }
{
    wire.carry(line, frame).unwrap().is_some()
}

// The two lines of one channel: its messages go out on the one, and their acknowledgements come back on the other.
#[derive(Clone, Copy)]
pub(super) struct Lines {
    pub(super) channel: usize,
    ghost few: { channel < CHANNELS },
}

impl Lines {
    fn out(self) -> usize
        ensures { result ≡ 2 * self.channel }
    {
        2 * self.channel
    }

    fn back(self) -> usize
        ensures { result ≡ 2 * self.channel + 1 }
    {
        self.out() + 1
    }

    // A frame has come through: its bit goes back, whether its message is new or not.
    fn acknowledge<W: Wire>(self, wire: &mut W, channel: Channel, frame: Frame) -> Channel
        ensures { Acknowledging W.Wire.carries self.channel frame.bit wire.old (after_frame frame channel) wire.new result }
    {
        let came = channel.received(frame);
        let back = Frame {
            bit: frame.bit,
            payload: Payload::Acknowledgement,
        };
        if comes_through(wire, self.back(), back) {
            came.acknowledged()
        } else {
            came
        }
    }

    // The channel's frame goes out, and may be acknowledged.
    fn send<W: Wire>(self, wire: &mut W, channel: Channel, frame: Frame) -> Channel
        requires { frame_of channel ≡ Some frame }
        ensures { Visit W.Wire.carries self.channel wire.old channel wire.new result }
    {
        if comes_through(wire, self.out(), frame) {
            self.acknowledge(wire, channel, frame)
        } else {
            channel
        }
    }
}

impl<W: Wire> AlternatingPost<W> {
    // One channel is visited, and no other. Where nothing is to be sent, nothing is written.
    #[tactic(auto, using(crate::specs::Ticks::nothing_sent))]
    pub(super) fn visit(&mut self, lines: Lines)
        ensures { Visited W.Wire.carries self.old.wire self.old.channels lines.channel self.new.wire self.new.channels }
    {
        let channel = self.channels[lines.channel];
        let Some(frame) = channel.frame() else {
            return;
        };
        self.channels[lines.channel] = lines.send(&mut self.wire, channel, frame);
    }
}
