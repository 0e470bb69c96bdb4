// What a wire carries: a bit, with a message or as an acknowledgement.
ghost use Rattle.std.specs.Prelude.{◌≡◌};
ghost use Rattle.wires.specs.Frames.{payload_number, FrameRead};

use crate::message::Message;
use refusals::Refusal;
use std::fmt;

// In place of an `Option` of a message, which would be no plainer: that the case without one acknowledges is said by its name.
#[derive(Clone, Copy, PartialEq, Eq, Debug)]
pub enum Payload {
    Acknowledgement,
    Data(Message),
}

#[derive(Clone, Copy, PartialEq, Eq, Debug)]
pub struct Frame {
    pub bit: bool,
    pub payload: Payload,
}

impl From<Payload> for usize {
    ghost from_gives = { λ payload number. number ≡ payload_number payload };

    // The number of a payload: that of its message, or 0.
    fn from(payload: Payload) -> usize {
        match payload {
            Payload::Acknowledgement => 0,
            Payload::Data(message) => message.into(),
        }
    }
}

impl TryFrom<(usize, usize)> for Frame {
    type Error = Refusal;

    ghost try_from_gives = { λ numbers frame. FrameRead numbers.0 numbers.1 frame };

    // The frame of a bit and a message, where 0 is no message but an acknowledgement.
    fn try_from((bit, message): (usize, usize)) -> Result<Frame, Refusal> {
        if bit > 1 {
            return Err(Refusal::NothingSuchToCarry);
        }
        let payload = match message {
            0 => Payload::Acknowledgement,
            _ => Payload::Data(Message::try_from(message)?),
        };
        Ok(Frame {
            bit: bit == 1,
            payload,
        })
    }
}

impl fmt::Display for Frame {
    fn fmt<W: fmt::Write>(&self, f: &mut fmt::Formatter<W>) -> fmt::Result {
        let bit = self.bit as u8;
        match self.payload {
            Payload::Data(message) => write!(f, "{message:?} with bit {bit}"),
            Payload::Acknowledgement => write!(f, "acknowledgement of bit {bit}"),
        }
    }
}
