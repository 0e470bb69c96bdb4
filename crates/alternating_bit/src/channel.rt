// One channel of an alternating post, and the steps of the protocol on it.
ghost use Rattle.std.specs.Prelude.{◌≡◌, length, nat_lt};
ghost use Rattle.alternating_bit.specs.Channels.{unused, to_arrive, waiting_in, frame_of, after_put, after_take, after_frame, after_acknowledgement};

use posts::MessageList;
use wires::{Frame, Message, Payload};

#[derive(Clone, Copy)]
pub struct Channel {
    // What is to be sent; the first may have arrived already.
    pub outgoing: MessageList,
    // The bit that the first outgoing message is sent with.
    pub bit: bool,
    // The bit of the next message that is to arrive.
    pub expected: bool,
    // What has arrived and can be taken.
    pub arrived: MessageList,
}

impl Channel {
    pub fn new() -> Channel
        ensures { result ≡ unused }
    {
        Channel {
            outgoing: MessageList::Empty,
            bit: false,
            expected: false,
            arrived: MessageList::Empty,
        }
    }

    // Of the outgoing messages, those that have not arrived yet.
    fn to_arrive(self) -> MessageList
        ensures { result ≡ to_arrive self }
    {
        if self.bit != self.expected {
            self.outgoing.rest()
        } else {
            self.outgoing
        }
    }

    // How many messages wait.
    pub fn waiting(self) -> usize
        ensures { result ≡ length (waiting_in self) }
    {
        self.arrived.len() + self.to_arrive().len()
    }

    // May one message more wait?
    pub fn has_room(self) -> bool
        ensures { result ≡ nat_lt (length (waiting_in self)) 2 }
    {
        self.waiting() < 2
    }

    // The frame with the first outgoing message.
    pub fn frame(self) -> Option<Frame>
        ensures { result ≡ frame_of self }
    {
        self.outgoing.first().map(|message| Frame {
            bit: self.bit,
            payload: Payload::Data(message),
        })
    }

    pub fn put(self, message: Message) -> Channel
        ensures { result ≡ after_put message self }
    {
        Channel {
            outgoing: self.outgoing.with_last(message),
            ..self
        }
    }

    // Without the oldest message that has arrived.
    pub fn taken(self) -> Channel
        ensures { result ≡ after_take self }
    {
        Channel {
            arrived: self.arrived.rest(),
            ..self
        }
    }

    // A frame comes through: its message is new if its bit is the expected one.
    pub fn received(self, frame: Frame) -> Channel
        ensures { result ≡ after_frame frame self }
    {
        match frame.payload {
            Payload::Data(message) if frame.bit == self.expected => Channel {
                expected: !self.expected,
                arrived: self.arrived.with_last(message),
                ..self
            },
            _ => self,
        }
    }

    // The first outgoing message has arrived for certain, and the next can be sent.
    pub fn acknowledged(self) -> Channel
        ensures { result ≡ after_acknowledgement self }
    {
        Channel {
            outgoing: self.outgoing.rest(),
            bit: !self.bit,
            ..self
        }
    }
}
