// What is sent from one end of a bottle to the other: the bottle itself, or the token that asks for it.
ghost use Rattle.std.specs.Prelude.{◌≡◌};
ghost use Rattle.wires.specs.Frames.{message_number, MessageRead};

use refusals::Refusal;

#[derive(Clone, Copy, PartialEq, Eq, Debug, Default)]
pub enum Message {
    // The default fills the places of an `ArrayVec` that are not in use.
    #[default]
    Bottle = 1,
    Token = 2,
}

impl From<Message> for usize {
    ghost from_gives = { λ message number. number ≡ message_number message };

    // The number of a message.
    fn from(message: Message) -> usize {
        message as usize
    }
}

impl TryFrom<usize> for Message {
    type Error = Refusal;

    ghost try_from_gives = { MessageRead };

    // The message that has this number.
    fn try_from(number: usize) -> Result<Message, Refusal> {
        match number {
            1 => Ok(Message::Bottle),
            2 => Ok(Message::Token),
            _ => Err(Refusal::NothingSuchToCarry),
        }
    }
}
