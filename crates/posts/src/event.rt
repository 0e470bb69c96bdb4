// The calls of a post as values, and what came of them.
use refusals::Refusal;
use wires::Message;

#[derive(Clone, Copy)]
pub enum PostCall {
    Put(usize, Message),
    Take(usize),
    Tick,
}

// A call with what it answered. The calls stand here once more, and not as a `PostCall` beside an answer, so that no call has the answer of another.
#[derive(Clone, Copy)]
pub enum PostEvent {
    Put(usize, Message, Result<(), Refusal>),
    Take(usize, Result<Option<Message>, Refusal>),
    Tick,
}
