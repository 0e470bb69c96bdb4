// A list of at most three messages, the oldest first.
ghost use Rattle.std.specs.Prelude.{◌≡◌, length};
ghost use Rattle.posts.specs.MessageLists.{items, oldest_of, rest_of, with_last};

use wires::Message;

// An enum of its own, since a channel of the alternating bit protocol, which holds two of these, is `Copy`: an `ArrayVec` is moved, and so is what
// holds one. A struct with a model, which clauses see as a list, was tried too: a channel of such structs is not copied where it is used twice,
// and `put`, `take` and the visits of the alternating post get no proof.
#[derive(Clone, Copy)]
pub enum MessageList {
    Empty,
    One(Message),
    Two(Message, Message),
    Three(Message, Message, Message),
}

impl MessageList {
    pub fn len(self) -> usize
        ensures { result ≡ length (items self) }
    {
        match self {
            MessageList::Empty => 0,
            MessageList::One(_) => 1,
            MessageList::Two(_, _) => 2,
            MessageList::Three(_, _, _) => 3,
        }
    }

    // The oldest message.
    pub fn first(self) -> Option<Message>
        ensures { result ≡ oldest_of self }
    {
        match self {
            MessageList::Empty => None,
            MessageList::One(a) | MessageList::Two(a, _) | MessageList::Three(a, _, _) => Some(a),
        }
    }

    // What is left without the oldest message.
    pub fn rest(self) -> MessageList
        ensures { result ≡ rest_of self }
    {
        match self {
            MessageList::Empty | MessageList::One(_) => MessageList::Empty,
            MessageList::Two(_, b) => MessageList::One(b),
            MessageList::Three(_, b, c) => MessageList::Two(b, c),
        }
    }

    // One message more, behind the others; three are left as they are.
    pub fn with_last(self, message: Message) -> MessageList
        ensures { result ≡ with_last self message }
    {
        match self {
            MessageList::Empty => MessageList::One(message),
            MessageList::One(a) => MessageList::Two(a, message),
            MessageList::Two(a, b) => MessageList::Three(a, b, message),
            MessageList::Three(_, _, _) => self,
        }
    }
}
