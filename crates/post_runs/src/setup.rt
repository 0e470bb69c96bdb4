// A wire, and the three posts: the queue post, and the alternating post over a faultless and over a losing wire.
use alternating::AlternatingPost;
use posts::{Post, QueuePost};
use refusals::Refusal;
use wires::{FaultlessWire, Frame, Message, PatternWire, Wire};

#[derive(Drop)]
pub struct Setup {
    pub wire: PatternWire,
    pub queue: QueuePost,
    pub faultless: AlternatingPost<FaultlessWire>,
    pub losing: AlternatingPost<PatternWire>,
}

impl Setup {
    // All new; both losing wires have the same pattern.
    pub(crate) fn new(pattern: &[u8]) -> Setup {
        Setup {
            wire: PatternWire::new(pattern),
            queue: QueuePost::new(),
            faultless: AlternatingPost::new(FaultlessWire),
            losing: AlternatingPost::new(PatternWire::new(pattern)),
        }
    }

    // The frame of these numbers is carried on a line; answers whether it came through.
    pub(crate) fn carry(
        &mut self,
        line: usize,
        bit: usize,
        message: usize,
    ) -> Result<bool, Refusal> {
        let frame = Frame::try_from((bit, message))?;
        Ok(self.wire.carry(line, frame)?.is_some())
    }
}

// A call of a post, with the numbers of the line. A value and no closure: one closure can't be asked of two types of posts.
#[derive(Clone, Copy)]
pub(crate) enum Call {
    Put(usize, usize),
    Take(usize),
    Waiting(usize),
}

impl Call {
    // The number that the post answers: of a message that is taken its number, 0 for "not yet" and for a put that is granted.
    pub(crate) fn ask<P: Post>(self, post: &mut P) -> Result<usize, Refusal> {
        match self {
            Call::Put(channel, message) => {
                post.put(channel, Message::try_from(message)?)?;
                Ok(0)
            }
            Call::Take(channel) => Ok(post.take(channel)?.map_or(0, usize::from)),
            Call::Waiting(channel) => post.waiting(channel),
        }
    }
}

// The number that is printed: what is answered, or the number of the refusal.
pub(crate) fn code(answer: Result<usize, Refusal>) -> usize {
    answer.unwrap_or_else(|refusal| u8::from(refusal).into())
}
