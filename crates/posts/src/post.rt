// The interface of a post. Whoever stands above it is proved once, from the meaning and its laws, for every post.
ghost use Rattle.std.specs.Prelude.{◌≡◌, ℕ, Option};
ghost use Rattle.posts.specs.Posting.{Posting};
ghost use Rattle.posts.specs.Laws.{PostLaws};
ghost use Rattle.posts.specs.Answers.{CountAnswer, PutAnswer, TakeAnswer};
ghost use Rattle.wires.specs.declared.message.Message.{Message};

use refusals::Refusal;
use wires::Message;

pub trait Post {
    // What this post means: its channels and lag, what waits in each channel, and when the oldest can be taken.
    ghost means: { Self → Posting };

    // Exactly what this post does when a message is put, at a take (with what it answers, none for "not yet"), and at a tick: the post before and after.
    ghost puts: { Self → ℕ → Message → Self → Type 0 };

    ghost takes: { Self → ℕ → Option Message → Self → Type 0 };

    ghost ticks: { Self → Self → Type 0 };

    fn channels(&self) -> usize
        ensures { result ≡ (means self.now).channels };

    fn lag(&self) -> usize
        ensures { result ≡ (means self.now).lag };

    // How many messages wait in a channel.
    fn waiting(&self, channel: usize) -> Result<usize, Refusal>
        ensures { CountAnswer (means self.now) channel result };

    // Appends a message to a channel.
    fn put(&mut self, channel: usize, message: Message) -> Result<(), Refusal>
        ensures { PutAnswer (means self.old) channel (puts self.old channel message self.new) (self.new ≡ self.old) result };

    // Takes the oldest message out of a channel, or answers none: not yet.
    fn take(&mut self, channel: usize) -> Result<Option<Message>, Refusal>
        ensures { TakeAnswer (means self.old) channel (λ came. takes self.old channel came self.new) (self.new ≡ self.old) result };

    // Brings every message nearer.
    fn tick(&mut self)
        ensures { ticks self.old self.new };

    // Whatever it does stays inside the rules.
    ghost laws: { PostLaws means puts takes ticks };
}
