// A list of calls on any post, and what its user can rely on, proved from the meaning alone.
ghost use Rattle.std.specs.Prelude.{◌≡◌, ℕ, ◌<◌, map, IfOk, MatchResult};
ghost use Rattle.posts.specs.Exchange.{Happened, Step, call_of, InOrder, InTime, NeverLate};

use crate::event::{PostCall, PostEvent};
use crate::post::Post;
use std::alloc::{AllocError, Global};

// One call, with what it answered. A match and no closure: the calls are values, of which the contract speaks.
fn try_call<P: Post>(post: &mut P, call: PostCall) -> PostEvent
    ensures made { call_of result ≡ call }
    ensures did { Step P.Post.means P.Post.puts P.Post.takes P.Post.ticks result post.old post.new }
{
    match call {
        PostCall::Put(channel, message) => {
            let answer = post.put(channel, message);
            PostEvent::Put(channel, message, answer)
        }
        PostCall::Take(channel) => {
            let answer = post.take(channel);
            PostEvent::Take(channel, answer)
        }
        PostCall::Tick => {
            post.tick();
            PostEvent::Tick
        }
    }
}

// Tries each call in turn, and hands back what happened. Want of memory is found out before the first call, and then nothing has changed.
pub fn exchange<P: Post>(
    heap: Global,
    post: &mut P,
    calls: &[PostCall],
) -> Result<Vec<PostEvent>, AllocError>
    ensures exact { MatchResult result (λ v. (map call_of v.items ≡ calls.now) × Happened P.Post.means P.Post.puts P.Post.takes P.Post.ticks v.items post.old post.new) (λ _. post.new ≡ post.old) }
    ensures in_order { IfOk result (λ v. InOrder (P.Post.means post.old) v.items (P.Post.means post.new)) }
    ensures in_time { IfOk result (λ v. InTime (P.Post.means post.old) v.items (P.Post.means post.new)) }
    ensures never_late { IfOk result (λ v. NeverLate (P.Post.means post.old) v.items) }
{
    let mut events = Vec::with_capacity(heap, calls.len())?;
    // A loop and no chain: a chain's `collect` may ask for memory between the calls.
    for call in calls {
        events.push_reserved(try_call(post, *call));
    }
    Ok(events)
}
