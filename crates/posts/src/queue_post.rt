// The state of a queue post, with what holds of it as long as it exists.
ghost use Rattle.std.specs.Prelude.{◌≡◌, ◌≤◌, length};
ghost use Rattle.std.specs.List.{All};
ghost use Rattle.arrayvec.specs.ArrayVec.{array_vec_len};
ghost use Rattle.posts.specs.declared.queue_post.TheConstants.{CHANNELS};

use arrayvec::ArrayVec;
use wires::Message;

pub mod calls;
pub mod making;

// How many channels this post has; each post has its own count.
const CHANNELS: usize = 64;

#[derive(Drop)]
pub struct QueuePost {
    // What waits in each channel, the oldest first.
    queues: [ArrayVec<Message, 2>; CHANNELS],
    ghost all: { length queues ≡ CHANNELS },
    ghost few: { All (λ q. array_vec_len q ≤ 2) queues },
}
