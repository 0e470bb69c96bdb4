// How a queue post is made.
ghost use Rattle.std.specs.Prelude.{◌≡◌, [], replicate};

use crate::queue_post::QueuePost;
use arrayvec::ArrayVec;
use std::array;

impl QueuePost {
    // Nothing waits.
    pub fn new() -> QueuePost
        ensures { result.queues ≡ replicate 64 (record { items = [] }) }
    {
        QueuePost {
            queues: array::from_fn(|_| ArrayVec::new()),
        }
    }
}
