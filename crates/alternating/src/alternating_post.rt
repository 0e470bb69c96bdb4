// The state of an alternating post, with what holds of it as long as it exists.
ghost use Rattle.std.specs.Prelude.{◌≡◌, length};
ghost use Rattle.std.specs.List.{All};
ghost use Rattle.alternating.specs.Soundness.{Sound};
ghost use Rattle.alternating.specs.declared.alternating_post.TheConstants.{CHANNELS};

use alternating_bit::Channel;

pub mod asking;
pub mod calls;
pub mod making;
mod visiting;

// How many channels this post has; each post has its own count.
const CHANNELS: usize = 64;

#[derive(Drop)]
pub struct AlternatingPost<W> {
    wire: W,
    channels: [Channel; CHANNELS],
    ghost all: { length channels ≡ CHANNELS },
    ghost sound: { All Sound channels },
}
