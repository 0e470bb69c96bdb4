// The interface of a wire. Whoever stands above it is proved once, from the meaning and its laws, for every wire.
ghost use Rattle.std.specs.Prelude.{◌≡◌, ℕ, Option};
ghost use Rattle.wires.specs.Wiring.{Wiring, WireLaws, CarryAnswer};
ghost use Rattle.wires.specs.declared.frame.Frame.{Frame};

use crate::frame::Frame;
use refusals::Refusal;

// How many lines every wire has.
pub(crate) const LINES: usize = 128;

pub trait Wire {
    // What this wire means: how many frames in a row may be lost on a line, and how many still may on each.
    ghost means: { Self → Wiring };

    // Exactly what this wire does with a frame on a line: the wire before, the line, the frame, what comes out (none where it is lost), and the wire after.
    ghost carries: { Self → ℕ → Frame → Option Frame → Self → Type 0 };

    // How many frames in a row this wire may lose on a line.
    fn bound(&self) -> usize
        ensures { result ≡ (means self.now).bound };

    // Carries a frame on a line: the same frame comes out, or none where it is lost.
    fn carry(&mut self, line: usize, frame: Frame) -> Result<Option<Frame>, Refusal>
        ensures { CarryAnswer line (λ came. carries self.old line frame came self.new) (self.new ≡ self.old) result };

    // Whatever it does stays inside the rules.
    ghost laws: { WireLaws means carries };
}
