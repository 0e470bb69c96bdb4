// The wire that loses nothing.
ghost use Rattle.std.proofs.Common.{rules};
ghost use Rattle.wires.specs.Faultless.{faultless_meaning, FaultlessCarry};

use crate::frame::Frame;
use crate::wire::{LINES, Wire};
use refusals::Refusal;

#[derive(Clone, Copy)]
pub struct FaultlessWire;

impl Wire for FaultlessWire {
    ghost means = { faultless_meaning };

    ghost carries = { FaultlessCarry };

    ghost laws = { Prim.search rules };

    // No frame is lost.
    fn bound(&self) -> usize {
        0
    }

    // The frame comes out, on every line that there is.
    fn carry(&mut self, line: usize, frame: Frame) -> Result<Option<Frame>, Refusal> {
        if line >= LINES {
            return Err(Refusal::NothingSuchToCarry);
        }
        Ok(Some(frame))
    }
}
