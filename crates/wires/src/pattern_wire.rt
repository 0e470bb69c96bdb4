// The wire that loses what a pattern says.
ghost use Rattle.std.specs.Prelude.{◌≡◌, ℕ, ◌<◌, length, slice_index};
ghost use Rattle.wires.specs.declared.wire.TheConstants.{LINES};

use crate::frame::Frame;
use crate::pattern::Pattern;
use crate::wire::{LINES, Wire};
use refusals::Refusal;

#[derive(Drop)]
pub struct PatternWire {
    pattern: Pattern,
    // For each line, the place of the digit that it reads next; an array, as a wire asks for no memory.
    places: [usize; LINES],
    ghost one_for_each_line: { length places ≡ LINES },
    ghost within: { (l : ℕ) → l < LINES → slice_index places l < length pattern.digits.items },
}

impl PatternWire {
    ghost use Rattle.wires.specs.PatternWires.{reading, Made, LosesAnswer};

    // Every line begins the pattern; a pattern that cannot be used stands for the pattern 0.
    pub fn new(pattern: &[u8]) -> PatternWire
        ensures { Made pattern.now result }
    {
        PatternWire {
            pattern: Pattern::try_from(pattern).unwrap_or_default(),
            places: [0; LINES],
        }
    }

    // Would the next frame on this line be lost?
    pub fn loses_next(&self, line: usize) -> Result<bool, Refusal>
        ensures { LosesAnswer (reading self.now) line result }
    {
        let place = self.places.get(line).ok_or(Refusal::NothingSuchToCarry)?;
        Ok(self.pattern.loses_at(*place))
    }
}

impl Wire for PatternWire {
    ghost use Rattle.wires.specs.PatternWires.{pattern_meaning, PatternCarry};
    ghost use Rattle.wires.specs.PatternWireLemmas.{pattern_laws};

    ghost means = { pattern_meaning };

    ghost carries = { PatternCarry };

    ghost laws = { pattern_laws };

    // The longest run of 1 in the pattern.
    fn bound(&self) -> usize {
        self.pattern.longest_run()
    }

    // The frame comes out if the line's digit is 0, and the line reads on.
    fn carry(&mut self, line: usize, frame: Frame) -> Result<Option<Frame>, Refusal> {
        let lost = self.loses_next(line)?;
        self.places[line] = self.pattern.following(self.places[line]);
        Ok((!lost).then_some(frame))
    }
}
