// A drinker in the queue: hungry, or eating.
ghost use Rattle.std.specs.Prelude.{◌≡◌, if◌then◌else◌};
ghost use Rattle.dining.specs.declared.phase.Phase.TheVariants.{Hungry, Eating};

use dining::Phase;

#[derive(Clone, Copy, PartialEq, Eq, Debug, Default)]
pub struct Entry {
    pub drinker: usize,
    // No Phase: an entry never thinks.
    pub eating: bool,
}

impl Entry {
    // Who is in the queue is hungry, or eats.
    pub(crate) fn phase(self) -> Phase
        ensures { result ≡ (if self.eating then Eating else Hungry) }
    {
        if self.eating {
            Phase::Eating
        } else {
            Phase::Hungry
        }
    }
}
