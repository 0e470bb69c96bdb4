// What the calls of a fork diner do to its tables, once they are granted.
ghost use Rattle.std.specs.Prelude.{◌≡◌, ◌<◌};
ghost use Rattle.dining.specs.Dining.{IsIn};
ghost use Rattle.dining.specs.declared.phase.Phase.TheVariants.{Thinking, Eating};
ghost use Rattle.forks.specs.ForkDiners.{meaning, HungerOf, LeaveOf};

use crate::fork_diner::ForkDiner;
use crate::fork_diner::yielding::yield_to_all;
use dining::Phase;

impl ForkDiner {
    // p turns hungry.
    #[tactic(auto, using(crate::specs::Diners::hungry_written))]
    pub(super) fn become_hungry(&mut self, p: usize)
        requires { IsIn (meaning self.old) Thinking p }
        ensures { HungerOf self.old p self.new }
    {
        self.phases[p] = Phase::Hungry;
    }

    // The meal of p is over: all its neighbours precede it from now on.
    #[tactic(auto, using(crate::specs::Diners::done_written))]
    pub(super) fn leave(&mut self, p: usize)
        requires { IsIn (meaning self.old) Eating p }
        ensures { LeaveOf self.old p self.new }
    {
        yield_to_all(&mut self.precedes, &self.neighbourhood, p);
        self.phases[p] = Phase::Thinking;
    }
}
