// The fork diner behind the interface.
// The calls read like the queue diner's. For the trait to provide them, what changes the tables would have to be methods of the trait too, open to every caller and asking something of it.
ghost use Rattle.forks.specs.ForkDiners.{meaning, HungerOf, LeaveOf, TurnOf, forks};
ghost use Rattle.std.proofs.Common.{sym, subst};
ghost use Rattle.dining.specs.Laws.{LawfulHungry, LawfulDone, LawfulTurn};
ghost use Rattle.forks.specs.Waiting;
ghost use Rattle.forks.specs.Diners.{orderly};
ghost use Rattle.forks.specs.Done.{done_lawful};
ghost use Rattle.forks.specs.OnePhase.{hungry_lawful};
ghost use Rattle.forks.specs.Turn.{turn_lawful};
ghost use Rattle.forks.specs.WaitingLemmas.{lawful};

use crate::fork_diner::ForkDiner;
use dining::{Diner, Phase};
use refusals::Refusal;

impl Diner for ForkDiner {
    ghost means = { meaning };

    ghost hungers = { HungerOf };

    ghost leaves = { LeaveOf };

    ghost turns = { TurnOf };

    ghost laws = { record {
      always_lawful = λ s. lawful (forks s) (orderly s);
      hungry_is_lawful = λ s p t was e. subst (λ f. LawfulHungry (meaning s) p (Waiting.dining f)) (sym e) (hungry_lawful (forks s) (orderly s) p was.1);
      done_is_lawful = λ s p t was e. subst (λ f. LawfulDone (meaning s) p (Waiting.dining f)) (sym e) (done_lawful (forks s) (orderly s) p was.0 was.1);
      turn_is_lawful = λ s t e. subst (λ f. LawfulTurn (meaning s) (Waiting.dining f)) (sym e) (turn_lawful (forks s) (orderly s));
    } };

    fn drinkers(&self) -> usize {
        self.neighbourhood.drinkers()
    }

    // Twice the bottles, and one for each drinker.
    fn cap(&self) -> usize {
        2 * self.neighbourhood.bottles() + self.neighbourhood.drinkers()
    }

    fn neighbours(&self, p: usize, q: usize) -> bool {
        self.neighbourhood.contains(p, q)
    }

    fn phase(&self, p: usize) -> Result<Phase, Refusal> {
        if p >= self.neighbourhood.drinkers() {
            return Err(Refusal::NoSuchDrinker);
        }
        Ok(self.phases[p])
    }

    fn hungry(&mut self, p: usize) -> Result<(), Refusal> {
        self.require_phase(p, Phase::Thinking)?;
        self.become_hungry(p);
        Ok(())
    }

    fn done(&mut self, p: usize) -> Result<(), Refusal> {
        self.require_phase(p, Phase::Eating)?;
        self.leave(p);
        Ok(())
    }

    fn turn(&mut self) {
        self.feed();
    }
}
