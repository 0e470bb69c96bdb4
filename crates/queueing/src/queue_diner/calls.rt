// The queue diner behind the interface.
// The calls read like the fork diner's. For the trait to provide them, what changes the tables would have to be methods of the trait too, open to every caller and asking something of it.
ghost use Rattle.queueing.specs.QueueDiners.{meaning, HungerOf, LeaveOf, TurnOf, queue};
ghost use Rattle.std.proofs.Common.{sym, subst};
ghost use Rattle.dining.specs.Laws.{LawfulHungry, LawfulDone, LawfulTurn};
ghost use Rattle.graph.specs.Neighbourhoods.{near};
ghost use Rattle.queueing.specs.Queue;
ghost use Rattle.queueing.specs.Joining.{hungry_lawful};
ghost use Rattle.queueing.specs.Leaving.{done_lawful};
ghost use Rattle.queueing.specs.Standing.{lawful};
ghost use Rattle.queueing.specs.Turning.{turn_lawful};

use crate::queue_diner::QueueDiner;
use crate::queue_diner::looking::phase_of;
use dining::{Diner, Phase};
use refusals::Refusal;

impl Diner for QueueDiner {
    ghost means = { meaning };

    ghost hungers = { HungerOf };

    ghost leaves = { LeaveOf };

    ghost turns = { TurnOf };

    ghost laws = { record {
      always_lawful = λ s.
          lawful (near s.neighbourhood) s.neighbourhood.symmetric s.neighbourhood.irreflexive s.neighbourhood.drinkers
          (queue s).entries s.sound s.neighbourhood.few s.neighbourhood.known;
      hungry_is_lawful = λ s p t was e. subst (λ q. LawfulHungry (meaning s) p (Queue.dining q)) (sym e) (hungry_lawful (queue s) s.sound p was.0 was.1);
      done_is_lawful = λ s p t was e. subst (λ q. LawfulDone (meaning s) p (Queue.dining q)) (sym e) (done_lawful (queue s) p was.1);
      turn_is_lawful = λ s t e. subst (λ q. LawfulTurn (meaning s) (Queue.dining q)) (sym e) (turn_lawful (queue s));
    } };

    fn drinkers(&self) -> usize {
        self.neighbourhood.drinkers()
    }

    // One less than the drinkers: all the others.
    fn cap(&self) -> usize {
        self.drinkers() - 1
    }

    fn neighbours(&self, p: usize, q: usize) -> bool {
        self.neighbourhood.contains(p, q)
    }

    fn phase(&self, p: usize) -> Result<Phase, Refusal> {
        if p >= self.neighbourhood.drinkers() {
            return Err(Refusal::NoSuchDrinker);
        }
        Ok(phase_of(self.entries.as_slice(), p))
    }

    fn hungry(&mut self, p: usize) -> Result<(), Refusal> {
        self.require_phase(p, Phase::Thinking)?;
        self.become_hungry(p);
        Ok(())
    }

    fn done(&mut self, p: usize) -> Result<(), Refusal> {
        self.require_phase(p, Phase::Eating)?;
        self.leave(p);
        Ok(())
    }

    fn turn(&mut self) {
        self.feed();
    }
}
