// The interface of a diner. Whoever stands above it is proved once, from the meaning and its laws, for every diner.
ghost use Rattle.std.specs.Prelude.{◌≡◌, ℕ, OnOk, IfErr};
ghost use Rattle.dining.specs.Dining.{Dining, IsIn};
ghost use Rattle.dining.specs.Laws.{DinerLaws};
ghost use Rattle.dining.specs.Answers.{PhaseAnswer, Unfit, ChangeAnswer};
ghost use Rattle.dining.specs.declared.phase.Phase.TheVariants.{Thinking, Eating};

use crate::phase::Phase;
use refusals::Refusal;

pub trait Diner {
    // What this diner means: its drinkers and cap, who is whose neighbour, phases, aheads and holders.
    ghost means: { Self → Dining };

    // Exactly what this diner does when a drinker becomes hungry, when one is done, and at a turn: the diner before and after.
    ghost hungers: { Self → ℕ → Self → Type 0 };

    ghost leaves: { Self → ℕ → Self → Type 0 };

    ghost turns: { Self → Self → Type 0 };

    fn drinkers(&self) -> usize
        ensures { result ≡ (means self.now).drinkers };

    fn cap(&self) -> usize
        ensures { result ≡ (means self.now).«cap» };

    // Are p and q neighbours? A number beyond the drinkers is nobody's neighbour.
    fn neighbours(&self, p: usize, q: usize) -> bool
        ensures { result ≡ (means self.now).neighbours p q };

    fn phase(&self, p: usize) -> Result<Phase, Refusal>
        ensures { PhaseAnswer (means self.now) p result };

    // Is p a drinker in this phase? If not, the refusal says why.
    fn require_phase(&self, p: usize, wanted: Phase) -> Result<(), Refusal>
        ensures fit { OnOk result (IsIn (means self.now) wanted p) }
        ensures unfit { IfErr result (Unfit (means self.now) wanted p) }
    {
        if self.phase(p)? == wanted {
            Ok(())
        } else {
            Err(Refusal::WrongState)
        }
    }

    // Turns a thinking drinker hungry.
    fn hungry(&mut self, p: usize) -> Result<(), Refusal>
        ensures { ChangeAnswer (means self.old) Thinking p (hungers self.old p self.new) (self.new ≡ self.old) result };

    // Turns an eating drinker to thinking.
    fn done(&mut self, p: usize) -> Result<(), Refusal>
        ensures { ChangeAnswer (means self.old) Eating p (leaves self.old p self.new) (self.new ≡ self.old) result };

    // Feeds none or some of the hungry.
    fn turn(&mut self)
        ensures { turns self.old self.new };

    // Whatever it does stays inside the rules.
    ghost laws: { DinerLaws means hungers leaves turns };
}
