// One use of any diner, proved from the meaning alone.
ghost use Rattle.std.specs.Prelude.{◌≡◌, OnOk};
ghost use Rattle.dining.specs.Passing.{DoneThenTurn, PassesOn};
ghost use Rattle.dining.specs.Answers.{ChangeAnswer};
ghost use Rattle.dining.specs.declared.phase.Phase.TheVariants.{Eating};

use crate::diner::Diner;
use refusals::Refusal;

// A drinker that eats is done, and then there is one turn.
#[tactic(auto, using(crate::proofs::DoneThenTurn::passes_on_by_laws))]
pub fn pass_on<D: Diner>(diner: &mut D, p: usize) -> Result<(), Refusal>
    ensures exact { ChangeAnswer (D.Diner.means diner.old) Eating p (DoneThenTurn D.Diner.leaves D.Diner.turns diner.old p diner.new) (diner.new ≡ diner.old) result }
    ensures seen { OnOk result (PassesOn (D.Diner.means diner.old) p (D.Diner.means diner.new)) }
{
    diner.done(p)?;
    diner.turn();
    Ok(())
}
