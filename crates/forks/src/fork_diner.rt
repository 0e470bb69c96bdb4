// The state of a fork diner, with what holds of it as long as it exists.
ghost use Rattle.std.specs.Prelude.{◌≡◌, ℕ, length};
ghost use Rattle.forks.specs.Orderly.{OnlyNeighboursPrecede, OneOfTwoPrecedes, Ranked, EatersApart};
ghost use Rattle.forks.specs.Forks.{phase_at};
ghost use Rattle.graph.specs.Neighbourhoods.{near};
ghost use Rattle.relations.specs.Related.{related};

use dining::Phase;
use graph::Neighbourhood;
use relations::Relation;

pub mod calls;
mod changes;
mod feeding;
pub mod making;
mod yielding;

#[derive(Drop)]
pub struct ForkDiner {
    neighbourhood: Neighbourhood,
    // Drinker p's is at place p; the places beyond the drinkers are unused.
    // A table with a place for each number below 16, as the one of precedence is, and no list that grows: an ArrayVec would be no plainer.
    phases: [Phase; 16],
    // p is related to q where they are neighbours and p precedes q.
    precedes: Relation,
    ghost places: { length phases ≡ 16 },
    ghost only: { OnlyNeighboursPrecede (near neighbourhood) (related precedes) },
    ghost either: { OneOfTwoPrecedes (near neighbourhood) (related precedes) },
    ghost ranked: { ∥ Ranked neighbourhood.drinkers (related precedes) ∥₁ },
    ghost apart: { EatersApart (near neighbourhood) (phase_at phases) },
}
