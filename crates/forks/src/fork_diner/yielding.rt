// After a meal: how a drinker comes behind all its neighbours.
ghost use Rattle.std.specs.Prelude.{◌≡◌, ℕ, ◌<◌, false, if◌then◌else◌};
ghost use Rattle.forks.specs.Yielding.{Yields};
ghost use Rattle.graph.specs.Neighbourhoods.{near};
ghost use Rattle.relations.specs.Related.{related, is_pair};

use graph::Neighbourhood;
use relations::Relation;

// From now on p does not precede q, and q precedes p if they are neighbours.
fn yield_to_one(precedes: &mut Relation, neighbourhood: &Neighbourhood, p: usize, q: usize)
    ensures { (a b : ℕ) → related precedes.new a b ≡ (if is_pair q p a b then near neighbourhood.now q p else (if is_pair p q a b then false else related precedes.old a b)) }
{
    precedes.write(p, q, false);
    precedes.write(q, p, neighbourhood.contains(q, p));
}

// From now on p precedes nobody, and its neighbours precede it.
// Over the tables and no method of ForkDiner: half-way there need be no rank that rises along "precedes", as that type demands.
pub(super) fn yield_to_all(precedes: &mut Relation, neighbourhood: &Neighbourhood, p: usize)
    requires { p < neighbourhood.now.drinkers }
    ensures { Yields neighbourhood.now precedes.old p neighbourhood.now.drinkers precedes.new }
{
    for q in 0..neighbourhood.drinkers() {
        yield_to_one(precedes, neighbourhood, p, q);
    }
}
