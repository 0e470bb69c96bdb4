// Who is whose neighbour in a graph, as a table: what a diner keeps of the graph that it is made from.
ghost use Rattle.std.specs.Prelude.{◌≡◌, ℕ, ◌*◌, ◌<◌, ◌≤◌, true, ◌≢◌};
ghost use Rattle.graph.specs.Counting.{total, number};
ghost use Rattle.relations.specs.Related.{related};

use relations::Relation;

pub mod asking;

#[derive(Clone, Copy)]
pub struct Neighbourhood {
    drinkers: usize,
    bottles: usize,
    table: Relation,
    ghost some: { 1 ≤ drinkers },
    ghost few: { drinkers ≤ 16 },
    ghost room: { bottles ≤ 32 },
    ghost known: { (p q : ℕ) → related table p q ≡ true → (p < drinkers) × (q < drinkers) },
    ghost symmetric: { (p q : ℕ) → related table p q ≡ true → related table q p ≡ true },
    ghost irreflexive: { (p : ℕ) → related table p p ≢ true },
    ghost sparse: { total (λ p. number (related table p) drinkers) drinkers ≤ 2 * bottles },
}
