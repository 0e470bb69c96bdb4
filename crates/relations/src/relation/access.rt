// How a relation is made, read and written.
ghost use Rattle.std.specs.Prelude.{◌≡◌, ℕ, false, ◌&&◌, nat_lt};
ghost use Rattle.relations.specs.Related.{at, related, Square, Written};

use crate::relation::Relation;

// Sixteen rows of sixteen, the same at every place.
fn all(holds: bool) -> [[bool; 16]; 16]
    ensures square { Square result }
    ensures same { (p q : ℕ) → at result p q ≡ (holds && (nat_lt p 16 && nat_lt q 16)) }
{
    [[holds; 16]; 16]
}

impl Relation {
    // No number is related to any.
    pub fn empty() -> Relation
        ensures { (p q : ℕ) → related result p q ≡ false }
    {
        Relation { rows: all(false) }
    }

    // Is p related to q? A number of 16 or more is related to none.
    #[tactic(auto, using(crate::proofs::Rows::at_outside), unfolding(crate::specs::Related::at))]
    pub fn contains(&self, p: usize, q: usize) -> bool
        ensures { result ≡ related self.now p q }
    {
        p < 16 && q < 16 && self.rows[p][q]
    }

    // From now on p is related to q, or is not. A number of 16 or more stays unrelated.
    #[tactic(auto, using(crate::proofs::Rows::at_written))]
    pub fn write(&mut self, p: usize, q: usize, holds: bool)
        ensures { Written self.old p q holds self.new }
    {
        if p < 16 && q < 16 {
            self.rows[p][q] = holds;
        }
    }
}
