// What a graph answers about its drinkers and bottles.
ghost use Rattle.std.specs.Prelude.{◌≡◌, ℕ, ◌≤◌, length};
ghost use Rattle.graph.specs.Ends.{neighbours, is_end};
ghost use Rattle.graph.specs.Graphs.{ends_of, EndsAsked};
ghost use Rattle.sets.specs.Members.{has};

use crate::ends::Ends;
use crate::graph::Graph;
use sets::Set;

// The numbers of those of these bottles that have p as an end.
fn with_end(ends: &[Ends], p: usize) -> Set
    requires { length ends.now ≤ 32 }
    ensures { (b : ℕ) → has result b ≡ is_end ends.now p b }
{
    let mut shared = Set::empty();
    for (bottle, its) in ends.iter().enumerate() {
        if its.touches(p) {
            shared.insert(bottle);
        }
    }
    shared
}

impl Graph {
    pub fn drinkers(&self) -> usize
        ensures { result ≡ self.now.drinkers }
    {
        self.drinkers
    }

    pub fn bottles(&self) -> usize
        ensures { result ≡ length (ends_of self.now) }
    {
        self.bottles
    }

    // The ends of each bottle, in the order of their numbers.
    pub fn all_ends(&self) -> &[Ends]
        ensures { result.now ≡ ends_of self.now }
    {
        &self.ends[0..self.bottles]
    }

    // The ends of one bottle, or none where there is no such bottle.
    pub fn ends(&self, bottle: usize) -> Option<Ends>
        ensures { EndsAsked (ends_of self.now) bottle result }
    {
        self.all_ends().get(bottle).copied()
    }

    // Do p and q share a bottle? A number beyond the drinkers shares none.
    pub fn neighbours(&self, p: usize, q: usize) -> bool
        ensures { result ≡ neighbours (ends_of self.now) p q }
    {
        self.all_ends().iter().any(|ends| ends.joins(p, q))
    }

    // Is p an end of this bottle? A bottle that does not exist has no ends.
    pub fn is_end(&self, p: usize, bottle: usize) -> bool
        ensures { result ≡ is_end (ends_of self.now) p bottle }
    {
        self.ends(bottle).is_some_and(|ends| ends.touches(p))
    }

    // The bottles that p shares.
    pub fn shared_by(&self, p: usize) -> Set
        ensures { (b : ℕ) → has result b ≡ is_end (ends_of self.now) p b }
    {
        with_end(self.all_ends(), p)
    }
}
