// How a fork diner is made from a graph.
ghost use Rattle.std.specs.Prelude.{◌≡◌, ℕ, true, ◌&&◌, length, nat_lt};
ghost use Rattle.forks.specs.Forks.{started};
ghost use Rattle.forks.specs.ForkDiners.{forks};
ghost use Rattle.forks.specs.Upstream.{UpstreamIsByChains};
ghost use Rattle.graph.specs.Ends.{neighbours};
ghost use Rattle.graph.specs.Graphs.{ends_of};
ghost use Rattle.relations.specs.Related.{related, Written};

use crate::fork_diner::ForkDiner;
use dining::Phase;
use graph::{Ends, Graph, Neighbourhood};
use relations::Relation;

// The lower end of a bottle precedes the higher.
fn let_lower_precede(precedes: &mut Relation, ends: Ends)
    ensures { Written precedes.old ends.lower ends.higher true precedes.new }
{
    precedes.write(ends.lower, ends.higher, true);
}

// Of each two neighbours the lower number precedes.
// The loop of a graph's table of neighbours, but for what it writes. One for both would be a public function that takes a closure, and
// would have to require that the closure may be called; no public function here requires anything.
fn lower_precedes(graph: &Graph) -> Relation
    ensures { (p q : ℕ) → related result p q ≡ (neighbours (ends_of graph.now) p q && nat_lt p q) }
{
    let mut precedes = Relation::empty();
    for ends in graph.all_ends() {
        let_lower_precede(&mut precedes, *ends);
    }
    precedes
}

impl ForkDiner {
    // All think, and the lower number precedes.
    pub fn new(graph: &Graph) -> ForkDiner
        ensures { forks result ≡ started graph.now.drinkers (length (ends_of graph.now)) (neighbours (ends_of graph.now)) }
    {
        ForkDiner {
            neighbourhood: Neighbourhood::new(graph),
            phases: [Phase::Thinking; 16],
            precedes: lower_precedes(graph),
        }
    }

    // A theorem and no computation: who is upstream of a drinker is who has a chain of "precedes" that leads to it.
    #[tactic(auto, using(crate::specs::UpstreamLemmas::upstream_is_by_chains, crate::specs::Diners::orderly))]
    pub fn upstream_is_by_chains(&self)
        ensures { UpstreamIsByChains (forks self.now) }
    {}
}
