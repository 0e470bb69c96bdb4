// How a neighbourhood is made from a graph, and asked.
ghost use Rattle.std.specs.Prelude.{◌≡◌, ℕ, ◌<◌, ◌||◌};
ghost use Rattle.graph.specs.Ends.{joins, neighbours};
ghost use Rattle.graph.specs.Graphs.{ends_of};
ghost use Rattle.graph.specs.Neighbourhoods.{near, OfGraph};
ghost use Rattle.relations.specs.Related.{related};

use crate::ends::Ends;
use crate::graph::Graph;
use crate::neighbourhood::Neighbourhood;
use relations::Relation;

// The two ends of a bottle are neighbours of each other.
fn relate(table: &mut Relation, ends: Ends)
    requires { (ends.lower < 16) × (ends.higher < 16) }
    ensures { (p q : ℕ) → related table.new p q ≡ (related table.old p q || joins ends p q) }
{
    table.write(ends.lower, ends.higher, true);
    table.write(ends.higher, ends.lower, true);
}

// The table of the neighbours in a graph.
// The fork diner has the same loop, but for what it writes, and says why.
fn neighbour_table(graph: &Graph) -> Relation
    ensures { (p q : ℕ) → related result p q ≡ neighbours (ends_of graph.now) p q }
{
    let mut table = Relation::empty();
    for ends in graph.all_ends() {
        relate(&mut table, *ends);
    }
    table
}

impl Neighbourhood {
    pub fn new(graph: &Graph) -> Neighbourhood
        ensures { OfGraph graph.now result }
    {
        Neighbourhood {
            drinkers: graph.drinkers(),
            bottles: graph.bottles(),
            table: neighbour_table(graph),
        }
    }

    pub fn drinkers(&self) -> usize
        ensures { result ≡ self.now.drinkers }
    {
        self.drinkers
    }

    pub fn bottles(&self) -> usize
        ensures { result ≡ self.now.bottles }
    {
        self.bottles
    }

    // Are p and q neighbours? A number beyond the drinkers is nobody's neighbour.
    pub fn contains(&self, p: usize, q: usize) -> bool
        ensures { result ≡ near self.now p q }
    {
        self.table.contains(p, q)
    }
}
