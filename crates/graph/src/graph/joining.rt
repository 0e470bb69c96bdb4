// How a graph is made and grown.
ghost use Rattle.std.specs.Prelude.{◌≡◌, ◌<◌, false};
ghost use Rattle.graph.specs.Ends.{neighbours};
ghost use Rattle.graph.specs.Graphs.{ends_of, Made, Join, Joined};

use crate::ends::Ends;
use crate::graph::Graph;
use refusals::Refusal;

impl Graph {
    // The graph of so many drinkers, with no bottle yet.
    pub fn new(drinkers: usize) -> Result<Graph, Refusal>
        ensures { Made drinkers result }
    {
        if drinkers < 1 || drinkers > 16 {
            return Err(Refusal::OutsideLimits);
        }
        Ok(Graph {
            drinkers,
            bottles: 0,
            ends: [Ends {
                lower: 0,
                higher: 0,
            }; 32],
        })
    }

    // Adds the bottle that these two drinkers share, and answers its number.
    pub fn join(&mut self, lower: usize, higher: usize) -> Result<usize, Refusal>
        ensures { Join self.old lower higher result self.new }
    {
        let bottle = self.bottles;
        if bottle >= 32 {
            return Err(Refusal::OutsideLimits);
        }
        if lower >= higher || higher >= self.drinkers || self.neighbours(lower, higher) {
            return Err(Refusal::BadEnds);
        }
        self.append(Ends { lower, higher });
        Ok(bottle)
    }

    // One bottle more, whose ends the rules allow.
    fn append(&mut self, ends: Ends)
        requires room { self.old.bottles < 32 }
        requires ordered { (ends.lower < ends.higher) × (ends.higher < self.old.drinkers) }
        requires fresh { neighbours (ends_of self.old) ends.lower ends.higher ≡ false }
        ensures { Joined self.old ends.lower ends.higher self.new }
    {
        self.ends[self.bottles] = ends;
        self.bottles += 1;
    }
}
