// A graph of drinkers and bottles, which keeps its rules as long as it exists.
ghost use Rattle.std.specs.Prelude.{◌≡◌, ◌≤◌, length, take};
ghost use Rattle.graph.specs.Ends.{EndsOrdered, PairsOnce};

use crate::ends::Ends;

pub mod asking;
pub mod joining;

#[derive(Clone, Copy)]
pub struct Graph {
    drinkers: usize,
    bottles: usize,
    // Those of bottle b stand at place b; the places from `bottles` on are unused.
    // An array with its count beside it, as a graph is `Copy`; an `ArrayVec` is not.
    ends: [Ends; 32],
    ghost places: { length ends ≡ 32 },
    ghost some: { 1 ≤ drinkers },
    ghost few: { drinkers ≤ 16 },
    ghost room: { bottles ≤ 32 },
    ghost ordered: { EndsOrdered drinkers (take bottles ends) },
    ghost once: { PairsOnce (take bottles ends) },
}
