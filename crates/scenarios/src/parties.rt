// The graphs of the tests, and what the tests do to any diner.
use dining::{Diner, Phase, pass_on};
use graph::Graph;
use refusals::Refusal;
use sets::Set;

// Four drinkers, and a bottle for each of these pairs.
fn four_with(pairs: &[(usize, usize)]) -> Result<Graph, Refusal> {
    let mut graph = Graph::new(4)?;
    for (lower, higher) in pairs {
        graph.join(*lower, *higher)?;
    }
    Ok(graph)
}

// Four drinkers in a ring: 0 beside 1, 1 beside 2, 2 beside 3, 3 beside 0.
pub(crate) fn ring() -> Result<Graph, Refusal> {
    four_with(&[(0, 1), (1, 2), (2, 3), (0, 3)])
}

// Drinker 0 in the middle, beside 1, 2 and 3, who have no other neighbour.
pub(crate) fn star() -> Result<Graph, Refusal> {
    four_with(&[(0, 1), (0, 2), (0, 3)])
}

// Who eats, as the bits of a set.
pub(crate) fn eating<D: Diner>(diner: &D) -> u32 {
    let mut who = Set::empty();
    for p in (0..diner.drinkers()).filter(|p| diner.phase(*p) == Ok(Phase::Eating)) {
        who.insert(p);
    }
    u32::from(who)
}

// All these become hungry, in this order.
pub(crate) fn all_hungry<D: Diner>(diner: &mut D, order: &[usize]) -> Result<(), Refusal> {
    for p in order {
        diner.hungry(*p)?;
    }
    Ok(())
}

// The drinker is done, and a turn follows; answers who eats then.
pub(crate) fn after<D: Diner>(diner: &mut D, p: usize) -> Result<u32, Refusal> {
    pass_on(diner, p)?;
    Ok(eating(diner))
}
