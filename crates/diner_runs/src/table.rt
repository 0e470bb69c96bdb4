// A graph, and both diners made from it.
use dining::{Diner, Phase};
use forks::ForkDiner;
use graph::Graph;
use queueing::QueueDiner;
use refusals::Refusal;

#[derive(Drop)]
pub struct Table {
    pub graph: Graph,
    pub forks: ForkDiner,
    pub queue: QueueDiner,
}

impl Table {
    pub(crate) fn new(drinkers: usize) -> Result<Table, Refusal> {
        Ok(Table::of(Graph::new(drinkers)?))
    }

    fn of(graph: Graph) -> Table {
        Table {
            graph,
            forks: ForkDiner::new(&graph),
            queue: QueueDiner::new(&graph),
        }
    }

    // One bottle more; both diners are made anew.
    pub(crate) fn join(&mut self, lower: usize, higher: usize) -> Result<usize, Refusal> {
        let bottle = self.graph.join(lower, higher)?;
        *self = Table::of(self.graph);
        Ok(bottle)
    }
}

// A change that a diner can be asked for. A value and no closure: one closure can't be asked of two types of diners.
#[derive(Clone, Copy)]
pub(crate) enum Change {
    Hungry(usize),
    Done(usize),
    Turn,
}

impl Change {
    pub(crate) fn ask<D: Diner>(self, diner: &mut D) -> Result<(), Refusal> {
        match self {
            Change::Hungry(p) => diner.hungry(p)?,
            Change::Done(p) => diner.done(p)?,
            Change::Turn => diner.turn(),
        }
        Ok(())
    }
}

// The letter that is printed for a phase. No `Display` of a phase: the letters are this program's own.
pub(crate) fn letter(phase: Result<Phase, Refusal>) -> char {
    match phase {
        Ok(Phase::Thinking) => 't',
        Ok(Phase::Hungry) => 'h',
        Ok(Phase::Eating) => 'e',
        Err(_) => '?',
    }
}

// The number that is printed for an answer: 0 where the change is granted, else the number of the refusal.
pub(crate) fn code(answer: Result<(), Refusal>) -> u8 {
    answer.map_or_else(u8::from, |()| 0)
}
