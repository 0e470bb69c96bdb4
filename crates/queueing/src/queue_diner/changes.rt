// What the calls of a queue diner do to its queue, once they are granted.
ghost use Rattle.std.specs.Prelude.{◌≡◌, []};
ghost use Rattle.dining.specs.Dining.{IsIn};
ghost use Rattle.dining.specs.declared.phase.Phase.TheVariants.{Thinking};
ghost use Rattle.graph.specs.Neighbourhoods.{near};
ghost use Rattle.queueing.specs.Queue.{fed, without};
ghost use Rattle.queueing.specs.QueueDiners.{meaning, HungerOf, LeaveOf, TurnOf};

use crate::entry::Entry;
use crate::queue_diner::QueueDiner;
use crate::queue_diner::looking::has_neighbour;
use arrayvec::ArrayVec;
use graph::Neighbourhood;

// Takes p out of the queue.
fn remove(entries: &mut ArrayVec<Entry, 16>, p: usize)
    ensures { entries.new.items ≡ without entries.old.items p }
{
    entries.retain(|entry| entry.drinker != p);
}

// Each entry that has no neighbour earlier in the queue eats.
// A loop over places and no iterator: the test reads the entries before the one that is written.
#[tactic(auto, using(crate::proofs::Feeding::feeding_more))]
fn feed_unblocked(neighbourhood: &Neighbourhood, entries: &mut [Entry])
    ensures { entries.new ≡ fed (near neighbourhood.now) [] entries.old }
{
    for place in 0..entries.len() {
        let drinker = entries[place].drinker;
        entries[place].eating |= !has_neighbour(neighbourhood, &entries[..place], drinker);
    }
}

impl QueueDiner {
    // p turns hungry: it is last in the queue.
    #[tactic(auto, using(crate::specs::Entries::no_entry_where_thinking, crate::specs::Joining::orderly_joined))]
    pub(super) fn become_hungry(&mut self, p: usize)
        requires { IsIn (meaning self.old) Thinking p }
        ensures { HungerOf self.old p self.new }
    {
        self.entries.push(Entry {
            drinker: p,
            eating: false,
        });
    }

    // The meal of p is over: it is taken out of the queue.
    #[tactic(auto, using(crate::specs::Leaving::orderly_left))]
    pub(super) fn leave(&mut self, p: usize)
        ensures { LeaveOf self.old p self.new }
    {
        remove(&mut self.entries, p);
    }

    // Everybody eats that has no neighbour earlier in the queue.
    pub(super) fn feed(&mut self)
        ensures { TurnOf self.old self.new }
    {
        feed_unblocked(&self.neighbourhood, self.entries.as_mut_slice());
    }
}
