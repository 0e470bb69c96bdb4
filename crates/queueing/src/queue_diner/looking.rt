// Looking through entries of a queue: for a drinker, and for its neighbours.
ghost use Rattle.std.specs.Prelude.{◌≡◌};
ghost use Rattle.graph.specs.Neighbourhoods.{near};
ghost use Rattle.queueing.specs.Queue.{phase_in, has_neighbour};

use crate::entry::Entry;
use dining::Phase;
use graph::Neighbourhood;

// The phase of p: its entry says it, and without one it thinks.
// A loop over places and no `find`: an iterator over a slice counts twice at each step, and every call asks this.
pub(super) fn phase_of(entries: &[Entry], p: usize) -> Phase
    ensures { result ≡ phase_in entries.now p }
{
    for place in 0..entries.len() {
        let entry = entries[place];
        if entry.drinker == p {
            return entry.phase();
        }
    }
    Phase::Thinking
}

// Is one of these entries a neighbour of p?
pub(super) fn has_neighbour(neighbourhood: &Neighbourhood, entries: &[Entry], p: usize) -> bool
    ensures { result ≡ has_neighbour (near neighbourhood.now) entries.now p }
{
    entries
        .iter()
        .any(|entry| neighbourhood.contains(entry.drinker, p))
}
