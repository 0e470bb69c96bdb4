// A turn of the fork diner.
ghost use Rattle.std.specs.Prelude.{◌≡◌, ◌<◌};
ghost use Rattle.forks.specs.Forks.{blocks, may_eat};
ghost use Rattle.forks.specs.ForkDiners.{forks, TurnOf};
ghost use Rattle.forks.specs.Tables.{after_visit};

use crate::fork_diner::ForkDiner;
use dining::Phase;

// A drinker's number is bounded by the diner's own count; a type that says so would have to name the diner, and be no plainer than these clauses.
impl ForkDiner {
    // Does q keep p from eating? It does if it is a neighbour that eats, or a hungry one that precedes p.
    fn is_blocked_by(&self, p: usize, q: usize) -> bool
        requires { q < self.now.neighbourhood.drinkers }
        ensures { result ≡ blocks (forks self.now) p q }
    {
        match self.phases[q] {
            Phase::Thinking => false,
            Phase::Hungry => self.precedes.contains(q, p),
            Phase::Eating => self.neighbourhood.contains(p, q),
        }
    }

    // May p eat? It is hungry, no neighbour eats, and no hungry neighbour precedes it.
    fn is_free_to_eat(&self, p: usize) -> bool
        requires { p < self.now.neighbourhood.drinkers }
        ensures { result ≡ may_eat (forks self.now) p }
    {
        self.phases[p] == Phase::Hungry
            && !(0..self.neighbourhood.drinkers()).any(|q| self.is_blocked_by(p, q))
    }

    // p eats at once, if it may.
    #[tactic(auto, using(crate::proofs::Feeding::visit_written))]
    fn visit(&mut self, p: usize)
        requires { p < self.old.neighbourhood.drinkers }
        ensures { forks self.new ≡ after_visit (forks self.old) p }
    {
        if self.is_free_to_eat(p) {
            self.phases[p] = Phase::Eating;
        }
    }

    // Every drinker is visited, in number order.
    pub(super) fn feed(&mut self)
        ensures { TurnOf self.old self.new }
    {
        for p in 0..self.neighbourhood.drinkers() {
            self.visit(p);
        }
    }
}
