// The two drinkers that share a bottle.
ghost use Rattle.std.specs.Prelude.{◌≡◌};
ghost use Rattle.graph.specs.Ends.{joins, touches};

#[derive(Clone, Copy, PartialEq, Eq, Debug)]
pub struct Ends {
    pub lower: usize,
    pub higher: usize,
}

impl Ends {
    // Are p and q the two ends, in either order?
    pub fn joins(self, p: usize, q: usize) -> bool
        ensures { result ≡ joins self p q }
    {
        (p == self.lower && q == self.higher) || (p == self.higher && q == self.lower)
    }

    // Is p one of the two ends?
    pub fn touches(self, p: usize) -> bool
        ensures { result ≡ touches self p }
    {
        p == self.lower || p == self.higher
    }
}
