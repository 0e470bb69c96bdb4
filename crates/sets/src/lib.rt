// A set of numbers below 32, as the bits of one word: bit b stands for member b.
#![tactic(auto)]

ghost use Rattle.std.specs.Prelude.{◌≡◌, ℕ, true, false};
ghost use Rattle.sets.specs.Members.{has, NoneIn, SomeIn, Within, Adds, with_bits};

#[derive(Clone, Copy, PartialEq, Eq, Debug)]
pub struct Set {
    bits: u32,
}

// The set whose member b is bit b of the word.
impl From<u32> for Set {
    ghost from_gives = { λ word set. set ≡ with_bits word };

    fn from(bits: u32) -> Set {
        Set { bits }
    }
}

// The word whose bit b is member b.
impl From<Set> for u32 {
    ghost from_gives = { λ set word. set ≡ with_bits word };

    fn from(set: Set) -> u32 {
        set.bits
    }
}

impl Set {
    // The set without members.
    #[tactic(auto, using(crate::proofs::Bits::bit_of_past))]
    pub fn empty() -> Set
        ensures { NoneIn result }
    {
        Set { bits: 0 }
    }

    // Is this number a member? A number of 32 or more never is.
    #[tactic(auto, using(crate::proofs::Bits::bit_of_past))]
    pub fn contains(self, member: usize) -> bool
        ensures { result ≡ has self member }
    {
        member < 32 && (self.bits >> member) % 2 == 1
    }

    // Adds a member. A number of 32 or more adds nothing.
    #[tactic(auto, using(crate::proofs::Bits::bit_of_with))]
    pub fn insert(&mut self, member: usize)
        ensures { Adds self.old member self.new }
    {
        if member < 32 {
            self.bits |= 1 << member;
        }
    }

    #[tactic(auto, using(crate::proofs::Bits::no_bit, crate::proofs::Bits::has_bit))]
    pub fn is_empty(self) -> bool
        ensures none { result ≡ true → NoneIn self }
        ensures some { result ≡ false → SomeIn self }
    {
        self.bits == 0
    }

    // Is each member of this set a member of the other?
    #[tactic(auto, using(crate::proofs::Bits::within_shared, crate::proofs::Bits::shared_within))]
    pub fn is_within(self, other: Set) -> bool
        ensures within { result ≡ true → Within self other }
        ensures outside { result ≡ false → Within self other → ⊥ }
    {
        self.bits & other.bits == self.bits
    }
}
