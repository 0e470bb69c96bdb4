// Why a call is refused: one list for the whole library, each case named by what it means.
#![tactic(auto)]

ghost use Rattle.std.specs.Prelude.{◌≡◌};
ghost use Rattle.refusals.specs.Numbers.{number_of};

use std::error::Error;
use std::fmt;

// Each case has the number that stands for it in listings and documents.
#[derive(Clone, Copy, PartialEq, Eq, Debug)]
pub enum Refusal {
    // A drinker's number is not below the count of drinkers.
    NoSuchDrinker = 1,
    // A set names a bottle that the drinker does not share.
    BottleNotShared = 2,
    // The drinker is not in the state or phase that the call is for.
    WrongState = 3,
    // The last round has run.
    RoundsSpent = 4,
    // The ticket's serial is not the drinker's.
    StaleTicket = 5,
    // The diner has another count of drinkers, or misses a neighbour pair of the graph.
    DinerDoesNotFit = 6,
    // The post has fewer than two channels for each bottle.
    TooFewChannels = 7,
    // Somebody is not thinking, or a message is waiting.
    NotAtRest = 8,
    // The pattern is no pattern of losses that a wire can keep.
    UnusablePattern = 9,
    // The ends are not U < V < N, or the pair is joined already.
    BadEnds = 10,
    // The count of drinkers or of bottles would leave its limits.
    OutsideLimits = 11,
    // There is no such channel, line, message or frame.
    NothingSuchToCarry = 18,
    // Two messages are waiting in the channel already.
    ChannelFull = 19,
}

impl From<Refusal> for u8 {
    ghost from_gives = { λ refusal number. number ≡ number_of refusal };

    fn from(refusal: Refusal) -> u8 {
        refusal as u8
    }
}

impl fmt::Display for Refusal {
    fn fmt<W: fmt::Write>(&self, f: &mut fmt::Formatter<W>) -> fmt::Result {
        write!(f, "refused with {} ({self:?})", u8::from(*self))
    }
}

impl Error for Refusal {}
