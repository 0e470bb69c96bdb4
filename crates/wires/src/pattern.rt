// Patterns of losses: digits 0 and 1, read round and round.
ghost use Rattle.std.specs.Prelude.{◌≡◌, ◌<◌, ◌↔◌, [], ◌∷◌, ◌==◌, ◌+◌, nat_lt, if◌then◌else◌, length, All, IfOk, IsTrue, MatchResult, slice_index};
ghost use Rattle.refusals.specs.Numbers.{number_of};
ghost use Rattle.wires.specs.Patterns.{leading, run, longest, following, Digit, Usable, Checked, LongestRun};

use arrayvec::ArrayVec;
use refusals::Refusal;

// How many digits a pattern has at the most.
const MOST_DIGITS: usize = 64;

// How many frames in a row a pattern loses at the most.
const MOST_LOSSES: usize = 7;

// A pattern that can be used, with its longest run of 1.
#[derive(Drop)]
pub(crate) struct Pattern {
    digits: ArrayVec<u8, MOST_DIGITS>,
    longest_run: usize,
    ghost usable: { ∥ Usable digits.items ∥₁ },
    ghost known: { longest_run ≡ longest digits.items },
}

impl Pattern {
    // The longest run of 1.
    pub(crate) fn longest_run(&self) -> usize
        ensures { result ≡ longest self.now.digits.items }
    {
        self.longest_run
    }

    // Is the digit at this place 1?
    pub(crate) fn loses_at(&self, place: usize) -> bool
        requires { place < length self.now.digits.items }
        ensures { result ≡ (slice_index self.now.digits.items place == 49) }
    {
        self.digits[place] == b'1'
    }

    // The place after this one, round the end.
    pub(crate) fn following(&self, place: usize) -> usize
        requires { place < length self.now.digits.items }
        ensures { result ≡ following self.now.digits.items place }
    {
        let next = place + 1;
        if next < self.digits.len() { next } else { 0 }
    }
}

// How many 1 these digits begin with.
fn leading_ones(digits: &[u8]) -> usize
    ensures { result ≡ leading digits.now }
{
    digits.iter().take_while(|digit| **digit == b'1').count()
}

// A run that begins with so many 1 of a rest of so many digits: if it reaches the end, it goes on at the start.
fn round_the_end(ones: usize, rest: usize, at_start: usize) -> usize
    requires { ones + at_start < 1000 }
    ensures { result ≡ (if nat_lt ones rest then ones else ones + at_start) }
{
    if ones < rest { ones } else { ones + at_start }
}

// The run of 1 from this place on: to the end, and once more from the start.
// No chain of both parts: a chain goes to its place step by step, for each place anew.
#[tactic(auto, using(crate::specs::Runs::leading_at_most_all, crate::specs::Runs::run_round_the_end))]
fn run_from(digits: &ArrayVec<u8, MOST_DIGITS>, place: usize, at_start: usize) -> usize
    requires within { place < length digits.now.items }
    requires begun { at_start ≡ leading digits.now.items }
    ensures { result ≡ run digits.now.items place }
{
    let (_, rest) = digits.split_at(place);
    round_the_end(leading_ones(rest), rest.len(), at_start)
}

// The longest run of 1, read round and round.
fn longest_run(digits: &ArrayVec<u8, MOST_DIGITS>) -> usize
    ensures { result ≡ longest digits.now.items }
{
    let at_start = leading_ones(digits.as_slice());
    (0..digits.len())
        .map(|place| run_from(digits, place, at_start))
        .fold(0, usize::max)
}

// Are there no bytes but the digits 0 and 1?
fn has_only_digits(bytes: &[u8]) -> bool
    ensures { IsTrue result ↔ All Digit bytes.now }
{
    bytes.iter().all(|byte| matches!(*byte, b'0' | b'1'))
}

impl TryFrom<&[u8]> for Pattern {
    type Error = Refusal;

    ghost try_from_gives = { λ bytes read. MatchResult read
        (λ pattern. Usable bytes.now × (pattern.digits.items ≡ bytes.now))
        (λ refusal. (Usable bytes.now → ⊥) × (number_of refusal ≡ 9)) };

    // The pattern of these digits, if it can be used.
    fn try_from(bytes: &[u8]) -> Result<Pattern, Refusal> {
        // The length first: too many bytes are refused unread.
        if bytes.len() > MOST_DIGITS {
            return Err(Refusal::UnusablePattern);
        }
        if !has_only_digits(bytes) || !bytes.contains(&b'0') {
            return Err(Refusal::UnusablePattern);
        }
        let digits = ArrayVec::try_from(bytes).map_err(|_| Refusal::UnusablePattern)?;
        let longest_run = longest_run(&digits);
        if longest_run > MOST_LOSSES {
            return Err(Refusal::UnusablePattern);
        }
        Ok(Pattern {
            digits,
            longest_run,
        })
    }
}

impl Default for Pattern {
    ghost is_default = { λ pattern. pattern.digits.items ≡ 48 ∷ [] };

    // The pattern 0, which loses nothing.
    fn default() -> Pattern {
        let mut digits = ArrayVec::new();
        digits.push(b'0');
        Pattern {
            digits,
            longest_run: 0,
        }
    }
}

// The longest run of 1 of a pattern that can be used.
pub fn check_pattern(pattern: &[u8]) -> Result<usize, Refusal>
    ensures checked { Checked pattern.now result }
    ensures read_round { IfOk result (λ k. LongestRun pattern.now k) }
{
    Ok(Pattern::try_from(pattern)?.longest_run())
}
