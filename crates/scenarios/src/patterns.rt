use alternating::AlternatingPost;
use posts::Post;
use refusals::Refusal;
use wires::{PatternWire, Wire, check_pattern};

// The lag of an alternating post over a wire with this pattern.
fn lag_over(pattern: &[u8]) -> usize {
    AlternatingPost::new(PatternWire::new(pattern)).lag()
}

// Patterns, with the bound of each and the lag over it.
#[test]
fn bounds_and_lags(rt: HostRuntime) {
    let known: [(&[u8], usize, usize); 4] = [
        (b"0", 0, 2),
        (b"101", 2, 12),
        (b"11111110", 7, 72),
        (b"11101111", 7, 72),
    ];
    for (pattern, bound, lag) in &known {
        assert_eq!(rt; check_pattern(pattern), Ok(*bound));
        assert_eq!(rt; lag_over(pattern), *lag);
    }
}

#[test]
fn patterns_that_are_refused(rt: HostRuntime) {
    let refused: [&[u8]; 6] = [b"", b"1", b"111111110", b"111101111", b"1x0", b"012"];
    for pattern in &refused {
        assert_eq!(rt; check_pattern(pattern), Err(Refusal::UnusablePattern));
    }
}

// A pattern has at most 64 digits.
#[test]
fn lengths(rt: HostRuntime) {
    let longest = [b'0'; 64];
    let longer = [b'0'; 65];
    assert_eq!(rt; check_pattern(&longest), Ok(0));
    assert_eq!(rt; check_pattern(&longer), Err(Refusal::UnusablePattern));
}

// Without the check, a pattern that cannot be used stands for one that loses nothing.
#[test]
fn unusable_patterns_lose_nothing(rt: HostRuntime) {
    let wire = PatternWire::new(b"1");
    assert_eq!(rt; wire.bound(), 0);
    assert_eq!(rt; wire.loses_next(0), Ok(false));
    assert_eq!(rt; wire.loses_next(127), Ok(false));
    assert_eq!(rt; wire.loses_next(128), Err(Refusal::NothingSuchToCarry));
    assert_eq!(rt; PatternWire::new(b"10").loses_next(127), Ok(true));
}
