use crate::parties::{after, all_hungry, eating, star};
use dining::Diner;
use forks::ForkDiner;
use queueing::QueueDiner;
use std::test::Fail;

// The three outside eat together. The middle then waits for all, and who ate does not pass it by.
#[test]
fn forks_let_the_middle_in(rt: HostRuntime) -> Result<(), Fail> {
    let mut diner = ForkDiner::new(&star()?);
    assert_eq!(rt; diner.cap(), 10);
    all_hungry(&mut diner, &[1, 2, 3])?;
    diner.turn();
    assert_eq!(rt; eating(&diner), 0b1110);
    all_hungry(&mut diner, &[0])?;
    assert_eq!(rt; after(&mut diner, 1)?, 0b1100);
    all_hungry(&mut diner, &[1])?;
    assert_eq!(rt; after(&mut diner, 2)?, 0b1000);
    assert_eq!(rt; after(&mut diner, 3)?, 0b0001);
    assert_eq!(rt; after(&mut diner, 0)?, 0b0010);
    Ok(())
}

// Whoever is behind the middle waits for it, even while the middle is only hungry.
#[test]
fn queue_lets_nobody_pass_the_middle(rt: HostRuntime) -> Result<(), Fail> {
    let mut diner = QueueDiner::new(&star()?);
    assert_eq!(rt; diner.cap(), 3);
    all_hungry(&mut diner, &[1, 0, 2])?;
    diner.turn();
    assert_eq!(rt; eating(&diner), 0b0010);
    assert_eq!(rt; after(&mut diner, 1)?, 0b0001);
    all_hungry(&mut diner, &[3])?;
    assert_eq!(rt; after(&mut diner, 0)?, 0b1100);
    Ok(())
}
