use crate::parties::{after, all_hungry, eating, ring};
use dining::Diner;
use forks::ForkDiner;
use queueing::QueueDiner;
use refusals::Refusal;
use std::test::Fail;

// All are hungry. The lower number precedes, so they eat one after the other; who ate comes behind its neighbours.
#[test]
fn forks_go_round(rt: HostRuntime) -> Result<(), Fail> {
    let mut diner = ForkDiner::new(&ring()?);
    all_hungry(&mut diner, &[3, 2, 1, 0])?;
    diner.turn();
    assert_eq!(rt; eating(&diner), 0b0001);
    assert_eq!(rt; after(&mut diner, 0)?, 0b0010);
    assert_eq!(rt; after(&mut diner, 1)?, 0b0100);
    all_hungry(&mut diner, &[1, 0])?;
    assert_eq!(rt; after(&mut diner, 2)?, 0b1000);
    assert_eq!(rt; after(&mut diner, 3)?, 0b0001);
    assert_eq!(rt; after(&mut diner, 0)?, 0b0010);
    Ok(())
}

// Opposite drinkers eat together, and the two between them wait for both.
#[test]
fn forks_feed_opposite_drinkers(rt: HostRuntime) -> Result<(), Fail> {
    let mut diner = ForkDiner::new(&ring()?);
    all_hungry(&mut diner, &[2, 0])?;
    diner.turn();
    assert_eq!(rt; eating(&diner), 0b0101);
    all_hungry(&mut diner, &[1, 3])?;
    diner.turn();
    assert_eq!(rt; eating(&diner), 0b0101);
    assert_eq!(rt; after(&mut diner, 0)?, 0b0100);
    assert_eq!(rt; after(&mut diner, 2)?, 0b1010);
    assert_eq!(rt; diner.done(0), Err(Refusal::WrongState));
    assert_eq!(rt; diner.hungry(1), Err(Refusal::WrongState));
    Ok(())
}

// They eat in the order in which they became hungry, as each has the one before as its neighbour.
#[test]
fn queue_keeps_the_order(rt: HostRuntime) -> Result<(), Fail> {
    let mut diner = QueueDiner::new(&ring()?);
    all_hungry(&mut diner, &[2, 3, 0, 1])?;
    diner.turn();
    assert_eq!(rt; eating(&diner), 0b0100);
    assert_eq!(rt; after(&mut diner, 2)?, 0b1000);
    assert_eq!(rt; after(&mut diner, 3)?, 0b0001);
    assert_eq!(rt; after(&mut diner, 0)?, 0b0010);
    assert_eq!(rt; diner.hungry(4), Err(Refusal::NoSuchDrinker));
    assert_eq!(rt; diner.done(4), Err(Refusal::NoSuchDrinker));
    Ok(())
}
