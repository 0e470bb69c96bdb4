use graph::{Ends, Graph};
use refusals::Refusal;
use std::test::Fail;

#[test]
fn counts_of_drinkers(rt: HostRuntime) -> Result<(), Fail> {
    assert_eq!(rt; Graph::new(0).err(), Some(Refusal::OutsideLimits));
    assert_eq!(rt; Graph::new(17).err(), Some(Refusal::OutsideLimits));
    assert_eq!(rt; Graph::new(1)?.drinkers(), 1);
    assert_eq!(rt; Graph::new(16)?.drinkers(), 16);
    Ok(())
}

#[test]
fn ends_that_are_refused(rt: HostRuntime) -> Result<(), Fail> {
    let mut graph = Graph::new(3)?;
    assert_eq!(rt; graph.join(1, 1), Err(Refusal::BadEnds));
    assert_eq!(rt; graph.join(2, 1), Err(Refusal::BadEnds));
    assert_eq!(rt; graph.join(1, 3), Err(Refusal::BadEnds));
    assert_eq!(rt; graph.join(1, 2), Ok(0));
    assert_eq!(rt; graph.join(1, 2), Err(Refusal::BadEnds));
    assert_eq!(rt; graph.join(0, 2), Ok(1));
    assert_eq!(rt; graph.bottles(), 2);
    assert_eq!(rt;
        graph.ends(1),
        Some(Ends {
            lower: 0,
            higher: 2,
        })
    );
    assert_eq!(rt; graph.ends(2), None);
    assert_eq!(rt; u32::from(graph.shared_by(2)), 3);
    Ok(())
}

// Sixteen drinkers have 120 pairs; the thirty-third bottle is one too many, whatever its ends.
#[test]
fn the_thirty_third_bottle(rt: HostRuntime) -> Result<(), Fail> {
    let mut graph = Graph::new(16)?;
    for higher in 1..16usize {
        let _ = graph.join(0, higher);
        let _ = graph.join(higher - 1, higher);
    }
    assert_eq!(rt; graph.bottles(), 29);
    assert_eq!(rt; graph.join(1, 3), Ok(29));
    assert_eq!(rt; graph.join(1, 4), Ok(30));
    assert_eq!(rt; graph.join(1, 5), Ok(31));
    assert_eq!(rt; graph.join(1, 6), Err(Refusal::OutsideLimits));
    assert_eq!(rt; graph.join(6, 1), Err(Refusal::OutsideLimits));
    Ok(())
}
