// Building a graph, with every answer shown.
use graph::Graph;
use sets::Set;
use std::io;

fn join(rt: &impl Print, graph: &mut Graph, lower: usize, higher: usize) -> io::Result<()> {
    match graph.join(lower, higher) {
        Ok(bottle) => println!(rt; "  join {lower} {higher}: bottle {bottle}"),
        Err(refusal) => println!(rt; "  join {lower} {higher}: {refusal}"),
    }
}

// A ring of five, and two joins that the graph refuses: a pair joined already, and ends in the wrong order.
pub(crate) fn join_all(rt: &impl Print, graph: &mut Graph) -> io::Result<()> {
    for (lower, higher) in [(0, 1), (1, 2), (2, 3), (3, 4), (1, 2), (4, 0), (0, 4)] {
        join(rt, graph, lower, higher)?;
    }
    Ok(())
}

fn show_shared(rt: &impl Print, p: usize, shared: Set) -> io::Result<()> {
    print!(rt; "  drinker {p} shares")?;
    for bottle in (0..32usize).filter(|bottle| shared.contains(*bottle)) {
        print!(rt; " {bottle}")?;
    }
    println!(rt)
}

// Which bottles each drinker shares.
pub(crate) fn show_drinkers(rt: &impl Print, graph: &Graph) -> io::Result<()> {
    for p in 0..graph.drinkers() {
        show_shared(rt, p, graph.shared_by(p))?;
    }
    Ok(())
}
