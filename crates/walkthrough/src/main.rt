// A walk through the library: a graph is built, and both diners take every drinker from hungry to done.
#![tactic(auto)]

use forks::ForkDiner;
use graph::Graph;
use queueing::QueueDiner;

mod graphs;
mod meals;

use graphs::{join_all, show_drinkers};
use meals::serve_all;

fn main(rt: HostRuntime) -> anyhow::Result<()> {
    println!(rt; "a graph of five drinkers")?;
    let mut graph = Graph::new(5)?;
    join_all(&rt, &mut graph)?;
    show_drinkers(&rt, &graph)?;
    // Both diners hear of the hungry in this order.
    let order = [3, 1, 4, 0, 2];
    println!(rt; "the fork diner")?;
    serve_all(&rt, &mut ForkDiner::new(&graph), &order)?;
    println!(rt; "the queue diner")?;
    serve_all(&rt, &mut QueueDiner::new(&graph), &order)?;
    Ok(())
}
