// Runs both diners on the calls that standard input lists, a call to a line, and prints every answer and every phase.
#![tactic(auto)]

mod calls;
mod table;

use calls::run_line;
use table::Table;

fn main(rt: HostRuntime) -> anyhow::Result<()> {
    let mut table = Table::new(1)?;
    for line in rt.lines(rt.alloc()) {
        run_line(&rt, &mut table, &line?)?;
    }
    Ok(())
}
