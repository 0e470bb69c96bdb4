// Runs a wire and three posts on the calls that standard input lists, a call to a line, and prints every answer.
#![tactic(auto)]

mod calls;
mod setup;

use calls::run_line;
use setup::Setup;

fn main(rt: HostRuntime) -> anyhow::Result<()> {
    let mut setup = Setup::new(b"0");
    for line in rt.lines(rt.alloc()) {
        run_line(&rt, &mut setup, &line?)?;
    }
    Ok(())
}
