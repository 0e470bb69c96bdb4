// Messages go over a wire that loses frames: what is lost and what arrives is shown, tick by tick.
#![tactic(auto)]

mod messages;

use messages::send_two;

fn main(rt: HostRuntime) -> anyhow::Result<()> {
    println!(rt; "two messages over a wire that loses two frames of three")?;
    send_two(&rt, rt.alloc())?;
    Ok(())
}
