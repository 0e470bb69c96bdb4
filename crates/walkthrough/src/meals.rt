// Meals at any diner, with every answer shown.
use dining::{Diner, Phase, pass_on};
use refusals::Refusal;
use std::io;

fn show(rt: &impl Print, call: &str, p: usize, answer: Result<(), Refusal>) -> io::Result<()> {
    match answer {
        Ok(()) => println!(rt; "  {call} {p}: granted"),
        Err(refusal) => println!(rt; "  {call} {p}: {refusal}"),
    }
}

fn eats<D: Diner>(diner: &D, p: usize) -> bool {
    diner.phase(p) == Ok(Phase::Eating)
}

fn show_eating<D: Diner>(rt: &impl Print, diner: &D) -> io::Result<()> {
    print!(rt; "  eating now:")?;
    for p in (0..diner.drinkers()).filter(|p| eats(diner, *p)) {
        print!(rt; " {p}")?;
    }
    println!(rt)
}

fn first_eating<D: Diner>(diner: &D) -> Option<usize> {
    (0..diner.drinkers()).find(|p| eats(diner, *p))
}

fn make_hungry<D: Diner>(rt: &impl Print, diner: &mut D, order: &[usize]) -> io::Result<()> {
    for p in order {
        let answer = diner.hungry(*p);
        show(rt, "hungry", *p, answer)?;
    }
    Ok(())
}

// Makes the drinkers hungry in this order, and then lets the lowest that eats be done, until nobody eats.
pub(crate) fn serve_all<D: Diner>(
    rt: &impl Print,
    diner: &mut D,
    order: &[usize],
) -> io::Result<()> {
    println!(rt; "  cap {}", diner.cap())?;
    make_hungry(rt, diner, order)?;
    let beyond = diner.drinkers();
    make_hungry(rt, diner, &[0, beyond])?;
    diner.turn();
    show_eating(rt, diner)?;
    let early = diner.done(4);
    show(rt, "done", 4, early)?;
    for _ in 0..diner.drinkers() {
        let Some(p) = first_eating(diner) else {
            break;
        };
        let answer = pass_on(diner, p);
        show(rt, "done", p, answer)?;
        show_eating(rt, diner)?;
    }
    Ok(())
}
