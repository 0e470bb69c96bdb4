// One line of input: which call it is, and what both diners answer.
use crate::table::{Change, Table, code, letter};
use dining::Diner;
use std::io;

// What stands for a word that is no number: a number beyond every drinker.
const BEYOND: usize = 1000;

// The number that the word spells. The other program of calls has the same line: a crate to share it would be no plainer.
fn number(word: Option<&str>) -> usize {
    word.and_then(|digits| digits.parse().ok())
        .unwrap_or(BEYOND)
}

fn print_phases<D: Diner>(rt: &impl Print, diner: &D) -> io::Result<()> {
    print!(rt; " ")?;
    for p in 0..diner.drinkers() {
        print!(rt; "{}", letter(diner.phase(p)))?;
    }
    Ok(())
}

fn make(rt: &impl Print, table: &mut Table, drinkers: usize) -> io::Result<()> {
    match Table::new(drinkers) {
        Ok(made) => {
            *table = made;
            println!(rt; "graph of {drinkers}")
        }
        Err(refusal) => println!(rt; "refused {}", u8::from(refusal)),
    }
}

fn join(rt: &impl Print, table: &mut Table, lower: usize, higher: usize) -> io::Result<()> {
    match table.join(lower, higher) {
        Ok(bottle) => println!(rt; "bottle {bottle}"),
        Err(refusal) => println!(rt; "refused {}", u8::from(refusal)),
    }
}

// Both diners are asked for the same change.
fn ask_both(rt: &impl Print, table: &mut Table, change: Change) -> io::Result<()> {
    let forks = code(change.ask(&mut table.forks));
    let queue = code(change.ask(&mut table.queue));
    print!(rt; "{forks} {queue}")?;
    print_phases(rt, &table.forks)?;
    print_phases(rt, &table.queue)?;
    println!(rt)
}

pub(crate) fn run_line(rt: &impl Print, table: &mut Table, line: &str) -> io::Result<()> {
    let mut words = line.split(' ');
    let call = words.next();
    let first = number(words.next());
    let second = number(words.next());
    match call {
        Some("graph") => make(rt, table, first),
        Some("join") => join(rt, table, first, second),
        Some("hungry") => ask_both(rt, table, Change::Hungry(first)),
        Some("done") => ask_both(rt, table, Change::Done(first)),
        Some("turn") => ask_both(rt, table, Change::Turn),
        _ => println!(rt; "no such call"),
    }
}
