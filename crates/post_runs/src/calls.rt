// One line of input: which call it is, and what comes of it.
use crate::setup::{Call, Setup, code};
use posts::Post;
use std::io;
use wires::check_pattern;

// What stands for a word that is no number: a number beyond everything.
const BEYOND: usize = 1000;

// The number that the word spells. The other program of calls has the same line: a crate to share it would be no plainer.
fn number(word: Option<&str>) -> usize {
    word.and_then(|digits| digits.parse().ok())
        .unwrap_or(BEYOND)
}

fn make(rt: &impl Print, setup: &mut Setup, pattern: &[u8]) -> io::Result<()> {
    *setup = Setup::new(pattern);
    match check_pattern(pattern) {
        Ok(bound) => print!(rt; "bound {bound}")?,
        Err(refusal) => print!(rt; "refused {}", u8::from(refusal))?,
    }
    let queue = setup.queue.lag();
    let faultless = setup.faultless.lag();
    let losing = setup.losing.lag();
    println!(rt; " lag {queue} {faultless} {losing}")
}

fn carry(
    rt: &impl Print,
    setup: &mut Setup,
    line: usize,
    bit: usize,
    message: usize,
) -> io::Result<()> {
    match setup.carry(line, bit, message) {
        Ok(true) => println!(rt; "carried"),
        Ok(false) => println!(rt; "lost"),
        Err(refusal) => println!(rt; "refused {}", u8::from(refusal)),
    }
}

fn tick(rt: &impl Print, setup: &mut Setup) -> io::Result<()> {
    setup.queue.tick();
    setup.faultless.tick();
    setup.losing.tick();
    println!(rt; "tick")
}

// The same call of the three posts.
fn ask(rt: &impl Print, setup: &mut Setup, call: Call) -> io::Result<()> {
    let queue = code(call.ask(&mut setup.queue));
    let faultless = code(call.ask(&mut setup.faultless));
    let losing = code(call.ask(&mut setup.losing));
    println!(rt; "{queue} {faultless} {losing}")
}

pub(crate) fn run_line(rt: &impl Print, setup: &mut Setup, line: &str) -> io::Result<()> {
    let mut words = line.split(' ');
    let call = words.next();
    let word = words.next();
    let first = number(word);
    let second = number(words.next());
    let third = number(words.next());
    match call {
        Some("pattern") => make(rt, setup, word.unwrap_or("").as_bytes()),
        Some("carry") => carry(rt, setup, first, second, third),
        Some("put") => ask(rt, setup, Call::Put(first, second)),
        Some("take") => ask(rt, setup, Call::Take(first)),
        Some("waiting") => ask(rt, setup, Call::Waiting(first)),
        Some("tick") => tick(rt, setup),
        _ => println!(rt; "no such call"),
    }
}
