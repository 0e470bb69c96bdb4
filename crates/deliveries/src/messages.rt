// Messages over a wire that loses frames, with every frame shown, tick by tick.
use alternating::AlternatingPost;
use posts::{Post, PostCall, PostEvent, exchange};
use refusals::Refusal;
use std::alloc::Global;
use std::io;
use wires::{Message, PatternWire};

fn show_put(rt: &impl Print, answer: Result<(), Refusal>) -> io::Result<()> {
    match answer {
        Ok(()) => println!(rt; "granted"),
        Err(refusal) => println!(rt; "{refusal}"),
    }
}

fn show_take(rt: &impl Print, answer: Result<Option<Message>, Refusal>) -> io::Result<()> {
    match answer {
        Ok(Some(message)) => println!(rt; "{message:?}"),
        Ok(None) => println!(rt; "not yet"),
        Err(refusal) => println!(rt; "{refusal}"),
    }
}

fn show(rt: &impl Print, event: PostEvent) -> io::Result<()> {
    match event {
        PostEvent::Put(channel, message, answer) => {
            print!(rt; "  put {channel} {message:?}: ")?;
            show_put(rt, answer)
        }
        PostEvent::Take(channel, answer) => {
            print!(rt; "  take {channel}: ")?;
            show_take(rt, answer)
        }
        // What a tick does is shown before it.
        PostEvent::Tick => Ok(()),
    }
}

// Tries the calls, and shows what each answered.
fn try_all(
    rt: &impl Print,
    alloc: Global,
    post: &mut AlternatingPost<PatternWire>,
    calls: &[PostCall],
) -> io::Result<()> {
    for event in exchange(alloc, post, calls)? {
        show(rt, event)?;
    }
    Ok(())
}

// What the next tick sends on channel 0, and what the wire will do with it.
fn show_next(rt: &impl Print, post: &AlternatingPost<PatternWire>) -> anyhow::Result<()> {
    let Some(frame) = post.next_frame(0)? else {
        println!(rt; "nothing is sent")?;
        return Ok(());
    };
    let outcome = if post.wire().loses_next(0)? {
        "lost"
    } else if post.wire().loses_next(1)? {
        "comes through, and its acknowledgement is lost"
    } else {
        "comes through, and so does its acknowledgement"
    };
    println!(rt; "{frame}: {outcome}")?;
    Ok(())
}

// Two messages go through channel 0 within as many ticks as the lag; there is no room for a third, and no channel 64.
pub(crate) fn send_two(rt: &impl Print, alloc: Global) -> anyhow::Result<()> {
    let mut post = AlternatingPost::new(PatternWire::new(b"110"));
    println!(rt; "  lag {}", post.lag())?;
    let calls = [
        PostCall::Put(0, Message::Bottle),
        PostCall::Put(0, Message::Token),
        PostCall::Put(0, Message::Token),
        PostCall::Put(64, Message::Bottle),
    ];
    try_all(rt, alloc, &mut post, &calls)?;
    for tick in 1..=post.lag() {
        print!(rt; "  tick {tick}: ")?;
        show_next(rt, &post)?;
        try_all(rt, alloc, &mut post, &[PostCall::Tick, PostCall::Take(0)])?;
    }
    Ok(())
}
