use alternating::AlternatingPost;
use posts::{Post, QueuePost};
use refusals::Refusal;
use std::test::Fail;
use wires::{Message, PatternWire};

// What is put can be taken at once, in order; two wait at the most.
#[test]
fn queues_hold_two(rt: HostRuntime) -> Result<(), Fail> {
    let mut post = QueuePost::new();
    assert_eq!(rt; post.take(63), Ok(None));
    post.put(63, Message::Token)?;
    post.put(63, Message::Bottle)?;
    assert_eq!(rt; post.put(63, Message::Bottle), Err(Refusal::ChannelFull));
    assert_eq!(rt;
        post.put(64, Message::Bottle),
        Err(Refusal::NothingSuchToCarry)
    );
    assert_eq!(rt; post.take(63), Ok(Some(Message::Token)));
    assert_eq!(rt; post.take(63), Ok(Some(Message::Bottle)));
    assert_eq!(rt; post.take(63), Ok(None));
    Ok(())
}

fn tick_thrice<P: Post>(post: &mut P) {
    post.tick();
    post.tick();
    post.tick();
}

// The first message is taken while its acknowledgement is still lost: nothing waits, and there is room for two more behind it.
#[test]
fn two_behind_one_that_is_not_acknowledged(rt: HostRuntime) -> Result<(), Fail> {
    let mut post = AlternatingPost::new(PatternWire::new(b"110"));
    post.put(5, Message::Bottle)?;
    assert_eq!(rt; post.take(5), Ok(None));
    tick_thrice(&mut post);
    assert_eq!(rt; post.take(5), Ok(Some(Message::Bottle)));
    assert_eq!(rt; post.waiting(5), Ok(0));
    post.put(5, Message::Token)?;
    post.put(5, Message::Bottle)?;
    assert_eq!(rt; post.put(5, Message::Token), Err(Refusal::ChannelFull));
    for _ in 0..3 {
        tick_thrice(&mut post);
    }
    assert_eq!(rt; post.take(5), Ok(Some(Message::Token)));
    for _ in 0..3 {
        tick_thrice(&mut post);
    }
    assert_eq!(rt; post.take(5), Ok(Some(Message::Bottle)));
    Ok(())
}
