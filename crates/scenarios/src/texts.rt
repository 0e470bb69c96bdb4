use refusals::Refusal;
use std::test::Fail;
use wires::{Frame, Message};

// A refusal is shown by its number and its name, and a frame by what it carries.
#[test]
fn how_values_are_shown(rt: HostRuntime) -> Result<(), Fail> {
    let alloc = rt.alloc();
    let refused = format!(in alloc; "{}", Refusal::WrongState)?;
    assert_eq!(rt; refused.as_str(), "refused with 3 (WrongState)");
    let token = format!(in alloc; "{}", Frame::try_from((1, 2))?)?;
    assert_eq!(rt; token.as_str(), "Token with bit 1");
    let back = format!(in alloc; "{}", Frame::try_from((0, 0))?)?;
    assert_eq!(rt; back.as_str(), "acknowledgement of bit 0");
    Ok(())
}

// A bottle is 1 and a token 2; no other number is a message, and a bit is 0 or 1.
#[test]
fn numbers_of_messages_and_frames(rt: HostRuntime) {
    assert_eq!(rt; Message::try_from(1), Ok(Message::Bottle));
    assert_eq!(rt; usize::from(Message::Token), 2);
    assert_eq!(rt; Message::try_from(0), Err(Refusal::NothingSuchToCarry));
    assert_eq!(rt; Message::try_from(3), Err(Refusal::NothingSuchToCarry));
    assert_eq!(rt; Frame::try_from((2, 0)), Err(Refusal::NothingSuchToCarry));
    assert_eq!(rt; Frame::try_from((1, 3)), Err(Refusal::NothingSuchToCarry));
    assert_eq!(rt; u8::from(Refusal::ChannelFull), 19);
}
