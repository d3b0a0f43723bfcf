use crate::signs::signs_alone;
use answers::Answer;
use runs::events::Event;
use std::test::Fail;

// The number by which the answer of an order or a slot is shown.
fn number(event: &Event) -> u8 {
    match event {
        Event::Ordered(_, _, answer) => answer.number(),
        Event::Slotted(_, answer) => answer.number(),
        _ => 0,
    }
}

#[test]
fn the_fourth_slot_brings_it_to_rest(rt: HostRuntime) -> Result<(), Fail> {
    let done = signs_alone(rt.alloc())?;
    let numbers: Vec<u8> = done.events.iter().map(number).collect(rt.alloc())?;
    assert_eq!(rt; numbers.as_slice(), [0, 11, 12, 21, 14, 7].as_slice());
    Ok(())
}
