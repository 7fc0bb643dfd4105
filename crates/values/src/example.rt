// The worked example of "The run program": its 17 steps on its 24 bytes of memory, then the bytes that the card took.
use crate::tables::memory;
use controller::slot::{Done, Slot};
use registers::block::Reply;
use std::io;
use terms::{Refusal, number, value};

// Number, answer and value of a step, and the line of the slot after it: the one there was, where the step is refused.
fn shown(
    rt: &impl Print,
    step: u8,
    made: Result<Done, Refusal>,
    slot: &mut Slot,
) -> io::Result<()> {
    if let Ok(done) = made {
        *slot = done.slot;
    }
    println!(rt;
        "step {step} {} {:08x} {}",
        number(made),
        value(made.map(|done| done.value)),
        u8::from(slot.line())
    )
}

// Steps 0 to 8: card, clock, power, ADMA2, enables, signal, block size, table, and the command.
fn issue(rt: &impl Print, slot: &mut Slot) -> io::Result<()> {
    shown(rt, 0, slot.card_in(), slot)?;
    for (step, (offset, width, value)) in (1..).zip([
        (0x2C, 2, 5),
        (0x29, 1, 0x0F),
        (0x28, 1, 0x10),
        (0x34, 4, 0x03FF01FF),
        (0x38, 4, 2),
        (0x04, 4, 8),
        (0x58, 4, 0),
        (0x0C, 4, 0x183A0001),
    ]) {
        shown(rt, step, slot.write(offset, width, value), slot)?;
    }
    Ok(())
}

// The first eight bytes of the room.
fn taken_row(rt: &impl Print, room: &[u8; 512]) -> io::Result<()> {
    print!(rt; "taken")?;
    for byte in &room[..8] {
        print!(rt; " {byte:02x}")?;
    }
    println!(rt)
}

// Steps 9 to 16: Present State, the response, two turns, the block, and its acknowledgements.
pub(crate) fn ride(rt: &impl Print) -> io::Result<()> {
    let mut mem = memory(0x23, 0x10);
    let mut buffer = [0; 512];
    let mut room = [0; 512];
    let mut slot = Slot::power_on();
    issue(rt, &mut slot)?;
    shown(rt, 9, slot.read(0x24, 4), &mut slot)?;
    let words = Reply {
        first: 0x900,
        ..Reply::default()
    };
    shown(rt, 10, slot.respond(0, words), &mut slot)?;
    shown(rt, 11, slot.turn(&mut buffer, &mut mem), &mut slot)?;
    shown(rt, 12, slot.turn(&mut buffer, &mut mem), &mut slot)?;
    shown(rt, 13, slot.taken(&buffer, &mut room), &mut slot)?;
    shown(rt, 14, slot.read(0x30, 2), &mut slot)?;
    shown(rt, 15, slot.write(0x30, 2, 1), &mut slot)?;
    shown(rt, 16, slot.write(0x30, 2, 2), &mut slot)?;
    taken_row(rt, &room)
}
