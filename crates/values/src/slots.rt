// P1 and P2, and the values of single accesses and commands that are only run: answer and value.
use controller::slot::{Done, Slot};
use std::io;
use terms::{Refusal, number, value};

fn row(rt: &impl Print, name: &str, made: Result<Done, Refusal>) -> io::Result<()> {
    println!(rt;
        "{name} {} {:08x}",
        number(made),
        value(made.map(|done| done.value))
    )
}

// Present State once a card is in.
fn inserted() -> Result<Done, Refusal> {
    let inserted = Slot::power_on().card_in()?;
    inserted.slot.read(0x24, 4)
}

pub(crate) fn present(rt: &impl Print) -> io::Result<()> {
    row(rt, "P1", Slot::power_on().read(0x24, 4))?;
    row(rt, "P2", inserted())
}

pub(crate) fn accesses(rt: &impl Print) -> io::Result<()> {
    for (name, offset, width) in [
        ("read 0FFh/2", 0xFF, 2),
        ("read 0FCh/4", 0xFC, 4),
        ("read 040h/4", 0x40, 4),
    ] {
        row(rt, name, Slot::power_on().read(offset, width))?;
    }
    for (name, offset, width, value) in [
        ("write 0FFh/2", 0xFF, 2, 0),
        ("write 034h/1 of 100h", 0x34, 1, 0x100),
        ("command without power", 0x0E, 2, 0),
    ] {
        row(rt, name, Slot::power_on().write(offset, width, value))?;
    }
    Ok(())
}

// A card, clock and power, ADMA2, and a block size: is a write of one block issued?
fn sized(size: u32) -> Result<Done, Refusal> {
    let inserted = Slot::power_on().card_in()?;
    let clocked = inserted.slot.write(0x2C, 2, 5)?;
    let powered = clocked.slot.write(0x29, 1, 0x0F)?;
    let selected = powered.slot.write(0x28, 1, 0x10)?;
    let ready = selected.slot.write(0x04, 4, size)?;
    ready.slot.write(0x0C, 4, 0x183A0001)
}

pub(crate) fn sizes(rt: &impl Print) -> io::Result<()> {
    for (name, size) in [
        ("block size 512", 512),
        ("block size 513", 513),
        ("block size 0", 0),
    ] {
        row(rt, name, sized(size))?;
    }
    Ok(())
}
