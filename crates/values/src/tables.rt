// P3 to P10, the limits of a survey, the boot check, and lines written: answer, kind, 054h byte, lines, bytes and address of a
// survey, or what else the row is about.
use slot::lines::{Survey, survey_table};
use std::io;
use table::line::{Flags, Line, length_of, line_at, read_line};
use table::survey::boot_check;
use table::written::write_line;
use terms::{ByteCount, number};

fn surveyed(rt: &impl Print, name: &str, found: Survey) -> io::Result<()> {
    println!(rt;
        "{name} {} {} {} {} {} {}",
        found.number, found.kind, found.state, found.lines, found.bytes, found.after
    )
}

// The worked example's memory, with another first byte or line address.
pub(crate) fn memory(first: u8, address: u8) -> [u8; 24] {
    [
        first, 0, 8, 0, address, 0, 0, 0, 0, 0, 0, 0, 0, 0, 0, 0, 0x11, 0x22, 0x33, 0x44, 0x55,
        0x66, 0x77, 0x88,
    ]
}

// P3: a length of 0.
fn long_line(rt: &impl Print) -> io::Result<()> {
    let mem = [0x21, 0, 0, 0, 0, 0, 0, 0];
    println!(rt; "P3 {}", length_of(line_at(&mem, 0)).0)
}

// P4 to P8 on the worked example's memory, with another byte or count; P9 on no memory at all.
fn examples(rt: &impl Print) -> io::Result<()> {
    for (name, first, address, owed) in [
        ("P4", 0x23, 0x10, 8),
        ("P5", 0x23, 0x10, 16),
        ("P6", 0x23, 0x10, 4),
        ("P7", 0x23, 0x14, 8),
        ("P8", 0x22, 0x10, 8),
    ] {
        let mem = memory(first, address);
        surveyed(rt, name, survey_table(&mem, 0, owed, 0))?;
    }
    surveyed(rt, "P9", survey_table(b"", 0, 8, 0))
}

// A line that links to itself, under three limits.
fn rings(rt: &impl Print) -> io::Result<()> {
    let mem = [0x31, 0, 0, 0, 0, 0, 0, 0];
    for (name, limit) in [("P10", 0), ("limit 4096", 4096), ("limit 4097", 4097)] {
        surveyed(rt, name, survey_table(&mem, 0, 8, limit))?;
    }
    Ok(())
}

fn boots(rt: &impl Print) -> io::Result<()> {
    let mem = memory(0x23, 0x10);
    for (name, owed) in [("boot owed 8", 8), ("boot owed 16", 16)] {
        let answer = boot_check(&mem, 0, ByteCount(owed));
        let said = if answer.unwrap_or(false) { "yes" } else { "no" };
        println!(rt; "{name} {} {said}", number(answer))?;
    }
    Ok(())
}

// A line written and read back: its answer, then length and address as they read.
fn written(rt: &impl Print, name: &str, length: u32, address: u32) -> io::Result<()> {
    let flags = Flags {
        valid: true,
        end: true,
        int: false,
        act1: false,
        act2: true,
    };
    let length = ByteCount(length);
    let mut room = [0; 8];
    let answer = write_line(
        &mut room,
        Line {
            flags,
            length,
            address,
        },
    );
    let back = read_line(&room);
    println!(rt;
        "{name} {} {} {}",
        number(answer),
        back.length.0,
        back.address
    )
}

pub(crate) fn rows(rt: &impl Print) -> io::Result<()> {
    long_line(rt)?;
    examples(rt)?;
    rings(rt)?;
    boots(rt)?;
    for (name, length, address) in [
        ("line of 65536", 65536, 0xFFFFFFFC),
        ("line of 1", 1, 4),
        ("line of none", 0, 4),
        ("line of 65537", 65537, 4),
        ("line at 2", 8, 2),
    ] {
        written(rt, name, length, address)?;
    }
    Ok(())
}
