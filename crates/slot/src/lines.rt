// What needs no slot: the survey of a table, the boot check, a line written and read, with flat results. `slot_c` exports
// them.
ghost use Rattle.std.specs.Prelude.{◌≡◌, Ok};
ghost use Rattle.slot.specs.Lines.{survey_part, survey_of, boot_part, boot_of, line_at, line_part, write_of, read_of};

use crate::step::Answer;
use table::line::{Flags, Line};
use table::survey::Report;
use terms::{ByteCount, Refusal};

// What a survey tells: its number, kind (0 well, 1 error, 2 limit), the 054h byte, lines tried, bytes named, the address after.
#[repr(C)]
#[derive(Clone, Copy, Default)]
pub struct Survey {
    pub number: u32,
    pub kind: u32,
    pub state: u32,
    pub lines: u32,
    pub bytes: u32,
    pub after: u32,
}

// What the boot check tells: its number, and 1 for yes.
#[repr(C)]
#[derive(Clone, Copy)]
pub struct Boot {
    pub number: u32,
    pub yes: u32,
}

// A line: its five flags, down at 0 and up at any other number, its length and its address.
#[repr(C)]
#[derive(Clone, Copy)]
pub struct LinePart {
    pub valid: u8,
    pub end: u8,
    pub int: u8,
    pub act1: u8,
    pub act2: u8,
    pub length: u32,
    pub address: u32,
}

impl From<Report> for Survey {
    ghost from_gives = { λ report survey. survey ≡ survey_part (Ok report) };

    fn from(report: Report) -> Survey {
        Survey {
            number: 0,
            kind: report.kind.number().into(),
            state: report.kind.state().into(),
            lines: report.lines,
            bytes: report.bytes.0,
            after: report.after,
        }
    }
}

impl From<Result<Report, Refusal>> for Survey {
    ghost from_gives = { λ got survey. survey ≡ survey_part got };

    // Refused, all but the number is 0.
    fn from(got: Result<Report, Refusal>) -> Survey {
        match got {
            Ok(report) => report.into(),
            Err(refusal) => Survey {
                number: refusal.row().into(),
                ..Default::default()
            },
        }
    }
}

impl From<Result<bool, Refusal>> for Boot {
    ghost from_gives = { λ got boot. boot ≡ boot_part got };

    // Refused, it is no.
    fn from(got: Result<bool, Refusal>) -> Boot {
        Boot {
            number: terms::number(got).into(),
            yes: got.unwrap_or(false).into(),
        }
    }
}

impl From<LinePart> for Line {
    ghost from_gives = { λ p line. line ≡ line_at p };

    fn from(p: LinePart) -> Line {
        let flags = Flags {
            valid: p.valid != 0,
            end: p.end != 0,
            int: p.int != 0,
            act1: p.act1 != 0,
            act2: p.act2 != 0,
        };
        Line {
            flags,
            length: ByteCount(p.length),
            address: p.address,
        }
    }
}

impl From<Line> for LinePart {
    ghost from_gives = { λ line p. p ≡ line_part line };

    fn from(line: Line) -> LinePart {
        let f = line.flags;
        LinePart {
            valid: f.valid.into(),
            end: f.end.into(),
            int: f.int.into(),
            act1: f.act1.into(),
            act2: f.act2.into(),
            length: line.length.0,
            address: line.address,
        }
    }
}

// A table is surveyed over memory.
pub fn survey_table(mem: &[u8], start: u32, owed: u32, limit: u32) -> Survey
    ensures { result ≡ survey_of mem.now start owed limit }
{
    table::survey::survey(mem, start, ByteCount(owed), limit).into()
}

// Would a transfer of so many bytes go well?
pub fn boot_check(mem: &[u8], start: u32, owed: u32) -> Boot
    ensures { result ≡ boot_of mem.now start owed }
{
    table::survey::boot_check(mem, start, ByteCount(owed)).into()
}

// A line is written into eight bytes.
pub fn write_line(room: &mut [u8], line: LinePart) -> Answer
    ensures { (result, room.new) ≡ write_of room.old line }
{
    table::written::write_line(room, line.into())
        .map(|()| 0)
        .into()
}

// A line is read from its bytes.
pub fn read_line(bytes: &[u8]) -> LinePart
    ensures { result ≡ read_of bytes.now }
{
    table::line::read_line(bytes).into()
}
