// The survey of a table, and the boot check.
ghost use Rattle.std.specs.Prelude.{◌≡◌, ◌+◌, ◌<◌, ◌≤◌, length};
ghost use Rattle.table.specs.Memory.{memory_limit};
ghost use Rattle.table.specs.Trace.{finish_kind, trace_of};
ghost use Rattle.table.specs.Survey.{kind_of, state_of, report_as, report_of, behind_of, allowed_of, lines_most, survey_of, boot_of};

use crate::fetch::{Failure, Fetched, fetch};
use crate::memory::too_large;
use terms::{ByteCount, Refusal};

// More lines than this are refused.
pub const LINES: u32 = 4096;

// What a limit of 0 means.
pub const DEFAULT: u32 = 64;

// How a table ends: well, in an error, or not within the lines allowed.
#[derive(Clone, Copy, PartialEq, Eq)]
pub enum Kind {
    Well,
    Error(Failure),
    Limit,
}

impl Kind {
    // Its number: 0 well, 1 error, 2 limit.
    pub fn number(self) -> u8
        ensures { result ≡ kind_of self }
    {
        match self {
            Kind::Well => 0,
            Kind::Error(_) => 1,
            Kind::Limit => 2,
        }
    }

    // The byte of 054h: 0 where it is no error.
    pub fn state(self) -> u8
        ensures { result ≡ state_of self }
    {
        match self {
            Kind::Error(failure) => failure.byte(),
            Kind::Well | Kind::Limit => 0,
        }
    }
}

// What a survey finds: how the table ends, the lines tried, the bytes named, and the address after.
#[derive(Clone, Copy)]
pub struct Report {
    pub kind: Kind,
    pub lines: u32,
    pub bytes: ByteCount,
    pub after: u32,
}

impl Report {
    // What it reports, behind one more line that names so many bytes.
    fn behind(self, named: ByteCount) -> Report
        requires { (self.lines + 1 < 4294967296) × (named.0 + self.bytes.0 < 4294967296) }
        ensures { result ≡ behind_of named self }
    {
        Report {
            lines: self.lines + 1,
            bytes: ByteCount(named.0 + self.bytes.0),
            ..self
        }
    }
}

// The report of an End line that is done: well where nothing is owed any more.
fn ended(owed: ByteCount, bytes: ByteCount, after: u32) -> Report
    ensures { result ≡ report_as (finish_kind owed.0) 1 bytes after }
{
    let kind = if owed.0 == 0 {
        Kind::Well
    } else {
        Kind::Error(Failure::Owing)
    };
    Report {
        kind,
        lines: 1,
        bytes,
        after,
    }
}

// Follows the table from an address, with so many lines allowed. `survey` refuses too much memory and too many lines.
fn follow(mem: &[u8], at: u32, owed: ByteCount, allowed: u32) -> Report
    requires { (length mem.now ≤ memory_limit) × (allowed ≤ lines_most) }
    ensures { result ≡ report_of (trace_of mem.now allowed at owed) }
{
    if allowed == 0 {
        return Report {
            kind: Kind::Limit,
            lines: 0,
            bytes: ByteCount(0),
            after: at,
        };
    }
    match fetch(mem, at, owed) {
        Fetched::Fault { failure, next } => Report {
            kind: Kind::Error(failure),
            lines: 1,
            bytes: ByteCount(0),
            after: next,
        },
        Fetched::Step { next, last, .. } => {
            if last {
                ended(owed, ByteCount(0), next)
            } else {
                follow(mem, next, owed, allowed - 1).behind(ByteCount(0))
            }
        }
        Fetched::Data { next, hand } => {
            let left = owed.less(hand.rest);
            if hand.last {
                ended(left, hand.rest, next)
            } else {
                follow(mem, next, left, allowed - 1).behind(hand.rest)
            }
        }
    }
}

// The lines that a limit allows.
fn lines_allowed(limit: u32) -> u32
    requires { limit ≤ lines_most }
    ensures { (result ≡ allowed_of limit) × (result ≤ lines_most) }
{
    if limit == 0 { DEFAULT } else { limit }
}

// Surveys the table at a start, for so many bytes owed.
pub fn survey(mem: &[u8], start: u32, owed: ByteCount, limit: u32) -> Result<Report, Refusal>
    ensures { result ≡ survey_of mem.now start owed limit }
{
    if too_large(mem) {
        return Err(Refusal::MemoryTooLarge);
    }
    if LINES < limit {
        return Err(Refusal::LimitTooHigh);
    }
    Ok(follow(mem, start / 4 * 4, owed, lines_allowed(limit)))
}

// Says yes exactly where a survey with limit 0 goes well.
pub fn boot_check(mem: &[u8], start: u32, owed: ByteCount) -> Result<bool, Refusal>
    ensures { result ≡ boot_of mem.now start owed }
{
    let report = survey(mem, start, owed, 0)?;
    Ok(report.kind == Kind::Well)
}
