// The fetch of one line: what it finds, and where the next line lies.
ghost use Rattle.std.specs.Prelude.{◌≡◌, ◌≤◌, length};
ghost use Rattle.table.specs.Memory.{memory_limit};
ghost use Rattle.table.specs.Fetch.{byte_of, step_on_of, hand_of, tran_of, fetch_of};

use crate::line::{Act, SIZE, act_of, address_of, flags_of, length_of, line_at};
use crate::memory::in_memory;
use terms::ByteCount;

// Why a table or a transfer fails, by the byte of 054h: the state (00 stop, 01 fetch, 11 move), and 4 where lengths do not
// match.
#[derive(Clone, Copy, PartialEq, Eq)]
pub enum Failure {
    // A line beyond memory, or with Valid 0.
    Unsound = 1,
    // The bytes of a Tran line reach past memory.
    Beyond = 3,
    // Bytes are still owed once the End line is done.
    Owing = 4,
    // A Tran line is longer than what is owed.
    TooLong = 7,
}

impl Failure {
    // The byte of 054h.
    pub fn byte(self) -> u8
        ensures { result ≡ byte_of self }
    {
        self as u8
    }
}

// A Tran line in hand: the bytes still to move, their address, End and Int.
#[derive(Clone, Copy)]
pub struct Hand {
    pub rest: ByteCount,
    pub at: u32,
    pub last: bool,
    pub int: bool,
}

// What a fetch finds; `next` is the address that 058h then holds.
#[derive(Clone, Copy)]
pub enum Fetched {
    Fault { failure: Failure, next: u32 },
    // A sound line that links or only steps on, and is done: whether it has End and Int.
    Step { next: u32, last: bool, int: bool },
    // A sound Tran line, with all its bytes still to move.
    Data { next: u32, hand: Hand },
}

fn step(line: &[u8], next: u32) -> Fetched
    ensures { result ≡ step_on_of line.now next }
{
    let flags = flags_of(line);
    Fetched::Step {
        next,
        last: flags.end,
        int: flags.int,
    }
}

fn hand_of(line: &[u8]) -> Hand
    ensures { result ≡ hand_of line.now }
{
    let flags = flags_of(line);
    Hand {
        rest: length_of(line),
        at: address_of(line),
        last: flags.end,
        int: flags.int,
    }
}

// A Tran line: longer than what is owed, reaching past memory, or sound.
fn tran(line: &[u8], next: u32, size: usize, owed: ByteCount) -> Fetched
    ensures { result ≡ tran_of line.now next size owed }
{
    let hand = hand_of(line);
    if owed.0 < hand.rest.0 {
        return Fetched::Fault {
            failure: Failure::TooLong,
            next,
        };
    }
    if in_memory(size, hand.at, hand.rest.0) {
        Fetched::Data { next, hand }
    } else {
        Fetched::Fault {
            failure: Failure::Beyond,
            next,
        }
    }
}

// Fetches the line at an address. Every caller refuses too much memory first, with answer 11.
#[tactic(auto, unfolding(crate::specs::Fetch::fetch_of))]
pub fn fetch(mem: &[u8], at: u32, owed: ByteCount) -> Fetched
    requires { length mem.now ≤ memory_limit }
    ensures { result ≡ fetch_of mem.now at owed }
{
    let line = line_at(mem, at);
    let flags = flags_of(line);
    if !flags.valid {
        return Fetched::Fault {
            failure: Failure::Unsound,
            next: at,
        };
    }
    let next = at + SIZE;
    match act_of(flags) {
        Act::Tran => tran(line, next, mem.len(), owed),
        Act::Link => step(line, address_of(line)),
        Act::Other => step(line, next),
    }
}
