// A turn: it fetches a line, or moves bytes of the line in hand.
ghost use Rattle.std.specs.Prelude.{◌≡◌, ◌+◌, ◌≤◌, Ok, length};
ghost use Rattle.table.specs.Memory.{memory_limit};
ghost use Rattle.table.specs.Fetch.{fetch_of};
ghost use Rattle.engine.specs.Buffer.{ready_of};
ghost use Rattle.engine.specs.Turn.{turn_given, turned_with, turned_as, seen_table, seen_int, seen_next, fetched_of, onward_of, done_int, carry_of, hand_after, moved_of, moving_of, running_of, turn_of};

use crate::buffer::put;
use crate::transfer::{Dat, Next, Outcome, Stage, Transfer, Way};
use table::fetch::{Failure, Fetched, Hand};
use table::memory::{in_memory, too_large};
use terms::{ByteCount, Refusal};

// What a turn that is done gives: how many bytes it moved, the DAT side and 058h after it, whether DMA Interrupt is raised,
// and the end told.
#[derive(Clone, Copy)]
pub struct Turn {
    pub count: u32,
    pub dat: Dat,
    pub table: u32,
    pub int: bool,
    pub outcome: Outcome,
}

// 058h after a fetch.
fn seen_table(seen: Fetched) -> u32
    ensures { result ≡ seen_table seen }
{
    match seen {
        Fetched::Fault { next, .. } | Fetched::Step { next, .. } | Fetched::Data { next, .. } =>
            next,
    }
}

// Does a fetch do a line with Int?
fn seen_int(seen: Fetched) -> bool
    ensures { result ≡ seen_int seen }
{
    matches!(seen, Fetched::Step { int: true, .. })
}

// Is the line in hand done, with Int?
#[tactic(auto, unfolding(crate::specs::Turn::done_rest))]
fn done_int(hand: Hand) -> bool
    ensures { result ≡ done_int hand.rest hand.int }
{
    hand.rest.0 == 0 && hand.int
}

// What a turn is lent: the one-block buffer, and memory, no more than a step takes.
#[derive(Drop)]
struct Lent<'a> {
    buffer: &'a mut [u8],
    mem: &'a mut [u8],
    ghost small: { length mem.now ≤ memory_limit },
}

impl Transfer {
    ghost use Rattle.engine.specs.Lent.{SameLent};

    // Where a fetch leaves the transfer, with the buffer holding so many bytes.
    #[tactic(auto, unfolding(crate::specs::Turn::seen))]
    fn seen_next(self, seen: Fetched, held: ByteCount) -> Next
        ensures { result ≡ seen_next seen self.owed self.left held }
    {
        match seen {
            Fetched::Fault { failure, .. } => Next::Fail(failure),
            Fetched::Step { last, .. } => self.settled(last, held),
            Fetched::Data { hand, .. } => Next::Move(hand),
        }
    }

    // Where a move leaves the transfer, with what is still in hand of the line.
    #[tactic(auto, unfolding(crate::specs::Turn::further))]
    fn onward(self, hand: Hand) -> Next
        ensures { result ≡ onward_of hand self.owed self.left self.held }
    {
        if hand.rest.0 == 0 {
            self.settled(hand.last, self.held)
        } else {
            Next::Move(hand)
        }
    }

    // A turn that is done; `self` has the counters after it.
    fn turned(self, count: ByteCount, table: u32, int: bool, next: Next) -> Turn
        ensures { Ok result ≡ turn_given (turned_as self self.owed self.held count table int next) }
    {
        Turn {
            count: count.0,
            dat: self.after(next),
            table,
            int,
            outcome: next.outcome(),
        }
    }

    // Bytes pass between memory and the buffer: on a write behind those that the buffer holds, on a read the first of them.
    // Gives what it then holds. `moving` has looked that they lie in memory and fit the buffer.
    fn carry(self, at: usize, count: ByteCount, buffer: &mut [u8], mem: &mut [u8]) -> ByteCount
        requires { (at + count.0 ≤ length mem.old) × (count.0 ≤ (ready_of self.way self.size (length buffer.old) self.held).0) }
        ensures { (result, buffer.new, mem.new) ≡ carry_of self.way self buffer.old mem.old at count }
    {
        let n = count.0 as usize;
        let held = self.content(buffer.len());
        match self.way {
            Way::Write => {
                put(buffer, held.0 as usize, &mem[at..at + n]);
                ByteCount(held.0 + count.0)
            }
            Way::Read => {
                let from = self.block_bytes(buffer.len()).less(held).0 as usize;
                put(mem, at, &buffer[from..from + n]);
                held.less(count)
            }
        }
    }

    // Bytes of the line in hand are moved.
    fn moved(self, table: u32, hand: Hand, count: ByteCount, lent: &mut Lent<'_>) -> Turn
        requires { (hand.at + count.0 ≤ length lent.old.mem.now) × (count.0 ≤ (ready_of self.way self.size (length lent.old.buffer.now) self.held).0) }
        ensures same_lent { SameLent lent.old lent.new }
        ensures moved { (Ok result, lent.new.buffer.now, lent.new.mem.now) ≡ turned_with (moved_of self table hand count (carry_of self.way self lent.old.buffer.now lent.old.mem.now hand.at count)) }
    {
        let held = self.carry(hand.at as usize, count, lent.buffer, lent.mem);
        let owed = self.owed.less(count);
        let still = Hand {
            rest: hand.rest.less(count),
            at: hand.at + count.0,
            ..hand
        };
        let t = Transfer { owed, held, ..self };
        t.turned(count, table, done_int(still), t.onward(still))
    }

    // A turn with a line in hand.
    #[tactic(auto, unfolding(crate::specs::Turn::moving_of))]
    fn moving(self, table: u32, hand: Hand, lent: &mut Lent<'_>) -> Result<Turn, Refusal>
        ensures same_lent { SameLent lent.old lent.new }
        ensures moving { (result, lent.new.buffer.now, lent.new.mem.now) ≡ turned_with (moving_of self table hand lent.old.buffer.now lent.old.mem.now) }
    {
        let open = self.ready(lent.buffer.len());
        if open.0 == 0 {
            return Err(Refusal::NotYet);
        }
        let count = hand.rest.least(open);
        if in_memory(lent.mem.len(), hand.at, count.0) {
            Ok(self.moved(table, hand, count, lent))
        } else {
            let failed = Next::Fail(Failure::Beyond);
            Ok(self.turned(ByteCount(0), table, false, failed))
        }
    }

    // A turn with no line in hand.
    fn fetching(self, table: u32, lent: &Lent<'_>) -> Turn
        ensures { Ok result ≡ turn_given (fetched_of self (length lent.now.buffer.now) (fetch_of lent.now.mem.now table self.owed)) }
    {
        let held = self.content(lent.buffer.len());
        let seen = table::fetch::fetch(lent.mem, table, self.owed);
        let next = self.seen_next(seen, held);
        self.turned(ByteCount(0), seen_table(seen), seen_int(seen), next)
    }

    // A turn of a running transfer: stopped, awaiting its response, or one that does something.
    #[tactic(auto, unfolding(crate::specs::Turn::running_of))]
    fn turn(self, table: u32, lent: &mut Lent<'_>) -> Result<Turn, Refusal>
        ensures same_lent { SameLent lent.old lent.new }
        ensures turn { (result, lent.new.buffer.now, lent.new.mem.now) ≡ turned_with (running_of self.stage self table lent.old.buffer.now lent.old.mem.now) }
    {
        match self.stage {
            Stage::Stopped => Err(Refusal::NoTransfer),
            _ if !self.answered => Err(Refusal::NotYet),
            Stage::Fetching => Ok(self.fetching(table, lent)),
            Stage::Moving(hand) => self.moving(table, hand, lent),
        }
    }
}

impl Dat {
    // A turn, with 058h, the buffer and the lent memory. Refused, all of it stays as it is.
    #[tactic(auto, unfolding(crate::specs::Turn::staged_of))]
    pub fn turn(self, table: u32, buffer: &mut [u8], mem: &mut [u8]) -> Result<Turn, Refusal>
        ensures { (result, buffer.new, mem.new) ≡ turned_with (turn_of self table buffer.old mem.old) }
    {
        if too_large(mem) {
            return Err(Refusal::MemoryTooLarge);
        }
        let Dat::Runs(t) = self else {
            return Err(Refusal::NoTransfer);
        };
        t.turn(table, &mut Lent { buffer, mem })
    }
}
