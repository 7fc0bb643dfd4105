// The block events: a block given by the card, a block taken by it.
ghost use Rattle.std.specs.Prelude.{◌≡◌, ◌≤◌, Ok, length};
ghost use Rattle.engine.specs.Buffer.{block_of};
ghost use Rattle.engine.specs.Block.{passed_with, may_give, gave_of, give_of, given_of, may_take, emptied_of, took_of, take_of, taken_of};

use crate::buffer::put;
use crate::transfer::{Dat, Next, Outcome, Stage, Transfer, Way, ending};
use terms::{BlockCount, ByteCount, Refusal};

// What a block event that is done gives: the bytes of the block, the DAT side after it, and the end told.
#[derive(Clone, Copy)]
pub struct Pass {
    pub count: u32,
    pub dat: Dat,
    pub outcome: Outcome,
}

impl Stage {
    // Where the transfer is once its buffer is empty, with so many blocks left.
    fn emptied(self, left: BlockCount) -> Next
        ensures { result ≡ emptied_of self left }
    {
        match self {
            Stage::Fetching => Next::Fetch,
            Stage::Moving(hand) => Next::Move(hand),
            Stage::Stopped => ending(left, ByteCount(0)),
        }
    }
}

impl Transfer {
    // May the card give a block: a read, its response in, the buffer empty, blocks left?
    #[tactic(auto, unfolding(crate::specs::Block::may_give))]
    fn may_give(self, room: usize) -> bool
        ensures { result ≡ may_give self room }
    {
        let held = self.content(room);
        self.way == Way::Read && self.answered && held.0 == 0 && 0 < self.left.0
    }

    // May the card take a block: a write, the buffer full?
    #[tactic(auto, unfolding(crate::specs::Block::may_take))]
    fn may_take(self, room: usize) -> bool
        ensures { result ≡ may_take self room }
    {
        let held = self.content(room);
        self.way == Way::Write && held == self.block_bytes(room)
    }

    // The block fills the buffer; `give` has looked at its length.
    fn gave(self, buffer: &mut [u8], bytes: &[u8]) -> Pass
        requires { length bytes.now ≡ (block_of self.size (length buffer.old)).0 }
        ensures { (Ok result, buffer.new) ≡ passed_with (gave_of self buffer.old bytes.now) }
    {
        let full = self.block_bytes(buffer.len());
        put(buffer, 0, bytes);
        let left = self.left.fewer();
        Pass {
            count: full.0,
            dat: Dat::Runs(Transfer {
                left,
                held: full,
                ..self
            }),
            outcome: Outcome::Goes,
        }
    }

    // The block leaves the buffer; `take` has looked at the room.
    fn took(self, buffer: &[u8], room: &mut [u8]) -> Pass
        requires { (block_of self.size (length buffer.now)).0 ≤ length room.old }
        ensures { (Ok result, room.new) ≡ passed_with (took_of self buffer.now room.old) }
    {
        let full = self.block_bytes(buffer.len());
        put(room, 0, &buffer[..full.0 as usize]);
        let left = self.left.fewer();
        let next = self.stage.emptied(left);
        let emptied = Transfer {
            left,
            held: ByteCount(0),
            ..self
        };
        Pass {
            count: full.0,
            dat: emptied.after(next),
            outcome: next.outcome(),
        }
    }

    #[tactic(auto, unfolding(crate::specs::Block::give_of))]
    fn give(self, buffer: &mut [u8], bytes: &[u8]) -> Result<Pass, Refusal>
        ensures { (result, buffer.new) ≡ passed_with (give_of self buffer.old bytes.now) }
    {
        if !self.may_give(buffer.len()) {
            return Err(Refusal::OutOfTurn);
        }
        if bytes.len() != self.block_bytes(buffer.len()).0 as usize {
            return Err(Refusal::WrongLength);
        }
        Ok(self.gave(buffer, bytes))
    }

    #[tactic(auto, unfolding(crate::specs::Block::take_of))]
    fn take(self, buffer: &[u8], room: &mut [u8]) -> Result<Pass, Refusal>
        ensures { (result, room.new) ≡ passed_with (take_of self buffer.now room.old) }
    {
        if !self.may_take(buffer.len()) {
            return Err(Refusal::OutOfTurn);
        }
        if room.len() < self.block_bytes(buffer.len()).0 as usize {
            return Err(Refusal::WrongLength);
        }
        Ok(self.took(buffer, room))
    }
}

impl Dat {
    // The card gives a block. Refused, the DAT side and the buffer stay as they are.
    pub fn given(self, buffer: &mut [u8], bytes: &[u8]) -> Result<Pass, Refusal>
        ensures { (result, buffer.new) ≡ passed_with (given_of self buffer.old bytes.now) }
    {
        let Dat::Runs(t) = self else {
            return Err(Refusal::OutOfTurn);
        };
        t.give(buffer, bytes)
    }

    // The card takes a block, into the first bytes of the lent room. Refused, the DAT side and the room stay as they are.
    pub fn taken(self, buffer: &[u8], room: &mut [u8]) -> Result<Pass, Refusal>
        ensures { (result, room.new) ≡ passed_with (taken_of self buffer.now room.old) }
    {
        let Dat::Runs(t) = self else {
            return Err(Refusal::OutOfTurn);
        };
        t.take(buffer, room)
    }
}
