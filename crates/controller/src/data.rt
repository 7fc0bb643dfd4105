// The DAT side: blocks, busy over, data errors, turns.
ghost use Rattle.std.specs.Prelude.{◌≡◌, Ok};
ghost use Rattle.controller.specs.Slot.{done_of, done_with, done_over};
ghost use Rattle.controller.specs.Data.{counts_of, fallen_block, counted_down, outcome_at, ring_at, passed_as, given_of, taken_of, raised_step, busy_over, data_number, data_error_of, data_event, data_error, turn_of};

use crate::slot::{Done, Slot, raised_at};
use engine::block::Pass;
use engine::transfer::{Dat, Outcome, Transfer};
use registers::block::Registers;
use registers::interrupt::Event;
use terms::Refusal;

// How data can fail.
#[derive(Clone, Copy, PartialEq, Eq)]
pub enum DataError {
    Timeout = 0,
    Crc = 1,
    EndBit = 2,
}

impl TryFrom<u32> for DataError {
    type Error = Refusal;

    ghost try_from_gives = { λ n r. r ≡ data_error_of n };

    // The error by its number; any other number is out of turn.
    fn try_from(n: u32) -> Result<Self, Refusal> {
        match n {
            0 => Ok(DataError::Timeout),
            1 => Ok(DataError::Crc),
            2 => Ok(DataError::EndBit),
            _ => Err(Refusal::OutOfTurn),
        }
    }
}

impl DataError {
    // The event that it raises.
    fn event(self) -> Event
        ensures { result ≡ data_event (data_number self) }
    {
        match self {
            DataError::Timeout => Event::DataTimeout,
            DataError::Crc => Event::DataCrc,
            DataError::EndBit => Event::DataEndBit,
        }
    }
}

// Does Block Count count the blocks of this use?
fn counts_of(dat: Dat) -> bool
    ensures { result ≡ counts_of dat }
{
    matches!(dat, Dat::Runs(Transfer { counted: true, .. }))
}

// 004h to 007h with one block less.
fn fallen_block(block: u32) -> u32
    ensures { result ≡ fallen_block block }
{
    if block / 65536 == 0 {
        block
    } else {
        block - 65536
    }
}

// Block Count falls by one, where it counts.
fn counted_down(dat: Dat, r: Registers) -> Registers
    ensures { result ≡ counted_down dat r }
{
    if counts_of(dat) {
        r.with_block(fallen_block(r.setup.block))
    } else {
        r
    }
}

// What the end of a transfer raises, and the byte of an error in 054h.
fn outcome_at(outcome: Outcome, r: Registers) -> Registers
    ensures { result ≡ outcome_at outcome r }
{
    match outcome {
        Outcome::Goes => r,
        Outcome::Completes => raised_at(r, Event::TransferComplete),
        Outcome::Fails(failure) => raised_at(r.with_fault(failure.byte()), Event::AdmaError),
    }
}

// DMA Interrupt, where a line with Int was done.
fn ring_at(int: bool, r: Registers) -> Registers
    ensures { result ≡ ring_at int r }
{
    if int {
        raised_at(r, Event::DmaInterrupt)
    } else {
        r
    }
}

impl Slot {
    // A block event is done: Block Count falls where it counts, and the end is told.
    fn passed(self, pass: Pass) -> Done
        ensures { Ok result ≡ done_of (passed_as self (record { answer = Ok pass.count; dat = pass.dat; outcome = pass.outcome })) }
    {
        let slot = Slot {
            registers: outcome_at(pass.outcome, counted_down(self.dat, self.registers)),
            dat: pass.dat,
            ..self
        };
        slot.done(pass.count)
    }

    // The card gives a block. Refused, the buffer too stays as it is.
    pub fn given(self, buffer: &mut [u8], bytes: &[u8]) -> Result<Done, Refusal>
        ensures { (result, buffer.new) ≡ done_with (given_of self buffer.old bytes.now) }
    {
        let pass = self.dat.given(buffer, bytes)?;
        Ok(self.passed(pass))
    }

    // The card takes a block, into the first bytes of the lent room. Refused, the room too stays as it is.
    pub fn taken(self, buffer: &[u8], room: &mut [u8]) -> Result<Done, Refusal>
        ensures { (result, room.new) ≡ done_with (taken_of self buffer.now room.old) }
    {
        let pass = self.dat.taken(buffer, room)?;
        Ok(self.passed(pass))
    }

    // The DAT side is as given, and an event is raised.
    fn told(self, dat: Dat, event: Event) -> Done
        ensures { Ok result ≡ done_of (raised_step self dat event) }
    {
        let slot = Slot {
            registers: raised_at(self.registers, event),
            dat,
            ..self
        };
        slot.done(0)
    }

    // The busy of a response is over.
    #[tactic(auto, unfolding(crate::specs::Data::busy_over))]
    pub fn busy_over(self) -> Result<Done, Refusal>
        ensures { result ≡ done_of (busy_over self) }
    {
        let Dat::Busy { answered: true } = self.dat else {
            return Err(Refusal::OutOfTurn);
        };
        Ok(self.told(Dat::Free, Event::TransferComplete))
    }

    // A data error: 0 timeout, 1 CRC, 2 end bit; a busy knows the first alone.
    #[tactic(auto, unfolding(crate::specs::Data::data_error))]
    pub fn data_error(self, n: u32) -> Result<Done, Refusal>
        ensures { result ≡ done_of (data_error self n) }
    {
        let dat = match self.dat {
            Dat::Busy { answered: true } if n == DataError::Timeout as u32 => Dat::Stuck,
            Dat::Runs(t) if t.answered => Dat::Halted(t.way),
            _ => return Err(Refusal::OutOfTurn),
        };
        let error = DataError::try_from(n)?;
        Ok(self.told(dat, error.event()))
    }

    // A turn of the engine, with the buffer and the lent memory. Refused, both stay as they are.
    #[tactic(auto, using(crate::proofs::Turned::turn_told))]
    pub fn turn(self, buffer: &mut [u8], mem: &mut [u8]) -> Result<Done, Refusal>
        ensures { (result, buffer.new, mem.new) ≡ done_over (turn_of self buffer.old mem.old) }
    {
        let turn = self.dat.turn(self.registers.adma.low, buffer, mem)?;
        let rung = ring_at(turn.int, self.registers.with_low(turn.table));
        let slot = Slot {
            registers: outcome_at(turn.outcome, rung),
            dat: turn.dat,
            ..self
        };
        Ok(slot.done(turn.count))
    }
}
