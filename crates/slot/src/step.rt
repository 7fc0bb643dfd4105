// The steps on a record where it is kept. Each spells the record out, makes the controller's own step, and, if it is done,
// stores the record after it: a refusal writes no byte of it. The one-block buffer stands beside the record and is lent
// whole, so it cannot be too short. `slot_c` exports the steps.
ghost use Rattle.std.specs.Prelude.{◌≡◌};
ghost use Rattle.controller.specs.Slot.{power_on, line_now};
ghost use Rattle.slot.specs.Record.{slot_of, record_of};
ghost use Rattle.slot.specs.Step.{answer_of, made_answer, settled, read_of, write_of, in_of, out_of, respond_of, level_of, busy_over, data_error, given_of, taken_of, turn_of};

use crate::record::Record;
use controller::slot::{Done, Slot};
use registers::block::Reply;
use terms::Refusal;

// An answer as its number and its value.
#[repr(C)]
#[derive(Clone, Copy)]
pub struct Answer {
    pub number: u32,
    pub value: u32,
}

impl From<terms::Answer> for Answer {
    ghost from_gives = { λ a answer. answer ≡ answer_of a };

    fn from(a: terms::Answer) -> Answer {
        Answer {
            number: terms::number(a).into(),
            value: terms::value(a),
        }
    }
}

impl From<Result<Done, Refusal>> for Answer {
    ghost from_gives = { λ made answer. answer ≡ answer_of (made_answer made) };

    fn from(made: Result<Done, Refusal>) -> Answer {
        made.map(|done| done.value).into()
    }
}

impl Record {
    // The end of a step: the record is stored if the step is done. It is inlined, since for a call the whole slot would first
    // be laid out in memory.
    #[inline(always)]
    fn settle(&mut self, made: Result<Done, Refusal>) -> Answer
        ensures { (self.new ≡ (settled self.old made).after) × (result ≡ (settled self.old made).answer) }
    {
        if let Ok(done) = made {
            *self = Record::of(done.slot);
        }
        made.into()
    }

    // At start: no card, nothing waits, the DAT side is free.
    pub fn power_on() -> Record
        ensures { result ≡ record_of power_on }
    {
        Record::of(Slot::power_on())
    }

    // Is the interrupt line up?
    pub fn line(&self) -> bool
        ensures { result ≡ line_now (slot_of self.now) }
    {
        self.slot().line()
    }

    // A register is read.
    pub fn read(&self, offset: u32, width: u32) -> Answer
        ensures { result ≡ (read_of self.now offset width).answer }
    {
        self.slot().read(offset, width).into()
    }

    // A register is written.
    #[tactic(auto, using(crate::proofs::Settled::settled_is))]
    pub fn write(&mut self, offset: u32, width: u32, value: u32) -> Answer
        ensures { (self.new ≡ (write_of self.old offset width value).after) × (result ≡ (write_of self.old offset width value).answer) }
    {
        self.settle(self.slot().write(offset, width, value))
    }

    // A card comes in.
    pub fn card_in(&mut self) -> Answer
        ensures { (self.new ≡ (in_of self.old).after) × (result ≡ (in_of self.old).answer) }
    {
        self.settle(self.slot().card_in())
    }

    // The card goes out.
    pub fn card_out(&mut self) -> Answer
        ensures { (self.new ≡ (out_of self.old).after) × (result ≡ (out_of self.old).answer) }
    {
        self.settle(self.slot().card_out())
    }

    // A response: 0 good, 1 timeout, 2 CRC, 3 end bit, 4 index, with its four words.
    pub fn respond(&mut self, res: u32, first: u32, second: u32, third: u32, fourth: u32) -> Answer
        ensures { (self.new ≡ (respond_of self.old res first second third fourth).after) × (result ≡ (respond_of self.old res first second third fourth).answer) }
    {
        let words = Reply {
            first,
            second,
            third,
            fourth,
        };
        self.settle(self.slot().respond(res, words))
    }

    // The card's interrupt level: down at 0, else up.
    pub fn set_level(&mut self, up: u32) -> Answer
        ensures { (self.new ≡ (level_of self.old up).after) × (result ≡ (level_of self.old up).answer) }
    {
        self.settle(self.slot().set_level(up != 0))
    }

    // The busy of a response is over.
    pub fn busy_over(&mut self) -> Answer
        ensures { (self.new ≡ (busy_over self.old).after) × (result ≡ (busy_over self.old).answer) }
    {
        self.settle(self.slot().busy_over())
    }

    // A data error: 0 timeout, 1 CRC, 2 end bit.
    pub fn data_error(&mut self, number: u32) -> Answer
        ensures { (self.new ≡ (data_error self.old number).after) × (result ≡ (data_error self.old number).answer) }
    {
        self.settle(self.slot().data_error(number))
    }

    // The card gives a block.
    #[tactic(auto, using(crate::proofs::Settled::settled_is))]
    pub fn given(&mut self, buffer: &mut [u8; 512], block: &[u8]) -> Answer
        ensures { (self.new ≡ (given_of self.old buffer.old block.now).0.after) × (result ≡ (given_of self.old buffer.old block.now).0.answer) × (buffer.new ≡ (given_of self.old buffer.old block.now).1) }
    {
        self.settle(self.slot().given(buffer, block))
    }

    // The card takes a block, into the first bytes of the lent room.
    #[tactic(auto, using(crate::proofs::Settled::settled_is))]
    pub fn taken(&mut self, buffer: &[u8; 512], room: &mut [u8]) -> Answer
        ensures { (self.new ≡ (taken_of self.old buffer.now room.old).0.after) × (result ≡ (taken_of self.old buffer.now room.old).0.answer) × (room.new ≡ (taken_of self.old buffer.now room.old).1) }
    {
        self.settle(self.slot().taken(buffer, room))
    }

    // A turn of the engine, with the buffer and the lent memory.
    pub fn turn(&mut self, buffer: &mut [u8; 512], mem: &mut [u8]) -> Answer
        ensures { (self.new ≡ (turn_of self.old buffer.old mem.old).0.after) × (result ≡ (turn_of self.old buffer.old mem.old).0.answer) × (buffer.new ≡ (turn_of self.old buffer.old mem.old).1) × (mem.new ≡ (turn_of self.old buffer.old mem.old).2) }
    {
        self.settle(self.slot().turn(buffer, mem))
    }
}
