// A command: what it asks for, whether it is refused, and what issuing it does.
ghost use Rattle.std.specs.Prelude.{◌≡◌};
ghost use Rattle.controller.specs.Slot.{done_of};
ghost use Rattle.controller.specs.Command.{class_of, request_of, is_abort, uses_dat, unfit_data, not_carried, blocks_asked, way_asked, ordinary_dat, dat_issued, judge_of, issue_of, command_step};

use crate::slot::{Command, Done, Kind, Slot, Waiting, halted_dat, is_occupied, use_of};
use engine::transfer::{Dat, Stage, Transfer, Way};
use registers::block::Registers;
use registers::place::{Edit, Taker, Word};
use registers::word::is_used;
use terms::{Answer, BlockCount, ByteCount, Refusal};

// The largest block, in bytes.
pub const LARGEST: u16 = 512;

// The command types, 00Eh bits 7-6: 00b, 01b, 10b and 11b.
#[derive(Clone, Copy, PartialEq, Eq)]
pub enum Class {
    Normal = 0,
    Suspend = 1,
    Resume = 2,
    Abort = 3,
}

impl From<u8> for Class {
    ghost from_gives = { λ n class. class ≡ class_of n };

    // The command type by its number.
    fn from(n: u8) -> Class {
        match n {
            0 => Class::Normal,
            1 => Class::Suspend,
            2 => Class::Resume,
            _ => Class::Abort,
        }
    }
}

// What a command asks for, by Command, Transfer Mode, Block Size, Block Count and DMA Select as they would stand.
#[derive(Clone, Copy)]
pub struct Request {
    pub waiting: Waiting,
    pub data: bool,
    pub class: Class,
    pub dma: bool,
    pub counts: bool,
    pub auto: bool,
    pub reads: bool,
    pub multi: bool,
    pub adma: bool,
    pub size: u16,
    pub count: BlockCount,
}

// What the registers ask for.
#[tactic(auto, unfolding(crate::specs::Command::request_of))]
fn request_of(r: Registers) -> Request
    ensures { result ≡ request_of r }
{
    let order = r.command();
    let mode = r.mode();
    Request {
        waiting: Waiting {
            kind: Kind::from((order % 4) as u8),
            crc: order / 8 % 2 == 1,
            index: order / 16 % 2 == 1,
        },
        data: order / 32 % 2 == 1,
        class: Class::from((order / 64 % 4) as u8),
        dma: mode % 2 == 1,
        counts: mode / 2 % 2 == 1,
        auto: mode / 4 % 2 == 1,
        reads: mode / 16 % 2 == 1,
        multi: mode / 32 % 2 == 1,
        adma: r.dma_select() == 2,
        size: r.block_size(),
        count: r.block_count(),
    }
}

impl Request {
    fn is_abort(self) -> bool
        ensures { result ≡ is_abort self }
    {
        self.class == Class::Abort
    }

    // With data, or with the busy of type 11b.
    fn uses_dat(self) -> bool
        ensures { result ≡ uses_dat self }
    {
        self.data || self.waiting.kind == Kind::ShortBusy
    }

    // A setting of a data command that is not carried.
    fn unfit_data(self) -> bool
        ensures { result ≡ unfit_data self }
    {
        self.waiting.kind != Kind::Short
            || !self.dma
            || !self.adma
            || self.auto
            || self.size == 0
            || LARGEST < self.size
            || self.multi && (!self.counts || self.count.0 == 0)
    }

    // A setting that is not carried.
    fn not_carried(self) -> bool
        ensures { result ≡ not_carried self }
    {
        matches!(self.class, Class::Suspend | Class::Resume)
            || self.data && (self.is_abort() || self.unfit_data())
    }

    // B: 1 without Multi, Block Count with it.
    fn blocks_asked(self) -> BlockCount
        ensures { result ≡ blocks_asked self }
    {
        if self.multi {
            self.count
        } else {
            BlockCount(1)
        }
    }

    fn way_asked(self) -> Way
        ensures { result ≡ way_asked self }
    {
        if self.reads { Way::Read } else { Way::Write }
    }

    // The DAT side once an ordinary command has issued: its data, its busy, or as it was.
    fn ordinary_dat(self, dat: Dat) -> Dat
        ensures { result ≡ ordinary_dat self dat }
    {
        if self.data {
            let left = self.blocks_asked();
            Dat::Runs(Transfer {
                way: self.way_asked(),
                answered: false,
                counted: self.multi,
                size: self.size,
                left,
                owed: left.times(self.size),
                held: ByteCount(0),
                stage: Stage::Fetching,
            })
        } else if self.waiting.kind == Kind::ShortBusy {
            Dat::Busy { answered: false }
        } else {
            dat
        }
    }

    // The DAT side once the command has issued: Abort halts any use of it.
    fn dat_issued(self, dat: Dat) -> Dat
        ensures { result ≡ dat_issued self dat }
    {
        if self.is_abort() && is_used(use_of(dat)) {
            halted_dat(dat)
        } else {
            self.ordinary_dat(dat)
        }
    }
}

impl Slot {
    // Is a command refused: 3, 4, 5 and 6, in this order?
    fn judge(self, q: Request, powered: bool) -> Answer
        ensures { result ≡ judge_of self q powered }
    {
        if is_occupied(self.command) {
            return Err(Refusal::CommandInhibited);
        }
        if q.uses_dat() && !q.is_abort() && is_used(use_of(self.dat)) {
            return Err(Refusal::DatInUse);
        }
        if !powered {
            return Err(Refusal::Unpowered);
        }
        if q.not_carried() {
            return Err(Refusal::NotCarried);
        }
        Ok(0)
    }

    // The command is issued: the registers as they would stand, a command that waits, and the DAT side.
    fn issue(self, r: Registers, q: Request) -> Slot
        ensures { result ≡ issue_of self r q }
    {
        Slot {
            registers: r,
            command: Command::Waits(q.waiting),
            dat: q.dat_issued(self.dat),
            ..self
        }
    }

    // A write that issues a command: judged by the registers as they would stand; refused, it stores nothing.
    #[tactic(auto, unfolding(crate::specs::Command::command_step))]
    pub(crate) fn command_step(self, e: Edit) -> Result<Done, Refusal>
        ensures { result ≡ done_of (command_step self e) }
    {
        let r = self
            .registers
            .take(Word::Takes(Taker::Order), e, self.facts());
        let q = request_of(r);
        let value = self.judge(q, r.bus_clock() && r.bus_power())?;
        Ok(self.issue(r, q).done(value))
    }
}
