// The slot: its registers, its card, the command that waits, and the use of the DAT side.
ghost use Rattle.std.specs.Prelude.{◌≡◌, Ok};
ghost use Rattle.controller.specs.Slot.{power_on, use_of, occupied, facts_of, line_now, awaited_halts, halted_dat, halted_command, answered_dat, raised_at, stepped_as, done_of};
ghost use Rattle.controller.specs.Command.{kind_of};

use engine::transfer::{Dat, Transfer, Way};
use registers::block::Registers;
use registers::interrupt::Event;
use registers::word::{Facts, Use};

// The response types of a command, 00Eh bits 1-0: 00b, 01b, 10b and 11b.
#[derive(Clone, Copy, PartialEq, Eq)]
pub enum Kind {
    Silent = 0,
    Long = 1,
    Short = 2,
    ShortBusy = 3,
}

impl From<u8> for Kind {
    ghost from_gives = { λ n kind. kind ≡ kind_of n };

    // The response type by its number.
    fn from(n: u8) -> Kind {
        match n {
            0 => Kind::Silent,
            1 => Kind::Long,
            2 => Kind::Short,
            _ => Kind::ShortBusy,
        }
    }
}

// A command that waits: its response type, and the checks that its response goes through.
#[derive(Clone, Copy)]
pub struct Waiting {
    pub kind: Kind,
    pub crc: bool,
    pub index: bool,
}

// The command side: free, a command that waits for its response, or halted.
#[derive(Clone, Copy)]
pub enum Command {
    Idle,
    Waits(Waiting),
    Halted,
}

#[derive(Clone, Copy)]
pub struct Slot {
    pub registers: Registers,
    pub card: bool,
    pub level: bool,
    pub command: Command,
    pub dat: Dat,
}

// What a step that is done gives: its value, and the slot after it. A refused one gives neither: the slot stays as it is.
#[derive(Clone, Copy)]
pub struct Done {
    pub value: u32,
    pub slot: Slot,
}

// The use of the DAT side, as Present State shows it.
pub(crate) fn use_of(dat: Dat) -> Use
    ensures { result ≡ use_of dat }
{
    match dat {
        Dat::Free => Use::Free,
        Dat::Busy { .. } | Dat::Stuck => Use::Busy,
        Dat::Runs(Transfer { way: Way::Read, .. }) | Dat::Halted(Way::Read) => Use::Read,
        Dat::Runs(
            Transfer {
                way: Way::Write,
                ..
            },
        )
        | Dat::Halted(Way::Write) => Use::Write,
    }
}

// Command Inhibit (CMD): a command waits or is halted.
pub(crate) fn is_occupied(command: Command) -> bool
    ensures { result ≡ occupied command }
{
    !matches!(command, Command::Idle)
}

// A command that waits is halted.
pub(crate) fn halted_command(command: Command) -> Command
    ensures { result ≡ halted_command command }
{
    match command {
        Command::Idle => Command::Idle,
        Command::Waits(_) | Command::Halted => Command::Halted,
    }
}

// Any use of the DAT side is halted.
pub(crate) fn halted_dat(dat: Dat) -> Dat
    ensures { result ≡ halted_dat dat }
{
    match dat {
        Dat::Free => Dat::Free,
        Dat::Busy { .. } | Dat::Stuck => Dat::Stuck,
        Dat::Runs(Transfer { way, .. }) | Dat::Halted(way) => Dat::Halted(way),
    }
}

// A use of the DAT side that awaits its response is halted: no other is that command's own.
pub(crate) fn awaited_halts(dat: Dat) -> Dat
    ensures { result ≡ awaited_halts dat }
{
    match dat {
        Dat::Busy { answered: false } => Dat::Stuck,
        Dat::Runs(t) if !t.answered => Dat::Halted(t.way),
        other => other,
    }
}

// The response of a use of the DAT side is in.
pub(crate) fn answered_dat(dat: Dat) -> Dat
    ensures { result ≡ answered_dat dat }
{
    match dat {
        Dat::Busy { .. } => Dat::Busy { answered: true },
        Dat::Runs(t) => Dat::Runs(t.respond()),
        other => other,
    }
}

impl Slot {
    // At start: no card, nothing waits, the DAT side is free.
    pub fn power_on() -> Slot
        ensures { result ≡ power_on }
    {
        Slot {
            registers: Registers::power_on(),
            card: false,
            level: false,
            command: Command::Idle,
            dat: Dat::Free,
        }
    }

    // What the register block is told.
    pub(crate) fn facts(self) -> Facts
        ensures { result ≡ facts_of self }
    {
        Facts {
            command: is_occupied(self.command),
            dat: use_of(self.dat),
            card: self.card,
            level: self.level,
        }
    }

    // Is the interrupt line up?
    pub fn line(self) -> bool
        ensures { result ≡ line_now self }
    {
        self.registers.interrupts.line(self.level)
    }

    // The slot after a step that is done, with the step's value.
    pub(crate) fn done(self, value: u32) -> Done
        ensures { Ok result ≡ done_of (stepped_as (Ok value) self) }
    {
        Done { value, slot: self }
    }
}

// An event is raised in the register block.
pub(crate) fn raised_at(r: Registers, event: Event) -> Registers
    ensures { result ≡ raised_at event r }
{
    r.with_interrupts(r.interrupts.raise(event))
}
