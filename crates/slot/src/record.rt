// The record of a slot, and the state of the controller that it spells.
ghost use Rattle.std.specs.Prelude.{◌≡◌};
ghost use Rattle.slot.specs.Record.{way_at, command_at, stage_at, transfer_at, dat_at, slot_of, command_part, stage_part, transfer_part, dat_part, record_of};

use controller::slot::{Command, Kind, Slot, Waiting};
use engine::transfer::{Dat, Stage, Transfer, Way};
use registers::block::Registers;
use table::fetch::Hand;
use terms::{BlockCount, ByteCount};

// The command side. `tag`: 0 idle, 1 waits, else halted; the rest tells of a command that waits, its response type as in 00Eh
// bits 1-0 and its two checks.
#[repr(C)]
#[derive(Clone, Copy, Default)]
pub struct CommandPart {
    pub tag: u8,
    pub kind: u8,
    pub crc: u8,
    pub index: u8,
}

// How the engine of a running transfer stands. `tag`: 0 no line in hand, 1 a line in hand, else stopped; the rest tells of that
// line.
#[repr(C)]
#[derive(Clone, Copy, Default)]
pub struct StagePart {
    pub tag: u8,
    pub last: u8,
    pub int: u8,
    pub rest: u32,
    pub at: u32,
}

// The DAT side. `tag`: 0 free, 1 busy, 2 a running transfer, 3 a halted busy, else a halted transfer. `way`: 0 read, else write.
#[repr(C)]
#[derive(Clone, Copy, Default)]
pub struct DatPart {
    pub tag: u8,
    pub way: u8,
    pub answered: u8,
    pub counted: u8,
    pub size: u16,
    pub left: u16,
    pub owed: u32,
    pub held: u32,
    pub stage: StagePart,
}

// One slot. A flag is down at 0 and up at any other number.
#[repr(C)]
#[derive(Clone, Copy)]
pub struct Record {
    pub registers: Registers,
    pub card: u8,
    pub level: u8,
    pub command: CommandPart,
    pub dat: DatPart,
}

// ---- the state that a record spells

impl From<CommandPart> for Command {
    ghost from_gives = { λ p command. command ≡ command_at p };

    fn from(p: CommandPart) -> Command {
        match p.tag {
            0 => Command::Idle,
            1 => Command::Waits(Waiting {
                kind: p.kind.into(),
                crc: p.crc != 0,
                index: p.index != 0,
            }),
            _ => Command::Halted,
        }
    }
}

impl From<StagePart> for Stage {
    ghost from_gives = { λ p stage. stage ≡ stage_at p };

    fn from(p: StagePart) -> Stage {
        match p.tag {
            0 => Stage::Fetching,
            1 => Stage::Moving(Hand {
                rest: ByteCount(p.rest),
                at: p.at,
                last: p.last != 0,
                int: p.int != 0,
            }),
            _ => Stage::Stopped,
        }
    }
}

impl DatPart {
    // The way of a transfer, running or halted.
    fn way(self) -> Way
        ensures { result ≡ way_at self.way }
    {
        if self.way == 0 { Way::Read } else { Way::Write }
    }
}

impl From<DatPart> for Transfer {
    ghost from_gives = { λ p t. t ≡ transfer_at p };

    fn from(p: DatPart) -> Transfer {
        Transfer {
            way: p.way(),
            answered: p.answered != 0,
            counted: p.counted != 0,
            size: p.size,
            left: BlockCount(p.left),
            owed: ByteCount(p.owed),
            held: ByteCount(p.held),
            stage: p.stage.into(),
        }
    }
}

impl From<DatPart> for Dat {
    ghost from_gives = { λ p dat. dat ≡ dat_at p };

    fn from(p: DatPart) -> Dat {
        match p.tag {
            0 => Dat::Free,
            1 => Dat::Busy {
                answered: p.answered != 0,
            },
            2 => Dat::Runs(p.into()),
            3 => Dat::Stuck,
            _ => Dat::Halted(p.way()),
        }
    }
}

// ---- the record that spells a state: what tells nothing is 0

impl From<Command> for CommandPart {
    ghost from_gives = { λ command p. p ≡ command_part command };

    fn from(command: Command) -> CommandPart {
        match command {
            Command::Idle => CommandPart::default(),
            Command::Waits(w) => CommandPart {
                tag: 1,
                kind: w.kind as u8,
                crc: w.crc.into(),
                index: w.index.into(),
            },
            Command::Halted => CommandPart {
                tag: 2,
                ..Default::default()
            },
        }
    }
}

impl From<Stage> for StagePart {
    ghost from_gives = { λ stage p. p ≡ stage_part stage };

    fn from(stage: Stage) -> StagePart {
        match stage {
            Stage::Fetching => StagePart::default(),
            Stage::Moving(hand) => StagePart {
                tag: 1,
                last: hand.last.into(),
                int: hand.int.into(),
                rest: hand.rest.0,
                at: hand.at,
            },
            Stage::Stopped => StagePart {
                tag: 2,
                ..Default::default()
            },
        }
    }
}

impl From<Transfer> for DatPart {
    ghost from_gives = { λ t p. p ≡ transfer_part t };

    fn from(t: Transfer) -> DatPart {
        DatPart {
            tag: 2,
            way: t.way as u8,
            answered: t.answered.into(),
            counted: t.counted.into(),
            size: t.size,
            left: t.left.0,
            owed: t.owed.0,
            held: t.held.0,
            stage: t.stage.into(),
        }
    }
}

impl From<Dat> for DatPart {
    ghost from_gives = { λ dat p. p ≡ dat_part dat };

    fn from(dat: Dat) -> DatPart {
        match dat {
            Dat::Free => DatPart::default(),
            Dat::Busy { answered } => DatPart {
                tag: 1,
                answered: answered.into(),
                ..Default::default()
            },
            Dat::Runs(t) => t.into(),
            Dat::Stuck => DatPart {
                tag: 3,
                ..Default::default()
            },
            Dat::Halted(way) => DatPart {
                tag: 4,
                way: way as u8,
                ..Default::default()
            },
        }
    }
}

impl Record {
    // The state that a record spells.
    pub fn slot(self) -> Slot
        ensures { result ≡ slot_of self }
    {
        Slot {
            registers: self.registers,
            card: self.card != 0,
            level: self.level != 0,
            command: self.command.into(),
            dat: self.dat.into(),
        }
    }

    // The record that spells a state.
    pub fn of(slot: Slot) -> Record
        ensures { result ≡ record_of slot }
    {
        Record {
            registers: slot.registers,
            card: slot.card.into(),
            level: slot.level.into(),
            command: slot.command.into(),
            dat: slot.dat.into(),
        }
    }
}
