// Where an access goes: the word, and the bytes of it, that an offset and a width name.
ghost use Rattle.std.specs.Prelude.{◌≡◌, ◌≤◌, ◌<◌, ◌+◌};
ghost use Rattle.registers.specs.Place.{Place, legal, word_at, place_of, cut_of, fits_of, ones_of, aimed, target_of, inside, touches, guarded, issues};

use std::marker::Model;

// The access limit: offset + width reaches at most this.
pub const LIMIT: u32 = 256;

// A 32-bit word that takes writes; beside each name the registers in it.
#[derive(Clone, Copy)]
pub enum Taker {
    // 000h
    System,
    // 004h Block Size, 006h Block Count
    Block,
    // 008h
    Argument,
    // 00Ch Transfer Mode, 00Eh Command
    Order,
    // 028h Host Control, 029h Power Control, 02Bh Wakeup Control
    Host,
    // 02Ch Clock Control, 02Eh Timeout Control, 02Fh Software Reset
    Clock,
    // 030h, 032h Interrupt Status
    Status,
    // 034h, 036h Interrupt Status Enable
    Enabled,
    // 038h, 03Ah Interrupt Signal Enable
    Signal,
    // 052h Force Event
    Force,
    // 058h, the engine's place in the table
    Low,
    // 05Ch
    High,
}

// A word that ignores writes.
#[derive(Clone, Copy)]
pub enum Teller {
    // 010h to 01Fh Response
    First,
    Second,
    Third,
    Fourth,
    // 024h Present State
    Present,
    // 040h Capabilities
    Ability,
    // 054h ADMA Error Status
    Fault,
    // 0FCh Slot Interrupt Status, 0FEh Version
    Version,
    // not carried
    Nothing,
}

#[derive(Clone, Copy)]
pub enum Word {
    Takes(Taker),
    Tells(Teller),
}

// An access: the offset of its first byte, and how many bytes it has.
#[derive(Clone, Copy)]
pub struct Access {
    pub offset: u32,
    pub width: u32,
}

// A place, as an access names it: bytes `lane` to `lane + width - 1` of a word, which has 4.
#[derive(Clone, Copy)]
pub struct Span {
    word: Word,
    lane: u32,
    width: u32,
}

impl Model for Span {
    ghost Value = { Place };

    ghost view = { λ s. record { word = s.word; lane = s.lane; width = s.width } };

    ghost invariant = { λ s. (0 < s.width) × (s.lane + s.width ≤ 4) };

    ghost inverse = { λ p. record { word = p.word; lane = p.lane; width = p.width } };
}

// What a write does to a word: the bits of the bytes it writes, and those among them that it sets.
#[derive(Clone, Copy)]
pub struct Edit {
    pub lanes: u32,
    pub bits: u32,
}

// What a write names: a word, and what becomes of it.
#[derive(Clone, Copy)]
pub struct Target {
    pub word: Word,
    pub edit: Edit,
}

// The word at an offset that is a multiple of 4.
#[tactic(auto, unfolding(crate::specs::Place::word_at, crate::specs::Place::words, crate::specs::Place::find))]
fn word_at(base: u32) -> Word
    ensures { result ≡ word_at base }
{
    match base {
        0x00 => Word::Takes(Taker::System),
        0x04 => Word::Takes(Taker::Block),
        0x08 => Word::Takes(Taker::Argument),
        0x0C => Word::Takes(Taker::Order),
        0x10 => Word::Tells(Teller::First),
        0x14 => Word::Tells(Teller::Second),
        0x18 => Word::Tells(Teller::Third),
        0x1C => Word::Tells(Teller::Fourth),
        0x24 => Word::Tells(Teller::Present),
        0x28 => Word::Takes(Taker::Host),
        0x2C => Word::Takes(Taker::Clock),
        0x30 => Word::Takes(Taker::Status),
        0x34 => Word::Takes(Taker::Enabled),
        0x38 => Word::Takes(Taker::Signal),
        0x40 => Word::Tells(Teller::Ability),
        0x50 => Word::Takes(Taker::Force),
        0x54 => Word::Tells(Teller::Fault),
        0x58 => Word::Takes(Taker::Low),
        0x5C => Word::Takes(Taker::High),
        0xFC => Word::Tells(Teller::Version),
        _ => Word::Tells(Teller::Nothing),
    }
}

// Is the width 1, 2 or 4?
fn legal_width(width: u32) -> bool
    ensures { result ≡ legal width }
{
    matches!(width, 1 | 2 | 4)
}

impl Span {
    // The word whose bytes they are.
    pub fn word(self) -> Word
        ensures { result ≡ self.word }
    {
        self.word
    }

    // The first of its bytes, from the lowest of the word.
    pub fn lane(self) -> u32
        ensures { result ≡ self.lane }
    {
        self.lane
    }

    // How many bytes it has.
    pub fn width(self) -> u32
        ensures { result ≡ self.width }
    {
        self.width
    }

    // As many bytes of ones as the place has.
    #[tactic(auto, using(crate::proofs::Lanes::ones_shr), unfolding(crate::specs::Place::ones_of))]
    fn ones(self) -> u32
        ensures { result ≡ ones_of self.width }
    {
        0xFFFFFFFF >> (32 - 8 * self.width)
    }

    // Does the value fit the place?
    #[tactic(auto, using(crate::proofs::Lanes::leb_ones), unfolding(crate::specs::Place::ones_of))]
    fn fits(self, value: u32) -> bool
        ensures { result ≡ fits_of self.width value }
    {
        value <= self.ones()
    }

    // Its bytes of what the word shows, as a number.
    #[tactic(auto, using(crate::proofs::Lanes::and_ones), unfolding(crate::specs::Place::cut_of))]
    pub(crate) fn cut(self, word: u32) -> u32
        ensures { result ≡ cut_of word self.lane self.width }
    {
        (word >> (8 * self.lane)) & self.ones()
    }

    // What a value does to the word, if it fits the place.
    #[tactic(auto, using(crate::proofs::Lanes::exact), unfolding(crate::specs::Place::lanes_of, crate::specs::Place::placed_of))]
    fn aim(self, value: u32) -> Option<Target>
        ensures { result ≡ aimed value (Some self) }
    {
        if !self.fits(value) {
            return None;
        }
        let shift = 8 * self.lane;
        Some(Target {
            word: self.word,
            edit: Edit {
                lanes: self.ones() << shift,
                bits: value << shift,
            },
        })
    }
}

impl Access {
    // The place that it names, if it names one.
    #[tactic(auto, using(crate::proofs::Lanes::legal_spans), unfolding(crate::specs::Place::place_of))]
    pub fn place(self) -> Option<Span>
        ensures { result ≡ place_of self.offset self.width }
    {
        if !legal_width(self.width)
            || self.offset % self.width != 0
            || LIMIT - self.width < self.offset
        {
            return None;
        }
        Some(Span {
            word: word_at(self.offset / 4 * 4),
            lane: self.offset % 4,
            width: self.width,
        })
    }

    // What a write of a value names: one too big for the width names no place either.
    #[tactic(auto, unfolding(crate::specs::Place::target_of))]
    pub fn target(self, value: u32) -> Option<Target>
        ensures { result ≡ target_of self.offset self.width value }
    {
        self.place()?.aim(value)
    }

    // Does it lie wholly inside `low` to `high`?
    fn lies_inside(self, low: u32, high: u32) -> bool
        ensures { result ≡ inside low high self.offset self.width }
    {
        low <= self.offset && u64::from(self.offset) + u64::from(self.width) <= u64::from(high) + 1
    }

    // Is `byte` one of its bytes?
    pub fn touches(self, byte: u32) -> bool
        ensures { result ≡ touches byte self.offset self.width }
    {
        self.offset <= byte && byte - self.offset < self.width
    }

    // Is it one that Command Inhibit (DAT) forbids to write?
    #[tactic(auto, unfolding(crate::specs::Place::guarded))]
    pub fn is_guarded(self) -> bool
        ensures { result ≡ guarded self.offset self.width }
    {
        self.lies_inside(0x04, 0x07) || self.lies_inside(0x0C, 0x0D)
    }

    // Does a write of it issue a command?
    pub fn is_command(self) -> bool
        ensures { result ≡ issues self.offset self.width }
    {
        self.touches(0x0F)
    }
}
