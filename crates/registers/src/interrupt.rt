// The interrupt bits: status, enables, signal enables, and the line.
ghost use Rattle.std.specs.Prelude.{◌≡◌};
ghost use Rattle.registers.specs.Interrupt.{event_set, raised, acknowledged, enabling, signalling, forced, card_bit, error_bit, shown_status, line_of};

use crate::bits::less;
use crate::place::Edit;
use crate::word::stored_word;

// What a step can raise, each with its bit: Normal as in 030h, Error 16 above its place in 032h. The list is closed: bit 8,
// which follows the card's level, and bit 15, which follows the errors, are no events, and block gap and buffer port have
// none yet.
#[derive(Clone, Copy)]
pub enum Event {
    CommandComplete = 0,
    TransferComplete = 1,
    DmaInterrupt = 3,
    CardInsertion = 6,
    CardRemoval = 7,
    CommandTimeout = 16,
    CommandCrc = 17,
    CommandEndBit = 18,
    CommandIndex = 19,
    DataTimeout = 20,
    DataCrc = 21,
    DataEndBit = 22,
    AdmaError = 25,
}

// 030h to 03Bh: Normal in the low half of each word, Error in the high half. Bits 8 and 15 of the status are derived.
#[repr(C)]
#[derive(Clone, Copy, Default)]
pub struct Interrupts {
    pub status: u32,
    pub enabled: u32,
    pub signal: u32,
}

// The set of an event's bit alone.
fn event_set(event: Event) -> u32
    ensures { result ≡ event_set event }
{
    1 << event as u32
}

impl Interrupts {
    // Sets status bits, where they are enabled.
    fn set(mut self, bits: u32) -> Interrupts
        ensures { result ≡ raised bits self }
    {
        self.status |= bits & self.enabled;
        self
    }

    // An event sets its status bit only if its status enable is 1.
    pub fn raise(self, event: Event) -> Interrupts
        ensures { result ≡ raised (event_set event) self }
    {
        self.set(event_set(event))
    }

    // Writing 1 clears, 0 keeps.
    pub fn acknowledge(mut self, bits: u32) -> Interrupts
        ensures { result ≡ acknowledged bits self }
    {
        self.status = less(self.status, bits);
        self
    }

    // An event's bit is cleared, as the resets do.
    pub fn clear(self, event: Event) -> Interrupts
        ensures { result ≡ acknowledged (event_set event) self }
    {
        self.acknowledge(event_set(event))
    }

    // Clearing an enable clears the bit; one that is written as it was clears nothing.
    pub fn enable(mut self, e: Edit) -> Interrupts
        ensures { result ≡ enabling e self }
    {
        let now = stored_word(0x03FF01FF, e, self.enabled);
        self.status = less(self.status, less(self.enabled, now));
        self.enabled = now;
        self
    }

    pub fn signals(mut self, e: Edit) -> Interrupts
        ensures { result ≡ signalling e self }
    {
        self.signal = stored_word(0x03FF01FF, e, self.signal);
        self
    }

    // Force Event, 052h: its bits stand in the word where those of 032h do.
    pub fn force(self, e: Edit) -> Interrupts
        ensures { result ≡ forced e self }
    {
        self.set(e.bits & 0x03FF0000)
    }

    // Bit 8: the card's level while it is enabled.
    fn card_bit(self, level: bool) -> u32
        ensures { result ≡ card_bit level self }
    {
        if level { self.enabled & 0x100 } else { 0 }
    }

    // Bit 15: 1 while any error bit stands.
    fn error_bit(self) -> u32
        ensures { result ≡ error_bit self }
    {
        if 0xFFFF < self.status { 0x8000 } else { 0 }
    }

    // 030h and 032h as they read.
    #[tactic(auto, unfolding(crate::specs::Interrupt::shown_status))]
    pub fn shown(self, level: bool) -> u32
        ensures { result ≡ shown_status level self }
    {
        self.status | self.card_bit(level) | self.error_bit()
    }

    // The line is up exactly when some bit of 030h bits 8-0 or 032h stands with its signal enable 1.
    #[tactic(auto, unfolding(crate::specs::Interrupt::line_of))]
    pub fn line(self, level: bool) -> bool
        ensures { result ≡ line_of level self }
    {
        self.shown(level) & self.signal & 0xFFFF01FF != 0
    }
}
