// Software Reset, 02Fh: which resets a write asks for, and what each does to the block.
ghost use Rattle.std.specs.Prelude.{◌≡◌};
ghost use Rattle.registers.specs.Reset.{reset_bits, resets_of, reset_command, reset_data, reset_with};

use crate::bits::bit;
use crate::block::Registers;
use crate::interrupt::Event;
use crate::place::{Access, Edit};

// Which of the three bits a write sets.
#[derive(Clone, Copy, Default)]
pub struct Resets {
    pub all: bool,
    pub command: bool,
    pub data: bool,
}

// The bits of 02Fh, the highest byte of its word, that a write to that word sets.
pub fn reset_bits(e: Edit) -> Resets
    ensures { result ≡ reset_bits e }
{
    Resets {
        all: bit(e.bits, 24),
        command: bit(e.bits, 25),
        data: bit(e.bits, 26),
    }
}

impl Access {
    // What a write of it resets: nothing where it does not touch 02Fh.
    pub fn resets(self, e: Edit) -> Resets
        ensures { result ≡ resets_of self.offset self.width e }
    {
        if self.touches(0x2F) {
            reset_bits(e)
        } else {
            Resets::default()
        }
    }
}

impl Registers {
    // Bit 1 clears Command Complete.
    pub fn reset_command(self) -> Registers
        ensures { result ≡ reset_command self }
    {
        self.with_interrupts(self.interrupts.clear(Event::CommandComplete))
    }

    // Bit 2 clears Transfer Complete.
    pub fn reset_data(self) -> Registers
        ensures { result ≡ reset_data self }
    {
        self.with_interrupts(self.interrupts.clear(Event::TransferComplete))
    }

    // The block after resets: bit 0 outdoes the others, bits 1 and 2 come one after the other.
    #[tactic(auto, unfolding(crate::specs::Reset::reset_with))]
    pub fn reset(self, which: Resets) -> Registers
        ensures { result ≡ reset_with which self }
    {
        if which.all {
            return Registers::power_on();
        }
        let r = if which.command {
            self.reset_command()
        } else {
            self
        };
        if which.data { r.reset_data() } else { r }
    }
}
