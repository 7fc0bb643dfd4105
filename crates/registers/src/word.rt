// Single words: what each stores of a write, and those that show what lies outside the block.
ghost use Rattle.std.specs.Prelude.{◌≡◌};
ghost use Rattle.registers.specs.Word.{stored, inhibits, mode_kept, stays, order_after, host_after, clock_after, in_use, present_of, version_of};

use crate::bits::{less, replaced};
use crate::place::{Access, Edit};

// How the DAT side is used, running or halted: each as bits 1, 2, 8 and 9 of Present State show it.
#[derive(Clone, Copy, PartialEq, Eq)]
pub enum Use {
    Free = 0,
    Busy = 0x006,
    Write = 0x106,
    Read = 0x206,
}

// What the block must be told: whether a command waits or is halted, the use of the DAT side, whether a card is in, and its
// interrupt level.
#[derive(Clone, Copy)]
pub struct Facts {
    pub command: bool,
    pub dat: Use,
    pub card: bool,
    pub level: bool,
}

// A stored word after a write: of the bytes written, the bits of `mask`.
pub(crate) fn stored_word(mask: u32, e: Edit, old: u32) -> u32
    ensures { result ≡ stored mask e old }
{
    replaced(old, e.lanes, e.bits & mask)
}

// Command Inhibit (DAT): the DAT side is in use or halted.
pub fn is_used(dat: Use) -> bool
    ensures { result ≡ in_use dat }
{
    dat != Use::Free
}

impl Access {
    // Does Command Inhibit (DAT) forbid to write it?
    pub fn is_inhibited(self, dat: Use) -> bool
        ensures { result ≡ inhibits dat self.offset self.width }
    {
        is_used(dat) && self.is_guarded()
    }
}

// While DAT is inhibited the mode half is left out of a write.
fn mode_kept(inhibited: bool, e: Edit) -> Edit
    ensures { result ≡ mode_kept inhibited e }
{
    if inhibited {
        Edit {
            lanes: less(e.lanes, 0xFFFF),
            bits: less(e.bits, 0xFFFF),
        }
    } else {
        e
    }
}

// A bit that stays 1 only with a card in and with all the bits that it needs.
#[tactic(auto, unfolding(crate::specs::Word::stays))]
fn kept(card: bool, needs: u32, bit: u32, bits: u32) -> u32
    ensures { result ≡ stays card needs bit bits }
{
    if card && bits & needs == needs {
        bits
    } else {
        less(bits, bit)
    }
}

// Present State, 024h.
pub(crate) fn present(f: Facts) -> u32
    ensures { result ≡ present_of f }
{
    0x01FA0000 + u32::from(f.command) + f.dat as u32 + 0x50000 * u32::from(f.card)
}

// 0FCh and 0FEh.
pub(crate) fn version(line: bool) -> u32
    ensures { result ≡ version_of line }
{
    0x10000 + u32::from(line)
}

// 00Ch to 00Fh after a write.
pub(crate) fn order_after(inhibited: bool, e: Edit, old: u32) -> u32
    ensures { result ≡ order_after inhibited e old }
{
    stored_word(0x3FFB0037, mode_kept(inhibited, e), old)
}

// 028h to 02Bh after a write.
pub(crate) fn host_after(card: bool, e: Edit, old: u32) -> u32
    ensures { result ≡ host_after card e old }
{
    replaced(old, e.lanes, kept(card, 0xE00, 0x100, e.bits & 0x07000F1F))
}

// 02Ch to 02Eh after a write.
pub(crate) fn clock_after(card: bool, e: Edit, old: u32) -> u32
    ensures { result ≡ clock_after card e old }
{
    replaced(old, e.lanes, kept(card, 1, 4, e.bits & 0x000FFF05))
}
