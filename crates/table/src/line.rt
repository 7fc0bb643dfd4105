// A line as a part of the lent memory, and the readers of its fields.
ghost use Rattle.std.specs.Prelude.{◌≡◌, ◌<◌};
ghost use Rattle.table.specs.Line.{line_bytes, byte_of, half_of, length_of, address_of, flags_of, read_of, act_of};
ghost use Rattle.terms.specs.Counts.{bytes};

use crate::memory::in_memory;
use terms::ByteCount;

// The bytes of a line.
pub const SIZE: u32 = 8;

// The five flags of byte 0.
#[derive(Clone, Copy)]
pub struct Flags {
    pub valid: bool,
    pub end: bool,
    pub int: bool,
    pub act1: bool,
    pub act2: bool,
}

// What a line says: its flags, how many bytes it names, and an address.
#[derive(Clone, Copy)]
pub struct Line {
    pub flags: Flags,
    pub length: ByteCount,
    pub address: u32,
}

// What a line asks for: bytes moved, a jump to another line, or only a step to the next.
#[derive(Clone, Copy)]
pub enum Act {
    Tran,
    Link,
    Other,
}

// The part of memory that is the line at an address, or the empty part where not all of it is there.
pub fn line_at(mem: &[u8], at: u32) -> &[u8]
    ensures { result.now ≡ line_bytes mem.now at }
{
    if in_memory(mem.len(), at, SIZE) {
        let start = at as usize;
        &mem[start..start + SIZE as usize]
    } else {
        &mem[..0]
    }
}

// Byte i of a line; a part that is not of eight bytes reads as zeros. Only the readers below call it, with their own numbers.
#[tactic(auto, unfolding(crate::specs::Line::byte_of))]
fn byte(line: &[u8], i: usize) -> u8
    requires { i < 8 }
    ensures { result ≡ byte_of line.now i }
{
    if line.len() == SIZE as usize {
        line[i]
    } else {
        0
    }
}

// The 16 bits at byte i, little-endian.
fn half(line: &[u8], i: usize) -> u16
    requires { i < 7 }
    ensures { result ≡ half_of line.now i }
{
    u16::from_le_bytes([byte(line, i), byte(line, i + 1)])
}

// How many bytes a line names: 0 means 65,536.
#[tactic(auto, unfolding(crate::specs::Line::length_of))]
pub fn length_of(line: &[u8]) -> ByteCount
    ensures { result ≡ bytes (length_of line.now) }
{
    let n = half(line, 2);
    if n == 0 {
        ByteCount(65536)
    } else {
        ByteCount(u32::from(n))
    }
}

// The address that a line names, its low two bits taken as 0.
#[tactic(auto, unfolding(crate::specs::Line::address_of))]
pub fn address_of(line: &[u8]) -> u32
    ensures { result ≡ address_of line.now }
{
    u32::from_le_bytes([byte(line, 4), byte(line, 5), byte(line, 6), byte(line, 7)]) / 4 * 4
}

// The flags of a line.
#[tactic(auto, unfolding(crate::specs::Line::flags_of))]
pub fn flags_of(line: &[u8]) -> Flags
    ensures { result ≡ flags_of line.now }
{
    let b = byte(line, 0);
    Flags {
        valid: b % 2 == 1,
        end: b / 2 % 2 == 1,
        int: b / 4 % 2 == 1,
        act1: b / 16 % 2 == 1,
        act2: b / 32 % 2 == 1,
    }
}

// A line as it is read.
pub fn read_line(line: &[u8]) -> Line
    ensures { result ≡ read_of line.now }
{
    Line {
        flags: flags_of(line),
        length: length_of(line),
        address: address_of(line),
    }
}

// Act2 Act1: 10b Tran, 11b Link.
pub fn act_of(f: Flags) -> Act
    ensures { result ≡ act_of f }
{
    match (f.act2, f.act1) {
        (true, false) => Act::Tran,
        (true, true) => Act::Link,
        (false, _) => Act::Other,
    }
}
