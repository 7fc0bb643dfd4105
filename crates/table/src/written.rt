// A line written into a room of eight bytes.
ghost use Rattle.std.specs.Prelude.{◌≡◌};
ghost use Rattle.table.specs.Written.{flag_byte, line_of, writable, write_of};

use crate::line::{Flags, Line};
use terms::Refusal;

// The flags as byte 0.
fn flag_byte(f: Flags) -> u8
    ensures { result ≡ flag_byte f }
{
    u8::from(f.valid)
        + 2 * u8::from(f.end)
        + 4 * u8::from(f.int)
        + 16 * u8::from(f.act1)
        + 32 * u8::from(f.act2)
}

// May a line be written?
fn may_write(l: Line) -> bool
    ensures { result ≡ writable l }
{
    let n = l.length.0;
    1 <= n && n <= 65536 && l.address % 4 == 0
}

// The eight bytes of a line.
fn line_bytes(l: Line) -> [u8; 8]
    ensures { result ≡ line_of l }
{
    let [low, high, _, _] = l.length.0.to_le_bytes();
    let [a, b, c, d] = l.address.to_le_bytes();
    [flag_byte(l.flags), 0, low, high, a, b, c, d]
}

// Writes a line, or refuses it and leaves the room as it is.
pub fn write_line(room: &mut [u8], l: Line) -> Result<(), Refusal>
    ensures { (result, room.new) ≡ write_of room.old l }
{
    match room.as_mut_array() {
        Some(whole) if may_write(l) => {
            *whole = line_bytes(l);
            Ok(())
        }
        _ => Err(Refusal::LineRefused),
    }
}
