// The one-block buffer, lent as a slice: how much of it is a block, how much it holds, how much a move may take.
ghost use Rattle.std.specs.Prelude.{◌≡◌, ◌+◌, ◌≤◌, length};
ghost use Rattle.std.proofs.Math.Seq.{paste};
ghost use Rattle.engine.specs.Buffer.{block_of, held_of, ready_of};

use crate::transfer::{Transfer, Way};
use terms::ByteCount;

impl Transfer {
    // The bytes of the buffer that are a block: no more than are lent for it.
    pub(crate) fn block_bytes(self, room: usize) -> ByteCount
        ensures { result ≡ block_of self.size room }
    {
        ByteCount(usize::from(self.size).min(room) as u32)
    }

    // The bytes that a buffer of so many holds.
    pub(crate) fn content(self, room: usize) -> ByteCount
        ensures { result ≡ held_of self.size room self.held }
    {
        self.held.least(self.block_bytes(room))
    }

    // The bytes that a move may take: the buffer's room (write) or its content (read).
    pub(crate) fn ready(self, room: usize) -> ByteCount
        ensures { result ≡ ready_of self.way self.size room self.held }
    {
        match self.way {
            Way::Read => self.content(room),
            Way::Write => self.block_bytes(room).less(self.content(room)),
        }
    }
}

// Copies a part into a room, from a place on; the callers have looked that it fits. A loop, since for `copy_from_slice` the
// archive would call `memmove`, and it calls nothing outside itself.
pub(crate) fn put(room: &mut [u8], at: usize, part: &[u8])
    requires { at + length part.now ≤ length room.old }
    ensures { room.new ≡ paste room.old at part.now (length part.now) }
{
    for (place, byte) in (at..).zip(part) {
        room[place] = *byte;
    }
}
