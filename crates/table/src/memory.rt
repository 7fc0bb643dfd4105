// The lent memory, which stands for addresses from 0: what lies in it, and how much of it a step takes.
ghost use Rattle.std.specs.Prelude.{◌≡◌};
ghost use Rattle.table.specs.Memory.{in_memory, too_large};

// A step refuses more lent memory than this.
pub const LIMIT: usize = 16777216;

// Do `count` bytes from an address on lie in a memory of `size` bytes?
pub fn in_memory(size: usize, at: u32, count: u32) -> bool
    ensures { result ≡ in_memory size at count }
{
    at as usize + count as usize <= size
}

// Is the lent memory more than a step takes?
pub fn too_large(mem: &[u8]) -> bool
    ensures { result ≡ too_large mem.now }
{
    LIMIT < mem.len()
}
