// Register accesses: a read, a write, and what the resets do to the two sides.
ghost use Rattle.std.specs.Prelude.{◌≡◌};
ghost use Rattle.controller.specs.Slot.{done_of};
ghost use Rattle.controller.specs.Access.{command_reset, dat_reset, store_of, read_of, write_of};

use crate::slot::{Command, Done, Slot, awaited_halts, use_of};
use engine::transfer::Dat;
use registers::place::{Access, Target};
use registers::reset::Resets;
use terms::Refusal;

// The command side after resets: bits 0 and 1 drop the command.
fn command_reset(which: Resets, command: Command) -> Command
    ensures { result ≡ command_reset which command }
{
    if which.all || which.command {
        Command::Idle
    } else {
        command
    }
}

// The DAT side after resets: bits 0 and 2 free it, bit 1 alone halts what waits on the response that is dropped.
fn dat_reset(which: Resets, dat: Dat) -> Dat
    ensures { result ≡ dat_reset which dat }
{
    if which.all || which.data {
        Dat::Free
    } else if which.command {
        awaited_halts(dat)
    } else {
        dat
    }
}

impl Slot {
    // A write that stores, acknowledges, enables, forces or resets.
    fn store(self, target: Target, which: Resets) -> Slot
        ensures { result ≡ store_of self target.word target.edit which }
    {
        Slot {
            registers: self.registers.take(target.word, target.edit, self.facts()),
            command: command_reset(which, self.command),
            dat: dat_reset(which, self.dat),
            ..self
        }
    }

    // A read: the value, or no place. Today the slot stays as it is.
    pub fn read(self, offset: u32, width: u32) -> Result<Done, Refusal>
        ensures { result ≡ done_of (read_of self offset width) }
    {
        let value = self.registers.read(self.facts(), Access { offset, width })?;
        Ok(self.done(value))
    }

    // A write: no place, a command, a register that Command Inhibit (DAT) guards, or a store.
    pub fn write(self, offset: u32, width: u32, value: u32) -> Result<Done, Refusal>
        ensures { result ≡ done_of (write_of self offset width value) }
    {
        let access = Access { offset, width };
        let Some(target) = access.target(value) else {
            return Err(Refusal::NoPlace);
        };
        if access.is_command() {
            return self.command_step(target.edit);
        }
        if access.is_inhibited(use_of(self.dat)) {
            return Err(Refusal::DatInhibited);
        }
        Ok(self.store(target, access.resets(target.edit)).done(0))
    }
}
