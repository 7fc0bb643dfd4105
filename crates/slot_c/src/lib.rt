// The exports for C and Rust: the steps of `slot`, each under its own name and with its own contract. A crate is a library or a
// static library, and not both; here is nothing but the calls.
#![tactic(auto)]

ghost use Rattle.std.specs.Prelude.{◌≡◌};
ghost use Rattle.controller.specs.Slot.{power_on, line_now};
ghost use Rattle.slot.specs.Record.{slot_of, record_of};
ghost use Rattle.slot.specs.Step.{read_of, write_of, in_of, out_of, respond_of, level_of, busy_over, data_error, given_of, taken_of, turn_of};
ghost use Rattle.slot.specs.Lines.{survey_of, boot_of};
ghost use Rattle.slot.specs.Lines as lines;

use slot::lines::{self, Boot, LinePart, Survey};
use slot::record::Record;
use slot::step::Answer;

// At start: no card, nothing waits, the DAT side is free.
#[unsafe(no_mangle)]
pub extern "C" fn sdhc_power_on() -> Record
    ensures { result ≡ record_of power_on }
{
    Record::power_on()
}

// Is the interrupt line up?
#[unsafe(no_mangle)]
pub extern "C" fn sdhc_line(slot: Record) -> bool
    ensures { result ≡ line_now (slot_of slot) }
{
    slot.line()
}

// A register is read.
#[unsafe(no_mangle)]
pub extern "C" fn sdhc_read(slot: &mut Record, offset: u32, width: u32) -> Answer
    ensures { (slot.new ≡ (read_of slot.old offset width).after) × (result ≡ (read_of slot.old offset width).answer) }
{
    slot.read(offset, width)
}

// A register is written.
#[unsafe(no_mangle)]
pub extern "C" fn sdhc_write(slot: &mut Record, offset: u32, width: u32, value: u32) -> Answer
    ensures { (slot.new ≡ (write_of slot.old offset width value).after) × (result ≡ (write_of slot.old offset width value).answer) }
{
    slot.write(offset, width, value)
}

// A card comes in.
#[unsafe(no_mangle)]
pub extern "C" fn sdhc_card_in(slot: &mut Record) -> Answer
    ensures { (slot.new ≡ (in_of slot.old).after) × (result ≡ (in_of slot.old).answer) }
{
    slot.card_in()
}

// The card goes out.
#[unsafe(no_mangle)]
pub extern "C" fn sdhc_card_out(slot: &mut Record) -> Answer
    ensures { (slot.new ≡ (out_of slot.old).after) × (result ≡ (out_of slot.old).answer) }
{
    slot.card_out()
}

// A response: 0 good, 1 timeout, 2 CRC, 3 end bit, 4 index, with its four words.
#[unsafe(no_mangle)]
pub extern "C" fn sdhc_respond(
    slot: &mut Record,
    res: u32,
    first: u32,
    second: u32,
    third: u32,
    fourth: u32,
) -> Answer
    ensures { (slot.new ≡ (respond_of slot.old res first second third fourth).after) × (result ≡ (respond_of slot.old res first second third fourth).answer) }
{
    slot.respond(res, first, second, third, fourth)
}

// The card's interrupt level: down at 0, else up.
#[unsafe(no_mangle)]
pub extern "C" fn sdhc_set_level(slot: &mut Record, up: u32) -> Answer
    ensures { (slot.new ≡ (level_of slot.old up).after) × (result ≡ (level_of slot.old up).answer) }
{
    slot.set_level(up)
}

// The busy of a response is over.
#[unsafe(no_mangle)]
pub extern "C" fn sdhc_busy_over(slot: &mut Record) -> Answer
    ensures { (slot.new ≡ (busy_over slot.old).after) × (result ≡ (busy_over slot.old).answer) }
{
    slot.busy_over()
}

// A data error: 0 timeout, 1 CRC, 2 end bit.
#[unsafe(no_mangle)]
pub extern "C" fn sdhc_data_error(slot: &mut Record, number: u32) -> Answer
    ensures { (slot.new ≡ (data_error slot.old number).after) × (result ≡ (data_error slot.old number).answer) }
{
    slot.data_error(number)
}

// The card gives a block.
#[unsafe(no_mangle)]
pub extern "C" fn sdhc_given(slot: &mut Record, buffer: &mut [u8; 512], block: &[u8]) -> Answer
    ensures { (slot.new ≡ (given_of slot.old buffer.old block.now).0.after) × (result ≡ (given_of slot.old buffer.old block.now).0.answer) × (buffer.new ≡ (given_of slot.old buffer.old block.now).1) }
{
    slot.given(buffer, block)
}

// The card takes a block, into the first bytes of the lent room.
#[unsafe(no_mangle)]
pub extern "C" fn sdhc_taken(slot: &mut Record, buffer: &[u8; 512], room: &mut [u8]) -> Answer
    ensures { (slot.new ≡ (taken_of slot.old buffer.now room.old).0.after) × (result ≡ (taken_of slot.old buffer.now room.old).0.answer) × (room.new ≡ (taken_of slot.old buffer.now room.old).1) }
{
    slot.taken(buffer, room)
}

// A turn of the engine, with the buffer and the lent memory.
#[unsafe(no_mangle)]
pub extern "C" fn sdhc_turn(slot: &mut Record, buffer: &mut [u8; 512], mem: &mut [u8]) -> Answer
    ensures { (slot.new ≡ (turn_of slot.old buffer.old mem.old).0.after) × (result ≡ (turn_of slot.old buffer.old mem.old).0.answer) × (buffer.new ≡ (turn_of slot.old buffer.old mem.old).1) × (mem.new ≡ (turn_of slot.old buffer.old mem.old).2) }
{
    slot.turn(buffer, mem)
}

// A table is surveyed over memory.
#[unsafe(no_mangle)]
pub extern "C" fn sdhc_survey(mem: &[u8], start: u32, owed: u32, limit: u32) -> Survey
    ensures { result ≡ survey_of mem.now start owed limit }
{
    lines::survey_table(mem, start, owed, limit)
}

// Would a transfer of so many bytes go well?
#[unsafe(no_mangle)]
pub extern "C" fn sdhc_boot_check(mem: &[u8], start: u32, owed: u32) -> Boot
    ensures { result ≡ boot_of mem.now start owed }
{
    lines::boot_check(mem, start, owed)
}

// A line is written into eight bytes.
#[unsafe(no_mangle)]
pub extern "C" fn sdhc_write_line(room: &mut [u8], line: LinePart) -> Answer
    ensures { (result, room.new) ≡ lines.write_of room.old line }
{
    lines::write_line(room, line)
}

// A line is read from its bytes.
#[unsafe(no_mangle)]
pub extern "C" fn sdhc_read_line(bytes: &[u8]) -> LinePart
    ensures { result ≡ lines.read_of bytes.now }
{
    lines::read_line(bytes)
}
