// A run: the steps of a good file over the controller, a line of text for each.
ghost use Rattle.std.specs.Prelude.{◌≡◌, ◌+◌, ◌*◌, ◌≤◌, length, take, IfSome};
ghost use Rattle.controller.specs.Slot.{done_of, power_on};
ghost use Rattle.runfile.specs.File.{Fills, steps_base, good_of};
ghost use Rattle.runfile.specs.Text.{put_of};
ghost use Rattle.runfile.specs.Run.{state_as, done_as, made_of, plain_of, quiet_of, words_of, give_of, take_of, go_of, rode_of, rode_all, card_of, good_run, output_of};

use crate::file::{Kind, Layout, STEP, Step, judge, step_at};
use crate::text::Text;
use controller::slot::{Done, Slot};
use registers::block::Reply;
use terms::{Answer, Refusal, number, value};

// A run between two steps: the slot, and how many of the card's bytes are used up.
#[derive(Clone, Copy)]
pub struct RunState {
    pub slot: Slot,
    pub used: usize,
}

impl Step {
    // A step that lends nothing: every kind but a block given, a block taken and a turn.
    fn quiet(self, slot: Slot) -> Result<Done, Refusal>
        ensures { result ≡ done_of (quiet_of self slot) }
    {
        let offset = u32::from(self.offset);
        let detail = u32::from(self.detail);
        match Kind::try_from(self.kind) {
            Ok(Kind::Write) => slot.write(offset, detail, self.first),
            Ok(Kind::Read) => slot.read(offset, detail),
            Ok(Kind::CardIn) => slot.card_in(),
            Ok(Kind::CardOut) => slot.card_out(),
            Ok(Kind::Respond) => slot.respond(detail, self.words()),
            Ok(Kind::BusyOver) => slot.busy_over(),
            Ok(Kind::DataError) => slot.data_error(detail),
            // a level: the three that lend do not come here, and a file with an unknown kind is not run
            Ok(Kind::Level | Kind::Given | Kind::Taken | Kind::Turn) | Err(_) => {
                slot.set_level(detail == 1)
            }
        }
    }

    // The four words, as a response has them.
    fn words(self) -> Reply
        ensures { result ≡ words_of self }
    {
        Reply {
            first: self.first,
            second: self.second,
            third: self.third,
            fourth: self.fourth,
        }
    }
}

impl RunState {
    // The end of a step that uses up no bytes of the card.
    fn settle(&mut self, made: Result<Done, Refusal>) -> Answer
        ensures { done_as result self.new ≡ made_of self.old made }
    {
        let done = made?;
        self.slot = done.slot;
        Ok(done.value)
    }

    // A step that lends nothing.
    #[tactic(auto, using(crate::proofs::Made::quiet_made))]
    fn plain(&mut self, step: Step) -> Answer
        ensures { done_as result self.new ≡ plain_of self.old (quiet_of step self.old.slot) }
    {
        self.settle(step.quiet(self.slot))
    }

    // A block is taken, into the room.
    #[tactic(auto, using(crate::proofs::Made::take_made))]
    fn take(&mut self, buffer: &[u8], room: &mut [u8]) -> Answer
        ensures { (done_as result self.new, room.new) ≡ take_of self.old buffer.now room.old }
    {
        self.settle(self.slot.taken(buffer, room))
    }

    // A turn, with the lent memory.
    #[tactic(auto, using(crate::proofs::Made::go_made))]
    fn go(&mut self, buffer: &mut [u8], memory: &mut [u8]) -> Answer
        ensures { (done_as result self.new, buffer.new, memory.new) ≡ go_of self.old buffer.old memory.old }
    {
        self.settle(self.slot.turn(buffer, memory))
    }

    // A block is given: the next block-size bytes of the card, or what is left, used up only where they are taken.
    fn give(&mut self, card: &[u8], buffer: &mut [u8]) -> Answer
        requires { self.old.used ≤ length card.now }
        ensures { (done_as result self.new, buffer.new) ≡ give_of card.now self.old buffer.old }
    {
        let left = &card[self.used..];
        let size = usize::from(self.slot.registers.block_size());
        let offered = size.min(left.len());
        let done = self.slot.given(buffer, &left[..offered])?;
        self.slot = done.slot;
        self.used += offered;
        Ok(done.value)
    }
}

// A run under way, between two of its steps: its file, and what it is lent, memory, a buffer of one block, and room for blocks taken.
#[derive(Drop)]
struct Ride<'a> {
    file: &'a [u8],
    layout: Layout,
    state: RunState,
    memory: &'a mut [u8],
    buffer: &'a mut [u8],
    room: &'a mut [u8],
    ghost fills: { Fills file.now layout },
    ghost within: { state.used ≤ layout.card },
}

impl<'a> Ride<'a> {
    ghost use Rattle.runfile.specs.Ride.{SameLent, world_of};

    // The card's bytes, the file's last section.
    fn card(&self) -> &'a [u8]
        ensures { result.now ≡ card_of self.now.file.now self.now.layout }
    {
        &self.file[12 + self.layout.memory + STEP * self.layout.steps..]
    }

    // One step of the file.
    #[tactic(auto, unfolding(crate::specs::Run::rode_of))]
    fn step(&mut self, step: Step) -> Answer
        ensures same_lent { SameLent self.old self.new }
        ensures ride { (done_as result self.new.state, world_of self.new) ≡ rode_of (card_of self.old.file.now self.old.layout) step (world_of self.old) }
    {
        let card = self.card();
        let buffer = &mut *self.buffer;
        match Kind::try_from(step.kind) {
            Ok(Kind::Given) => self.state.give(card, buffer),
            Ok(Kind::Taken) => {
                let room = &mut *self.room;
                self.state.take(buffer, room)
            }
            Ok(Kind::Turn) => {
                let memory = &mut *self.memory;
                self.state.go(buffer, memory)
            }
            _ => self.state.plain(step),
        }
    }

    // The steps of the file, and their lines. `run` lends room for every line.
    fn steps(&mut self, text: &mut Text)
        requires { text.old.at + 19 * self.old.layout.steps ≤ length text.old.room.now }
        ensures same_lent { SameLent self.old self.new }
        ensures same_room { text.new.room.ghost_name ≡ text.old.room.ghost_name }
        ensures ride { ((text.new.at, text.new.room.now), world_of self.new) ≡ rode_all self.old.file.now (card_of self.old.file.now self.old.layout) (steps_base self.old.layout.memory) self.old.layout.steps 0 (world_of self.old) text.old.room.now text.old.at }
        ensures within { text.new.at ≤ length text.new.room.now }
    {
        for i in 0..self.layout.steps {
            let step = step_at(self.file, 8 + self.layout.memory + STEP * i);
            let answer = self.step(step);
            text.line(
                i,
                usize::from(number(answer)),
                value(answer),
                self.state.slot.line(),
            );
        }
    }

    // A good file, from power-on: its memory is copied into the lent space and lent whole to every turn.
    fn run(&mut self, text: &mut Text)
        requires { (length self.old.memory.now ≡ self.old.layout.memory) × (self.old.state ≡ state_as power_on 0) × (text.old.at ≡ 0) × (9744 ≤ length text.old.room.now) }
        ensures same_lent { SameLent self.old self.new }
        ensures same_room { text.new.room.ghost_name ≡ text.old.room.ghost_name }
        ensures run { ((text.new.at, text.new.room.now), (self.new.memory.now, self.new.buffer.now, self.new.room.now)) ≡ good_run self.old.file.now self.old.layout self.old.buffer.now self.old.room.now text.old.room.now }
        ensures within { text.new.at ≤ length text.new.room.now }
    {
        self.memory
            .copy_from_slice(&self.file[4..4 + self.layout.memory]);
        text.head(self.layout.steps);
        self.steps(text);
    }
}

// Runs a file: its whole output goes to the front of `out`. The rest is working space: memory, a buffer of one block, and
// "room 512" for blocks taken.
pub fn run(
    file: &[u8],
    mem: &mut [u8],
    buffer: &mut [u8; 512],
    room: &mut [u8; 512],
    out: &mut [u8],
) -> usize
    requires { (32768 ≤ length mem.old) × (9744 ≤ length out.old) }
    ensures text { (result, out.new) ≡ put_of out.old 0 (output_of file.now buffer.old room.old) }
    ensures within { result ≤ length out.new }
    ensures memory { IfSome (good_of file.now) (λ l. take l.memory mem.new ≡ (good_run file.now l buffer.old room.old out.old).1.0) }
{
    let mut text = Text::new(out);
    if let Some(layout) = judge(file) {
        let (memory, _) = mem.split_at_mut(layout.memory);
        let mut ride = Ride {
            file,
            layout,
            state: RunState {
                slot: Slot::power_on(),
                used: 0,
            },
            memory,
            buffer,
            room,
        };
        ride.run(&mut text);
    } else {
        text.bad();
    }
    text.at
}
