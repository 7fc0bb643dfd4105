// The card's events: in, out, the response, the interrupt level.
ghost use Rattle.std.specs.Prelude.{◌≡◌};
ghost use Rattle.controller.specs.Slot.{done_of};
ghost use Rattle.controller.specs.Card.{error_at, error_number, fits_error, error_event, reply_after, good_of, failed_of, answer_of, respond_of, in_of, out_of, level_of};

use crate::slot::{
    Command, Done, Kind, Slot, Waiting, answered_dat, awaited_halts, halted_command, halted_dat,
    raised_at,
};
use registers::block::Reply;
use registers::interrupt::Event;
use terms::Refusal;

// How a response can fail.
#[derive(Clone, Copy)]
pub enum ResponseError {
    Timeout = 1,
    Crc = 2,
    EndBit = 3,
    Index = 4,
}

impl TryFrom<u32> for ResponseError {
    type Error = Refusal;

    ghost try_from_gives = { λ n r. r ≡ error_at n };

    // The error by its number; any other number is out of turn.
    fn try_from(n: u32) -> Result<Self, Refusal> {
        match n {
            1 => Ok(ResponseError::Timeout),
            2 => Ok(ResponseError::Crc),
            3 => Ok(ResponseError::EndBit),
            4 => Ok(ResponseError::Index),
            _ => Err(Refusal::OutOfTurn),
        }
    }
}

impl ResponseError {
    // The event that it raises.
    fn event(self) -> Event
        ensures { result ≡ error_event (error_number self) }
    {
        match self {
            ResponseError::Timeout => Event::CommandTimeout,
            ResponseError::Crc => Event::CommandCrc,
            ResponseError::EndBit => Event::CommandEndBit,
            ResponseError::Index => Event::CommandIndex,
        }
    }
}

impl Waiting {
    // Can a response to this command fail so: none of type 00b, CRC and index only with their check on?
    fn can_fail(self, error: ResponseError) -> bool
        ensures { result ≡ fits_error self (error_number error) }
    {
        self.kind != Kind::Silent
            && match error {
                ResponseError::Timeout | ResponseError::EndBit => true,
                ResponseError::Crc => self.crc,
                ResponseError::Index => self.index,
            }
    }
}

// 010h to 01Fh after a good response.
fn reply_after(kind: Kind, words: Reply, old: Reply) -> Reply
    ensures { result ≡ reply_after kind words old }
{
    match kind {
        Kind::Silent => old,
        Kind::Long => Reply {
            fourth: old.fourth / 0x1000000 * 0x1000000 + words.fourth % 0x1000000,
            ..words
        },
        Kind::Short | Kind::ShortBusy => Reply {
            first: words.first,
            ..old
        },
    }
}

impl Slot {
    // A good response: its words are stored, Command Complete, and its own data or busy goes on.
    fn good(self, w: Waiting, words: Reply) -> Slot
        ensures { result ≡ good_of self w words }
    {
        let reply = reply_after(w.kind, words, self.registers.reply);
        Slot {
            registers: raised_at(self.registers.with_reply(reply), Event::CommandComplete),
            command: Command::Idle,
            dat: answered_dat(self.dat),
            ..self
        }
    }

    // A failed response: its error, and the command halts with its own data or busy.
    fn failed(self, error: ResponseError) -> Slot
        ensures { result ≡ failed_of self (error_number error) }
    {
        Slot {
            registers: raised_at(self.registers, error.event()),
            command: Command::Halted,
            dat: awaited_halts(self.dat),
            ..self
        }
    }

    // The response to a command that waits.
    fn answer(self, w: Waiting, n: u32, words: Reply) -> Result<Done, Refusal>
        ensures { result ≡ done_of (answer_of self w n words) }
    {
        if n == 0 {
            return Ok(self.good(w, words).done(0));
        }
        let error = ResponseError::try_from(n)?;
        if !w.can_fail(error) {
            return Err(Refusal::OutOfTurn);
        }
        Ok(self.failed(error).done(0))
    }

    // A response: 0 good, 1 timeout, 2 CRC, 3 end bit, 4 index, with its four words.
    #[tactic(auto, unfolding(crate::specs::Card::respond_of))]
    pub fn respond(self, n: u32, words: Reply) -> Result<Done, Refusal>
        ensures { result ≡ done_of (respond_of self n words) }
    {
        let Command::Waits(w) = self.command else {
            return Err(Refusal::OutOfTurn);
        };
        self.answer(w, n, words)
    }

    // A card comes in.
    pub fn card_in(self) -> Result<Done, Refusal>
        ensures { result ≡ done_of (in_of self) }
    {
        if self.card {
            return Err(Refusal::OutOfTurn);
        }
        let slot = Slot {
            registers: raised_at(self.registers, Event::CardInsertion),
            card: true,
            ..self
        };
        Ok(slot.done(0))
    }

    // The card goes out, with power, clock and level, and halts what goes on.
    pub fn card_out(self) -> Result<Done, Refusal>
        ensures { result ≡ done_of (out_of self) }
    {
        if !self.card {
            return Err(Refusal::OutOfTurn);
        }
        // the sides first: where registers come before them, each way through them copies the block to and fro
        let command = halted_command(self.command);
        let dat = halted_dat(self.dat);
        let slot = Slot {
            registers: raised_at(self.registers.unplug(), Event::CardRemoval),
            card: false,
            level: false,
            command,
            dat,
        };
        Ok(slot.done(0))
    }

    // The card's interrupt level.
    pub fn set_level(self, on: bool) -> Result<Done, Refusal>
        ensures { result ≡ done_of (level_of self on) }
    {
        if !self.card {
            return Err(Refusal::OutOfTurn);
        }
        let slot = Slot { level: on, ..self };
        Ok(slot.done(0))
    }
}
