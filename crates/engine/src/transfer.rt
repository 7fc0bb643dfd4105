// What the DAT side is doing, and where a step leaves a transfer.
ghost use Rattle.std.specs.Prelude.{◌≡◌};
ghost use Rattle.engine.specs.Transfer.{with_counts, ending_of, settled_of, dat_of, outcome_of, respond_of};

use table::fetch::{Failure, Hand};
use terms::{BlockCount, ByteCount};

// The way of a transfer: from the card to memory, or from memory to the card.
#[derive(Clone, Copy, PartialEq, Eq)]
pub enum Way {
    Read = 0,
    Write = 1,
}

// How the engine of a running transfer stands: no line in hand, a Tran line in hand, or stopped, with End met and a block
// still to go.
#[derive(Clone, Copy)]
pub enum Stage {
    Fetching,
    Moving(Hand),
    Stopped,
}

// A running transfer: what it was issued with, whether its response is in, the blocks not yet given or taken, the bytes not
// yet moved, and the bytes that the buffer holds. `counted` says that Block Count counts its blocks.
#[derive(Clone, Copy)]
pub struct Transfer {
    pub way: Way,
    pub answered: bool,
    pub counted: bool,
    pub size: u16,
    pub left: BlockCount,
    pub owed: ByteCount,
    pub held: ByteCount,
    pub stage: Stage,
}

// The DAT side: free, busy by a command of response type 11b (awaited or in), in a running transfer, or halted, until a
// reset, in a busy or in a transfer of which only the way is still shown.
#[derive(Clone, Copy)]
pub enum Dat {
    Free,
    Busy { answered: bool },
    Runs(Transfer),
    Stuck,
    Halted(Way),
}

// Where a step leaves a transfer: about to fetch, with a line in hand, stopped with a block to go, complete, or failed.
#[derive(Clone, Copy)]
pub enum Next {
    Fetch,
    Move(Hand),
    Stop,
    Finish,
    Fail(Failure),
}

// What a step tells of the end: nothing, Transfer Complete, or an error.
#[derive(Clone, Copy)]
pub enum Outcome {
    Goes,
    Completes,
    Fails(Failure),
}

// The engine has stopped with nothing owed: the transfer is complete, or a block is still to go.
#[tactic(auto, unfolding(crate::specs::Transfer::ending))]
pub(crate) fn ending(left: BlockCount, held: ByteCount) -> Next
    ensures { result ≡ ending_of left held }
{
    if left.0 == 0 && held.0 == 0 {
        Next::Finish
    } else {
        Next::Stop
    }
}

impl Next {
    // What it tells of the end.
    pub(crate) fn outcome(self) -> Outcome
        ensures { result ≡ outcome_of self }
    {
        match self {
            Next::Fetch | Next::Move(_) | Next::Stop => Outcome::Goes,
            Next::Finish => Outcome::Completes,
            Next::Fail(failure) => Outcome::Fails(failure),
        }
    }
}

impl Transfer {
    // A line is done, with the buffer holding so many bytes.
    #[tactic(auto, using(crate::proofs::Settled::owing), unfolding(crate::specs::Transfer::settled))]
    pub(crate) fn settled(self, last: bool, held: ByteCount) -> Next
        ensures { result ≡ settled_of last self.owed self.left held }
    {
        let owed = self.owed;
        if !last {
            Next::Fetch
        } else if owed.0 == 0 {
            ending(self.left, held)
        } else {
            Next::Fail(Failure::Owing)
        }
    }

    // The DAT side after a step of the transfer: what it was issued with and its counters stay, its stage moves.
    pub(crate) fn after(self, next: Next) -> Dat
        ensures { result ≡ dat_of self self.left self.owed self.held next }
    {
        let stage = match next {
            Next::Fetch => Stage::Fetching,
            Next::Move(hand) => Stage::Moving(hand),
            Next::Stop => Stage::Stopped,
            Next::Finish => return Dat::Free,
            Next::Fail(_) => return Dat::Halted(self.way),
        };
        Dat::Runs(Transfer { stage, ..self })
    }

    // Its response is in.
    pub fn respond(self) -> Transfer
        ensures { result ≡ respond_of self }
    {
        Transfer {
            answered: true,
            ..self
        }
    }
}
