// The paper's own words: two counters that never stand in for each other, and what a step answers.
#![tactic(auto)]

ghost use Rattle.std.specs.Prelude.{◌≡◌};
ghost use Rattle.terms.specs.Counts.{times, fewer, less, least};
ghost use Rattle.terms.specs.Answers.{row_of, number_of, value_of};

// A count of blocks. Block Count, 006h, has 16 bits, and no transfer has more blocks.
#[derive(Clone, Copy)]
pub struct BlockCount(pub u16);

// A count of bytes.
#[derive(Clone, Copy, PartialEq, Eq)]
pub struct ByteCount(pub u32);

impl BlockCount {
    // The bytes of so many blocks: the only way from blocks to bytes.
    pub fn times(self, size: u16) -> ByteCount
        ensures { result ≡ times self size }
    {
        ByteCount(u32::from(self.0) * u32::from(size))
    }

    // One block less; of none, none.
    pub fn fewer(self) -> BlockCount
        ensures { result ≡ fewer self }
    {
        BlockCount(self.0.saturating_sub(1))
    }
}

impl ByteCount {
    // So many bytes less; none where fewer were there.
    pub fn less(self, n: ByteCount) -> ByteCount
        ensures { result ≡ less self n }
    {
        ByteCount(self.0.saturating_sub(n.0))
    }

    // The smaller of two counts.
    pub fn least(self, n: ByteCount) -> ByteCount
        ensures { result ≡ least self n }
    {
        ByteCount(self.0.min(n.0))
    }
}

// Why a step is refused: one name for each row of the paper's table, 1 to 12 and 17. The numbers 13 to 16 belong to
// requests that are not built.
#[derive(Clone, Copy, Debug, PartialEq, Eq)]
pub enum Refusal {
    NoPlace = 1,
    DatInhibited = 2,
    CommandInhibited = 3,
    DatInUse = 4,
    Unpowered = 5,
    NotCarried = 6,
    OutOfTurn = 7,
    WrongLength = 8,
    NotYet = 9,
    NoTransfer = 10,
    MemoryTooLarge = 11,
    LimitTooHigh = 12,
    LineRefused = 17,
}

// What a step answers: its value, or why it is refused.
pub type Answer = Result<u32, Refusal>;

impl Refusal {
    // The row of the table.
    pub fn row(self) -> u8
        ensures { result ≡ row_of self }
    {
        self as u8
    }
}

// The number of an answer: the row of its refusal, 0 where it is done.
pub fn number<T: Copy>(answer: Result<T, Refusal>) -> u8
    ensures { result ≡ number_of answer }
{
    match answer {
        Ok(_) => 0,
        Err(refusal) => refusal.row(),
    }
}

// The value of an answer: 0 with every refusal.
pub fn value(answer: Answer) -> u32
    ensures { result ≡ value_of answer }
{
    answer.unwrap_or(0)
}
