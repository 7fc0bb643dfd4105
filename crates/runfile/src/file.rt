// The file: three sections, each after its count, and steps of 20 bytes. A bad one is refused as a whole.
ghost use Rattle.std.specs.Prelude.{◌≡◌, ℕ, ◌+◌, ◌*◌, ◌<◌, ◌≤◌, None, Some, cond, ltb, slice_index, IfSome};
ghost use Rattle.runfile.specs.File.{byte_at, word_at, layout_of, Fills, step_at, no_rest, no_words, kind_of, step_good, steps_good, good_of};
ghost use Rattle.std.specs.List.{list_all, range_with_len};

// The most bytes of memory, steps, and card bytes.
pub const MEMORY: u32 = 32768;

pub const STEPS: u32 = 512;

pub const CARD: u32 = 16384;

// The bytes of a step.
pub const STEP: usize = 20;

// How much each section has.
#[derive(Clone, Copy)]
pub struct Layout {
    pub memory: usize,
    pub steps: usize,
    pub card: usize,
}

// What a step does, by its number in the file.
#[derive(Clone, Copy)]
pub enum Kind {
    Write = 0,
    Read = 1,
    CardIn = 2,
    CardOut = 3,
    Respond = 4,
    Given = 5,
    Taken = 6,
    BusyOver = 7,
    DataError = 8,
    Level = 9,
    Turn = 10,
}

// A number that names no kind.
#[derive(Clone, Copy)]
pub struct UnknownKind(pub u8);

impl TryFrom<u8> for Kind {
    type Error = UnknownKind;

    ghost try_from_gives = { λ n kind. kind ≡ kind_of n };

    // The kind by its number.
    fn try_from(n: u8) -> Result<Kind, UnknownKind> {
        match n {
            0 => Ok(Kind::Write),
            1 => Ok(Kind::Read),
            2 => Ok(Kind::CardIn),
            3 => Ok(Kind::CardOut),
            4 => Ok(Kind::Respond),
            5 => Ok(Kind::Given),
            6 => Ok(Kind::Taken),
            7 => Ok(Kind::BusyOver),
            8 => Ok(Kind::DataError),
            9 => Ok(Kind::Level),
            10 => Ok(Kind::Turn),
            _ => Err(UnknownKind(n)),
        }
    }
}

// A step as its 20 bytes say it; the kind is the file's number.
#[derive(Clone, Copy)]
pub struct Step {
    pub kind: u8,
    pub detail: u8,
    pub offset: u16,
    pub first: u32,
    pub second: u32,
    pub third: u32,
    pub fourth: u32,
}

// The bytes of the file from a place on; 0 past its end.
fn bytes_at<const N: usize>(file: &[u8], at: usize) -> [u8; N]
    ensures { (i : ℕ) → i < N → slice_index result i ≡ byte_at file.now (at + i) }
{
    let rest = &file[at.min(file.len())..];
    if let Some(whole) = rest.first_chunk() {
        return *whole;
    }
    let mut bytes = [0; N];
    bytes[..rest.len()].copy_from_slice(rest);
    bytes
}

// The 32 bits at a place, little-endian.
#[tactic(auto, unfolding(crate::specs::File::word_at))]
pub(crate) fn word_at(file: &[u8], at: usize) -> u32
    ensures { result ≡ word_at file.now at }
{
    u32::from_le_bytes(bytes_at(file, at))
}

// The count of a section, at a place, if it is within its limit.
fn count_at(file: &[u8], at: usize, most: u32) -> Option<usize>
    ensures value { result ≡ cond (ltb most (word_at file.now at)) None (Some (word_at file.now at)) }
    ensures limit { IfSome result (λ n. n ≤ most) }
{
    let count = word_at(file, at);
    (count <= most).then_some(count as usize)
}

// The sections, if they come out even: counts within their limits, and nothing before, between or after.
#[tactic(auto, unfolding(crate::specs::File::layout_of))]
pub fn layout_of(file: &[u8]) -> Option<Layout>
    ensures value { result ≡ layout_of file.now }
    ensures fills { IfSome result (λ l. Fills file.now l) }
{
    let memory = count_at(file, 0, MEMORY)?;
    let steps = count_at(file, 4 + memory, STEPS)?;
    let card = count_at(file, 8 + memory + STEP * steps, CARD)?;
    let whole = 12 + memory + STEP * steps + card;
    (file.len() == whole).then_some(Layout {
        memory,
        steps,
        card,
    })
}

// The step at a place. `steps_good` and the ride ask only for places within the file.
#[tactic(auto, unfolding(crate::specs::File::step_at))]
pub(crate) fn step_at(file: &[u8], at: usize) -> Step
    requires { at < 65536 }
    ensures { result ≡ step_at file.now at }
{
    let [kind, detail] = bytes_at::<2>(file, at);
    Step {
        kind,
        detail,
        offset: u16::from_le_bytes(bytes_at(file, at + 2)),
        first: word_at(file, at + 4),
        second: word_at(file, at + 8),
        third: word_at(file, at + 12),
        fourth: word_at(file, at + 16),
    }
}

impl Step {
    // The last three words are 0.
    fn no_rest(self) -> bool
        ensures { result ≡ no_rest self }
    {
        self.second == 0 && self.third == 0 && self.fourth == 0
    }

    // All four words are 0.
    fn no_words(self) -> bool
        ensures { result ≡ no_words self }
    {
        self.first == 0 && self.no_rest()
    }

    // Is the kind known, and is every field that it does not use 0?
    fn is_good(self) -> bool
        ensures { result ≡ step_good self }
    {
        let Ok(kind) = Kind::try_from(self.kind) else {
            return false;
        };
        let no_offset = self.offset == 0;
        match kind {
            Kind::Write => self.no_rest(),
            Kind::Read => self.no_words(),
            Kind::Respond => no_offset,
            Kind::DataError => no_offset && self.no_words(),
            Kind::Level => self.detail <= 1 && no_offset && self.no_words(),
            _ => self.detail == 0 && no_offset && self.no_words(),
        }
    }
}

// Is each of so many steps, from a place on, good? `judge` keeps both small: no file is longer.
fn all_good(file: &[u8], base: usize, count: usize) -> bool
    requires { (base < 40000) × (count ≤ 512) }
    ensures { result ≡ list_all (λ i. step_good (step_at file.now (base + STEP * i))) (range_with_len 0 count) }
{
    (0..count).all(|i| step_at(file, base + STEP * i).is_good())
}

// Are the first `count` steps from a place on good, as the recursion over them says it?
#[tactic(auto, using(crate::proofs::Goods::good_steps))]
fn steps_good(file: &[u8], base: usize, count: usize) -> bool
    requires { (base < 40000) × (count ≤ 512) }
    ensures { result ≡ steps_good file.now base count }
{
    all_good(file, base, count)
}

// The sections of a good file.
pub fn judge(file: &[u8]) -> Option<Layout>
    ensures value { result ≡ good_of file.now }
    ensures fills { IfSome result (λ l. Fills file.now l) }
{
    let layout = layout_of(file)?;
    steps_good(file, 8 + layout.memory, layout.steps).then_some(layout)
}
