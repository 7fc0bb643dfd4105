// The text of a run, written into a lent room, part behind part; the callers keep the room large enough.
ghost use Rattle.std.specs.Prelude.{◌≡◌, ◌+◌, ◌<◌, ◌≤◌, length};
ghost use Rattle.runfile.specs.Text.{nibble, decimal, hex_eight, line_digit, bad_text, head_text, rest_text, line_text, put_of};

// A lent room, and how much of it is written.
#[derive(Drop)]
pub(crate) struct Text<'a> {
    pub(crate) room: &'a mut [u8],
    pub(crate) at: usize,
}

// One hex digit, in capitals.
fn hex_digit(n: u32) -> u8
    requires { n < 16 }
    ensures { result ≡ nibble n }
{
    if n < 10 {
        b'0' + n as u8
    } else {
        b'A' + (n - 10) as u8
    }
}

// Eight hex digits.
fn hex_digits(n: u32) -> [u8; 8]
    ensures { result ≡ hex_eight n }
{
    let mut digits = [0; 8];
    for (i, digit) in digits.iter_mut().enumerate() {
        *digit = hex_digit((n >> (28 - 4 * i)) % 16);
    }
    digits
}

fn line_digit(line: bool) -> u8
    ensures { result ≡ line_digit line }
{
    b'0' + u8::from(line)
}

impl<'a> Text<'a> {
    // Nothing is written yet.
    pub(crate) fn new(room: &'a mut [u8]) -> Text<'a>
        ensures same_room { result.room.ghost_name ≡ room.entry.ghost_name }
        ensures start { (result.room.now ≡ room.old) × (result.at ≡ 0) }
    {
        Text { room, at: 0 }
    }

    // A part, whole.
    fn put(&mut self, part: &[u8])
        requires { self.old.at + length part.now ≤ length self.old.room.now }
        ensures same_room { self.new.room.ghost_name ≡ self.old.room.ghost_name }
        ensures text { (self.new.at, self.new.room.now) ≡ put_of self.old.room.now self.old.at part.now }
    {
        let end = self.at + part.len();
        self.room[self.at..end].copy_from_slice(part);
        self.at = end;
    }

    // A number below 1,000 in decimal.
    fn decimal(&mut self, n: usize)
        requires { (n < 1000) × (self.old.at + 3 ≤ length self.old.room.now) }
        ensures same_room { self.new.room.ghost_name ≡ self.old.room.ghost_name }
        ensures text { (self.new.at, self.new.room.now) ≡ put_of self.old.room.now self.old.at (decimal n) }
    {
        let ones = b'0' + (n % 10) as u8;
        if n < 10 {
            return self.put(&[ones]);
        }
        let tens = b'0' + (n / 10 % 10) as u8;
        if n < 100 {
            return self.put(&[tens, ones]);
        }
        self.put(&[b'0' + (n / 100) as u8, tens, ones]);
    }

    // `bad file` and a newline.
    pub(crate) fn bad(&mut self)
        requires { self.old.at + 16 ≤ length self.old.room.now }
        ensures same_room { self.new.room.ghost_name ≡ self.old.room.ghost_name }
        ensures text { (self.new.at, self.new.room.now) ≡ put_of self.old.room.now self.old.at bad_text }
    {
        self.put(b"bad file\n");
    }

    // `steps`, their count and a newline.
    pub(crate) fn head(&mut self, steps: usize)
        requires { (steps < 1000) × (self.old.at + 16 ≤ length self.old.room.now) }
        ensures same_room { self.new.room.ghost_name ≡ self.old.room.ghost_name }
        ensures text { (self.new.at, self.new.room.now) ≡ put_of self.old.room.now self.old.at (head_text steps) }
    {
        self.put(b"steps ");
        self.decimal(steps);
        self.put(b"\n");
    }

    // The value and the line of a step, each behind a space, and a newline.
    fn rest(&mut self, value: u32, line: bool)
        requires { self.old.at + 12 ≤ length self.old.room.now }
        ensures same_room { self.new.room.ghost_name ≡ self.old.room.ghost_name }
        ensures text { (self.new.at, self.new.room.now) ≡ put_of self.old.room.now self.old.at (rest_text value line) }
    {
        self.put(b" ");
        self.put(&hex_digits(value));
        self.put(&[b' ', line_digit(line), b'\n']);
    }

    // Number, answer, value, line and a newline.
    pub(crate) fn line(&mut self, number: usize, answer: usize, value: u32, line: bool)
        requires { (number < 1000) × (answer < 1000) × (self.old.at + 19 ≤ length self.old.room.now) }
        ensures same_room { self.new.room.ghost_name ≡ self.old.room.ghost_name }
        ensures text { (self.new.at, self.new.room.now) ≡ put_of self.old.room.now self.old.at (line_text number answer value line) }
    {
        self.decimal(number);
        self.put(b" ");
        self.decimal(answer);
        self.rest(value, line);
    }
}
