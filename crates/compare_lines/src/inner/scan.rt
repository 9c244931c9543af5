// The lines of a data file: unsigned decimals parted by blanks, or a comment that begins with '#'.
ghost use Rattle.std.specs.Prelude.{◌≤◌, length};

// What is known of a line so far; its numbers stand in a buffer beside it.
#[derive(Clone, Copy)]
pub struct Scan {
    pub count: usize,
    // the number that is being read
    pub value: Option<u64>,
    pub comment: bool,
    // something else stands in it, a number is too large, or there are too many
    pub bad: bool,
}

impl Scan {
    pub fn new() -> Self
        ensures { result.count ≤ 0 }
    {
        Scan {
            count: 0,
            value: None,
            comment: false,
            bad: false,
        }
    }

    // Nothing stands in the line.
    pub fn is_empty(self) -> bool {
        self.count == 0 && self.value.is_none() && !self.bad
    }

    fn with_digit(mut self, digit: u64) -> Self
        requires { digit ≤ 9 }
        ensures { result.count ≤ self.count }
    {
        let value = self.value.unwrap_or(0);
        if (u64::MAX - digit) / 10 < value {
            self.bad = true;
            return self;
        }
        self.value = Some(value * 10 + digit);
        self
    }
}

// The number that was being read goes into the buffer.
fn store(numbers: &mut [u64], mut s: Scan) -> Scan
    requires { s.count ≤ length numbers.old }
    ensures { result.count ≤ length numbers.new }
{
    let Some(value) = s.value else {
        return s;
    };
    let at = s.count;
    if numbers.len() <= at {
        s.bad = true;
        return s;
    }
    numbers[at] = value;
    s.count = at + 1;
    s.value = None;
    s
}

// One byte more of the line; a line end ends its last number.
pub fn feed(numbers: &mut [u64], mut s: Scan, byte: u8) -> Scan
    requires { s.count ≤ length numbers.old }
    ensures { result.count ≤ length numbers.new }
{
    if byte == b'\n' {
        return store(numbers, s);
    }
    if s.comment {
        return s;
    }
    if byte == b' ' {
        return store(numbers, s);
    }
    if byte < b'0' {
        let opens = byte == b'#' && s.is_empty();
        s.comment = opens;
        s.bad = !opens;
        return s;
    }
    if b'9' < byte {
        s.bad = true;
        return s;
    }
    s.with_digit((byte - b'0') as u64)
}
