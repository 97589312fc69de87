// Text that is put together in a buffer of its own: words, digits, lines. What finds no room is left out; no text of a frame is so
// long (proofs/Lengths.antt).
ghost use Rattle.std.specs.Prelude.{◌≡◌, [], ◌∷◌, ◌≤◌, ◌<◌};
ghost use Rattle.show_text.specs.Text.{digit_of, hex_of, decimal_of, hex_line_of, number_line, pair_line};
ghost use Rattle.show_text.specs.Writing.{written, Adds};

use crate::TEXT_ROOM;

// The digits of hex and, its first ten, of decimal.
const DIGITS: [u8; 16] = [
    b'0', b'1', b'2', b'3', b'4', b'5', b'6', b'7', b'8', b'9', b'a', b'b', b'c', b'd', b'e', b'f',
];

// A number of 64 bits has at most so many digits.
const DECIMAL_ROOM: usize = 20;

fn digit(n: usize) -> u8
    requires { n < 16 }
    ensures { result ≡ digit_of n }
{
    DIGITS[n]
}

// The first `len` bytes are written.
#[derive(Drop)]
pub(crate) struct Text {
    bytes: [u8; TEXT_ROOM],
    len: usize,
}

impl Text {
    pub(crate) fn new() -> Text
        ensures len { result.len ≡ 0 }
    {
        Text {
            bytes: [0; TEXT_ROOM],
            len: 0,
        }
    }

    pub(crate) fn as_slice(&self) -> &[u8]
        requires { self.now.len ≤ 128 }
        ensures { result.now ≡ written self.now }
    {
        &self.bytes[..self.len]
    }

    fn push(&mut self, b: u8)
        ensures { Adds self.old (b ∷ []) self.new }
    {
        if self.len < TEXT_ROOM {
            self.bytes[self.len] = b;
            self.len += 1;
        }
    }

    pub(crate) fn add(&mut self, bytes: &[u8])
        ensures { Adds self.old bytes.now self.new }
    {
        self.len = base::storing::put(&mut self.bytes, self.len, bytes);
    }

    fn add_hex(&mut self, bytes: &[u8])
        ensures { Adds self.old (hex_of bytes.now) self.new }
    {
        for b in bytes {
            let n = *b as usize;
            self.push(digit(n / 16));
            self.push(digit(n % 16));
        }
    }

    // The digits are made from the last one on, until one is left, so that their count need not be known. A number that prints
    // itself takes more than twice the steps.
    fn add_decimal(&mut self, n: usize)
        ensures { Adds self.old (decimal_of n) self.new }
    {
        let mut digits = [0u8; DECIMAL_ROOM];
        let mut first = DECIMAL_ROOM - 1;
        let mut rest = n;
        while rest > 9 {
            digits[first] = digit(rest % 10);
            first -= 1;
            rest /= 10;
        }
        digits[first] = digit(rest);
        self.add(&digits[first..]);
    }

    pub(crate) fn add_hex_line(&mut self, word: &[u8], bytes: &[u8])
        ensures { Adds self.old (hex_line_of word.now bytes.now) self.new }
    {
        self.add(word);
        self.add_hex(bytes);
        self.push(b'\n');
    }

    pub(crate) fn add_number_line(&mut self, word: &[u8], n: usize)
        ensures { Adds self.old (number_line word.now n) self.new }
    {
        self.add(word);
        self.add_decimal(n);
        self.push(b'\n');
    }

    // Two numbers, each after a word of its own.
    pub(crate) fn add_pair_line(&mut self, word: &[u8], m: usize, between: &[u8], n: usize)
        ensures { Adds self.old (pair_line word.now m between.now n) self.new }
    {
        self.add(word);
        self.add_decimal(m);
        self.add_number_line(between, n);
    }
}
