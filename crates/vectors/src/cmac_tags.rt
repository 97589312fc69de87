// The published vectors of CMAC with AES-128 (docs/VECTORS.md). Each message goes in one part, byte by byte, and in every
// cutting into two, and each tag is written out.
ghost use Rattle.std.specs.Prelude.{◌≤◌, length};

use crate::sample::{Block, KEY, MESSAGE};
use cmac::Cmac;
use std::io;
use std::io::Write;

// A block as a line of digits.
fn hex_line<W: Write>(out: &mut W, block: Block) -> io::Result<()> {
    for b in block {
        write!(out, "{b:02x}")?;
    }
    writeln!(out)
}

fn byte_by_byte(message: &[u8]) -> Block {
    let mut state = Cmac::new(KEY);
    for byte in message.chunks(1) {
        state = state.update(byte);
    }
    state.finish()
}

// The first `at` bytes, then the rest.
fn in_two(message: &[u8], at: usize) -> Block
    requires { at ≤ length message.now }
{
    let (front, back) = message.split_at(at);
    Cmac::new(KEY).update(front).update(back).finish()
}

// The tags, of which each has a line, and how many there were.
#[derive(Drop)]
struct Tags<'a, W> {
    out: &'a mut W,
    count: u64,
}

impl<'a, W: Write> Tags<'a, W> {
    fn tell(&mut self, tag: Block) -> io::Result<()> {
        hex_line(self.out, tag)?;
        self.count = self.count.saturating_add(1);
        Ok(())
    }

    // The name of an example, and its message in one part, byte by byte, and in every cutting into two.
    fn example(&mut self, name: &str, message: &[u8]) -> io::Result<()> {
        writeln!(self.out, "{name}")?;
        self.tell(cmac::tag(KEY, message))?;
        self.tell(byte_by_byte(message))?;
        for at in 0..=message.len() {
            self.tell(in_two(message, at))?;
        }
        Ok(())
    }
}

// RFC 4493, section 4, subkey generation: L, K1 and K2. A message of sixteen zeros leaves K1 before the last encryption,
// the empty one K2 with the one bit of the padding.
fn subkeys<W: Write>(out: &mut W) -> io::Result<()> {
    writeln!(out, "rfc 4493 subkeys")?;
    let zero = [0u8; 16];
    hex_line(out, aes::encrypt(KEY, zero))?;
    hex_line(out, aes::decrypt(KEY, cmac::tag(KEY, &zero)))?;
    let mut second = aes::decrypt(KEY, cmac::tag(KEY, b""));
    second[0] ^= 0x80;
    hex_line(out, second)
}

pub(crate) fn all<W: Write>(out: &mut W) -> io::Result<()> {
    subkeys(out)?;
    let mut tags = Tags { out, count: 0 };
    tags.example("rfc 4493 example 1", &MESSAGE[..0])?;
    tags.example("rfc 4493 example 2", &MESSAGE[..16])?;
    tags.example("rfc 4493 example 3", &MESSAGE[..40])?;
    tags.example("rfc 4493 example 4", &MESSAGE)?;
    tags.example("sp 800-38b 20 bytes", &MESSAGE[..20])?;
    let Tags { out, count } = tags;
    writeln!(out, "{count} tags")
}
