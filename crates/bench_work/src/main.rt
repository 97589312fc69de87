// A piece of work for bench/ to count and time, which the first letter of standard input names. What comes of it is written
// as a line of hex.
#![tactic(auto)]

use std::io;
use std::io::{BufWriter, Read, Write};

mod blocks;
mod frames;

pub(crate) const KEY: [u8; 16] = [0, 1, 2, 3, 4, 5, 6, 7, 8, 9, 10, 11, 12, 13, 14, 15];

fn hex_line<W: Write>(out: &mut W, bytes: &[u8]) -> io::Result<()> {
    for b in bytes {
        write!(out, "{b:02x}")?;
    }
    writeln!(out)
}

// A refusal leaves no line.
fn amended_line<W: Write>(out: &mut W, offset: usize, turns: usize) -> io::Result<()> {
    match frames::amendments(offset, turns) {
        Ok(frame) => hex_line(out, &frame),
        Err(_) => Ok(()),
    }
}

// Nothing comes of another letter. There is one letter to a run: a loop around the work would change what the compiler
// builds into it, and with that the counts.
fn work<W: Write>(out: &mut W, letter: u8) -> io::Result<()> {
    match letter {
        b'e' => hex_line(out, &blocks::encrypted()),
        b'd' => hex_line(out, &blocks::decrypted()),
        b'm' => hex_line(out, &frames::tags()),
        b's' => hex_line(out, &frames::mics()),
        b'f' => amended_line(out, 0, 1000),
        b'l' => amended_line(out, 241, 1000),
        b'o' => amended_line(out, 0, 0),
        _ => Ok(()),
    }
}

fn main(rt: HostRuntime) -> io::Result<()> {
    let mut letter = [0u8; 1];
    rt.reader().read(&mut letter)?;
    let mut out = BufWriter::new(rt.alloc(), rt.stdout())?;
    // What was written is compared with the file `stdout`, where a lost line is seen.
    let _ = work(&mut out, letter[0]);
    Ok(())
}
