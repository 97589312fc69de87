// Writes the text of each frame that standard input holds, and a line with two dashes after it. A frame stands there
// after its length in two bytes, low byte first. What must come out tools/show_cases.py made from docs/RULES.md.
#![tactic(auto)]

use input::{Answers, RECORD_ROOM};
use show_text::TEXT_ROOM;
use std::io;
use std::io::{BufWriter, Write};

// The text of a frame.
fn show_frame<W: Write>(out: &mut W, frame: &[u8]) -> io::Result<()> {
    let mut text = [0u8; TEXT_ROOM];
    // A buffer of TEXT_ROOM bytes is not refused.
    let described = show_text::describe(frame, &mut text);
    out.write_all(&text[..described.unwrap_or(0)])?;
    out.write_all(b"--\n")
}

// Writes the text of each frame that is read to `out`.
#[derive(Drop)]
struct Texts<'a, W> {
    out: &'a mut W,
}

impl<W: Write> Answers for Texts<'_, W> {
    fn answer(&mut self, _head: &[u8], frame: &[u8]) -> io::Result<()> {
        show_frame(self.out, frame)
    }
}

fn main(rt: HostRuntime) -> io::Result<()> {
    let mut out = BufWriter::new(rt.alloc(), rt.stdout())?;
    let mut prefix = [0u8; 2];
    let mut room = [0u8; RECORD_ROOM];
    let mut texts = Texts { out: &mut out };
    input::each_record(&mut rt.reader(), &mut prefix, &mut room, &mut texts)?;
    // What was written is compared with the file `stdout`, where a lost line is seen.
    let _ = out.flush();
    Ok(())
}
