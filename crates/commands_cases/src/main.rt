// Writes the MAC commands of each frame that standard input holds, and a line with two dashes after them. A frame stands there
// after its length in two bytes, low byte first, and a byte that is 1 where its payload on port 0 is taken as decrypted. What must
// come out tools/commands_cases.py made from docs/RULES.md.
#![tactic(auto)]

use input::{Answers, RECORD_ROOM};
use std::io;
use std::io::{BufWriter, Write};

fn print_frame<W: Write>(out: &mut W, frame: &[u8], clear: bool) -> io::Result<()> {
    commands_text::print_commands(out, frame, frame.len(), clear)?;
    out.write_all(b"--\n")
}

// Writes the commands of each frame that is read to `out`.
#[derive(Drop)]
struct Texts<'a, W> {
    out: &'a mut W,
}

impl<W: Write> Answers for Texts<'_, W> {
    fn answer(&mut self, head: &[u8], frame: &[u8]) -> io::Result<()> {
        print_frame(self.out, frame, matches!(head, [1]))
    }
}

fn main(rt: HostRuntime) -> io::Result<()> {
    let mut out = BufWriter::new(rt.alloc(), rt.stdout())?;
    let mut prefix = [0u8; 3];
    let mut room = [0u8; RECORD_ROOM];
    let mut texts = Texts { out: &mut out };
    input::each_record(&mut rt.reader(), &mut prefix, &mut room, &mut texts)?;
    // What was written is compared with the file `stdout`, where a lost line is seen.
    let _ = out.flush();
    Ok(())
}
