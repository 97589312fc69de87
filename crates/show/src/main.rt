// Reads one frame as raw bytes from standard input, to its end, and writes its text to standard output (docs/RULES.md, "Text").
#![tactic(auto)]

use input::START_ROOM;
use show_text::TEXT_ROOM;
use std::io;
use std::io::Write;

fn main(rt: HostRuntime) -> io::Result<()> {
    let mut frame = [0u8; START_ROOM];
    let whole = input::read_input(&mut rt.reader(), &mut frame)?;
    let mut out = [0u8; TEXT_ROOM];
    // A buffer of TEXT_ROOM bytes is not refused.
    let text = show_text::describe_input(&frame[..whole.start], whole.count, &mut out);
    if rt.stdout().write_all(&out[..text.unwrap_or(0)]).is_err() {
        // Where this cannot be written either, there is nothing left to say it by.
        let _ = eprintln!(rt; "show: the output could not be written");
    }
    Ok(())
}
