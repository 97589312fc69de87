// Runs the published vectors, a module for each primitive; the file `stdout` holds every line that must come out.
#![tactic(auto)]

mod aes_blocks;
mod cmac_tags;
mod report;
mod sample;

use std::io;
use std::io::{BufWriter, Write};

fn all<W: Write>(out: &mut W) -> io::Result<()> {
    aes_blocks::all(out)?;
    cmac_tags::all(out)?;
    out.flush()
}

fn main(rt: HostRuntime) -> io::Result<()> {
    let mut out = BufWriter::new(rt.alloc(), rt.stdout())?;
    // What was written is compared with the file `stdout`, where a lost line is seen.
    let _ = all(&mut out);
    Ok(())
}
