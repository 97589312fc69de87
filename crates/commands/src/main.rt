// Reads one frame as raw bytes from standard input, to its end, and writes its MAC commands to standard output (docs/RULES.md,
// "Text"). With the argument `clear` the payload on port 0 is taken as decrypted.
#![tactic(auto)]

use input::START_ROOM;
use std::env::{Env, FillError};
use std::io;
use std::io::{BufWriter, Write};

// What the arguments ask for.
#[derive(Clone, Copy)]
enum Arguments {
    Encrypted,
    Clear,
    Other,
}

// Whether there is an argument at a place, of any length.
fn is_given(rt: &impl Env, place: usize) -> bool {
    let mut word = [0u8; 1];
    !matches!(rt.arg(place, &mut word), Err(FillError::NotPresent))
}

// Whether the first argument is the word `clear`.
fn is_clear(rt: &impl Env) -> bool {
    let mut word = [0u8; 5];
    match rt.arg(1, &mut word) {
        Ok(n) => n == 5 && word == *b"clear",
        Err(_) => false,
    }
}

// The program's own name is the argument at place 0.
fn asked_for(rt: &impl Env) -> Arguments {
    if !is_given(rt, 1) {
        return Arguments::Encrypted;
    }
    if is_clear(rt) && !is_given(rt, 2) {
        return Arguments::Clear;
    }
    Arguments::Other
}

fn print_all<W: Write>(out: &mut W, frame: &[u8], count: usize, clear: bool) -> io::Result<()> {
    commands_text::print_commands(out, frame, count, clear)?;
    out.flush()
}

fn print_input(rt: &HostRuntime, clear: bool) -> io::Result<()> {
    let mut frame = [0u8; START_ROOM];
    let whole = input::read_input(&mut rt.reader(), &mut frame)?;
    let mut out = BufWriter::new(rt.alloc(), rt.stdout())?;
    if print_all(&mut out, &frame[..whole.start], whole.count, clear).is_err() {
        // Where this cannot be written either, there is nothing left to say it by.
        let _ = eprintln!(rt; "commands: the output could not be written");
    }
    Ok(())
}

fn main(rt: HostRuntime) -> io::Result<()> {
    match asked_for(&rt) {
        Arguments::Encrypted => print_input(&rt, false),
        Arguments::Clear => print_input(&rt, true),
        Arguments::Other => {
            let _ = eprintln!(rt; "usage: commands [clear] <FRAME");
            Ok(())
        }
    }
}
