// What an answer is written as: two digits to a byte, the numbers low byte first.
use frame::refusals::Refusal;
use std::io;
use std::io::Write;

pub fn put<W: Write>(line: &mut W, b: u8) -> io::Result<()> {
    write!(line, "{b:02x}")
}

pub fn put_all<W: Write>(line: &mut W, bytes: &[u8]) -> io::Result<()> {
    for b in bytes {
        put(line, *b)?;
    }
    Ok(())
}

// The first n bytes, or all where there are not so many.
pub fn put_first<W: Write>(line: &mut W, bytes: &[u8], n: usize) -> io::Result<()> {
    put_all(line, bytes.get(..n).unwrap_or(bytes))
}

// A yes is 1, a no is 0.
pub fn put_flag<W: Write>(line: &mut W, yes: bool) -> io::Result<()> {
    put(line, u8::from(yes))
}

// The low byte of a place or length, and the byte above it.
pub fn put_place<W: Write>(line: &mut W, n: usize) -> io::Result<()> {
    put(line, (n % 256) as u8)
}

pub fn put_length<W: Write>(line: &mut W, n: usize) -> io::Result<()> {
    put_place(line, n)?;
    put_place(line, n / 256)
}

pub fn put_numbers<W: Write>(line: &mut W, numbers: [u32; 5]) -> io::Result<()> {
    for n in numbers {
        put_all(line, &n.to_le_bytes())?;
    }
    Ok(())
}

// A refusal's number, and the whole place in eight bytes.
pub fn put_refusal<W: Write>(line: &mut W, refusal: Refusal) -> io::Result<()> {
    put(line, refusal.number)?;
    put_all(line, &refusal.place.to_le_bytes())
}

// How a call ended: 0, or the refusal.
pub fn put_outcome<W: Write>(line: &mut W, outcome: Result<(), Refusal>) -> io::Result<()> {
    match outcome {
        Ok(()) => put(line, 0),
        Err(refusal) => put_refusal(line, refusal),
    }
}

// How many bytes a call wrote, behind 0, or the refusal and a length of 0.
pub fn put_count<W: Write>(line: &mut W, count: Result<usize, Refusal>) -> io::Result<()> {
    match count {
        Ok(n) => {
            put(line, 0)?;
            put_length(line, n)
        }
        Err(refusal) => {
            put_refusal(line, refusal)?;
            put_length(line, 0)
        }
    }
}
