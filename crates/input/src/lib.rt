// What programs share that read frames from standard input: an input of any length, of which the start is kept, and records.
#![tactic(auto)]

ghost use Rattle.std.specs.Prelude.{◌≡◌, ◌+◌, ◌*◌, ◌≤◌, IfOk, length, min, slice_index};
ghost use Rattle.std.specs.Counts.{IsPrefixLen};

use std::io;
use std::io::Read;

// Room for the start of an input that is a frame: one byte more than the longest one has.
pub const START_ROOM: usize = 256;

// How much of an input stands in the room for its start, and how long all of it is.
#[derive(Clone, Copy)]
pub struct Input {
    pub start: usize,
    pub count: usize,
}

// Reads until the room is full or the input ends, and answers how many bytes it put at the start of the room. Every error is the
// reader's: the bytes that came before it are read, and stand there.
pub fn read_full<R: Read>(reader: &mut R, room: &mut [u8]) -> io::Result<usize>
    ensures ok { IfOk result (λ n. IsPrefixLen n room.new) }
    ensures room_kept { length room.new ≡ length room.old }
{
    // std's `read_exact` does not say how much came of an input that ends early.
    let mut done = 0;
    while done < room.len() {
        let n = reader.read(&mut room[done..])?;
        if n == 0 {
            break;
        }
        done += n;
    }
    Ok(done)
}

// Reads the input to its end. Its start stands in `room`, as much of it as there is room for. Every error is the reader's: part of
// the input is read then, and `room` holds some of it. Of an input for which there is no room at all nothing is read, and it counts
// as empty. (With a slice of `room` in the result no clause could name `room.new`.)
pub fn read_input<R: Read>(reader: &mut R, room: &mut [u8]) -> io::Result<Input>
    ensures ok { IfOk result (λ input. IsPrefixLen input.start room.new) }
    ensures held { IfOk result (λ input. input.start ≡ min input.count (length room.new)) }
    ensures empty { length room.old ≡ 0 → IfOk result (λ input. input.count ≡ 0) }
    ensures room_kept { length room.new ≡ length room.old }
{
    let start = read_full(reader, room)?;
    let mut count = start;
    if 0 < start && start == room.len() {
        let behind = io::copy(reader, &mut io::sink())?;
        count = count.saturating_add(behind as usize);
    }
    Ok(Input { start, count })
}

// Room for frames that are too long, too. A longer record counts as so many bytes, and the next one begins after them.
pub const RECORD_ROOM: usize = 512;

// The length of a record, of the two bytes that stand ahead of it, low byte first: held to the room for it.
pub fn record_length(bytes: [u8; 2], room: usize) -> usize
    ensures { result ≡ min (slice_index bytes 0 + slice_index bytes 1 * 256) room }
{
    usize::from(u16::from_le_bytes(bytes)).min(room)
}

// What is done with the records that are read.
pub trait Answers {
    // What is done with one record and the head ahead of it. Where it fails, no further record is read.
    fn answer(&mut self, head: &[u8], record: &[u8]) -> io::Result<()>;
}

// Reads records and hands each to `answers`, behind its head, until the input ends or an answer fails, and says how many were
// answered. Ahead of a record stand as many bytes as `prefix` has: two with its length, and the head behind them. Each record is
// read into `room`; one that is longer counts as so many bytes, and the next one begins after them. The last record may be cut
// short, but not what stands ahead of it: then there is none, nor is there any where `prefix` has no room for a length. Every error
// is the reader's.
pub fn each_record<R: Read, A: Answers>(
    reader: &mut R,
    prefix: &mut [u8],
    room: &mut [u8],
    answers: &mut A,
) -> io::Result<u64>
    ensures prefix_kept { length prefix.new ≡ length prefix.old }
    ensures room_kept { length room.new ≡ length room.old }
{
    // A loop has to end, and nothing says that an input does: so the records are counted, up to a number that no run reaches.
    for answered in 0..u64::MAX {
        if prefix.len() < 2 || read_full(reader, prefix)? < prefix.len() {
            return Ok(answered);
        }
        let limit = record_length([prefix[0], prefix[1]], room.len());
        let n = read_full(reader, &mut room[..limit])?;
        if answers.answer(&prefix[2..], &room[..n]).is_err() {
            return Ok(answered);
        }
    }
    Ok(u64::MAX)
}
