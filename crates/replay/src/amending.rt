// Kind 12: a frame opened for amendments, and those that stand behind it in the record, one by one. Kind 17: a frame that is
// lent, and a list.
use crate::arguments::{ROOM, Record};
use crate::output::{put_all, put_first, put_outcome, put_refusal};
use amend::amending::Open;
use frame::refusals::{OFFSET_OUTSIDE, Refusal};
use std::io;
use std::io::Write;

// One amendment: four bytes of offset and one of value.
fn amend_one<W: Write>(line: &mut W, record: &mut Record, state: &mut Open) -> io::Result<()> {
    let offset = record.number();
    let value = record.byte();
    put_outcome(line, state.amend(offset as usize, value))
}

// The amendments behind their count, and the frame that they leave.
fn amend_all<W: Write>(line: &mut W, record: &mut Record, start: Open) -> io::Result<()> {
    let mut state = start;
    put_outcome(line, Ok(()))?;
    for _ in 0..record.length() {
        amend_one(line, record, &mut state)?;
    }
    put_first(line, &state.frame, state.length)
}

// The opening's refusal. No amendment finds a byte then, and the frame stays.
fn put_unopened<W: Write>(
    line: &mut W,
    record: &mut Record,
    refusal: Refusal,
    frame: &[u8],
) -> io::Result<()> {
    put_refusal(line, refusal)?;
    for _ in 0..record.length() {
        put_refusal(line, Refusal::of(OFFSET_OUTSIDE))?;
    }
    put_all(line, frame)
}

pub fn open_and_amend<W: Write>(line: &mut W, record: &mut Record) -> io::Result<()> {
    let nwk_skey = record.run();
    let app_skey = record.run();
    let counter = record.number();
    let mut room = [0u8; ROOM];
    let frame = record.bytes(&mut room);
    match amend::opening::open_frame(frame, nwk_skey, app_skey, counter) {
        Ok(state) => amend_all(line, record, state),
        Err(refusal) => put_unopened(line, record, refusal, frame),
    }
}

pub fn amend_lent<W: Write>(line: &mut W, record: &mut Record) -> io::Result<()> {
    let nwk_skey = record.run();
    let app_skey = record.run();
    let counter = record.number();
    let mut room = [0u8; ROOM];
    let frame = record.bytes(&mut room);
    let mut list_room = [0u32; ROOM];
    let list = record.numbers(&mut list_room);
    let amended = amend::list::amend_frame(frame, nwk_skey, app_skey, counter, list);
    put_outcome(line, amended)?;
    put_all(line, frame)
}
