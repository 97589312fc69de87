// Kind 15: a frame held open in a buffer of zeros, the history of calls that stands behind it in the record, and the frame
// taken out.
use crate::arguments::{ROOM, Record};
use crate::output::{put_all, put_count, put_outcome};
use amend_held::calls::{amend_held, amend_list_held, frame_of, open_into};
use std::io;
use std::io::Write;

// 0 and one amendment, or another number and a list.
fn call<W: Write>(line: &mut W, record: &mut Record, buffer: &mut [u8; 868]) -> io::Result<()> {
    if record.byte() == 0 {
        let offset = record.number();
        let value = record.byte();
        return put_outcome(line, amend_held(buffer, offset as usize, value));
    }
    let mut room = [0u32; ROOM];
    let list = record.numbers(&mut room);
    put_outcome(line, amend_list_held(buffer, list))
}

// Every byte of the output is 0xA5 ahead of the call that takes the frame out.
pub fn hold<W: Write>(line: &mut W, record: &mut Record) -> io::Result<()> {
    let nwk_skey = record.run();
    let app_skey = record.run();
    let counter = record.number();
    let mut room = [0u8; ROOM];
    let frame = record.bytes(&mut room);
    let mut buffer = [0u8; 868];
    put_outcome(
        line,
        open_into(frame, nwk_skey, app_skey, counter, &mut buffer),
    )?;
    let mut out_room = [0xA5u8; ROOM];
    let out = record.part(&mut out_room);
    for _ in 0..record.length() {
        call(line, record, &mut buffer)?;
    }
    put_count(line, frame_of(&buffer, out))?;
    put_all(line, out)
}
