// Kinds 18 to 20: MAC commands, those of a list, one that is written, those of a frame.
use crate::arguments::{ROOM, Record};
use crate::output::{
    put, put_all, put_count, put_first, put_flag, put_length, put_numbers, put_place, put_refusal,
};
use frame::refusals::Refusal;
use mac_commands::in_frame::{CommandLists, PayloadList, command_lists};
use mac_commands::maccommandcreator::{fields_of, raw_of, write_command, write_fields};
use mac_commands::maccommands::{Command, read_step};
use std::io;
use std::io::Write;

// No command has more bytes.
const COMMAND_MAX: usize = 6;

fn put_values<W: Write>(line: &mut W, command: Command) -> io::Result<()> {
    let fields = fields_of(command);
    let mut values = fields.values;
    // The margin, the one signed value, goes in two's complement of 32 bits.
    if let Command::DevStatusAns { margin, .. } = command {
        values[1] = i32::from(margin).cast_unsigned();
    }
    put_numbers(line, values)
}

fn put_identifier<W: Write>(line: &mut W, command: Command) -> io::Result<()> {
    let fields = fields_of(command);
    put_place(line, 2 + fields.row % 9)
}

// The bytes that writing a command gives, behind their number; none where it is refused.
fn put_again<W: Write>(line: &mut W, command: Command) -> io::Result<()> {
    let mut out = [0u8; COMMAND_MAX];
    let end = write_command(command, &mut out, 0).unwrap_or(0);
    put_place(line, end)?;
    put_first(line, &out, end)
}

// A step from a place: the place of the next command, or the same one where there is none.
fn put_step<W: Write>(line: &mut W, uplink: bool, list: &[u8], at: usize) -> io::Result<usize> {
    let Ok(Some((command, next))) = read_step(uplink, list, at) else {
        return Ok(at);
    };
    put_identifier(line, command)?;
    put_length(line, at)?;
    put_length(line, next)?;
    put_values(line, command)?;
    put_again(line, command)?;
    Ok(next)
}

// How a list ends: 0, and 0 where nothing is left or the refusal of what is.
fn put_end<W: Write>(
    line: &mut W,
    step: Result<Option<(Command, usize)>, Refusal>,
) -> io::Result<()> {
    put(line, 0)?;
    match step {
        Ok(_) => put(line, 0),
        Err(refusal) => put_refusal(line, refusal),
    }
}

// All commands from a place on, of which there are no more than bytes, and how the list ends.
fn put_list<W: Write>(line: &mut W, uplink: bool, list: &[u8], start: usize) -> io::Result<()> {
    let mut at = start;
    for _ in 0..list.len() {
        at = put_step(line, uplink, list, at)?;
    }
    put_end(line, read_step(uplink, list, at))
}

pub fn of_list<W: Write>(line: &mut W, record: &mut Record) -> io::Result<()> {
    let uplink = record.flag();
    let start = record.offset();
    let mut room = [0u8; ROOM];
    put_list(line, uplink, record.bytes(&mut room), start)
}

// A negative value is a number here that no field holds, but for the margin.
pub fn written<W: Write>(line: &mut W, record: &mut Record) -> io::Result<()> {
    let uplink = record.flag();
    let id = record.byte();
    let mut values = [0u32; 5];
    record.fill_numbers(&mut values);
    if uplink && id == 6 {
        values[1] = raw_of(i64::from(values[1].cast_signed()));
    }
    let mut room = [0xA5u8; ROOM];
    let out = record.part(&mut room);
    put_count(line, write_fields(uplink, id, values, out, record.offset()))?;
    put_all(line, out)
}

// The commands of a frame from a place on, up to another.
fn put_between<W: Write>(
    line: &mut W,
    uplink: bool,
    frame: &[u8],
    start: usize,
    end: usize,
) -> io::Result<()> {
    if end <= frame.len() {
        put_list(line, uplink, &frame[..end], start)?;
    }
    Ok(())
}

fn put_lists<W: Write>(line: &mut W, frame: &[u8], lists: CommandLists) -> io::Result<()> {
    put(line, 0)?;
    put_flag(line, lists.uplink)?;
    put_between(line, lists.uplink, frame, 8, lists.fopts_end)?;
    let PayloadList { start, end } = lists.port_0.unwrap_or(PayloadList { start: 0, end: 0 });
    put_between(line, lists.uplink, frame, start, end)
}

pub fn of_frame<W: Write>(line: &mut W, record: &mut Record) -> io::Result<()> {
    let mut room = [0u8; ROOM];
    let frame = record.bytes(&mut room);
    match command_lists(frame) {
        Ok(lists) => put_lists(line, frame, lists),
        Err(refusal) => put_refusal(line, refusal),
    }
}
