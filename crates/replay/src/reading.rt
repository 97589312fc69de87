// Kinds 13, 14 and 16: what a frame holds, and what a clear join-accept and a join-request say.
use crate::arguments::{ROOM, Record};
use crate::output::{put, put_all, put_flag, put_length, put_numbers, put_place, put_refusal};
use base::storing::run_at;
use frame::join_fields::{
    CfList, JoinAcceptFields, JoinRequestFields, join_accept_fields, join_request_fields,
};
use frame::parser::{DataFrame, Frame, FrmPayload, read};
use frame::refusals::Refusal;
use frame_bits::fctrl::{FCtrl, is_uplink};
use std::io;
use std::io::Write;

fn put_request<W: Write>(
    line: &mut W,
    fields: Result<JoinRequestFields, Refusal>,
) -> io::Result<()> {
    match fields {
        Ok(fields) => {
            put_all(line, &fields.app_eui)?;
            put_all(line, &fields.dev_eui)?;
            put_all(line, &fields.dev_nonce)?;
            put_all(line, &fields.mic)
        }
        Err(refusal) => put_refusal(line, refusal),
    }
}

fn put_control<W: Write>(line: &mut W, fctrl: u8, uplink: bool) -> io::Result<()> {
    let control = FCtrl::new(fctrl, uplink);
    put_flag(line, control.adr())?;
    put_flag(line, control.adr_ack_req())?;
    put_flag(line, control.ack())?;
    put_flag(line, control.f_pending())
}

// What a payload is, and where it lies.
fn put_payload<W: Write>(line: &mut W, payload: FrmPayload) -> io::Result<()> {
    let (kind, from, to) = match payload {
        FrmPayload::Nothing => (0, 0, 0),
        FrmPayload::Data(from, to) => (1, from, to),
        FrmPayload::MacCommands(from, to) => (2, from, to),
    };
    put(line, kind)?;
    put_place(line, from)?;
    put_place(line, to)
}

// FOpts, port and payload.
fn put_places<W: Write>(line: &mut W, d: DataFrame) -> io::Result<()> {
    put_place(line, 8)?;
    put_place(line, d.fopts_end)?;
    put_flag(line, d.port.is_some())?;
    put(line, d.port.unwrap_or(0))?;
    put_payload(line, d.payload)
}

fn put_data<W: Write>(line: &mut W, frame: &[u8], d: DataFrame) -> io::Result<()> {
    let dev_addr = run_at::<4>(frame, 1);
    put_all(line, &dev_addr)?;
    put(line, d.fctrl)?;
    put_control(line, d.fctrl, is_uplink(d.mtype))?;
    put_length(line, d.fcnt as usize)?;
    put_places(line, d)?;
    let mic = run_at::<4>(frame, d.mic);
    put_all(line, &mic)
}

// The type of a frame, and what it holds.
fn put_frame<W: Write>(line: &mut W, frame: &[u8], read: Frame) -> io::Result<()> {
    match read {
        Frame::JoinRequest => {
            put(line, 0)?;
            put_request(line, join_request_fields(frame))
        }
        Frame::JoinAccept(length) => {
            put(line, 1)?;
            put_place(line, length)
        }
        Frame::Data(d) => {
            put(line, d.mtype)?;
            put_data(line, frame, d)
        }
    }
}

pub fn frame<W: Write>(line: &mut W, record: &mut Record) -> io::Result<()> {
    let mut room = [0u8; ROOM];
    let frame = record.bytes(&mut room);
    match read(frame) {
        Ok(read) => {
            put(line, 0)?;
            put_frame(line, frame, read)
        }
        Err(refusal) => put_refusal(line, refusal),
    }
}

fn put_list<W: Write>(line: &mut W, list: Option<CfList>) -> io::Result<()> {
    match list {
        None => put(line, 0),
        Some(CfList::Frequencies(frequencies)) => {
            put(line, 1)?;
            put_numbers(line, frequencies)
        }
        Some(CfList::Masks(masks)) => {
            put(line, 2)?;
            put_all(line, &masks)
        }
    }
}

fn put_accept<W: Write>(line: &mut W, fields: JoinAcceptFields, mic: [u8; 4]) -> io::Result<()> {
    put_all(line, &fields.app_nonce)?;
    put_all(line, &fields.net_id)?;
    put_all(line, &fields.dev_addr)?;
    put_all(line, &mic)?;
    put(line, fields.dl_settings)?;
    put(line, fields.rx_delay)?;
    put_list(line, fields.cf_list)
}

// The MIC is a frame's last four bytes.
pub fn clear_accept<W: Write>(line: &mut W, record: &mut Record) -> io::Result<()> {
    let mut room = [0u8; ROOM];
    let frame = record.bytes(&mut room);
    match join_accept_fields(frame) {
        Ok(fields) => {
            put(line, 0)?;
            let mic = run_at::<4>(frame, frame.len().saturating_sub(4));
            put_accept(line, fields, mic)
        }
        Err(refusal) => put_refusal(line, refusal),
    }
}

pub fn request<W: Write>(line: &mut W, record: &mut Record) -> io::Result<()> {
    let mut room = [0u8; ROOM];
    let frame = record.bytes(&mut room);
    let fields = join_request_fields(frame);
    if fields.is_ok() {
        put(line, 0)?;
    }
    put_request(line, fields)
}
