// Reading a frame (parser.rs of the crate, as far as reading goes).
ghost use Rattle.std.specs.Prelude.{◌≡◌, Some, ◌+◌, ◌*◌, ◌%◌, ◌≤◌, length};
ghost use Rattle.frame.specs.Layout.{fhdr_length_of, has_port_of};
ghost use Rattle.frame.specs.Reading.{port_of, held_by_of, payload_of, read_join_request_of, read_join_accept_of, read_data_of, read_type_of, read_of};
ghost use Rattle.frame.specs.ReadingNumbers.{request_in, accept_in, data_in};

use crate::packet_length::{
    FCNT_AT, FCTRL_AT, FHDR_MIN_LEN, JOIN_ACCEPT_LEN, JOIN_ACCEPT_WITH_CFLIST_LEN,
    JOIN_REQUEST_LEN, MIC_LEN, PHY_PAYLOAD_MAX_LEN, PHY_PAYLOAD_MIN_LEN,
};
use crate::refusals::{
    FRAME_TOO_LONG, INVALID_DATA, INVALID_MESSAGE_TYPE, INVALID_PAYLOAD, Refusal,
    UNSUPPORTED_MAJOR_VERSION,
};
use frame_bits::fctrl::message_type;

// The payload of a data frame (4.3.3), by its first byte's place and the place past its last.
#[derive(Clone, Copy)]
pub enum FrmPayload {
    Nothing,
    Data(usize, usize),
    MacCommands(usize, usize),
}

// What a data frame holds: its type (2 to 5), FCtrl, FCnt, the port if one is reported (4.3.2), and where each part lies that
// has no fixed place. FOpts are the bytes from 8 up to fopts_end, the MIC the four from mic on.
#[derive(Clone, Copy)]
pub struct DataFrame {
    pub mtype: u8,
    pub fctrl: u8,
    pub fcnt: u16,
    pub fopts_end: usize,
    pub port: Option<u8>,
    pub payload: FrmPayload,
    pub mic: usize,
}

// A frame as it was read: its kind, with the length of a join-accept and the fields of a data frame.
#[derive(Clone, Copy)]
pub enum Frame {
    JoinRequest,
    JoinAccept(usize),
    Data(DataFrame),
}

// The length of FHDR by its FCtrl byte (4.3.1): seven bytes and FOpts.
pub fn fhdr_length(fctrl: u8) -> usize
    ensures { result ≡ 7 + fctrl % 16 }
{
    FHDR_MIN_LEN + usize::from(fctrl % 16)
}

// FCnt of its two bytes, low byte first (4.3.1.5).
pub(crate) fn read_fcnt(low: u8, high: u8) -> u16
    ensures { result ≡ low + high * 256 }
{
    u16::from_le_bytes([low, high])
}

// Whether a port is there, behind an FHDR of h bytes (4.3.2).
pub(crate) fn has_port(frame: &[u8], h: usize) -> bool
    requires { h ≡ fhdr_length_of frame.now }
    ensures { result ≡ has_port_of frame.now }
{
    h + 6 <= frame.len()
}

// The port, where it is there.
fn read_port(frame: &[u8], h: usize) -> Option<u8>
    requires h_value { h ≡ fhdr_length_of frame.now }
    requires h_in_bounds { 5 + h ≤ length frame.now }
    ensures { result ≡ port_of frame.now }
{
    if has_port(frame, h) {
        return Some(frame[1 + h]);
    }
    None
}

// What a port says of the bytes behind it: commands on port 0, data on another (4.3.3).
fn held_by(port: u8, start: usize, end: usize) -> FrmPayload
    ensures { result ≡ held_by_of (Some port) start end }
{
    if port == 0 {
        return FrmPayload::MacCommands(start, end);
    }
    FrmPayload::Data(start, end)
}

// The payload, where there is a port.
fn read_payload(frame: &[u8], h: usize) -> FrmPayload
    requires h_value { h ≡ fhdr_length_of frame.now }
    requires h_in_bounds { 5 + h ≤ length frame.now }
    ensures { result ≡ payload_of frame.now }
{
    if has_port(frame, h) {
        return held_by(frame[1 + h], h + 2, frame.len() - MIC_LEN);
    }
    FrmPayload::Nothing
}

// By the type, of a frame that is long enough for the smallest.
fn read_join_request(frame: &[u8]) -> Result<Frame, Refusal>
    ensures { result ≡ read_join_request_of frame.now }
{
    if frame.len() == JOIN_REQUEST_LEN {
        return Ok(Frame::JoinRequest);
    }
    Err(Refusal::at(INVALID_DATA, frame.len()))
}

fn read_join_accept(frame: &[u8]) -> Result<Frame, Refusal>
    ensures { result ≡ read_join_accept_of frame.now }
{
    let n = frame.len();
    if n == JOIN_ACCEPT_LEN {
        return Ok(Frame::JoinAccept(JOIN_ACCEPT_LEN));
    }
    if n == JOIN_ACCEPT_WITH_CFLIST_LEN {
        return Ok(Frame::JoinAccept(JOIN_ACCEPT_WITH_CFLIST_LEN));
    }
    Err(Refusal::at(INVALID_DATA, n))
}

fn read_data(frame: &[u8]) -> Result<Frame, Refusal>
    requires { 12 ≤ length frame.now }
    ensures { result ≡ read_data_of frame.now }
{
    let h = fhdr_length(frame[FCTRL_AT]);
    if frame.len() < 5 + h {
        return Err(Refusal::at(INVALID_DATA, FCTRL_AT));
    }
    let port = read_port(frame, h);
    let payload = read_payload(frame, h);
    let fcnt = read_fcnt(frame[FCNT_AT], frame[FCNT_AT + 1]);
    let data = DataFrame {
        mtype: message_type(frame[0]),
        fctrl: frame[FCTRL_AT],
        fcnt,
        fopts_end: 1 + h,
        port,
        payload,
        mic: frame.len() - MIC_LEN,
    };
    Ok(Frame::Data(data))
}

fn read_type(frame: &[u8]) -> Result<Frame, Refusal>
    requires { 12 ≤ length frame.now }
    ensures { result ≡ read_type_of frame.now }
{
    let mtype = message_type(frame[0]);
    if mtype == 0 {
        return read_join_request(frame);
    }
    if mtype == 1 {
        return read_join_accept(frame);
    }
    if mtype < 6 {
        return read_data(frame);
    }
    Err(Refusal::at(INVALID_MESSAGE_TYPE, 0))
}

// Reading a frame: the first refusal that applies, of 12, 1, 2, 3 and 4, at the index of the byte whose rule failed, or what
// the frame holds. Bits 2 to 4 of byte 0 count for nothing.
pub fn read(frame: &[u8]) -> Result<Frame, Refusal>
    ensures { result ≡ read_of frame.now }
{
    if PHY_PAYLOAD_MAX_LEN < frame.len() {
        return Err(Refusal::at(FRAME_TOO_LONG, frame.len()));
    }
    if frame.len() < PHY_PAYLOAD_MIN_LEN {
        return Err(Refusal::at(INVALID_PAYLOAD, frame.len()));
    }
    if frame[0] % 4 == 0 {
        return read_type(frame);
    }
    Err(Refusal::at(UNSUPPORTED_MAJOR_VERSION, 0))
}

// The same for a call that needs a frame of one type: 4 where it is of another.
pub fn read_as_join_request(frame: &[u8]) -> Result<(), Refusal>
    ensures { result ≡ request_in (read_of frame.now) }
{
    match read(frame)? {
        Frame::JoinRequest => Ok(()),
        _ => Err(Refusal::of(INVALID_DATA)),
    }
}

// Answers the length of the join-accept.
pub fn read_as_join_accept(frame: &[u8]) -> Result<usize, Refusal>
    ensures { result ≡ accept_in (read_of frame.now) }
{
    let Frame::JoinAccept(length) = read(frame)? else {
        return Err(Refusal::of(INVALID_DATA));
    };
    Ok(length)
}

pub fn read_as_data(frame: &[u8]) -> Result<DataFrame, Refusal>
    ensures { result ≡ data_in (read_of frame.now) }
{
    let Frame::Data(fields) = read(frame)? else {
        return Err(Refusal::of(INVALID_DATA));
    };
    Ok(fields)
}
