// What reading answers, in numbers: all of it as one record.
ghost use Rattle.std.specs.Prelude.{◌≡◌};
ghost use Rattle.frame.specs.ReadingNumbers.{port_given_of, port_number_of, payload_kind_of, payload_from_of, payload_to_of, plain_values_of, data_values_of, values_of};

use crate::parser::{DataFrame, Frame, FrmPayload};
use crate::refusals::Refusal;

// A reading as plain numbers, for callers that know no enum. kind is 0 of a refusal, 1 of a join-request, 2 of a
// join-accept, 3 of data; payload_kind is 0 of none, 1 of data, 2 of commands. What a kind does not have is 0.
#[derive(Clone, Copy)]
pub struct Values {
    pub kind: u8,
    pub number: u8,
    pub place: usize,
    pub accept_len: usize,
    pub mtype: u8,
    pub fctrl: u8,
    pub fcnt: u16,
    pub fopts_end: usize,
    pub port_given: bool,
    pub port: u8,
    pub payload_kind: u8,
    pub payload_from: usize,
    pub payload_to: usize,
    pub mic: usize,
}

// The kind of a payload: 0 none, 1 data, 2 commands.
fn payload_kind(payload: FrmPayload) -> u8
    ensures { result ≡ payload_kind_of payload }
{
    match payload {
        FrmPayload::Nothing => 0,
        FrmPayload::Data(_, _) => 1,
        FrmPayload::MacCommands(_, _) => 2,
    }
}

// The place of a payload's first byte.
fn payload_from(payload: FrmPayload) -> usize
    ensures { result ≡ payload_from_of payload }
{
    match payload {
        FrmPayload::Nothing => 0,
        FrmPayload::Data(start, _) => start,
        FrmPayload::MacCommands(start, _) => start,
    }
}

// The place past a payload's last byte.
fn payload_to(payload: FrmPayload) -> usize
    ensures { result ≡ payload_to_of payload }
{
    match payload {
        FrmPayload::Nothing => 0,
        FrmPayload::Data(_, end) => end,
        FrmPayload::MacCommands(_, end) => end,
    }
}

// The numbers of a reading with no data.
fn plain_values(kind: u8, number: u8, place: usize, accept_len: usize) -> Values
    ensures { result ≡ plain_values_of kind number place accept_len }
{
    Values {
        kind,
        number,
        place,
        accept_len,
        mtype: 0,
        fctrl: 0,
        fcnt: 0,
        fopts_end: 0,
        port_given: false,
        port: 0,
        payload_kind: 0,
        payload_from: 0,
        payload_to: 0,
        mic: 0,
    }
}

fn data_values(d: DataFrame) -> Values
    ensures { result ≡ data_values_of d }
{
    let port = d.port;
    let payload = d.payload;
    Values {
        kind: 3,
        number: 0,
        place: 0,
        accept_len: 0,
        mtype: d.mtype,
        fctrl: d.fctrl,
        fcnt: d.fcnt,
        fopts_end: d.fopts_end,
        port_given: port.is_some(),
        port: port.unwrap_or(0),
        payload_kind: payload_kind(payload),
        payload_from: payload_from(payload),
        payload_to: payload_to(payload),
        mic: d.mic,
    }
}

// All the numbers of a reading.
pub fn values_of(reading: Result<Frame, Refusal>) -> Values
    ensures { result ≡ values_of reading }
{
    match reading {
        Ok(Frame::JoinRequest) => plain_values(1, 0, 0, 0),
        Ok(Frame::JoinAccept(n)) => plain_values(2, 0, 0, n),
        Ok(Frame::Data(d)) => data_values(d),
        Err(refusal) => plain_values(0, refusal.number, refusal.place, 0),
    }
}
