// A reading as one number of 64 bits, for C, whose fields docs/RULES.md gives by what they are multiplied by. A data frame is read
// straight into it, with no enum between; what is none, `read` answers.
ghost use Rattle.std.specs.Prelude.{◌≡◌, ◌+◌, ◌*◌, ◌/◌, ◌%◌, ◌≤◌, ◌<◌, eqb, length};
ghost use Rattle.base.specs.Bytes.{pick};
ghost use Rattle.frame.specs.Conditions.{IsData};
ghost use Rattle.frame.specs.Layout.{fhdr_length_of};
ghost use Rattle.frame.specs.Reading.{read_of};
ghost use Rattle.frame.specs.PackedReading.{packed, bits_of_join, packed_of, numbered, port_bits_of};

use crate::packet_length::{
    FCNT_AT, FCTRL_AT, JOIN_REQUEST_LEN, MIC_LEN, PHY_PAYLOAD_MAX_LEN, PHY_PAYLOAD_MIN_LEN,
};
use crate::parser::{Frame, fhdr_length, has_port, read, read_fcnt};

// One in each field, by the bit that it begins at.
const VALUE: u64 = 256;

const TYPE: u64 = 256;

const PORT_GIVEN: u64 = 2048;

const PAYLOAD_KIND: u64 = 4096;

const PORT: u64 = 65536;

const PAYLOAD_AT: u64 = 16777216;

const MIC_AT: u64 = 4294967296;

const FCTRL: u64 = 1099511627776;

const FCNT: u64 = 281474976710656;

// So far a value above a number counts: 56 bits.
const VALUES: u64 = 72057594037927936;

// Where a port is there: data or commands. The payload begins a byte after FOpts.
const DATA: u64 = PORT_GIVEN + PAYLOAD_KIND + PAYLOAD_AT;

const COMMANDS: u64 = PORT_GIVEN + 2 * PAYLOAD_KIND + PAYLOAD_AT;

// A number in the low byte, and above it a value: the place of a refusal, or the length of a frame. Past 2^56 the value's high
// bits are lost.
pub fn numbered_bits(number: u8, value: usize) -> u64
    ensures { result ≡ numbered number value }
{
    (number as u64) + (value as u64) % VALUES * VALUE
}

// A join message: its type, and the place of its MIC, which stands for that of the payload too.
fn join_bits(mtype: u8, n: usize) -> u64
    requires mtype_bound { mtype < 8 }
    requires le_n { 4 ≤ n }
    requires n_bound { n < 256 }
    ensures { result ≡ packed (bits_of_join mtype n) }
{
    (mtype as u64) * TYPE + ((n - MIC_LEN) as u64) * (PAYLOAD_AT + MIC_AT)
}

// What is no data frame, by the reader's answer.
fn other_bits(frame: &[u8]) -> u64
    requires { IsData frame.now → ⊥ }
    ensures { result ≡ packed_of (read_of frame.now) }
{
    match read(frame) {
        Ok(Frame::JoinRequest) => join_bits(0, JOIN_REQUEST_LEN),
        Ok(Frame::JoinAccept(n)) => join_bits(1, n),
        Ok(Frame::Data(_)) => 0,
        Err(refusal) => numbered_bits(refusal.number, refusal.place),
    }
}

// Types 2 to 5, those of data, become 0 to 3; the others lie above.
fn past_data(first: u8) -> u8
    ensures value { result ≡ (first / 32 + 6) % 8 }
    ensures first_bound { first < 256 }
{
    (first / 32 + 6) % 8
}

fn wide(b: u8) -> u64
    ensures value { result ≡ b }
    ensures upper_bound { result < 256 }
{
    b as u64
}

// Of a port that is there: that it is, the kind of the payload, the port, and that one byte lies between FOpts and payload.
fn held_bits(port: u8) -> u64
    ensures value { result ≡ pick (eqb port 0) 16787456 (port * 65536 + 16783360) }
    ensures upper_bound { result < 67108864 }
{
    if port == 0 {
        return COMMANDS;
    }
    wide(port) * PORT + DATA
}

// The same of a frame, which may have no port.
fn port_bits(frame: &[u8], h: usize) -> u64
    requires h_value { h ≡ fhdr_length_of frame.now }
    requires h_in_bounds { 5 + h ≤ length frame.now }
    ensures value { result ≡ port_bits_of frame.now }
    ensures upper_bound { result < 67108864 }
{
    if has_port(frame, h) {
        return held_bits(frame[1 + h]);
    }
    0
}

// FCtrl and FCnt at their bits.
fn counter_bits(fctrl: u8, fcnt: u16) -> u64
    ensures { result ≡ fctrl * 1099511627776 + fcnt * 281474976710656 }
{
    (fctrl as u64) * FCTRL + (fcnt as u64) * FCNT
}

// The type, the places past FOpts and of the MIC, and what counter_bits and port_bits give.
fn data_bits(mtype: u8, fopts_end: usize, mic: usize, counter: u64, port: u64) -> u64
    requires mtype_bound { mtype < 8 }
    requires fopts_end_bound { fopts_end < 64 }
    requires mic_bound { mic < 255 }
    requires counter_bound { counter ≤ 18446742974197923840 }
    requires port_bound { port < 67108864 }
    ensures { result ≡ mtype * 256 + fopts_end * 16777216 + mic * 4294967296 + counter + port }
{
    (mtype as u64) * TYPE + (fopts_end as u64) * PAYLOAD_AT + (mic as u64) * MIC_AT + counter + port
}

// Reading a frame, as one number.
pub fn read_packed(frame: &[u8]) -> u64
    ensures { result ≡ packed_of (read_of frame.now) }
{
    let n = frame.len();
    if PHY_PAYLOAD_MAX_LEN < n {
        return other_bits(frame);
    }
    if n < PHY_PAYLOAD_MIN_LEN {
        return other_bits(frame);
    }
    let first = frame[0];
    if first % 4 != 0 {
        return other_bits(frame);
    }
    if 3 < past_data(first) {
        return other_bits(frame);
    }
    let fctrl = frame[FCTRL_AT];
    let h = fhdr_length(fctrl);
    if n < 5 + h {
        return other_bits(frame);
    }
    let port = port_bits(frame, h);
    let fcnt = read_fcnt(frame[FCNT_AT], frame[FCNT_AT + 1]);
    let counter = counter_bits(fctrl, fcnt);
    data_bits(first / 32, h + 1, n - MIC_LEN, counter, port)
}
