// The text that `show` writes for a frame (docs/RULES.md, Text).
#![tactic(auto)]

ghost use Rattle.std.specs.Prelude.{◌≡◌, ◌≤◌, length};
ghost use Rattle.base.specs.Storing.{Put};
ghost use Rattle.frame.specs.Reading.{data_of, read_of};
ghost use Rattle.frame.specs.Conditions.{IsData};
ghost use Rattle.show_text.specs.Text.{place_line, Spans, payload_line, port_line, data_text, join_request_text, join_accept_text, refusal_text, text_of, text_of_input, described_of, described_in};
ghost use Rattle.show_text.specs.Writing.{Adds};

mod writer;

use crate::writer::Text;
use frame::packet_length::{
    APP_EUI_AT, DEV_ADDR_AT, DEV_EUI_AT, DEV_NONCE_AT, FCNT_AT, FCTRL_AT, FOPTS_AT,
    PHY_PAYLOAD_MAX_LEN, REQUEST_MIC_AT,
};
use frame::parser::{DataFrame, Frame, FrmPayload, read};
use frame::refusals::{BUFFER_TOO_SHORT, FRAME_TOO_LONG, Refusal};

// A buffer of so many bytes has room for every text.
pub const TEXT_ROOM: usize = 128;

// The lines of a data frame that say `none` where there is nothing.

fn add_port_line(text: &mut Text, port: Option<u8>)
    ensures { Adds text.old (port_line port) text.new }
{
    match port {
        None => text.add(b"port none\n"),
        Some(p) => text.add_number_line(b"port ", usize::from(p)),
    }
}

fn add_place_line(text: &mut Text, start: usize, end: usize)
    requires { start ≤ end }
    ensures { Adds text.old (place_line start end) text.new }
{
    text.add_pair_line(b"payload ", start, b" ", end - start);
}

fn add_payload_line(text: &mut Text, payload: FrmPayload)
    requires { Spans payload }
    ensures { Adds text.old (payload_line payload) text.new }
{
    match payload {
        FrmPayload::Nothing => text.add(b"payload none\n"),
        FrmPayload::Data(start, end) => add_place_line(text, start, end),
        FrmPayload::MacCommands(start, end) => add_place_line(text, start, end),
    }
}

// The texts, each by what reading the frame gave.

fn add_data(text: &mut Text, frame: &[u8], d: DataFrame)
    requires fact { IsData frame.now }
    requires d_value { d ≡ data_of frame.now }
    ensures { Adds text.old (data_text frame.now d) text.new }
{
    text.add_number_line(b"type ", usize::from(d.mtype));
    text.add_hex_line(b"addr ", &frame[DEV_ADDR_AT..FCTRL_AT]);
    text.add_hex_line(b"fctrl ", &frame[FCTRL_AT..FCNT_AT]);
    text.add_number_line(b"fcnt ", d.fcnt as usize);
    text.add_number_line(b"fopts ", d.fopts_end - FOPTS_AT);
    add_port_line(text, d.port);
    add_payload_line(text, d.payload);
    text.add_hex_line(b"mic ", &frame[d.mic..]);
}

fn add_join_request(text: &mut Text, frame: &[u8])
    requires { length frame.now ≡ 23 }
    ensures { Adds text.old (join_request_text frame.now) text.new }
{
    text.add_number_line(b"type ", 0);
    text.add_hex_line(b"app ", &frame[APP_EUI_AT..DEV_EUI_AT]);
    text.add_hex_line(b"dev ", &frame[DEV_EUI_AT..DEV_NONCE_AT]);
    text.add_hex_line(b"nonce ", &frame[DEV_NONCE_AT..REQUEST_MIC_AT]);
    text.add_hex_line(b"mic ", &frame[REQUEST_MIC_AT..]);
}

fn add_join_accept(text: &mut Text, n: usize)
    ensures { Adds text.old (join_accept_text n) text.new }
{
    text.add_number_line(b"type ", 1);
    text.add_number_line(b"length ", n);
}

fn add_refusal(text: &mut Text, refusal: Refusal)
    ensures { Adds text.old (refusal_text refusal) text.new }
{
    text.add_pair_line(
        b"refused ",
        usize::from(refusal.number),
        b" at ",
        refusal.place,
    );
}

#[tactic(auto, unfolding(crate::specs::Text::text_of, crate::specs::Text::text_of_reading))]
fn add_text(text: &mut Text, frame: &[u8])
    ensures { Adds text.old (text_of frame.now) text.new }
{
    match read(frame) {
        Ok(Frame::JoinRequest) => add_join_request(text, frame),
        Ok(Frame::JoinAccept(n)) => add_join_accept(text, n),
        Ok(Frame::Data(d)) => add_data(text, frame, d),
        Err(refusal) => add_refusal(text, refusal),
    }
}

// An input that is too long is not read: only its length counts.
#[tactic(auto, unfolding(crate::specs::Text::text_of_input))]
fn add_input(text: &mut Text, start: &[u8], count: usize)
    ensures { Adds text.old (text_of_input start.now count) text.new }
{
    if count > PHY_PAYLOAD_MAX_LEN {
        return add_refusal(text, Refusal::at(FRAME_TOO_LONG, count));
    }
    add_text(text, start)
}

// Stores that text, and answers the place after it.
fn put_input(out: &mut [u8], start: &[u8], count: usize) -> usize
    requires { 128 ≤ length out.old }
    ensures { Put out.old 0 (text_of_input start.now count) result out.new }
{
    let mut text = Text::new();
    add_input(&mut text, start, count);
    base::storing::put(out, 0, text.as_slice())
}

// Writes the text of an input of count bytes to the start of out and answers its length. Up to 255 bytes the input is start; of
// a longer one only the count is shown. An out that is shorter than TEXT_ROOM is refused by 7 and stays as it is.
#[tactic(auto, unfolding(crate::specs::Text::described_of, crate::specs::Text::described_in))]
pub fn describe_input(start: &[u8], count: usize, out: &mut [u8]) -> Result<usize, Refusal>
    ensures value { result ≡ described_of (text_of_input start.now count) out.old }
    ensures out_after { out.new ≡ described_in (text_of_input start.now count) out.old }
{
    if out.len() < TEXT_ROOM {
        return Err(Refusal::of(BUFFER_TOO_SHORT));
    }
    Ok(put_input(out, start, count))
}

// The text of a frame that is there as a whole, in the same way.
pub fn describe(frame: &[u8], out: &mut [u8]) -> Result<usize, Refusal>
    ensures value { result ≡ described_of (text_of frame.now) out.old }
    ensures out_after { out.new ≡ described_in (text_of frame.now) out.old }
{
    describe_input(frame, frame.len(), out)
}
