// Building data frames (creator.rs of the crate). The fields go in by value, in one record;
// commands, payload and output are lent. Nothing is remembered between calls.
ghost use Rattle.std.specs.Prelude.{◌≡◌, ◌++◌, ◌+◌, ◌/◌, ◌%◌, ◌≤◌, ◌<◌, leb, length};
ghost use Rattle.base.specs.Storing.{Put};
ghost use Rattle.frame.specs.Refusals.{allowed};
ghost use Rattle.frame_build.specs.DataBuilding.{body_of, clear_data, data_refusal_of, fixed_header_of, mhdr_of};
ghost use Rattle.frame_build.specs.DataFrames.{Builds, data_frame_of};
ghost use Rattle.frame_build.specs.DataRefusalCases.{absent_refusal, port_refusal};
ghost use Rattle.frame_build.specs.GivenParts.{DataGiven};

use frame::packet_length::{FOPTS_MAX_LEN, MIC_LEN, PHY_PAYLOAD_MAX_LEN};
use frame::refusals::{
    BUFFER_TOO_SHORT, DATA_AND_MAC_COMMANDS_IN_PAYLOAD_NOT_ALLOWED, FOPTS_LEN_SET, FRAME_TOO_LONG,
    FRM_PAYLOAD_WITH_FPORT_ZERO, MAC_COMMAND_TOO_BIG_FOR_FOPTS, Refusal,
};
use frame_security::sealing::seal;

// A data frame (4.3): its kind, the address in frame order, FCtrl with a low nibble of 0, the whole counter and the port.
#[derive(Clone, Copy)]
pub struct DataParts {
    pub confirmed: bool,
    pub uplink: bool,
    pub dev_addr: [u8; 4],
    pub fctrl: u8,
    pub fcnt: u32,
    pub port: Option<u8>,
}

// Whether the commands fit FOpts.
pub fn can_piggyback(commands: &[u8]) -> bool
    ensures { result ≡ leb (length commands.now) 15 }
{
    commands.len() <= FOPTS_MAX_LEN
}

fn mhdr(confirmed: bool, uplink: bool) -> u8
    ensures { result ≡ mhdr_of confirmed uplink }
{
    match (confirmed, uplink) {
        (false, true) => 0x40,
        (false, false) => 0x60,
        (true, true) => 0x80,
        (true, false) => 0xA0,
    }
}

// MHDR, DevAddr, FCtrl with FOptsLen, FCnt: the eight bytes that every data frame begins with.
#[tactic(auto, using(crate::proofs::DataHeader::fixed_eight))]
fn fixed_header(d: DataParts, fopts: u8) -> [u8; 8]
    requires { (d.fctrl % 16 ≡ 0) × (fopts < 16) }
    ensures { result ≡ fixed_header_of d fopts }
{
    let first = mhdr(d.confirmed, d.uplink);
    let [a0, a1, a2, a3] = d.dev_addr;
    let control = d.fctrl + fopts;
    let [low, high, ..] = d.fcnt.to_le_bytes();
    [first, a0, a1, a2, a3, control, low, high]
}

// Stores four parts one after another from the start of out, and answers the place past them.
pub(crate) fn put_parts(
    out: &mut [u8],
    first: &[u8],
    second: &[u8],
    third: &[u8],
    fourth: &[u8],
) -> usize
    requires { length first.now + length second.now + length third.now + length fourth.now ≤ length out.old }
    ensures { Put out.old 0 (first.now ++ second.now ++ third.now ++ fourth.now) result
        out.new }
{
    let a = base::storing::put(out, 0, first);
    let b = base::storing::put(out, a, second);
    let c = base::storing::put(out, b, third);
    base::storing::put(out, c, fourth)
}

// The header's eight bytes, FOpts, the port byte if there is one and the payload, from the start of out.
fn put_frame(d: DataParts, fopts: &[u8], port: &[u8], body: &[u8], out: &mut [u8]) -> usize
    requires { (d.fctrl % 16 ≡ 0) × (length fopts.now < 16)
        × (8 + length fopts.now + length port.now + length body.now ≤ length out.old) }
    ensures { Put out.old 0
        (fixed_header_of d (length fopts.now) ++ fopts.now ++ port.now ++ body.now) result
        out.new }
{
    let head = fixed_header(d, fopts.len() as u8);
    put_parts(out, &head, fopts, port, body)
}

// What data building is refused by, if it is. A length is compared with the longest frame before it goes into a sum.
fn data_refusal(d: DataParts, commands: &[u8], payload: &[u8], room: usize) -> Result<(), Refusal>
    ensures { result ≡ allowed (data_refusal_of d commands.now payload.now room) }
{
    if room < PHY_PAYLOAD_MAX_LEN {
        return Err(Refusal::of(BUFFER_TOO_SHORT));
    }
    if d.fctrl % 16 != 0 {
        return Err(Refusal::of(FOPTS_LEN_SET));
    }
    match d.port {
        None => without_port(commands.len(), payload.len()),
        Some(p) => with_port(p, commands.len(), payload.len()),
    }
}

// Refusals 9 and 11 of a frame without a port; twelve bytes and FOpts are never too long.
fn without_port(commands: usize, payload: usize) -> Result<(), Refusal>
    ensures { result ≡ allowed (absent_refusal commands payload) }
{
    if FOPTS_MAX_LEN < commands {
        return Err(Refusal::of(MAC_COMMAND_TOO_BIG_FOR_FOPTS));
    }
    if 0 < payload {
        return Err(Refusal::of(FRM_PAYLOAD_WITH_FPORT_ZERO));
    }
    Ok(())
}

// Refusals 9, 10 and 12 of a frame with a port.
fn with_port(port: u8, commands: usize, payload: usize) -> Result<(), Refusal>
    ensures { result ≡ allowed (port_refusal port commands payload) }
{
    if port == 0 {
        if 0 < payload {
            return Err(Refusal::of(DATA_AND_MAC_COMMANDS_IN_PAYLOAD_NOT_ALLOWED));
        }
        if 242 < commands {
            return Err(Refusal::of(FRAME_TOO_LONG));
        }
        return Ok(());
    }
    if FOPTS_MAX_LEN < commands {
        return Err(Refusal::of(MAC_COMMAND_TOO_BIG_FOR_FOPTS));
    }
    if PHY_PAYLOAD_MAX_LEN < payload {
        return Err(Refusal::of(FRAME_TOO_LONG));
    }
    if PHY_PAYLOAD_MAX_LEN < 13 + commands + payload {
        return Err(Refusal::of(FRAME_TOO_LONG));
    }
    Ok(())
}

// The clear data frame without its MIC, from the start of out; answers its length.
fn fill(d: DataParts, commands: &[u8], payload: &[u8], out: &mut [u8]) -> usize
    requires { data_refusal_of d commands.now payload.now (length out.old) ≡ 0 }
    ensures { Put out.old 0 (clear_data d commands.now payload.now) result out.new }
{
    match d.port {
        None => put_frame(d, commands, &payload[..0], payload, out),
        Some(p) => {
            let byte = [p];
            if p == 0 {
                return put_frame(d, &commands[..0], &byte, commands, out);
            }
            put_frame(d, commands, &byte, payload, out)
        }
    }
}

// The length of a data frame's payload.
fn body_length(port: Option<u8>, commands: &[u8], payload: &[u8]) -> usize
    ensures { result ≡ length (body_of port commands.now payload.now) }
{
    match port {
        None => payload.len(),
        Some(p) => {
            if p == 0 {
                return commands.len();
            }
            payload.len()
        }
    }
}

// Builds a data frame (4.3) at the start of out. Commands go into FOpts, on port 0 into the payload.
pub fn build_data(
    d: DataParts,
    commands: &[u8],
    payload: &[u8],
    nwk_skey: [u8; 16],
    app_skey: [u8; 16],
    out: &mut [u8],
) -> Result<usize, Refusal>
    ensures builds { Builds (data_refusal_of d commands.now payload.now (length out.old))
        (data_frame_of nwk_skey app_skey d commands.now payload.now) out.old result
        out.new }
    ensures data_given { DataGiven d }
{
    data_refusal(d, commands, payload, out.len())?;
    let end = fill(d, commands, payload, out);
    let start = end - body_length(d.port, commands, payload);
    seal(out, start, end, d.fcnt, nwk_skey, app_skey);
    Ok(end + MIC_LEN)
}
