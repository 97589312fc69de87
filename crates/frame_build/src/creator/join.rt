// Building the join messages (creator.rs of the crate). The fields go in by value, in one record to a kind of frame; channels
// and output are lent. Nothing is remembered between calls.
ghost use Rattle.std.specs.Prelude.{◌≡◌, ◌+◌, ◌/◌, ◌%◌, ◌≤◌, ◌<◌, length, take};
ghost use Rattle.base.specs.Storing.{Put};
ghost use Rattle.frame.specs.Refusals.{allowed};
ghost use Rattle.frame_build.specs.JoinBuilding.{accept_head_of, cf_list_bytes_of, frequency_bytes, join_accept_body, join_accept_length, join_accept_refusal_of, join_request_body, join_request_refusal, too_high_of};
ghost use Rattle.frame_build.specs.DataFrames.{Builds};
ghost use Rattle.frame_build.specs.GivenParts.{AcceptGiven, RequestGiven};
ghost use Rattle.frame_build.specs.JoinFrames.{join_accept_of, join_request_of};
ghost use Rattle.frame_security.specs.Security.{join_mic};
ghost use Rattle.base.specs.Bytes.{at};

use crate::creator::data_frame::put_parts;
use frame::packet_length::{JOIN_ACCEPT_LEN, JOIN_ACCEPT_WITH_CFLIST_LEN, JOIN_REQUEST_LEN};
use frame::refusals::{BUFFER_TOO_SHORT, INVALID_CHANNEL_LIST, Refusal};
use frame_security::ecb::decrypt_blocks;
use frame_security::securityhelpers::calculate_mic;

// A join-request (6.2.4), each field in frame order.
#[derive(Clone, Copy)]
pub struct JoinRequestParts {
    pub app_eui: [u8; 8],
    pub dev_eui: [u8; 8],
    pub dev_nonce: [u8; 2],
}

// A join-accept (6.2.5), each field in frame order. Where with_c_f_list is false, no channel is looked at.
#[derive(Clone, Copy)]
pub struct JoinAcceptParts {
    pub app_nonce: [u8; 3],
    pub net_id: [u8; 3],
    pub dev_addr: [u8; 4],
    pub dl_settings: u8,
    pub rx_delay: u8,
    pub with_c_f_list: bool,
}

// MHDR, AppNonce, NetID, DevAddr, DLSettings and RxDelay of a join-accept (6.2.5).
#[tactic(auto, using(crate::proofs::JoinBodies::head_written))]
fn accept_head(j: JoinAcceptParts) -> [u8; 13]
    ensures { result ≡ accept_head_of j }
{
    let n = j.app_nonce;
    let i = j.net_id;
    let a = j.dev_addr;
    [
        0x20,
        n[0],
        n[1],
        n[2],
        i[0],
        i[1],
        i[2],
        a[0],
        a[1],
        a[2],
        a[3],
        j.dl_settings,
        j.rx_delay,
    ]
}

// The channel at an index as three bytes, low byte first; zeros past the end.
fn frequency_at(channels: &[u32], i: usize) -> [u8; 3]
    ensures { result ≡ frequency_bytes (at channels.now i) }
{
    let channel = channels.get(i).copied().unwrap_or(0);
    let [low, middle, high, _] = channel.to_le_bytes();
    [low, middle, high]
}

// Five channels, absent ones 0, and the list's type 0.
#[tactic(auto, using(crate::proofs::JoinBodies::list_turn, crate::proofs::JoinBodies::list_done))]
fn cf_list_bytes(channels: &[u32]) -> [u8; 16]
    ensures { result ≡ cf_list_bytes_of channels.now }
{
    let mut list = [0u8; 16];
    for i in 0..5 {
        list[3 * i..3 * i + 3].copy_from_slice(&frequency_at(channels, i));
    }
    list
}

// Whether a channel does not fit 24 bits.
fn too_high(channels: &[u32]) -> bool
    ensures { result ≡ too_high_of channels.now }
{
    channels.iter().any(|channel| 16777215 < *channel)
}

// What join-accept building is refused by, if it is.
fn join_accept_refusal(j: JoinAcceptParts, channels: &[u32], room: usize) -> Result<(), Refusal>
    ensures { result ≡ allowed (join_accept_refusal_of j channels.now room) }
{
    if j.with_c_f_list {
        if 5 < channels.len() {
            return Err(Refusal::of(INVALID_CHANNEL_LIST));
        }
        if too_high(channels) {
            return Err(Refusal::of(INVALID_CHANNEL_LIST));
        }
        if room < JOIN_ACCEPT_WITH_CFLIST_LEN {
            return Err(Refusal::of(BUFFER_TOO_SHORT));
        }
        return Ok(());
    }
    if room < JOIN_ACCEPT_LEN {
        return Err(Refusal::of(BUFFER_TOO_SHORT));
    }
    Ok(())
}

// Stores the MIC of a join message's first n bytes behind them, and answers the place past it.
fn sign(out: &mut [u8], n: usize, app_key: [u8; 16]) -> usize
    requires { (13 ≤ n) × (n + 4 ≤ length out.old) }
    ensures { Put out.old n (join_mic app_key (take n out.old)) result out.new }
{
    let mic = calculate_mic(app_key, &out[..n]);
    base::storing::put(out, n, &mic)
}

const JOIN_REQUEST_MHDR: u8 = 0;

// The join-request without its MIC, from the start of out; answers its length.
#[tactic(auto, using(crate::proofs::JoinBodies::request_parts))]
fn fill_request(j: JoinRequestParts, out: &mut [u8]) -> usize
    requires { 23 ≤ length out.old }
    ensures { Put out.old 0 (join_request_body j) result out.new }
{
    put_parts(
        out,
        &[JOIN_REQUEST_MHDR],
        &j.app_eui,
        &j.dev_eui,
        &j.dev_nonce,
    )
}

// Builds a join-request (6.2.4) at the start of out.
pub fn build_join_request(
    j: JoinRequestParts,
    app_key: [u8; 16],
    out: &mut [u8],
) -> Result<usize, Refusal>
    ensures builds { Builds (join_request_refusal (length out.old)) (join_request_of app_key j) out.old result
        out.new }
    ensures request_given { RequestGiven j }
{
    if out.len() < JOIN_REQUEST_LEN {
        return Err(Refusal::of(BUFFER_TOO_SHORT));
    }
    let n = fill_request(j, out);
    let past = sign(out, n, app_key);
    Ok(past)
}

// The clear join-accept without its MIC, from the start of out; answers its length.
fn fill_accept(j: JoinAcceptParts, channels: &[u32], out: &mut [u8]) -> usize
    requires { join_accept_length j ≤ length out.old }
    ensures { Put out.old 0 (join_accept_body j channels.now) result out.new }
{
    let head = accept_head(j);
    let a = base::storing::put(out, 0, &head);
    if j.with_c_f_list {
        let list = cf_list_bytes(channels);
        return base::storing::put(out, a, &list);
    }
    a
}

// Builds a join-accept (6.2.5) at the start of out. The channels count only where with_c_f_list says that there is a list.
pub fn build_join_accept(
    j: JoinAcceptParts,
    channels: &[u32],
    app_key: [u8; 16],
    out: &mut [u8],
) -> Result<usize, Refusal>
    ensures builds { Builds (join_accept_refusal_of j channels.now (length out.old))
        (join_accept_of app_key j channels.now) out.old result out.new }
    ensures accept_given { AcceptGiven app_key j }
{
    join_accept_refusal(j, channels, out.len())?;
    let n = fill_accept(j, channels, out);
    let end = sign(out, n, app_key);
    let blocks = &mut out[1..end];
    decrypt_blocks(app_key, blocks);
    Ok(end)
}
