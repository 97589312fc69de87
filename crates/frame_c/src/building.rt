// Buildings.
ghost use Rattle.std.specs.Prelude.{eqb, length};
ghost use Rattle.frame_build.specs.JoinBuilding.{join_request_refusal, join_accept_refusal_of};
ghost use Rattle.frame_build.specs.DataFrames.{data_frame_of};
ghost use Rattle.frame_build.specs.JoinFrames.{join_request_of, join_accept_of};
ghost use Rattle.frame_c.specs.CGiven.{accept_parts_of, data_parts_of, request_parts_of, data_refused};
ghost use Rattle.frame_c.specs.CAnswers.{BuildsInC};

use crate::conversions::answers::value_answer;
use crate::conversions::building::{accept_parts, data_parts};
use frame::packed::numbered_bits;
use frame::refusals::{INVALID_DATA, INVALID_MESSAGE_TYPE};
use frame_build::creator::join::JoinRequestParts;

pub fn zinovoky_build_join_request(
    app_eui: &[u8; 8],
    dev_eui: &[u8; 8],
    dev_nonce: &[u8; 2],
    app_key: &[u8; 16],
    out: &mut [u8],
) -> u64
    ensures { BuildsInC (join_request_refusal (length out.old))
        (join_request_of app_key.now
        (request_parts_of app_eui.now dev_eui.now dev_nonce.now))
        out.old result out.new }
{
    let app = *app_eui;
    let dev = *dev_eui;
    let nonce = *dev_nonce;
    let key = *app_key;
    let parts = JoinRequestParts {
        app_eui: app,
        dev_eui: dev,
        dev_nonce: nonce,
    };
    let built = frame_build::creator::join::build_join_request(parts, key, out);
    value_answer(built)
}

pub fn zinovoky_build_join_accept(
    fixed: &[u8; 12],
    with_list: u8,
    channels: &[u32],
    app_key: &[u8; 16],
    out: &mut [u8],
) -> u64
    ensures { BuildsInC
        (join_accept_refusal_of (accept_parts_of fixed.now (eqb with_list 1)) channels.now
        (length out.old))
        (join_accept_of app_key.now (accept_parts_of fixed.now (eqb with_list 1)) channels.now)
        out.old result out.new }
{
    let key = *app_key;
    let bytes = *fixed;
    let parts = accept_parts(bytes, with_list == 1);
    let built = frame_build::creator::join::build_join_accept(parts, channels, key, out);
    value_answer(built)
}

pub fn zinovoky_build_data(
    kind: u8,
    dev_addr: &[u8; 4],
    fctrl: u8,
    counter: u32,
    port: u16,
    commands: &[u8],
    payload: &[u8],
    nwk_skey: &[u8; 16],
    app_skey: &[u8; 16],
    out: &mut [u8],
) -> u64
    ensures { BuildsInC
        (data_refused kind (data_parts_of kind dev_addr.now fctrl counter port) commands.now
        payload.now (length out.old))
        (data_frame_of nwk_skey.now app_skey.now
        (data_parts_of kind dev_addr.now fctrl counter port) commands.now payload.now)
        out.old result out.new }
{
    if kind < 2 {
        return numbered_bits(INVALID_DATA, 0);
    }
    if kind > 5 {
        return numbered_bits(INVALID_MESSAGE_TYPE, 0);
    }
    let addr = *dev_addr;
    let nwk = *nwk_skey;
    let app = *app_skey;
    let parts = data_parts(kind, addr, fctrl, counter, port);
    let built = frame_build::creator::data_frame::build_data(
        parts, commands, payload, nwk, app, out,
    );
    value_answer(built)
}
