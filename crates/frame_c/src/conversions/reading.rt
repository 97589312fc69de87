// The fields of the join messages in bytes.
ghost use Rattle.std.specs.Prelude.{◌≡◌, ◌+◌, ◌≤◌, length};
ghost use Rattle.base.specs.Storing.{Put};
ghost use Rattle.frame.specs.JoinFields.{list_number_of, frequencies_of, masks_of};
ghost use Rattle.frame_c.specs.CStored.{request_bytes, RequestInto, four_each, accept_fixed, AcceptInto};

use crate::conversions::answers::{done_answer, refusal_answer};
use crate::conversions::storing::fitted;
use base::storing::put;
use frame::join_fields::{CfList, JoinAcceptFields, JoinRequestFields};
use frame::refusals::Refusal;

const REQUEST_FIELDS_LEN: usize = 22;

const ACCEPT_FIELDS_LEN: usize = 42;

// The fields of a join-request from the start of out; answers the place past them.
fn put_request(fields: JoinRequestFields, out: &mut [u8]) -> usize
    requires { 22 ≤ length out.old }
    ensures { Put out.old 0 (request_bytes fields) result out.new }
{
    let app_eui = fields.app_eui;
    let dev_eui = fields.dev_eui;
    let dev_nonce = fields.dev_nonce;
    let mic = fields.mic;
    let a = put(out, 0, &app_eui);
    let b = put(out, a, &dev_eui);
    let c = put(out, b, &dev_nonce);
    put(out, c, &mic)
}

// Stores the fields of a join-request, where it is one and there is room for them.
pub(crate) fn store_request(fields: Result<JoinRequestFields, Refusal>, out: &mut [u8]) -> u64
    ensures { RequestInto fields out.old result out.new }
{
    match fitted(fields, REQUEST_FIELDS_LEN, out.len()) {
        Ok(found) => {
            put_request(found, out);
            done_answer(Ok(()))
        }
        Err(refusal) => refusal_answer(refusal),
    }
}

// Which list a join-accept holds: 0 none, 1 frequencies, 2 masks.
fn list_number(list: Option<CfList>) -> u8
    ensures { result ≡ list_number_of list }
{
    match list {
        None => 0,
        Some(CfList::Frequencies(_)) => 1,
        Some(CfList::Masks(_)) => 2,
    }
}

// The frequencies of a list, and its masks: zeros where it has none.
fn frequencies(list: Option<CfList>) -> [u32; 5]
    ensures { result ≡ frequencies_of list }
{
    match list {
        Some(CfList::Frequencies(values)) => values,
        _ => [0; 5],
    }
}

fn masks(list: Option<CfList>) -> [u8; 9]
    ensures { result ≡ masks_of list }
{
    match list {
        Some(CfList::Masks(bytes)) => bytes,
        _ => [0; 9],
    }
}

// All of a join-accept but the frequencies, from the start of out; answers the place past it.
fn put_fixed(fields: JoinAcceptFields, out: &mut [u8]) -> usize
    requires { 22 ≤ length out.old }
    ensures stored { Put out.old 0 (accept_fixed fields) result out.new }
    ensures past { result ≡ 22 }
{
    let app_nonce = fields.app_nonce;
    let net_id = fields.net_id;
    let dev_addr = fields.dev_addr;
    let list = list_number(fields.cf_list);
    let single = [fields.dl_settings, fields.rx_delay, list];
    let bits = masks(fields.cf_list);
    let a = put(out, 0, &app_nonce);
    let b = put(out, a, &net_id);
    let c = put(out, b, &dev_addr);
    let d = put(out, c, &single);
    put(out, d, &bits)
}

// Five frequencies of four bytes each, low byte first, from a place on; answers the place past them.
fn put_frequencies(out: &mut [u8], at: usize, frequencies: [u32; 5]) -> usize
    requires { at + 20 ≤ length out.old }
    ensures { Put out.old at (four_each 5 frequencies) result out.new }
{
    let mut end = at;
    for i in 0..5 {
        let bytes = frequencies[i].to_le_bytes();
        end = put(out, end, &bytes);
    }
    end
}

// Stores the fields of a join-accept, where it is one and there is room for them.
pub(crate) fn store_accept(fields: Result<JoinAcceptFields, Refusal>, out: &mut [u8]) -> u64
    ensures { AcceptInto fields out.old result out.new }
{
    match fitted(fields, ACCEPT_FIELDS_LEN, out.len()) {
        Ok(found) => {
            let end = put_fixed(found, out);
            put_frequencies(out, end, frequencies(found.cf_list));
            done_answer(Ok(()))
        }
        Err(refusal) => refusal_answer(refusal),
    }
}
