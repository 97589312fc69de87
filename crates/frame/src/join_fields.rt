// The fields of the join messages (LoRaWAN 1.0, sections 6.2.4 and 6.2.5; parser.rs of crate lorawan 0.9.0).
ghost use Rattle.std.specs.Prelude.{◌≡◌, ◌+◌, ◌*◌, ◌%◌, ◌≤◌, length};
ghost use Rattle.base.specs.Bytes.{tab, part};
ghost use Rattle.frame.specs.Layout.{cf_list_at};
ghost use Rattle.frame.specs.JoinFields.{request_fields_of, join_request_fields_of, cf_list_of, frequency_at_of, accept_fields_of, join_accept_fields_of};

use crate::packet_length::{
    ACCEPT_ADDR_AT, APP_EUI_AT, APP_NONCE_AT, CF_LIST_AT, CF_LIST_TYPE_AT, DEV_EUI_AT,
    DEV_NONCE_AT, DL_SETTINGS_AT, JOIN_ACCEPT_WITH_CFLIST_LEN, NET_ID_AT, REQUEST_MIC_AT,
    RX_DELAY_AT,
};
use crate::parser::{read_as_join_accept, read_as_join_request};
use crate::refusals::Refusal;
use base::storing::run_at;

// The fields of a join-request (6.2.4).
#[derive(Clone, Copy)]
pub struct JoinRequestFields {
    pub app_eui: [u8; 8],
    pub dev_eui: [u8; 8],
    pub dev_nonce: [u8; 2],
    pub mic: [u8; 4],
}

// The list that a join-accept holds (6.2.5). A frequency is in units of 100 Hz.
#[derive(Clone, Copy)]
pub enum CfList {
    Frequencies([u32; 5]),
    Masks([u8; 9]),
}

// The fields of a clear join-accept (6.2.5).
#[derive(Clone, Copy)]
pub struct JoinAcceptFields {
    pub app_nonce: [u8; 3],
    pub net_id: [u8; 3],
    pub dev_addr: [u8; 4],
    pub dl_settings: u8,
    pub rx_delay: u8,
    pub cf_list: Option<CfList>,
}

fn request_fields(frame: &[u8]) -> JoinRequestFields
    requires { length frame.now ≡ 23 }
    ensures { result ≡ request_fields_of frame.now }
{
    let app_eui = run_at(frame, APP_EUI_AT);
    let dev_eui = run_at(frame, DEV_EUI_AT);
    let dev_nonce = run_at(frame, DEV_NONCE_AT);
    let mic = run_at(frame, REQUEST_MIC_AT);
    JoinRequestFields {
        app_eui,
        dev_eui,
        dev_nonce,
        mic,
    }
}

// The fields of a join-request.
pub fn join_request_fields(frame: &[u8]) -> Result<JoinRequestFields, Refusal>
    ensures { result ≡ join_request_fields_of frame.now }
{
    read_as_join_request(frame)?;
    Ok(request_fields(frame))
}

// Three bytes, low byte first.
fn frequency(low: u8, middle: u8, high: u8) -> u32
    ensures { result ≡ low + middle * 256 + high * 65536 }
{
    u32::from_le_bytes([low, middle, high, 0])
}

fn five_frequencies(frame: &[u8]) -> [u32; 5]
    requires { length frame.now ≡ 33 }
    ensures { result ≡ tab 5 (λ i. frequency_at_of frame.now (cf_list_at + 3 * i)) }
{
    let mut out = [0u32; 5];
    for i in 0..5 {
        let from = CF_LIST_AT + 3 * i;
        let value = frequency(frame[from], frame[from + 1], frame[from + 2]);
        out[i] = value;
    }
    out
}

// The list of a join-accept: its type says which it is, of 33 bytes.
fn cf_list(frame: &[u8]) -> Option<CfList>
    ensures { result ≡ cf_list_of frame.now }
{
    if frame.len() == JOIN_ACCEPT_WITH_CFLIST_LEN {
        if frame[CF_LIST_TYPE_AT] == 0 {
            return Some(CfList::Frequencies(five_frequencies(frame)));
        }
        if frame[CF_LIST_TYPE_AT] == 1 {
            return Some(CfList::Masks(run_at(frame, CF_LIST_AT)));
        }
    }
    None
}

fn accept_fields(frame: &[u8]) -> JoinAcceptFields
    requires { 17 ≤ length frame.now }
    ensures { result ≡ accept_fields_of frame.now }
{
    let app_nonce = run_at(frame, APP_NONCE_AT);
    let net_id = run_at(frame, NET_ID_AT);
    let dev_addr = run_at(frame, ACCEPT_ADDR_AT);
    let list = cf_list(frame);
    JoinAcceptFields {
        app_nonce,
        net_id,
        dev_addr,
        dl_settings: frame[DL_SETTINGS_AT],
        rx_delay: frame[RX_DELAY_AT] % 16,
        cf_list: list,
    }
}

// The fields of a join-accept that was decrypted.
pub fn join_accept_fields(frame: &[u8]) -> Result<JoinAcceptFields, Refusal>
    ensures { result ≡ join_accept_fields_of frame.now }
{
    read_as_join_accept(frame)?;
    Ok(accept_fields(frame))
}
