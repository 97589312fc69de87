// Lengths in bytes of a frame and its parts (LoRaWAN 1.0, section 4; packet_length.rs of the crate, by the same names), and
// where the fields begin that have a fixed place.
pub const MIC_LEN: usize = 4;

// The join messages (6.2.4, 6.2.5).
pub const JOIN_REQUEST_LEN: usize = 23;

pub const JOIN_ACCEPT_LEN: usize = 17;

pub const JOIN_ACCEPT_WITH_CFLIST_LEN: usize = 33;

// The data messages (4.3).
pub const FOPTS_MAX_LEN: usize = 15;

pub const FHDR_MIN_LEN: usize = 7;

pub const PHY_PAYLOAD_MIN_LEN: usize = 12;

// The longest frame that is read or built: a limit of docs/RULES.md, which the crate does not have.
pub const PHY_PAYLOAD_MAX_LEN: usize = 255;

// Of a join-request.
pub const APP_EUI_AT: usize = 1;

pub const DEV_EUI_AT: usize = 9;

pub const DEV_NONCE_AT: usize = 17;

pub const REQUEST_MIC_AT: usize = 19;

// Of a clear join-accept.
pub const APP_NONCE_AT: usize = 1;

pub const NET_ID_AT: usize = 4;

pub const ACCEPT_ADDR_AT: usize = 7;

pub const DL_SETTINGS_AT: usize = 11;

pub const RX_DELAY_AT: usize = 12;

pub const CF_LIST_AT: usize = 13;

pub const CF_LIST_TYPE_AT: usize = 28;

// Of a data frame.
pub const DEV_ADDR_AT: usize = 1;

pub const FCTRL_AT: usize = 5;

pub const FCNT_AT: usize = 6;

pub const FOPTS_AT: usize = 8;
