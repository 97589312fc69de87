// Every refusal that the codec gives, by its number and name (docs/RULES.md, Refusals), and the pair of number and place that
// an answer carries.
ghost use Rattle.std.specs.Prelude.{◌≡◌};
ghost use Rattle.frame.specs.Refusals.{refusal, refused};

pub const INVALID_PAYLOAD: u8 = 1;

pub const UNSUPPORTED_MAJOR_VERSION: u8 = 2;

pub const INVALID_MESSAGE_TYPE: u8 = 3;

pub const INVALID_DATA: u8 = 4;

pub const INVALID_MIC: u8 = 5;

pub const INVALID_KEY: u8 = 6;

pub const BUFFER_TOO_SHORT: u8 = 7;

pub const INVALID_CHANNEL_LIST: u8 = 8;

pub const MAC_COMMAND_TOO_BIG_FOR_FOPTS: u8 = 9;

pub const DATA_AND_MAC_COMMANDS_IN_PAYLOAD_NOT_ALLOWED: u8 = 10;

pub const FRM_PAYLOAD_WITH_FPORT_ZERO: u8 = 11;

pub const FRAME_TOO_LONG: u8 = 12;

pub const FOPTS_LEN_SET: u8 = 13;

pub const COUNTER_MISMATCH: u8 = 14;

pub const OFFSET_OUTSIDE: u8 = 15;

pub const UNKNOWN_COMMAND: u8 = 16;

pub const COMMAND_CUT_SHORT: u8 = 17;

pub const VALUE_OUT_OF_RANGE: u8 = 18;

// A refusal: its number, and the place that the rules name, 0 where they name none.
#[derive(Clone, Copy)]
pub struct Refusal {
    pub number: u8,
    pub place: usize,
}

impl Refusal {
    pub fn at(number: u8, place: usize) -> Refusal
        ensures { result ≡ refusal number place }
    {
        Refusal { number, place }
    }

    // Where the rules name no place.
    pub fn of(number: u8) -> Refusal
        ensures { result ≡ refused number }
    {
        Refusal::at(number, 0)
    }
}
