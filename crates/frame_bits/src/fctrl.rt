// The control byte of a data frame, and what a message type and an address say by themselves (LoRaWAN 1.0, sections
// 4.2.1, 4.3.1 and 6.1.1; parser.rs of crate lorawan 0.9.0).
ghost use Rattle.std.specs.Prelude.{◌≡◌, ◌/◌, ◌%◌, ◌<◌, eqb};
ghost use Rattle.frame_bits.specs.Fctrl.{fctrl_of, adr_of, adr_ack_req_of, ack_of, f_pending_of, f_opts_len_of, with_bit_of, uplink_of, confirmed_of, nwk_id_of};

// FCtrl of a data frame (4.3.1): its byte, and whether the frame goes up.
#[derive(Clone, Copy)]
pub struct FCtrl(pub u8, pub bool);

// Whether a byte has the bit of value b.
fn has_bit(v: u8, b: u8) -> bool
    requires { 0 < b }
    ensures { result ≡ eqb (v / b % 2) 1 }
{
    v / b % 2 == 1
}

impl FCtrl {
    pub fn new(value: u8, uplink: bool) -> FCtrl
        ensures { result ≡ fctrl_of value uplink }
    {
        FCtrl(value, uplink)
    }

    pub fn adr(self) -> bool
        ensures { result ≡ adr_of self }
    {
        has_bit(self.0, 128)
    }

    // Only frames that go up request an acknowledgement of ADR.
    pub fn adr_ack_req(self) -> bool
        ensures { result ≡ adr_ack_req_of self }
    {
        self.1 && has_bit(self.0, 64)
    }

    pub fn ack(self) -> bool
        ensures { result ≡ ack_of self }
    {
        has_bit(self.0, 32)
    }

    // Only frames that go down say that more is to come.
    pub fn f_pending(self) -> bool
        ensures { result ≡ f_pending_of self }
    {
        !self.1 && has_bit(self.0, 16)
    }

    pub fn f_opts_len(self) -> u8
        ensures { result ≡ f_opts_len_of self }
    {
        self.0 % 16
    }

    pub fn raw_value(self) -> u8
        ensures { result ≡ self.0 }
    {
        self.0
    }

    // A name for each bit that is set, as for each that is read, since callers know the bits by name.
    pub fn with_adr(self) -> FCtrl
        ensures { result ≡ with_bit_of 128 self }
    {
        FCtrl(self.0 | 128, self.1)
    }

    pub fn with_adr_ack_req(self) -> FCtrl
        ensures { result ≡ with_bit_of 64 self }
    {
        FCtrl(self.0 | 64, self.1)
    }

    pub fn with_ack(self) -> FCtrl
        ensures { result ≡ with_bit_of 32 self }
    {
        FCtrl(self.0 | 32, self.1)
    }

    pub fn with_f_pending(self) -> FCtrl
        ensures { result ≡ with_bit_of 16 self }
    {
        FCtrl(self.0 | 16, self.1)
    }
}

// Whether a data frame of the type goes up, and whether it is confirmed (4.2.1).
pub fn is_uplink(mtype: u8) -> bool
    ensures { result ≡ uplink_of mtype }
{
    matches!(mtype, 2 | 4)
}

pub fn is_confirmed(mtype: u8) -> bool
    ensures { result ≡ confirmed_of mtype }
{
    matches!(mtype, 4 | 5)
}

// NwkID of an address (6.1.1): its seven high bits, which stand in its last byte in frame order. The crate takes the first byte
// (docs/DIFFERENCES.md).
pub fn nwk_id(dev_addr: [u8; 4]) -> u8
    ensures { result ≡ nwk_id_of dev_addr }
{
    dev_addr[3] >> 1
}

// The message type of a frame's first byte (4.2.1): its three high bits.
pub fn message_type(mhdr: u8) -> u8
    ensures { result ≡ mhdr / 32 }
{
    mhdr >> 5
}
