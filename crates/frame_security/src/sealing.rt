// Sealing a data frame where it lies (LoRaWAN 1.0, 4.3.3 and 4.4): its payload is encrypted, and the MIC stored behind it.
ghost use Rattle.std.specs.Prelude.{◌≡◌, ◌++◌, ◌+◌, ◌-◌, ◌≤◌, length, take, drop};
ghost use Rattle.base.specs.Bytes.{part};
ghost use Rattle.frame_security.specs.Security.{payload_key_of};
ghost use Rattle.frame_security.specs.Sealing.{sealed, sealed_in};

use crate::securityhelpers::{by_network_key, calculate_data_mic, encrypt_part};
use frame::packet_length::{FOPTS_AT, MIC_LEN};

// The key of a payload of `count` bytes.
fn payload_key(header: &[u8], count: usize, nwk_skey: [u8; 16], app_skey: [u8; 16]) -> [u8; 16]
    ensures { result ≡ payload_key_of header.now count nwk_skey app_skey }
{
    if by_network_key(header, count) {
        nwk_skey
    } else {
        app_skey
    }
}

#[tactic(auto, using(crate::proofs::SealingLaws::sealed_in_place, crate::proofs::SecurityLaws::crypted_inside))]
fn seal_inside(
    out: &mut [u8],
    start: usize,
    end: usize,
    counter: u32,
    nwk_skey: [u8; 16],
    app_skey: [u8; 16],
)
    requires { (8 ≤ start) × (start ≤ end) × (end + 4 ≤ length out.old) }
    ensures { out.new
        ≡ sealed nwk_skey app_skey counter (take start out.old) (part start (end - start) out.old)
        ++ drop (end + 4) out.old }
{
    let key = payload_key(&out[..start], end - start, nwk_skey, app_skey);
    encrypt_part(key, out, counter, start, end);
    let mic = calculate_data_mic(nwk_skey, &out[..end], counter);
    base::storing::put(out, end, &mic);
}

// Encrypts the payload start..end of a clear data frame where it lies, and stores the MIC behind it. Nothing is written where
// the header is shorter than eight bytes or there is no room.
#[tactic(auto, using(crate::proofs::SealingLaws::seal_no_header, crate::proofs::SealingLaws::seal_unordered, crate::proofs::SealingLaws::seal_no_room, crate::proofs::SealingLaws::seal_inside))]
pub fn seal(
    out: &mut [u8],
    start: usize,
    end: usize,
    counter: u32,
    nwk_skey: [u8; 16],
    app_skey: [u8; 16],
)
    ensures { out.new ≡ sealed_in nwk_skey app_skey counter start end out.old }
{
    if start < FOPTS_AT {
        return;
    }
    if end < start {
        return;
    }
    if out.len() < MIC_LEN {
        return;
    }
    if out.len() - MIC_LEN < end {
        return;
    }
    seal_inside(out, start, end, counter, nwk_skey, app_skey);
}
