// The checked openings (default_crypto.rs of the crate): a frame is decrypted where it lies if its MIC is right. The test
// comes before anything is written, so a refusal has nothing to undo.
ghost use Rattle.std.specs.Prelude.{◌≡◌, ◌≤◌, length, take};
ghost use Rattle.frame.specs.Conditions.{IsJoinAccept};
ghost use Rattle.frame_security.specs.JoinAcceptCipher.{accept_decrypted};
ghost use Rattle.frame_opening.specs.FrameOpening.{outcome};
ghost use Rattle.frame_opening.specs.CheckedOpening.{data_opened_checked, accept_tested, accept_opened_checked};

use crate::join_accept::decrypt_accept;
use crate::mic_tests::{data_mic, join_test};
use crate::payload::decrypt_data;
use frame::parser::read_as_join_accept;
use frame::refusals::{INVALID_MIC, Refusal};

// Decrypts a data frame where it lies if its MIC is right under the network key and the whole counter.
pub fn decrypt_data_checked(
    frame: &mut [u8],
    nwk_skey: [u8; 16],
    app_skey: Option<[u8; 16]>,
    counter: u32,
) -> Result<(), Refusal>
    ensures { outcome result frame.new
        ≡ data_opened_checked nwk_skey app_skey counter frame.old }
{
    let passes = data_mic(frame, nwk_skey, counter)?;
    if passes {
        return decrypt_data(frame, Some(nwk_skey), app_skey, counter);
    }
    Err(Refusal::of(INVALID_MIC))
}

// A copy of a join-accept, decrypted, zeros behind it.
fn clear_copy(frame: &[u8], app_key: [u8; 16]) -> [u8; 33]
    requires { IsJoinAccept frame.now (length frame.now) }
    ensures { take (length frame.now) result ≡ accept_decrypted app_key frame.now }
{
    let n = frame.len();
    let mut copy = [0u8; 33];
    base::storing::put(&mut copy, 0, frame);
    decrypt_accept(&mut copy[0..n], app_key);
    copy
}

// The MIC is tested on a clear copy, which is stored if it is right.
fn open_accept_tested(frame: &mut [u8], app_key: [u8; 16]) -> Result<(), Refusal>
    requires { IsJoinAccept frame.old (length frame.old) }
    ensures { outcome result frame.new ≡ accept_tested app_key frame.old }
{
    let n = frame.len();
    let copy = clear_copy(frame, app_key);
    let right = join_test(&copy[0..n], app_key);
    if right {
        base::storing::put(frame, 0, &copy[..n]);
        return Ok(());
    }
    // The MIC differs: nothing is written.
    Err(Refusal::of(INVALID_MIC))
}

// Decrypts a join-accept where it lies if the MIC of the clear text is right.
pub fn decrypt_join_accept_checked(frame: &mut [u8], app_key: [u8; 16]) -> Result<(), Refusal>
    ensures { outcome result frame.new ≡ accept_opened_checked app_key frame.old }
{
    read_as_join_accept(frame)?;
    open_accept_tested(frame, app_key)
}
