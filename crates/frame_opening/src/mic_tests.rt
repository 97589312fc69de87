// Tests of a frame's MIC (of the cryptographic half of parser.rs of the crate).
ghost use Rattle.std.specs.Prelude.{◌≡◌, ◌≤◌, length};
ghost use Rattle.frame.specs.Layout.{mic_of};
ghost use Rattle.frame_security.specs.Mic.{same_bytes};
ghost use Rattle.frame_opening.specs.FrameOpening.{join_passes, data_passes, join_request_test, join_accept_test, data_test_of};

use base::storing::run_at;
use frame::packet_length::MIC_LEN;
use frame::parser::{read_as_data, read_as_join_accept, read_as_join_request};
use frame::refusals::Refusal;
use frame_security::mic::same_mic;
use frame_security::securityhelpers::{calculate_data_mic, calculate_mic};

// Whether the last four bytes are the MIC that is right.
fn is_mic(frame: &[u8], right: [u8; 4]) -> bool
    requires { 4 ≤ length frame.now }
    ensures { result ≡ same_bytes (mic_of frame.now) right }
{
    let found = run_at::<4>(frame, frame.len() - MIC_LEN);
    same_mic(found, right)
}

// The MIC of the bytes ahead of it: of a join message, and of a data message.
pub(crate) fn join_test(frame: &[u8], key: [u8; 16]) -> bool
    requires { 4 ≤ length frame.now }
    ensures { result ≡ join_passes key frame.now }
{
    let end = frame.len() - MIC_LEN;
    let right = calculate_mic(key, &frame[0..end]);
    is_mic(frame, right)
}

fn data_test(frame: &[u8], key: [u8; 16], counter: u32) -> bool
    requires { 4 ≤ length frame.now }
    ensures { result ≡ data_passes key counter frame.now }
{
    let end = frame.len() - MIC_LEN;
    let right = calculate_data_mic(key, &frame[0..end], counter);
    is_mic(frame, right)
}

// Each test below answers whether the MIC of a frame is right, or why it cannot be tested.

// 6.2.4: the MIC of a join-request.
pub fn join_request_mic(frame: &[u8], app_key: [u8; 16]) -> Result<bool, Refusal>
    ensures { result ≡ join_request_test app_key frame.now }
{
    read_as_join_request(frame)?;
    Ok(join_test(frame, app_key))
}

// 6.2.5: the MIC of a join-accept that was decrypted.
pub fn join_accept_mic(frame: &[u8], app_key: [u8; 16]) -> Result<bool, Refusal>
    ensures { result ≡ join_accept_test app_key frame.now }
{
    read_as_join_accept(frame)?;
    Ok(join_test(frame, app_key))
}

// 4.4: the MIC of a data frame. `counter` is the whole 32-bit counter.
pub fn data_mic(frame: &[u8], nwk_skey: [u8; 16], counter: u32) -> Result<bool, Refusal>
    ensures { result ≡ data_test_of nwk_skey counter frame.now }
{
    read_as_data(frame)?;
    Ok(data_test(frame, nwk_skey, counter))
}
