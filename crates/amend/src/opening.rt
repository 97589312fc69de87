// Opening a data frame for amendments: the frame is copied, and both keys, the counter and the MIC's chain values are kept.
ghost use Rattle.std.specs.Prelude.{◌≡◌, ◌-◌, ◌≤◌, length};
ghost use Rattle.frame_security.specs.Security.{covered, message};
ghost use Rattle.amend.specs.Amending.{last_place};
ghost use Rattle.amend.specs.OpenFrame.{chains_of, open_checked_of, open_of};

use crate::amending::{Open, carry_on, sign_from};
use base::storing::{put, run_at};
use frame::packet_length::MIC_LEN;
use frame::parser::read_as_data;
use frame::refusals::{COUNTER_MISMATCH, INVALID_MIC, Refusal};
use frame_security::mic::same_mic;
use frame_security::securityhelpers::mic_block;

// The chain values of a frame's MIC ahead of each block of the frame.
fn chains_of(schedule: &[u8; 176], frame: &[u8], counter: u32) -> [u8; 256]
    requires { (12 ≤ length frame.now) × (length frame.now ≤ 255) }
    ensures { result ≡ chains_of schedule.now (message (covered frame.now) counter) (last_place (length frame.now - 4)) }
{
    let n = frame.len() - MIC_LEN;
    let first = mic_block(&frame[..n], counter);
    let ahead = cmac::next_chain(schedule, [0u8; 16], first);
    let mut chains = [0u8; 256];
    put(&mut chains, 0, &ahead);
    carry_on(schedule, frame, &mut chains, 0, (n - 1) / 16);
    chains
}

// A data frame whose counter is right: 5 where its MIC is not that of its chain values.
fn open_checked(
    frame: &[u8],
    nwk_skey: [u8; 16],
    app_skey: [u8; 16],
    counter: u32,
) -> Result<Open, Refusal>
    requires { (12 ≤ length frame.now) × (length frame.now ≤ 255) }
    ensures { result ≡ open_checked_of frame.now nwk_skey app_skey counter }
{
    let nwk_schedule = aes::key_expansion::expand(nwk_skey);
    let chains = chains_of(&nwk_schedule, frame, counter);
    let mic = sign_from(&nwk_schedule, frame, frame.len() - MIC_LEN, &chains);
    let given = run_at(frame, frame.len() - MIC_LEN);
    if !same_mic(mic, given) {
        return Err(Refusal::of(INVALID_MIC));
    }
    let app_schedule = aes::key_expansion::expand(app_skey);
    let mut held = [0u8; 255];
    put(&mut held, 0, frame);
    Ok(Open {
        frame: held,
        length: frame.len(),
        nwk_schedule,
        app_schedule,
        counter,
        chains,
    })
}

// Opens a data frame for amendments. Refused are what reading refuses, at its place, 4 for a frame of another type,
// 14 where the counter's low half is not the frame's, and 5 where the MIC differs.
pub fn open_frame(
    frame: &[u8],
    nwk_skey: [u8; 16],
    app_skey: [u8; 16],
    counter: u32,
) -> Result<Open, Refusal>
    ensures { result ≡ open_of frame.now nwk_skey app_skey counter }
{
    let data = read_as_data(frame)?;
    if counter % 65536 != data.fcnt as u32 {
        return Err(Refusal::of(COUNTER_MISMATCH));
    }
    open_checked(frame, nwk_skey, app_skey, counter)
}
