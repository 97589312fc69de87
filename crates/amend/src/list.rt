// Lists of amendments, each a number offset * 256 + value, on an open frame or on one that is lent as bytes. Every offset is
// tested first, then every byte stored, and the frame signed once, from the first block that changed. What the frame is
// after any list (demand 3) is proved here, in proofs/Demand3.antt. An amendment is a number for callers in C, and is not made a
// struct here, since two of the three walks over a list read the offset alone.
ghost use Rattle.std.specs.Prelude.{◌≡◌, true, ◌-◌, ◌≤◌, ◌<◌, length};
ghost use Rattle.amend.specs.Amending.{payload_length_of};
ghost use Rattle.amend.specs.AmendmentLists.{amended_by, decoded_all, amend_frame_of, amended_frame};
ghost use Rattle.amend.specs.SignedOnce.{all_inside_of, amend_list_of, stored_all, lowest};

use crate::amending::{Open, payload_length, payload_schedule, resign};
use crate::opening::open_frame;
use frame::packet_length::{FCTRL_AT, MIC_LEN};
use frame::parser::fhdr_length;
use frame::refusals::{OFFSET_OUTSIDE, Refusal};
use frame_security::securityhelpers::{start_of, stream_block};

// Whether each offset of a list is below `count`.
fn all_inside(amendments: &[u32], count: usize) -> bool
    ensures { result ≡ all_inside_of count amendments.now }
{
    amendments.iter().all(|a| ((*a / 256) as usize) < count)
}

// The lowest place of the frame that a list changes, or `top`; the payload begins at `start`.
fn lowest_place(amendments: &[u32], start: usize, top: usize) -> usize
    requires { start ≤ 255 }
    ensures { result ≡ lowest start top amendments.now }
{
    amendments
        .iter()
        .fold(top, |low, a| low.min(start + (*a / 256) as usize))
}

// Each byte of a list stored, encrypted under one key by the frame's first bytes. The block of the key stream in hand is
// kept for the next byte.
fn store_under(
    schedule: &[u8; 176],
    first: [u8; 5],
    counter: u32,
    start: usize,
    frame: &mut [u8],
    amendments: &[u32],
)
    requires { (length frame.old ≤ 255) × (start ≤ 255) × (all_inside_of (length frame.old - start) amendments.now ≡ true) }
    ensures { frame.new
        ≡ stored_all schedule.now first counter start frame.old amendments.now }
{
    let mut stream = [0u8; 16];
    let mut held = None;
    for a in amendments {
        let k = (*a / 256) as usize;
        if held != Some(k / 16) {
            stream = stream_block(schedule, first, counter, k);
            held = Some(k / 16);
        }
        frame[start + k] = ((*a % 256) as u8) ^ stream[k % 16];
    }
}

// Every payload byte that a list names set, in order, and the frame signed anew once.
fn amend_all_inside(state: &mut Open, amendments: &[u32])
    requires { (all_inside_of (payload_length_of state.old) amendments.now ≡ true) × (0 < length amendments.now) }
    ensures { state.new ≡ amended_by state.old (decoded_all amendments.now) }
{
    let start = fhdr_length(state.frame[FCTRL_AT]) + 2;
    let count = payload_length(state.frame[FCTRL_AT], state.length);
    let end = state.length - MIC_LEN;
    let low = lowest_place(amendments, start, end - 1);
    let schedule = payload_schedule(
        &state.nwk_schedule,
        &state.app_schedule,
        &state.frame,
        count,
    );
    let first = start_of(&state.frame);
    store_under(
        schedule,
        first,
        state.counter,
        start,
        &mut state.frame,
        amendments,
    );
    resign(
        &state.nwk_schedule,
        &mut state.frame,
        &mut state.chains,
        end,
        low,
    );
}

// Applies a list of amendments to an open frame, in order. 15 where any offset lies outside the payload, with the state as
// it was.
pub fn amend_list(state: &mut Open, amendments: &[u32]) -> Result<(), Refusal>
    ensures value { result ≡ (amend_list_of state.old amendments.now).answer }
    ensures state_after { state.new ≡ (amend_list_of state.old amendments.now).state }
{
    if amendments.is_empty() {
        return Ok(());
    }
    let count = payload_length(state.frame[FCTRL_AT], state.length);
    if !all_inside(amendments, count) {
        return Err(Refusal::of(OFFSET_OUTSIDE));
    }
    amend_all_inside(state, amendments);
    Ok(())
}

// For callers that hold bytes: opens the frame, applies the whole list in order and leaves the amended frame where it
// was. An amendment is offset * 256 + value. Where the opening or any amendment is refused, no byte changes.
#[tactic(auto, using(crate::proofs::ListLaws::accepted_most))]
pub fn amend_frame(
    frame: &mut [u8],
    nwk_skey: [u8; 16],
    app_skey: [u8; 16],
    counter: u32,
    amendments: &[u32],
) -> Result<(), Refusal>
    ensures value { result ≡ amend_frame_of frame.old nwk_skey app_skey counter amendments.now }
    ensures frame_after { frame.new ≡ amended_frame frame.old nwk_skey app_skey counter amendments.now }
{
    let mut state = open_frame(frame, nwk_skey, app_skey, counter)?;
    amend_list(&mut state, amendments)?;
    let n = frame.len();
    frame.copy_from_slice(&state.frame[..n]);
    Ok(())
}
