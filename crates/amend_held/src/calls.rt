// The calls on a buffer that holds an open frame. Every buffer has a determined answer, also one that no call made; a refusal
// changes no byte of it.
ghost use Rattle.std.specs.Prelude.{◌≡◌, length};
ghost use Rattle.amend.specs.Amending.{amend_of};
ghost use Rattle.amend.specs.OpenFrame.{open_of};
ghost use Rattle.amend.specs.SignedOnce.{amend_list_of};
ghost use Rattle.amend_held.specs.HeldBuffer.{loaded_open};
ghost use Rattle.amend_held.specs.HeldCalls.{answer_in, opened_into, amended_into, taken_of, taken_into};

use crate::buffer::{LENGTH_AT, load, store};
use amend::list::amend_list;
use amend::opening::open_frame;
use base::storing::put;
use frame::refusals::{BUFFER_TOO_SHORT, Refusal};

// Opens a frame into a buffer, with the refusals of `open_frame`.
pub fn open_into(
    frame: &[u8],
    nwk_skey: [u8; 16],
    app_skey: [u8; 16],
    counter: u32,
    buffer: &mut [u8; 868],
) -> Result<(), Refusal>
    ensures value { result ≡ answer_in (open_of frame.now nwk_skey app_skey counter) }
    ensures buffer_after { buffer.new
        ≡ opened_into (open_of frame.now nwk_skey app_skey counter) buffer.old }
{
    let state = open_frame(frame, nwk_skey, app_skey, counter)?;
    *buffer = store(state);
    Ok(())
}

// Sets one payload byte of the frame that a buffer holds; 15 where there is no such byte.
pub fn amend_held(buffer: &mut [u8; 868], offset: usize, value: u8) -> Result<(), Refusal>
    ensures value { result ≡ (amend_of (loaded_open buffer.old) offset value).answer }
    ensures buffer_after { buffer.new ≡ amended_into (amend_of (loaded_open buffer.old) offset value) buffer.old }
{
    let mut state = load(*buffer);
    state.amend(offset, value)?;
    *buffer = store(state);
    Ok(())
}

// The same with a list of amendments, each a number offset * 256 + value; where any is refused, none is made.
pub fn amend_list_held(buffer: &mut [u8; 868], amendments: &[u32]) -> Result<(), Refusal>
    ensures value { result ≡ (amend_list_of (loaded_open buffer.old) amendments.now).answer }
    ensures buffer_after { buffer.new
        ≡ amended_into (amend_list_of (loaded_open buffer.old) amendments.now) buffer.old }
{
    let mut state = load(*buffer);
    amend_list(&mut state, amendments)?;
    *buffer = store(state);
    Ok(())
}

// Copies the frame that a buffer holds to the start of `out`, and answers how many bytes it has; 7 where it does not fit.
pub fn frame_of(buffer: &[u8; 868], out: &mut [u8]) -> Result<usize, Refusal>
    ensures value { result ≡ taken_of (loaded_open buffer.now) (length out.old) }
    ensures out_after { out.new ≡ taken_into (loaded_open buffer.now) out.old }
{
    let n = usize::from(buffer[LENGTH_AT]);
    if out.len() < n {
        return Err(Refusal::of(BUFFER_TOO_SHORT));
    }
    put(out, 0, &buffer[..n]);
    Ok(n)
}
