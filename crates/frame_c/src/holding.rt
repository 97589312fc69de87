// A frame held open in a buffer of 868 bytes that the caller lends.
ghost use Rattle.std.specs.Prelude.{◌≡◌, length};
ghost use Rattle.amend.specs.Amending.{amend_of};
ghost use Rattle.amend.specs.OpenFrame.{open_of};
ghost use Rattle.amend.specs.SignedOnce.{amend_list_of};
ghost use Rattle.amend_held.specs.HeldBuffer.{loaded_open};
ghost use Rattle.amend_held.specs.HeldCalls.{answer_in, opened_into, amended_into, taken_of, taken_into};
ghost use Rattle.frame_c.specs.CAnswers.{done_answer_of, value_answer_of};

use crate::conversions::answers::{done_answer, value_answer};

pub fn zinovoky_hold(
    frame: &[u8],
    nwk_skey: &[u8; 16],
    app_skey: &[u8; 16],
    counter: u32,
    buffer: &mut [u8; 868],
) -> u64
    ensures value { result
        ≡ done_answer_of
        (answer_in (open_of frame.now nwk_skey.now app_skey.now counter)) }
    ensures buffer_after { buffer.new
        ≡ opened_into (open_of frame.now nwk_skey.now app_skey.now counter)
        buffer.old }
{
    let nwk = *nwk_skey;
    let app = *app_skey;
    let done = amend_held::calls::open_into(frame, nwk, app, counter, buffer);
    done_answer(done)
}

pub fn zinovoky_held_amend(buffer: &mut [u8; 868], offset: usize, value: u8) -> u64
    ensures value { result ≡ done_answer_of (amend_of (loaded_open buffer.old) offset value).answer }
    ensures buffer_after { buffer.new ≡ amended_into (amend_of (loaded_open buffer.old) offset value) buffer.old }
{
    let done = amend_held::calls::amend_held(buffer, offset, value);
    done_answer(done)
}

pub fn zinovoky_held_amend_list(buffer: &mut [u8; 868], amendments: &[u32]) -> u64
    ensures value { result ≡ done_answer_of (amend_list_of (loaded_open buffer.old) amendments.now).answer }
    ensures buffer_after { buffer.new
        ≡ amended_into (amend_list_of (loaded_open buffer.old) amendments.now) buffer.old }
{
    let done = amend_held::calls::amend_list_held(buffer, amendments);
    done_answer(done)
}

pub fn zinovoky_held_frame(buffer: &[u8; 868], out: &mut [u8]) -> u64
    ensures value { result ≡ value_answer_of (taken_of (loaded_open buffer.now) (length out.old)) }
    ensures out_after { out.new ≡ taken_into (loaded_open buffer.now) out.old }
{
    let taken = amend_held::calls::frame_of(buffer, out);
    value_answer(taken)
}
