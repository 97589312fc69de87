// A frame held open in a buffer of 868 bytes that the caller lends.
ghost use Rattle.std.specs.Prelude.{◌≡◌, length};
ghost use Rattle.amend.specs.Amending.{amend_of};
ghost use Rattle.amend.specs.OpenFrame.{open_of};
ghost use Rattle.amend.specs.SignedOnce.{amend_list_of};
ghost use Rattle.amend_held.specs.HeldBuffer.{loaded_open};
ghost use Rattle.amend_held.specs.HeldCalls.{answer_in, opened_into, amended_into, taken_of, taken_into};
ghost use Rattle.frame_c.specs.CAnswers.{done_answer_of, value_answer_of};

#[unsafe(no_mangle)]
pub extern "C" fn zinovoky_hold(
    frame: &[u8],
    nwk_skey: &[u8; 16],
    app_skey: &[u8; 16],
    counter: u32,
    buffer: &mut [u8; 868],
) -> u64
    ensures value { result
        ≡ done_answer_of
        (answer_in (open_of frame.now nwk_skey.now app_skey.now counter)) }
    ensures buffer_after { buffer.new
        ≡ opened_into (open_of frame.now nwk_skey.now app_skey.now counter)
        buffer.old }
{
    frame_c::holding::zinovoky_hold(frame, nwk_skey, app_skey, counter, buffer)
}

#[unsafe(no_mangle)]
pub extern "C" fn zinovoky_held_amend(buffer: &mut [u8; 868], offset: usize, value: u8) -> u64
    ensures value { result ≡ done_answer_of (amend_of (loaded_open buffer.old) offset value).answer }
    ensures buffer_after { buffer.new ≡ amended_into (amend_of (loaded_open buffer.old) offset value) buffer.old }
{
    frame_c::holding::zinovoky_held_amend(buffer, offset, value)
}

#[unsafe(no_mangle)]
pub extern "C" fn zinovoky_held_amend_list(buffer: &mut [u8; 868], amendments: &[u32]) -> u64
    ensures value { result ≡ done_answer_of (amend_list_of (loaded_open buffer.old) amendments.now).answer }
    ensures buffer_after { buffer.new
        ≡ amended_into (amend_list_of (loaded_open buffer.old) amendments.now) buffer.old }
{
    frame_c::holding::zinovoky_held_amend_list(buffer, amendments)
}

#[unsafe(no_mangle)]
pub extern "C" fn zinovoky_held_frame(buffer: &[u8; 868], out: &mut [u8]) -> u64
    ensures value { result ≡ value_answer_of (taken_of (loaded_open buffer.now) (length out.old)) }
    ensures out_after { out.new ≡ taken_into (loaded_open buffer.now) out.old }
{
    frame_c::holding::zinovoky_held_frame(buffer, out)
}
