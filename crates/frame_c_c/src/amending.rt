// Amendments.
ghost use Rattle.std.specs.Prelude.{◌≡◌};
ghost use Rattle.amend.specs.AmendmentLists.{amend_frame_of, amended_frame};
ghost use Rattle.frame_c.specs.CAnswers.{done_answer_of};

#[unsafe(no_mangle)]
pub extern "C" fn zinovoky_amend(
    frame: &mut [u8],
    nwk_skey: &[u8; 16],
    app_skey: &[u8; 16],
    counter: u32,
    amendments: &[u32],
) -> u64
    ensures value { result
        ≡ done_answer_of
        (amend_frame_of frame.old nwk_skey.now app_skey.now counter
        amendments.now) }
    ensures frame_after { frame.new
        ≡ amended_frame frame.old nwk_skey.now app_skey.now counter
        amendments.now }
{
    frame_c::amending::zinovoky_amend(frame, nwk_skey, app_skey, counter, amendments)
}
