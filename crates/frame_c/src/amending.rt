// Amendments.
ghost use Rattle.std.specs.Prelude.{◌≡◌};
ghost use Rattle.amend.specs.AmendmentLists.{amend_frame_of, amended_frame};
ghost use Rattle.frame_c.specs.CAnswers.{done_answer_of};

use crate::conversions::answers::done_answer;

pub fn zinovoky_amend(
    frame: &mut [u8],
    nwk_skey: &[u8; 16],
    app_skey: &[u8; 16],
    counter: u32,
    amendments: &[u32],
) -> u64
    ensures value { result
        ≡ done_answer_of
        (amend_frame_of frame.old nwk_skey.now app_skey.now counter
        amendments.now) }
    ensures frame_after { frame.new
        ≡ amended_frame frame.old nwk_skey.now app_skey.now counter
        amendments.now }
{
    let nwk = *nwk_skey;
    let app = *app_skey;
    let done = amend::list::amend_frame(frame, nwk, app, counter, amendments);
    done_answer(done)
}
