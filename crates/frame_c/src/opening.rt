// MIC tests, decryption and session keys.
ghost use Rattle.std.specs.Prelude.{◌≡◌};
ghost use Rattle.frame_opening.specs.FrameOpening.{join_request_test, join_accept_test, data_test_of, data_opened};
ghost use Rattle.frame_opening.specs.JoinAcceptOpening.{accept_opened};
ghost use Rattle.frame_opening.specs.SessionKeys.{session_keys_of};
ghost use Rattle.frame_opening.specs.CheckedOpening.{data_opened_checked, accept_opened_checked};
ghost use Rattle.frame_c.specs.CAnswers.{test_answer_of, passes_of, done_answer_of};
ghost use Rattle.frame_c.specs.CStored.{KeysInto};
ghost use Rattle.frame_c.specs.CGiven.{nwk_given, app_given};

use crate::conversions::answers::{done_answer, test_answer};
use crate::conversions::opening::store_keys;

pub fn zinovoky_join_request_mic(frame: &[u8], app_key: &[u8; 16], passes: &mut u8) -> u64
    ensures value { result ≡ test_answer_of (join_request_test app_key.now frame.now) }
    ensures passes_after { passes.new
        ≡ passes_of (join_request_test app_key.now frame.now) passes.old }
{
    let key = *app_key;
    let test = frame_opening::mic_tests::join_request_mic(frame, key);
    test_answer(test, passes)
}

pub fn zinovoky_join_accept_mic(frame: &[u8], app_key: &[u8; 16], passes: &mut u8) -> u64
    ensures value { result ≡ test_answer_of (join_accept_test app_key.now frame.now) }
    ensures passes_after { passes.new
        ≡ passes_of (join_accept_test app_key.now frame.now) passes.old }
{
    let key = *app_key;
    let test = frame_opening::mic_tests::join_accept_mic(frame, key);
    test_answer(test, passes)
}

pub fn zinovoky_data_mic(frame: &[u8], nwk_skey: &[u8; 16], counter: u32, passes: &mut u8) -> u64
    ensures value { result ≡ test_answer_of (data_test_of nwk_skey.now counter frame.now) }
    ensures passes_after { passes.new
        ≡ passes_of (data_test_of nwk_skey.now counter frame.now) passes.old }
{
    let key = *nwk_skey;
    let test = frame_opening::mic_tests::data_mic(frame, key, counter);
    test_answer(test, passes)
}

pub fn zinovoky_decrypt_data(
    frame: &mut [u8],
    keys_given: u8,
    nwk_skey: &[u8; 16],
    app_skey: &[u8; 16],
    counter: u32,
) -> u64
    ensures value { result
        ≡ done_answer_of
        (data_opened (nwk_given keys_given nwk_skey.now) (app_given keys_given app_skey.now) counter
        frame.old).answer }
    ensures frame_after { frame.new
        ≡ (data_opened (nwk_given keys_given nwk_skey.now) (app_given keys_given app_skey.now) counter
        frame.old).bytes }
{
    let nwk_key = *nwk_skey;
    let app_key = *app_skey;
    let nwk = (keys_given % 2 == 1).then_some(nwk_key);
    let app = (keys_given / 2 % 2 == 1).then_some(app_key);
    let opening = frame_opening::payload::decrypt_data(frame, nwk, app, counter);
    done_answer(opening)
}

pub fn zinovoky_decrypt_data_checked(
    frame: &mut [u8],
    keys_given: u8,
    nwk_skey: &[u8; 16],
    app_skey: &[u8; 16],
    counter: u32,
) -> u64
    ensures value { result
        ≡ done_answer_of
        (data_opened_checked nwk_skey.now (app_given keys_given app_skey.now) counter
        frame.old).answer }
    ensures frame_after { frame.new
        ≡ (data_opened_checked nwk_skey.now (app_given keys_given app_skey.now) counter
        frame.old).bytes }
{
    let nwk_key = *nwk_skey;
    let app_key = *app_skey;
    let app = (keys_given / 2 % 2 == 1).then_some(app_key);
    let opening = frame_opening::default_crypto::decrypt_data_checked(frame, nwk_key, app, counter);
    done_answer(opening)
}

pub fn zinovoky_decrypt_join_accept(frame: &mut [u8], app_key: &[u8; 16]) -> u64
    ensures value { result ≡ done_answer_of (accept_opened app_key.now frame.old).answer }
    ensures frame_after { frame.new ≡ (accept_opened app_key.now frame.old).bytes }
{
    let key = *app_key;
    let opening = frame_opening::join_accept::decrypt_join_accept(frame, key);
    done_answer(opening)
}

pub fn zinovoky_decrypt_join_accept_checked(frame: &mut [u8], app_key: &[u8; 16]) -> u64
    ensures value { result ≡ done_answer_of (accept_opened_checked app_key.now frame.old).answer }
    ensures frame_after { frame.new ≡ (accept_opened_checked app_key.now frame.old).bytes }
{
    let key = *app_key;
    let opening = frame_opening::default_crypto::decrypt_join_accept_checked(frame, key);
    done_answer(opening)
}

pub fn zinovoky_session_keys(
    frame: &[u8],
    dev_nonce: &[u8; 2],
    app_key: &[u8; 16],
    keys: &mut [u8],
) -> u64
    ensures { KeysInto (session_keys_of app_key.now dev_nonce.now frame.now) keys.old result
        keys.new }
{
    let nonce = *dev_nonce;
    let key = *app_key;
    let session = frame_opening::join_accept::session_keys(frame, nonce, key);
    store_keys(session, keys)
}
