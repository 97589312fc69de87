// MIC tests, decryption and session keys.
ghost use Rattle.std.specs.Prelude.{◌≡◌};
ghost use Rattle.frame_opening.specs.FrameOpening.{join_request_test, join_accept_test, data_test_of, data_opened};
ghost use Rattle.frame_opening.specs.JoinAcceptOpening.{accept_opened};
ghost use Rattle.frame_opening.specs.SessionKeys.{session_keys_of};
ghost use Rattle.frame_opening.specs.CheckedOpening.{data_opened_checked, accept_opened_checked};
ghost use Rattle.frame_c.specs.CAnswers.{test_answer_of, passes_of, done_answer_of};
ghost use Rattle.frame_c.specs.CStored.{KeysInto};
ghost use Rattle.frame_c.specs.CGiven.{nwk_given, app_given};

#[unsafe(no_mangle)]
pub extern "C" fn zinovoky_join_request_mic(
    frame: &[u8],
    app_key: &[u8; 16],
    passes: &mut u8,
) -> u64
    ensures value { result ≡ test_answer_of (join_request_test app_key.now frame.now) }
    ensures passes_after { passes.new
        ≡ passes_of (join_request_test app_key.now frame.now) passes.old }
{
    frame_c::opening::zinovoky_join_request_mic(frame, app_key, passes)
}

#[unsafe(no_mangle)]
pub extern "C" fn zinovoky_join_accept_mic(frame: &[u8], app_key: &[u8; 16], passes: &mut u8) -> u64
    ensures value { result ≡ test_answer_of (join_accept_test app_key.now frame.now) }
    ensures passes_after { passes.new
        ≡ passes_of (join_accept_test app_key.now frame.now) passes.old }
{
    frame_c::opening::zinovoky_join_accept_mic(frame, app_key, passes)
}

#[unsafe(no_mangle)]
pub extern "C" fn zinovoky_data_mic(
    frame: &[u8],
    nwk_skey: &[u8; 16],
    counter: u32,
    passes: &mut u8,
) -> u64
    ensures value { result ≡ test_answer_of (data_test_of nwk_skey.now counter frame.now) }
    ensures passes_after { passes.new
        ≡ passes_of (data_test_of nwk_skey.now counter frame.now) passes.old }
{
    frame_c::opening::zinovoky_data_mic(frame, nwk_skey, counter, passes)
}

#[unsafe(no_mangle)]
pub extern "C" fn zinovoky_decrypt_data(
    frame: &mut [u8],
    keys_given: u8,
    nwk_skey: &[u8; 16],
    app_skey: &[u8; 16],
    counter: u32,
) -> u64
    ensures value { result
        ≡ done_answer_of
        (data_opened (nwk_given keys_given nwk_skey.now) (app_given keys_given app_skey.now) counter
        frame.old).answer }
    ensures frame_after { frame.new
        ≡ (data_opened (nwk_given keys_given nwk_skey.now) (app_given keys_given app_skey.now) counter
        frame.old).bytes }
{
    frame_c::opening::zinovoky_decrypt_data(frame, keys_given, nwk_skey, app_skey, counter)
}

#[unsafe(no_mangle)]
pub extern "C" fn zinovoky_decrypt_data_checked(
    frame: &mut [u8],
    keys_given: u8,
    nwk_skey: &[u8; 16],
    app_skey: &[u8; 16],
    counter: u32,
) -> u64
    ensures value { result
        ≡ done_answer_of
        (data_opened_checked nwk_skey.now (app_given keys_given app_skey.now) counter
        frame.old).answer }
    ensures frame_after { frame.new
        ≡ (data_opened_checked nwk_skey.now (app_given keys_given app_skey.now) counter
        frame.old).bytes }
{
    frame_c::opening::zinovoky_decrypt_data_checked(frame, keys_given, nwk_skey, app_skey, counter)
}

#[unsafe(no_mangle)]
pub extern "C" fn zinovoky_decrypt_join_accept(frame: &mut [u8], app_key: &[u8; 16]) -> u64
    ensures value { result ≡ done_answer_of (accept_opened app_key.now frame.old).answer }
    ensures frame_after { frame.new ≡ (accept_opened app_key.now frame.old).bytes }
{
    frame_c::opening::zinovoky_decrypt_join_accept(frame, app_key)
}

#[unsafe(no_mangle)]
pub extern "C" fn zinovoky_decrypt_join_accept_checked(frame: &mut [u8], app_key: &[u8; 16]) -> u64
    ensures value { result ≡ done_answer_of (accept_opened_checked app_key.now frame.old).answer }
    ensures frame_after { frame.new ≡ (accept_opened_checked app_key.now frame.old).bytes }
{
    frame_c::opening::zinovoky_decrypt_join_accept_checked(frame, app_key)
}

#[unsafe(no_mangle)]
pub extern "C" fn zinovoky_session_keys(
    frame: &[u8],
    dev_nonce: &[u8; 2],
    app_key: &[u8; 16],
    keys: &mut [u8],
) -> u64
    ensures { KeysInto (session_keys_of app_key.now dev_nonce.now frame.now) keys.old result
        keys.new }
{
    frame_c::opening::zinovoky_session_keys(frame, dev_nonce, app_key, keys)
}
