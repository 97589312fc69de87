// Kinds 1 to 8: MIC tests, decryption, session keys. Each has its frame behind its other arguments.
use crate::arguments::{ROOM, Record};
use crate::output::{put, put_all, put_flag, put_outcome, put_refusal};
use frame::refusals::Refusal;
use frame_opening::join_accept::SessionKeys;
use std::io;
use std::io::Write;

// 0 and whether the MIC is right, or the refusal and a no.
fn put_test<W: Write>(line: &mut W, test: Result<bool, Refusal>) -> io::Result<()> {
    match test {
        Ok(passes) => {
            put(line, 0)?;
            put_flag(line, passes)
        }
        Err(refusal) => {
            put_refusal(line, refusal)?;
            put_flag(line, false)
        }
    }
}

// The MIC test of a join message.
pub(crate) fn test_join<W: Write, T: Fn(&[u8], [u8; 16]) -> Result<bool, Refusal>>(
    line: &mut W,
    record: &mut Record,
    test: T,
) -> io::Result<()>
    requires { T.IsAlwaysCallable test }
{
    let key = record.run();
    let mut room = [0u8; ROOM];
    let frame = record.bytes(&mut room);
    put_test(line, test(frame, key))
}

pub fn test_data<W: Write>(line: &mut W, record: &mut Record) -> io::Result<()> {
    let key = record.run();
    let counter = record.number();
    let mut room = [0u8; ROOM];
    let frame = record.bytes(&mut room);
    put_test(
        line,
        frame_opening::mic_tests::data_mic(frame, key, counter),
    )
}

pub fn decrypt_data<W: Write>(line: &mut W, record: &mut Record) -> io::Result<()> {
    let nwk_skey = record.maybe_key();
    let app_skey = record.maybe_key();
    let counter = record.number();
    let mut room = [0u8; ROOM];
    let frame = record.bytes(&mut room);
    put_outcome(
        line,
        frame_opening::payload::decrypt_data(frame, nwk_skey, app_skey, counter),
    )?;
    put_all(line, frame)
}

pub fn decrypt_data_checked<W: Write>(line: &mut W, record: &mut Record) -> io::Result<()> {
    let nwk_skey = record.run();
    let app_skey = record.maybe_key();
    let counter = record.number();
    let mut room = [0u8; ROOM];
    let frame = record.bytes(&mut room);
    put_outcome(
        line,
        frame_opening::default_crypto::decrypt_data_checked(frame, nwk_skey, app_skey, counter),
    )?;
    put_all(line, frame)
}

// The decryption of a join-accept.
pub(crate) fn decrypt_accept<W: Write, D: Fn(&mut [u8], [u8; 16]) -> Result<(), Refusal>>(
    line: &mut W,
    record: &mut Record,
    decrypt: D,
) -> io::Result<()>
    requires { D.IsAlwaysCallable decrypt }
{
    let key = record.run();
    let mut room = [0u8; ROOM];
    let frame = record.bytes(&mut room);
    put_outcome(line, decrypt(frame, key))?;
    put_all(line, frame)
}

// 0 and both keys, or the refusal and zeros.
fn put_keys<W: Write>(line: &mut W, keys: Result<SessionKeys, Refusal>) -> io::Result<()> {
    match keys {
        Ok(keys) => {
            put(line, 0)?;
            put_all(line, &keys.nwk_skey)?;
            put_all(line, &keys.app_skey)
        }
        Err(refusal) => {
            put_refusal(line, refusal)?;
            put_all(line, &[0; 32])
        }
    }
}

// The answer to a number that is no kind, too: the nonce's bytes are then the length of the frame.
pub fn session_keys<W: Write>(line: &mut W, record: &mut Record, kind: u8) -> io::Result<()> {
    let key = record.run();
    let mut dev_nonce = [0u8; 2];
    let mut behind = *record;
    behind.fill(&mut dev_nonce);
    if kind == 8 {
        *record = behind;
    }
    let mut room = [0u8; ROOM];
    let frame = record.bytes(&mut room);
    put_keys(
        line,
        frame_opening::join_accept::session_keys(frame, dev_nonce, key),
    )
}
