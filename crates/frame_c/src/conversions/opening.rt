// Two session keys in 32 bytes.
ghost use Rattle.frame_c.specs.CStored.{KeysInto};

use crate::conversions::answers::{done_answer, refusal_answer};
use crate::conversions::storing::fitted;
use base::storing::put;
use frame::refusals::Refusal;
use frame_opening::join_accept::SessionKeys;

const SESSION_KEYS_LEN: usize = 32;

// Stores two session keys that are derived, where there is room for them.
pub(crate) fn store_keys(session: Result<SessionKeys, Refusal>, keys: &mut [u8]) -> u64
    ensures { KeysInto session keys.old result keys.new }
{
    match fitted(session, SESSION_KEYS_LEN, keys.len()) {
        Ok(found) => {
            let end = put(keys, 0, &found.nwk_skey);
            put(keys, end, &found.app_skey);
            done_answer(Ok(()))
        }
        Err(refusal) => refusal_answer(refusal),
    }
}
