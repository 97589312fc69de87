// The steps of a round and their inverses but MixColumns, each of which makes a new state of 16 bytes.
ghost use Rattle.std.specs.Prelude.{◌≡◌, ◌≤◌};
ghost use Rattle.aes.specs.Fips197.{sub_bytes_of, shift_rows_of, add_round_key_of};
ghost use Rattle.aes.specs.Fips197.{inv_sub_bytes_of, inv_shift_rows_of};

use crate::field::inverse_substitution::unsubstituted;
use crate::field::substitution::substituted;
use std::array::from_fn;

pub(crate) fn sub_bytes(s: [u8; 16]) -> [u8; 16]
    ensures { result ≡ sub_bytes_of s }
{
    s.map(substituted)
}

pub(crate) fn inv_sub_bytes(s: [u8; 16]) -> [u8; 16]
    ensures { result ≡ inv_sub_bytes_of s }
{
    s.map(unsubstituted)
}

// A line each: with a const parameter for 5 and 13 the two would need a third function, with a contract of its own.
// The byte at r + 4 c comes from r + 4 (c + r), and 5 (r + 4 c) is the same modulo 16.
pub(crate) fn shift_rows(s: [u8; 16]) -> [u8; 16]
    ensures { result ≡ shift_rows_of s }
{
    from_fn(|i| s[5 * i % 16])
}

// 13 times 5 is 1 modulo 16.
pub(crate) fn inv_shift_rows(s: [u8; 16]) -> [u8; 16]
    ensures { result ≡ inv_shift_rows_of s }
{
    from_fn(|i| s[13 * i % 16])
}

pub(crate) fn add_round_key(schedule: &[u8; 176], round: usize, s: [u8; 16]) -> [u8; 16]
    requires { round ≤ 10 }
    ensures { result ≡ add_round_key_of schedule.now round s }
{
    from_fn(|i| s[i] ^ schedule[16 * round + i])
}
