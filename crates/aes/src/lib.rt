// AES-128 both ways, by FIPS 197: a block under a schedule or under a key.
#![tactic(auto)]

ghost use Rattle.std.specs.Prelude.{◌≡◌, ◌<◌};
ghost use Rattle.aes.specs.KeyExpansion.{key_expansion_of};
ghost use Rattle.aes.specs.Fips197.{round, cipher, inv_round, inv_cipher};

mod columns;
mod field;
pub mod key_expansion;
mod steps;

// The two ways stay apart: the inverse cipher has the four steps of a round in another order.
fn one_round(schedule: &[u8; 176], r: usize, s: [u8; 16]) -> [u8; 16]
    requires { r < 10 }
    ensures { result ≡ round schedule.now r s }
{
    let shifted = steps::shift_rows(steps::sub_bytes(s));
    steps::add_round_key(schedule, r, columns::mix_columns(shifted))
}

fn one_inverse_round(schedule: &[u8; 176], r: usize, s: [u8; 16]) -> [u8; 16]
    requires { r < 10 }
    ensures { result ≡ inv_round schedule.now r s }
{
    let substituted = steps::inv_sub_bytes(steps::inv_shift_rows(s));
    columns::inv_mix_columns(steps::add_round_key(schedule, r, substituted))
}

pub fn encrypt_under(schedule: &[u8; 176], block: [u8; 16]) -> [u8; 16]
    ensures { result ≡ cipher schedule.now block }
{
    let mut s = steps::add_round_key(schedule, 0, block);
    for r in 1..10 {
        let next = one_round(schedule, r, s);
        s = next;
    }
    steps::add_round_key(schedule, 10, steps::shift_rows(steps::sub_bytes(s)))
}

pub fn decrypt_under(schedule: &[u8; 176], block: [u8; 16]) -> [u8; 16]
    ensures { result ≡ inv_cipher schedule.now block }
{
    let mut s = steps::add_round_key(schedule, 10, block);
    for r in (1..10).rev() {
        let next = one_inverse_round(schedule, r, s);
        s = next;
    }
    steps::add_round_key(schedule, 0, steps::inv_sub_bytes(steps::inv_shift_rows(s)))
}

// Under a key that is used once. The two stay apart: a function over both would be given the cipher, and be no shorter.
pub fn encrypt(key: [u8; 16], block: [u8; 16]) -> [u8; 16]
    ensures { result ≡ cipher (key_expansion_of key) block }
{
    let schedule = key_expansion::expand(key);
    encrypt_under(&schedule, block)
}

pub fn decrypt(key: [u8; 16], block: [u8; 16]) -> [u8; 16]
    ensures { result ≡ inv_cipher (key_expansion_of key) block }
{
    let schedule = key_expansion::expand(key);
    decrypt_under(&schedule, block)
}
