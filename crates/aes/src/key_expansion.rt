// Key expansion, by FIPS 197, 5.2: the schedule of a key.
ghost use Rattle.std.specs.Prelude.{◌≡◌, ◌+◌, ◌<◌, length, take};
ghost use Rattle.base.specs.Bytes.{tab, at};
ghost use Rattle.aes.specs.KeyExpansion.{word, temp, next_word_of, key_expansion_of};

use crate::field::substitution::substituted;
use std::array::from_fn;

// The round constants, from round 1 on: x^0, x^1, ..
static RCON: [u8; 10] = [0x01, 0x02, 0x04, 0x08, 0x10, 0x20, 0x40, 0x80, 0x1b, 0x36];

// What is added to a word to give the word n + 4: the word q before it, every fourth time turned and substituted.
fn added(q: [u8; 4], n: usize) -> [u8; 4]
    requires { n < 40 }
    ensures { result ≡ temp q (n + 4) }
{
    if n % 4 == 0 {
        [
            substituted(q[1]) ^ RCON[n / 4],
            substituted(q[2]),
            substituted(q[3]),
            substituted(q[0]),
        ]
    } else {
        q
    }
}

// The word i.
fn word_at(w: &[u8; 176], i: usize) -> [u8; 4]
    requires { i < 44 }
    ensures { result ≡ word w.now i }
{
    // `from_fn` would double what key expansion takes.
    let m = 4 * i;
    [w[m], w[m + 1], w[m + 2], w[m + 3]]
}

// The word n + 4, of the words n and n + 3.
fn next_word(w: &[u8; 176], n: usize) -> [u8; 4]
    requires { n < 40 }
    ensures { result ≡ next_word_of (word w.now n) (word w.now (n + 3)) (n + 4) }
{
    let p = word_at(w, n);
    let t = added(word_at(w, n + 3), n);
    from_fn(|j| p[j] ^ t[j])
}

// The schedule of a key: the bytes of its 44 words.
pub fn expand(key: [u8; 16]) -> [u8; 176]
    ensures { result ≡ key_expansion_of key }
{
    let mut w = [0u8; 176];
    w[..16].copy_from_slice(&key);
    for n in 0..40 {
        let t = next_word(&w, n);
        // Four stores are fewer instructions than `copy_from_slice`.
        let m = 16 + 4 * n;
        w[m] = t[0];
        w[m + 1] = t[1];
        w[m + 2] = t[2];
        w[m + 3] = t[3];
    }
    w
}
