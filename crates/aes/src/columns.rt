// MixColumns and its inverse, each of which makes a new state of 16 bytes.
ghost use Rattle.std.specs.Prelude.{◌≡◌, ◌<◌, ℕ, length};
ghost use Rattle.base.specs.Bytes.{tab, at};
ghost use Rattle.aes.specs.Field.{mul};
ghost use Rattle.aes.specs.Fips197.{below, mix_row, inv_mix_row, mix_columns_of, inv_mix_columns_of};

use std::array::from_fn;

// 2 times b, in the field: where the top bit is shifted out, 0x1b is added.
fn doubled(b: u8) -> u8
    ensures { result ≡ mul 2 b }
{
    (b << 1) ^ ((b >> 7) * 0x1b)
}

// The first byte of a mixed column. 3 b is 2 b + b, so a and b are doubled together.
fn mixed(a: u8, b: u8, c: u8, d: u8) -> u8
    ensures { result ≡ mix_row a b c d }
{
    doubled(a ^ b) ^ (b ^ (c ^ d))
}

// The first byte of a column unmixed. The inverse matrix is that of MixColumns times the one that adds 4 (a + c) to a
// and c, and 4 (b + d) to b and d.
fn unmixed(a: u8, b: u8, c: u8, d: u8) -> u8
    ensures { result ≡ inv_mix_row a b c d }
{
    let u = doubled(doubled(a ^ c));
    let v = doubled(doubled(b ^ d));
    mixed(a ^ u, b ^ v, c ^ u, d ^ v)
}

// In each byte's place the byte k rows below it, the first row following the last.
fn rows_up(s: [u8; 16], k: usize) -> [u8; 16]
    requires { k < 4 }
    ensures { result ≡ tab 16 (λ i. at s (below i k)) }
{
    from_fn(|i| s[i / 4 * 4 + (i + k) % 4])
}

// In each byte's place what `row` makes of its column, beginning with that byte. The rows are turned as wholes, which the
// compiler does in a few instructions; looked for at each byte they would take six times as many.
fn by_columns<F: Fn(u8, u8, u8, u8) -> u8>(s: [u8; 16], row: F) -> [u8; 16]
    requires { F.IsAlwaysCallable row }
    ensures long { length result ≡ 16 }
    ensures rows { (i : ℕ) → i < 16 → F.post row (at s i) (at s (below i 1)) (at s (below i 2)) (at s (below i 3)) (at result i) }
{
    let b = rows_up(s, 1);
    let c = rows_up(s, 2);
    let d = rows_up(s, 3);
    from_fn(|i| row(s[i], b[i], c[i], d[i]))
}

pub(crate) fn mix_columns(s: [u8; 16]) -> [u8; 16]
    ensures { result ≡ mix_columns_of s }
{
    by_columns(s, mixed)
}

pub(crate) fn inv_mix_columns(s: [u8; 16]) -> [u8; 16]
    ensures { result ≡ inv_mix_columns_of s }
{
    by_columns(s, unmixed)
}
