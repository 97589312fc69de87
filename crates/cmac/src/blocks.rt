// What RFC 4493 does with blocks apart from the cipher: doubling (2.3), and the last block (2.4).
ghost use Rattle.std.specs.Prelude.{◌≡◌};
ghost use Rattle.base.specs.Bytes.{xor_lists};
ghost use Rattle.cmac.specs.Doubling.{shifted, doubled};
ghost use Rattle.cmac.specs.LastBlock.{ended};

use std::array::from_fn;

// Two blocks, byte by byte.
pub(crate) fn xored(a: [u8; 16], b: &[u8; 16]) -> [u8; 16]
    ensures { result ≡ xor_lists a b.now }
{
    from_fn(|i| a[i] ^ b[i])
}

// Shifted left by one bit; a zero comes in behind.
fn shift(x: [u8; 16]) -> [u8; 16]
    ensures { result ≡ shifted x }
{
    from_fn(|i| {
        let behind = if i < 15 { x[i + 1] } else { 0 };
        (x[i] << 1) + (behind >> 7)
    })
}

// Section 2.3: shifted left by one bit; a one that falls out comes back as 0x87 in the last byte.
fn double(x: [u8; 16]) -> [u8; 16]
    ensures { result ≡ doubled x }
{
    let mut r = shift(x);
    if x[0] < 128 {
        return r;
    }
    r[15] ^= 0x87;
    r
}

// Section 2.4, step 4: the chain value with the last block, of which it holds `count` bytes, and with the subkey that
// goes with it. An open block gets its one bit and the second subkey, a full one the first.
pub(crate) fn last_block(l: [u8; 16], chain: [u8; 16], count: usize) -> [u8; 16]
    ensures { result ≡ ended l chain count }
{
    let k1 = double(l);
    let mut last = chain;
    if count < 16 {
        last[count] ^= 0x80;
        let k2 = double(k1);
        return xored(last, &k2);
    }
    xored(last, &k1)
}
