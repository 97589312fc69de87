// AES block by block, which a join-accept's encryption is (LoRaWAN 1.0, 6.2.5): the network deciphers, a device enciphers.
ghost use Rattle.std.specs.Prelude.{◌≡◌, List, ℕ, ◌/◌, length};
ghost use Rattle.aes.specs.KeyExpansion.{key_expansion_of};
ghost use Rattle.aes.specs.Fips197.{cipher, inv_cipher};
ghost use Rattle.frame_security.specs.JoinAcceptCipher.{Computes, each_block_of};

// Each whole block of sixteen bytes, where it lies, put through `step` under the key's schedule. It goes by places, since of a
// slice that is lent in chunks no more than its length is known afterwards.
fn each_block<F: Fn(&[u8; 176], [u8; 16]) -> [u8; 16]>(key: [u8; 16], step: F, bytes: &mut [u8])
    requires { F.IsAlwaysCallable step }
    ensures { (f : List ℕ → List ℕ → List ℕ) → Computes (F.post step) f
        → bytes.new ≡ each_block_of (f (key_expansion_of key)) (length bytes.old / 16) bytes.old }
{
    let schedule = aes::key_expansion::expand(key);
    for k in 0..bytes.len() / 16 {
        let block = base::storing::run_at(bytes, k * 16);
        base::storing::put(bytes, k * 16, &step(&schedule, block));
    }
}

// AES encryption of each whole block of sixteen bytes, where it lies.
pub fn encrypt_blocks(key: [u8; 16], bytes: &mut [u8])
    ensures { bytes.new ≡ each_block_of (cipher (key_expansion_of key)) (length bytes.old / 16) bytes.old }
{
    each_block(key, aes::encrypt_under, bytes);
}

// AES decryption of each whole block of sixteen bytes, where it lies.
pub fn decrypt_blocks(key: [u8; 16], bytes: &mut [u8])
    ensures { bytes.new ≡ each_block_of (inv_cipher (key_expansion_of key)) (length bytes.old / 16) bytes.old }
{
    each_block(key, aes::decrypt_under, bytes);
}
