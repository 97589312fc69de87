// Message integrity codes (LoRaWAN 1.0, 4.4; keys.rs of the crate): the first four bytes of a tag.
ghost use Rattle.std.specs.Prelude.{◌≡◌, take};
ghost use Rattle.frame_security.specs.Mic.{same_bytes};

// A message integrity code is the tag's first four bytes. `first_chunk` would answer an Option that is never None.
pub fn mic_of(tag: [u8; 16]) -> [u8; 4]
    ensures { result ≡ take 4 tag }
{
    [tag[0], tag[1], tag[2], tag[3]]
}

// Whether two codes are the same. It looks at all four bytes, whatever it finds, so that the time that it takes tells nothing of
// where they differ; `==` may stop at the first.
#[tactic(auto, using(crate::proofs::MicCompared::four_test))]
pub fn same_mic(a: [u8; 4], b: [u8; 4]) -> bool
    ensures { result ≡ same_bytes a b }
{
    ((a[0] ^ b[0]) | ((a[1] ^ b[1]) | ((a[2] ^ b[2]) | (a[3] ^ b[3])))) == 0
}
