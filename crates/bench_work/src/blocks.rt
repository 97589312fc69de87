// 200,000 blocks of AES-128 under one schedule, each made of the one before. Both ways stand in full, by loops: one function that
// takes the cipher, or a fold, would have three instructions more a block, and they would be counted.
use crate::KEY;

pub(crate) fn encrypted() -> [u8; 16] {
    let schedule = aes::key_expansion::expand(KEY);
    let mut block = [0u8; 16];
    for _ in 0..200000 {
        let next = aes::encrypt_under(&schedule, block);
        block = next;
    }
    block
}

pub(crate) fn decrypted() -> [u8; 16] {
    let schedule = aes::key_expansion::expand(KEY);
    let mut block = [0u8; 16];
    for _ in 0..200000 {
        let next = aes::decrypt_under(&schedule, block);
        block = next;
    }
    block
}
