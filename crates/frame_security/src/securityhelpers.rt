// The helper blocks, MICs, payload encryption and the counter (securityhelpers.rs of the crate).
ghost use Rattle.std.specs.Prelude.{◌≡◌, ◌≤◌, ◌++◌, length};
ghost use Rattle.base.specs.Bytes.{at};
ghost use Rattle.base.specs.Mask.{masked};
ghost use Rattle.frame_security.specs.Mic.{mic};
ghost use Rattle.frame_security.specs.Security.{start_of, helper_block_of, block_number_of, stream_block_of, crypted, crypted_part, crypted_in, by_network_key_of, full_counter_of, mic_block_of, data_mic_of, join_mic};

use crate::mic::mic_of;
use base::storing::byte_at;
use frame::packet_length::FCTRL_AT;
use frame::parser::fhdr_length;

// MHDR and DevAddr of a frame: what a helper block takes of it.
pub fn start_of(frame: &[u8]) -> [u8; 5]
    ensures { result ≡ start_of frame.now }
{
    std::array::from_fn(|i| byte_at(frame, i))
}

// The blocks A_i (4.3.3.1) and B_0 (4.4), from a frame's first five bytes.
#[tactic(auto, unfolding(crate::specs::Security::helper_block_of))]
fn helper_block(first: u8, start: [u8; 5], counter: u32, last: u8) -> [u8; 16]
    ensures { result ≡ helper_block_of first start counter last }
{
    let counter = counter.to_le_bytes();
    [
        first,
        0,
        0,
        0,
        0,
        start[0] / 32 % 2,
        start[1],
        start[2],
        start[3],
        start[4],
        counter[0],
        counter[1],
        counter[2],
        counter[3],
        0,
        last,
    ]
}

// Exclusive or of at most 16 bytes with one block of the key stream.
fn xor_block(bytes: &mut [u8], block: &[u8; 16])
    requires { length bytes.old ≤ 16 }
    ensures { bytes.new ≡ masked bytes.old (at block.now) }
{
    for (i, b) in bytes.iter_mut().enumerate() {
        *b ^= block[i];
    }
}

// The number of the block that holds byte `i` of a payload, from 1, in one byte.
fn block_number(i: usize) -> u8
    ensures { result ≡ block_number_of i }
{
    ((i / 16 + 1) % 256) as u8
}

// 4.3.3.1: the block of the key stream that holds byte `i` of a payload, of the frame's first five bytes. These and the counter go
// in apart, as every caller has them: a record of them would be made for each call.
#[tactic(auto, unfolding(crate::specs::Security::stream_block_of))]
pub fn stream_block(schedule: &[u8; 176], start: [u8; 5], counter: u32, i: usize) -> [u8; 16]
    ensures { result ≡ stream_block_of schedule.now start counter i }
{
    let block = helper_block(1, start, counter, block_number(i));
    aes::encrypt_under(schedule, block)
}

// 4.3.3.1: encrypts a payload where it lies, and decrypts one that was encrypted. `start` is the frame's first five
// bytes. It goes by places, since of a slice that is lent in chunks no more than its length is known afterwards.
#[tactic(auto, using(base::proofs::Mask::start, crate::proofs::SecurityLaws::stream_turn, crate::proofs::SecurityLaws::crypted_none), unfolding(crate::specs::Security::crypted))]
pub fn encrypt_frm_data_payload(key: [u8; 16], start: [u8; 5], counter: u32, payload: &mut [u8])
    ensures { payload.new ≡ crypted key start counter payload.old }
{
    if payload.is_empty() {
        return;
    }
    let schedule = aes::key_expansion::expand(key);
    for k in 0..payload.len().div_ceil(16) {
        let from = k * 16;
        let count = (payload.len() - from).min(16);
        let block = stream_block(&schedule, start, counter, from);
        xor_block(&mut payload[from..from + count], &block);
    }
}

#[tactic(auto, using(crate::proofs::SecurityLaws::lent_part), unfolding(crate::specs::Security::crypted_part))]
fn crypt_inside(key: [u8; 16], frame: &mut [u8], counter: u32, start: usize, end: usize)
    requires { (start ≤ end) × (end ≤ length frame.old) }
    ensures { frame.new ≡ crypted_part key frame.old counter start end }
{
    let first = start_of(frame);
    encrypt_frm_data_payload(key, first, counter, &mut frame[start..end]);
}

// The same of the bytes start..end of a frame. Nothing is written where there are none, or where these do not lie in order
// within it.
#[tactic(auto, using(crate::proofs::SecurityLaws::crypted_inside, crate::proofs::SecurityLaws::crypted_nothing, crate::proofs::SecurityLaws::crypted_outside))]
pub fn encrypt_part(key: [u8; 16], frame: &mut [u8], counter: u32, start: usize, end: usize)
    ensures { frame.new ≡ crypted_in key frame.old counter start end }
{
    if end <= start {
        return;
    }
    if frame.len() < end {
        return;
    }
    crypt_inside(key, frame, counter, start, end);
}

// 4.3.3: whether a payload of `count` bytes is under the network key, by the header ahead of it.
#[tactic(auto, unfolding(crate::specs::Security::by_network_key_of))]
pub fn by_network_key(header: &[u8], count: usize) -> bool
    ensures { result ≡ by_network_key_of header.now count }
{
    if count == 0 {
        return true;
    }
    let h = fhdr_length(byte_at(header, FCTRL_AT));
    byte_at(header, 1 + h) == 0
}

// The counter of a frame that carries its low half: the high half is the caller's.
#[tactic(auto, unfolding(crate::specs::Security::full_counter_of))]
pub fn full_counter(counter: u32, fcnt: u16) -> u32
    ensures { result ≡ full_counter_of counter fcnt }
{
    counter / 65536 * 65536 + (fcnt as u32)
}

// 4.4: B_0, of every byte of a data frame ahead of the MIC.
#[tactic(auto, using(crate::proofs::SecurityLaws::helper_block_of_start), unfolding(crate::specs::Security::mic_block_of))]
pub fn mic_block(message: &[u8], counter: u32) -> [u8; 16]
    ensures { result ≡ mic_block_of message.now counter }
{
    let start = start_of(message);
    helper_block(0x49, start, counter, (message.len() % 256) as u8)
}

// The MIC of a block and the message behind it.
#[tactic(auto, using(crate::proofs::SecurityLaws::two_parts), unfolding(crate::specs::Mic::mic))]
fn calculate_mic_with_header(key: [u8; 16], header: [u8; 16], message: &[u8]) -> [u8; 4]
    ensures { result ≡ mic key (header ++ message.now) }
{
    let tag = cmac::Cmac::new(key)
        .update(&header)
        .update(message)
        .finish();
    mic_of(tag)
}

// 4.4: the MIC of a data message, every byte of the frame ahead of the MIC. `counter` is the whole 32-bit counter.
#[tactic(auto, unfolding(crate::specs::Security::data_mic_of, crate::specs::Security::message))]
pub fn calculate_data_mic(key: [u8; 16], message: &[u8], counter: u32) -> [u8; 4]
    ensures { result ≡ data_mic_of key message.now counter }
{
    let header = mic_block(message, counter);
    calculate_mic_with_header(key, header, message)
}

// 6.2.4, 6.2.5: the MIC of a join message, every byte of the frame ahead of the MIC.
#[tactic(auto, unfolding(crate::specs::Security::join_mic, crate::specs::Mic::mic))]
pub fn calculate_mic(key: [u8; 16], message: &[u8]) -> [u8; 4]
    ensures { result ≡ join_mic key message.now }
{
    let tag = cmac::tag(key, message);
    mic_of(tag)
}
