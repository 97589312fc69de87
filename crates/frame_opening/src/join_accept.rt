// The decryption of join-accepts, and session keys (of the cryptographic half of parser.rs of the crate).
ghost use Rattle.std.specs.Prelude.{◌≡◌, ◌≤◌, length};
ghost use Rattle.frame_security.specs.JoinAcceptCipher.{accept_decrypted};
ghost use Rattle.frame_opening.specs.FrameOpening.{outcome};
ghost use Rattle.frame_opening.specs.JoinAcceptOpening.{accept_opened};
ghost use Rattle.frame_opening.specs.SessionKeys.{key_block_of, derived_keys, session_keys_of};

use base::storing::{put, run_at};
use frame::packet_length::{APP_NONCE_AT, NET_ID_AT};
use frame::parser::read_as_join_accept;
use frame::refusals::Refusal;
use frame_security::ecb::encrypt_blocks;

// The keys of a session (6.2.5).
#[derive(Clone, Copy)]
pub struct SessionKeys {
    pub nwk_skey: [u8; 16],
    pub app_skey: [u8; 16],
}

// 6.2.5: what a device does to a join-accept, from byte 1.
#[tactic(auto, using(crate::proofs::AcceptLaws::lent_from_one))]
pub(crate) fn decrypt_accept(frame: &mut [u8], app_key: [u8; 16])
    requires { 1 ≤ length frame.old }
    ensures { frame.new ≡ accept_decrypted app_key frame.old }
{
    encrypt_blocks(app_key, &mut frame[1..]);
}

// Decrypts a join-accept where it lies, with no test of its MIC.
pub fn decrypt_join_accept(frame: &mut [u8], app_key: [u8; 16]) -> Result<(), Refusal>
    ensures { outcome result frame.new ≡ accept_opened app_key frame.old }
{
    read_as_join_accept(frame)?;
    decrypt_accept(frame, app_key);
    Ok(())
}

// 6.2.5: the block whose cipher is a session key.
fn key_block(first: u8, app_nonce: [u8; 3], net_id: [u8; 3], dev_nonce: [u8; 2]) -> [u8; 16]
    ensures { result ≡ key_block_of first app_nonce net_id dev_nonce }
{
    let mut block = [0u8; 16];
    block[0] = first;
    put(&mut block, 1, &app_nonce);
    put(&mut block, 4, &net_id);
    put(&mut block, 7, &dev_nonce);
    block
}

fn derive_keys(frame: &[u8], dev_nonce: [u8; 2], app_key: [u8; 16]) -> SessionKeys
    requires { 7 ≤ length frame.now }
    ensures { result ≡ derived_keys app_key dev_nonce frame.now }
{
    let app_nonce = run_at(frame, APP_NONCE_AT);
    let net_id = run_at(frame, NET_ID_AT);
    let schedule = aes::key_expansion::expand(app_key);
    let nwk_block = key_block(1, app_nonce, net_id, dev_nonce);
    let nwk_skey = aes::encrypt_under(&schedule, nwk_block);
    let app_block = key_block(2, app_nonce, net_id, dev_nonce);
    let app_skey = aes::encrypt_under(&schedule, app_block);
    SessionKeys { nwk_skey, app_skey }
}

// The session keys that a clear join-accept gives a device with that DevNonce.
pub fn session_keys(
    frame: &[u8],
    dev_nonce: [u8; 2],
    app_key: [u8; 16],
) -> Result<SessionKeys, Refusal>
    ensures { result ≡ session_keys_of app_key dev_nonce frame.now }
{
    // Only a join-accept has the nonces that keys are made of.
    let _length = read_as_join_accept(frame)?;
    Ok(derive_keys(frame, dev_nonce, app_key))
}
