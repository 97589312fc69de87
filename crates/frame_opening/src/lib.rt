// Testing and opening LoRaWAN 1.0 frames, after crate lorawan 0.9.0: the cryptographic half of its parser.rs is `mic_tests`,
// `payload` and `join_accept`; `default_crypto` has the name of its file.
#![tactic(auto)]

pub mod default_crypto;
pub mod join_accept;
pub mod mic_tests;
pub mod payload;
