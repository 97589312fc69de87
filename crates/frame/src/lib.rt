// Reading LoRaWAN 1.0 frames, after crate lorawan 0.9.0: one module to a file of that crate.
#![tactic(auto)]

pub mod join_fields;
pub mod numbers;
pub mod packed;
pub mod packet_length;
pub mod parser;
pub mod refusals;
