// Building LoRaWAN 1.0 frames, after crate lorawan 0.9.0: one module to a file of that crate.
#![tactic(auto)]

pub mod creator;
