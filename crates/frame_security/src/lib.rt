// Keys and secrets of a LoRaWAN 1.0 frame, after crate lorawan 0.9.0: `securityhelpers` has the name of that crate's file.
#![tactic(auto)]

pub mod ecb;
pub mod mic;
pub mod sealing;
pub mod securityhelpers;
