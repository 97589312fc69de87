// The MAC commands of LoRaWAN 1.0.2, section 5: reading and writing them, and where they lie in a frame. The modules that the
// original crate has too keep the names of its files.
#![tactic(auto)]

pub mod in_frame;
pub mod maccommandcreator;
pub mod maccommands;
mod table;
