// What single bytes of a LoRaWAN 1.0 frame say by their bits: FCtrl, the message type, the network of an address.
#![tactic(auto)]

pub mod fctrl;
