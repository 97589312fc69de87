// The codec for C and for whatever calls C: functions on numbers and byte slices, as `zinovoky.h` declares them. Each calls
// the function that does the work and turns its answer into one number.
#![tactic(auto)]

pub mod amending;
pub mod building;
pub mod commands;
mod conversions;
pub mod holding;
pub mod opening;
pub mod reading;
