// The archive for C: each function that zinovoky.h declares, under the name that it has there. Each hands on what the function of
// that name in `frame_c` gives, and promises what that one promises, in the same words.
#![tactic(auto)]

pub mod amending;
pub mod building;
pub mod commands;
pub mod holding;
pub mod opening;
pub mod reading;
