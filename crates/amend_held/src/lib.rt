// A frame held open in a buffer that the caller lends, so that C and Rust callers open it once and alter it many times. Each
// call on the buffer is the call of `amend` on the state that it holds; what the frame is after any calls is proved here, in
// proofs/Demand3Held.antt.
#![tactic(auto)]

pub mod buffer;
pub mod calls;
