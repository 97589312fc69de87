// Amendments: payload bytes of a data frame that is held open are altered one by one or by a list, and after each the frame
// stands encrypted and signed as if it had been built so.
#![tactic(auto)]

pub mod amending;
pub mod list;
pub mod opening;
