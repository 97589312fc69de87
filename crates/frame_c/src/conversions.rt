// How answers and parts stand in numbers and bytes for C: an answer as one number, session keys and the fields of join messages
// as bytes, the parts of a frame from the numbers and bytes that a caller gives.
pub(crate) mod answers;
pub(crate) mod building;
pub(crate) mod opening;
pub(crate) mod reading;
pub(crate) mod storing;
