// Building the three kinds of frame (creator.rs of the crate): data frames, and the join messages.
pub mod data_frame;
pub mod join;
