//! Views, holders and their eight calls as a layer over writes and reads.

pub mod laws;
pub mod used;
