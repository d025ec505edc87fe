//! Operations of a world that are given what they ask for until they are answered, and laws of progress: how much work calls
//! take.

pub mod finish;
pub mod progress;
