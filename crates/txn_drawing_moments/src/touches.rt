//! What store calls do to the files of an object that clients share, or see of them.

pub mod asked;
pub mod files;
