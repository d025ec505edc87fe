//! The rows of a world so far, with what is looked up in them: what was told, reached, created and erased.

pub mod entries;
pub mod requests;
pub mod sets;
pub mod trace;
