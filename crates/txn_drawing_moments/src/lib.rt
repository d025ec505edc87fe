//! What happened to an object that clients share, moment by moment, and its drawing as text.
#![tactic(auto)]

pub mod axis;
pub mod cells;
pub mod holds;
pub mod lanes;
pub mod moment;
pub mod moments;
pub mod part;
pub mod times;
pub mod touches;
pub mod words;
