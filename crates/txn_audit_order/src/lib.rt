//! An order of the recorded calls of a store that clients share: which came first, by what their replies show and by their
//! times.
//!
//! The order is a proposal. No clause says that it is right: who replays it on an honest store sees whether it is.
#![tactic(auto)]

mod graph;
mod listings;
pub mod order;
mod precedence;
mod spans;
mod times;
