//! The audit of what clients of a real store recorded: their calls in an order that an honest store can have served, their
//! diaries made once more from their recordings, and the two held against each other.

pub mod audit;
pub mod fates;
pub mod fault;
pub mod laws;
mod placing;
pub mod rebuild;
mod recorded;
pub mod refusal;
mod replay;
mod stage;
mod times;
