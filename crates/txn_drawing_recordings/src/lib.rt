//! What recordings say happened, moment by moment, in an order of their store calls.
#![tactic(auto)]

mod lost;
pub mod moments;
mod numbers;
mod pace;
mod replies;
pub mod rings;
pub mod times;
