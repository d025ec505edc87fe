//! Clients of shared objects for C, whose host makes the store calls.
#![tactic(auto)]

pub mod answers;
pub mod asks;
pub mod begins;
mod calls;
pub mod client;
mod copied;
pub mod files;
mod loose;
mod numbers;
pub mod opens;
pub mod replies;
pub mod rows;
pub mod told;
pub mod unchecked;
pub mod views;
