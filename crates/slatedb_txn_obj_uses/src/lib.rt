//! Uses of the protocols from outside, by their public contracts alone: types of one's own that keep the traits, calls through
//! the traits, and the calls that a benchmark times.
#![tactic(auto)]

pub mod bench;
pub mod beside;
pub mod calls;
pub mod clock;
pub mod command;
pub mod fault;
pub mod holders;
pub mod list_store;
mod listed;
pub mod one_client;
pub mod register;
pub mod rounds;
pub mod setting;
pub mod through;
pub mod ticking;
pub mod workload;
