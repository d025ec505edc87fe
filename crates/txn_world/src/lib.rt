//! Clients over one store of versions, one event at a time.
#![tactic(auto)]

mod clients;
mod ends;
pub mod finishing;
mod numbers;
mod reach;
mod refusals;
mod tables;
mod views;
pub mod world;
