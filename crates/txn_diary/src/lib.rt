//! One client of a store, with a journal of what it did, which an audit reads.
#![tactic(auto)]

mod begins;
mod calls;
pub mod diary;
pub mod keeper;
mod kills;
pub mod kinds;
pub mod laws;
mod maps;
mod notes;
pub mod pages;
mod reading;
mod standing;
mod step;
mod tables;
