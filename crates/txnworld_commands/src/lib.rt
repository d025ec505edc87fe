//! The commands of the program `txnworld`: the words that ask for them, and the run of workers on threads with what it
//! prints. The run of a script is `txn_script`'s.
#![tactic(auto)]

pub mod command;
mod diaries;
pub mod drawings;
pub mod halt;
mod jobs;
pub mod threads;
mod workers;
