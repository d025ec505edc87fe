//! The words of a command line of `txnobj`, and what it prints, by what is written to a writer.
#![tactic(auto)]

pub mod audited;
pub mod lines;
pub mod options;
pub mod repaired;
mod table;
