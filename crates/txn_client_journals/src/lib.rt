//! Clients that share only the store: what each one's journal and the store's log note, when a list that merges these is one
//! run, which verdict an audit of them owes, and the theorem on it: the audited definitions, and the laws.
//!
//! Each client keeps caches, operations and views of its own, and takes its replies from a store of which it knows nothing.
//! It writes down what it did, and the store writes down what it was asked.
#![tactic(auto)]

pub mod audited;
pub mod fault;
pub mod honest;
pub mod laws;
pub mod log_fault;
pub mod logged;
mod replayed;
pub mod rows;
pub mod same;
pub mod tables;
