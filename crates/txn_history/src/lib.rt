//! What comes into a world of clients, what happens in it row by row, and what it means that the rows are one history:
//! the audited definitions.
//!
//! The laws here follow of one history alone, whatever the machine; `txn_machine` has one that is proved to keep these.
#![tactic(auto)]

pub mod event;
pub mod ids;
pub mod laws;
pub mod trace;
pub mod view;
