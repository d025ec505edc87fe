//! The audit of a store's log and the diaries of its clients.
//!
//! Where it agrees, the clients shared only the store: so says `audit_diaries` of clients with diaries, by the law
//! `clients_share_only_the_store` of `txn_client_journals`.
#![tactic(auto)]

pub mod audit;
pub mod diaries;
pub mod ending;
mod landings;
mod receipts;
pub mod recordings;
