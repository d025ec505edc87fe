//! What operations come to that run alone over a store that one client is lent, one look or one store call at a time: the laws of
//! the plain ones, and the calls on views, driven.
#![tactic(auto)]

pub mod call;
pub mod drive_claim;
pub mod drive_entry;
pub mod drive_view_read;
pub mod driven_checks;
pub mod driven_claims;
pub mod driven_entries;
pub mod driven_reads;
pub mod driven_views;
pub mod driven_writes;
pub mod with_epochs;
