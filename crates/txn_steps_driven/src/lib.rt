//! Operations driven to their end over a store that one client is lent: one look or one store call at a time.
#![tactic(auto)]

pub mod boundary;
pub mod drive;
pub mod drive_checked;
pub mod drive_reads;
pub mod drive_version;
pub mod latest;
pub mod listing;
pub mod removal;
pub mod replies;
pub mod turns;
pub mod versions;
pub mod writing;
