//! Workers on threads of their own: round one world that is kept under a lock beside the journal of their events, or each
//! with a diary, round one store.
#![tactic(auto)]

pub mod caller;
mod diaries;
pub mod finish;
pub mod gate;
pub mod jobs;
pub mod kept;
mod share;
pub mod work;
