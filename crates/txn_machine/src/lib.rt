//! What events do in a world of clients that make all calls: each call without a view as an operation of `txn_machine::plain`,
//! each call on a view as one of `txn_steps_views`; and the theorem on it.
#![tactic(auto)]

pub mod alone;
pub mod counts;
pub mod doing;
pub mod laws;
pub mod plain;
pub mod refusals;
pub mod traces;
pub mod views;
pub mod work;
