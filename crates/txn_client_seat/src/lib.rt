//! A client whose caller makes its store calls, with the answers of its operations that wait for their caller, the rows that it
//! writes down, and two calls that test no boundary.
#![tactic(auto)]

pub mod rows_kept;
pub mod rows_made;
pub mod rows_text;
pub mod seat;
mod turns;
pub mod unchecked_calls;
pub mod unchecked_op;
pub mod waiting;
