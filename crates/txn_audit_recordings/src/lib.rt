//! What clients of a real store write down, row by row, and the recordings that files hold: which lines of a file count, which
//! row each line is, and which rows are of one client. Their tokens are renamed, so that those of different files of the store
//! differ.
#![tactic(auto)]

pub mod read;
pub mod recordings;
pub mod row;
pub mod rows;
pub mod source;
pub mod texts;
mod token_table;
pub mod tokens;
pub mod written;
