//! Steps on the files of a file system, which processes on one machine or on many share with no server: files written whole,
//! linked, replaced, removed, locked and made to last, each with its fault, and a doctor that tries them in a folder.
#![tactic(auto)]

pub mod asked;
pub mod beside;
pub mod doctor;
pub mod fault;
pub mod hands;
pub mod lock;
mod look;
pub mod name;
pub mod new_file;
pub mod publish;
pub mod removals;
pub mod sights;
pub mod written;
