//! The run of a script of events over a world, and what is printed of it; scripts of manifests too.
#![tactic(auto)]

pub mod kind;
pub mod manifest_call;
pub mod manifests;
pub mod printer;
mod records;
pub mod script;
pub mod scripted_manifests;
