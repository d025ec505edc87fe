//! A folder of a file system that processes share, step by step, and the law that their calls are those of one honest store.
#![tactic(auto)]

pub mod laws;
