//! A store of files under paths: the paths, the names of versions, the store's trait and its meaning, a store
//! in memory and how it keeps its files, requests as values, and a store that fails on command.
#![tactic(auto)]

mod count;
pub mod digits;
pub mod failing;
mod growth;
pub mod in_memory;
pub mod page;
pub mod path;
pub mod request;
pub mod sorted;
pub mod store;
mod text;
pub mod types;
pub mod version_names;
