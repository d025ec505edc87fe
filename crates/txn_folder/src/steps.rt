//! The calls of a store in a folder as machines: each asks the system for one step after another, as the definitions say.

pub mod create;
pub mod delete;
pub mod get;
pub mod list;
pub mod place;
pub mod put;
pub mod scan;
pub mod scans;
pub mod update;
