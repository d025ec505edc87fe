//! A store of one object's files in a folder of a file system, which processes on one machine or on many share with no
//! server: how its files are named, written, listed, removed and cleaned.
#![tactic(auto)]

mod clean;
mod disk;
pub mod folder;
mod found;
mod gets;
mod judged;
mod lasting;
mod listing;
mod lists;
mod numbers;
mod place;
mod puts;
pub mod repair;
pub mod steps;
pub mod store;
mod tear;
