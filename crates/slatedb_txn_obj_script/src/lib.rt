//! Lines of calls, played on the port: its boundary objects, protocols, views and holders over one store in memory. Each line
//! is played to its end, and what it says is printed.
#![tactic(auto)]

mod beyond;
mod boundaries;
mod ceiling;
mod clock;
mod files;
mod objects;
mod plain;
pub mod player;
mod reading;
pub mod said;
pub mod script;
mod setting;
mod views;
mod words;
