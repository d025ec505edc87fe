//! The tests by what they are of, and what they share.

mod calls;
mod clients;
mod doctors;
mod failing;
mod failures;
mod folders;
mod locked;
mod objects;
mod order;
mod scenes;
mod steps;
mod watched;
