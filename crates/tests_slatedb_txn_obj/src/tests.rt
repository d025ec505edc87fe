//! The tests by what they are of, and what they share.

mod checked;
mod counted;
mod failing;
mod over_boundary;
mod refused;
mod register;
mod stores;
mod swept;
mod told;
mod uses;
mod workloads;
