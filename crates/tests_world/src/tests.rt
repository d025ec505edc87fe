//! The tests by what they are of, and what they share.

mod commands;
mod finishing;
mod growths;
mod meetings;
mod played;
mod refused;
mod rules;
mod schedules;
mod streams;
mod verdicts;
mod workers;
mod worlds;
