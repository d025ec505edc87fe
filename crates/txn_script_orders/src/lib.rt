//! All orders of the events of a few clients, as a question allows them: what they can come to, each with a script.
#![tactic(auto)]

mod asked;
mod blocks;
mod counts;
pub mod explore;
mod figures;
mod fits;
mod keys;
mod listed;
mod made;
mod members;
mod moves;
mod notes;
mod possible;
mod question;
mod reading;
pub mod rule;
pub mod rules;
mod scripts;
mod shown;
mod signs;
mod situation;
mod walk;
mod words;
