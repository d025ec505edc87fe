//! Draws what happened in a world while a script ran, as text.

mod noting;
pub mod picture;
mod run;
mod seen;
pub mod trace;
mod traced;
mod worded;
