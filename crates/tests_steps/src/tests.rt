//! The tests by what they are of, and what they share.

mod by_hand;
mod claims;
mod errors;
mod fits;
mod game;
mod holders;
mod many;
mod operations;
mod parts;
mod place;
mod scenarios;
mod stores;
mod told;
mod values;
mod view_calls;
mod views;
