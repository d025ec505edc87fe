//! The calls on views, each as a state that asks for one thing at a time.
//!
//! A view is a client's copy of a version: its id and its value. A claim makes it a holder, which has an epoch of its
//! own. Each call on views is a thin layer over a write or over a read of the newest version, those of `txn_steps`.
//!
//! ## Core types
//! - `EntryOp`: it writes a value that a view then shows, and so makes a view (an init) or moves one (an update, also that
//!   of a holder, whose epoch has to be the value's).
//! - `ViewReadOp`: it reads the newest version for a view, and so makes one (a load) or moves one (a refresh, also that of a
//!   holder, whose epoch is tested on what was read).
//! - `ClaimOp`: it makes a view a holder, of the next epoch or of one that is asked for.
//! - `ViewOp`: any of them.
//! - `Outcome`: what a call comes to, which says what becomes of the view, with the `Copies` that an answer needs.
//!
//! `start` is lent the view and gives the state, or at once the refusal that is the call's answer. `ask` is what is due, a
//! request of the store or a look at the caches of the client, and `take` takes the caches and the store's reply, or none
//! for a look. Of a `ViewReadOp` the read asks and takes, and `after_read` makes of what that says what the call says; of a
//! `ClaimOp` its attempts ask and take. A state knows neither the number of its call nor that of its view.
#![tactic(auto)]

pub mod claim;
pub mod claiming;
pub mod copies;
pub mod counts;
pub mod entry;
pub mod op;
pub mod outcome;
pub mod view_read;
