//! The operations on a transactional object, each as a state that asks for one thing at a time.
//!
//! An object is kept as numbered versions, each one file of a store. A client reads the newest version, makes a
//! candidate from it, and writes the candidate as the version after it, which succeeds for one writer alone. The
//! boundary file says up to which id versions may be removed: a write of an id at or below it conflicts, and a read
//! that finds one starts again.
//!
//! ## Core types
//! - `WriteOp`, `WriteUncheckedOp`, `ReadOp<T>`, `LatestOp<T>`, `ReadSeenOp<T>`, `ListOp`, `DeleteOp`,
//!   `DeleteUncheckedOp`: the operations. `ask` is what is due, a request of the store or a look at the caches of the
//!   client, and `take` takes the caches and the store's reply, or none for a look, and says by `Turned` of `txn_steps::boundary`
//!   whether the operation goes on or is done.
//! - `Versions`: what a listing found.
//!
//! The check of an id and the advance of the boundary, and the caches, are those of `txn_steps::boundary`; ids, errors, codecs
//! and layouts those of `txn_store::types`, whose page has the error semantics.
#![tactic(auto)]

pub mod boundary;
pub mod counts;
pub mod delete;
pub mod latest;
pub mod listing;
pub mod read;
pub mod requests;
pub mod seen;
pub mod versions;
pub mod write;
