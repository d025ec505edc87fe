//! Tests of the protocols, and of the objects and their holders, that no script of `slatedb_txn_obj_script` shows: types of one's own, uses
//! from outside, and workloads; rows of which a call is broken off, how often an update tests its invariants, and a view with
//! ids of its own. And a use of manifests, and tests of a manifest store.
#![tactic(auto)]

pub mod kept;
pub mod scripted;
#[cfg(test)]
mod tests;
