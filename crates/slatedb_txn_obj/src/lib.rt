//! One object in a store, as numbered versions that many clients write by compare and swap, with a boundary at or below
//! which versions are fenced and may be removed, and with holders whose epoch shuts older holders out.
//!
//! A caller holds a [`TransactionalObject`]: a copy of one version, which it refreshes and updates. What an update does in
//! the store is the protocol's, and what the store is its own: any type that keeps `ObjectStore` of `txn_store` serves. Those
//! of this project lie in memory; over a shared folder, or a server, a client of `txnobj::clients` makes such calls. Protocol,
//! store, turns and clock are lent to each call, each time the same protocol and store for an object; no call waits or
//! retries beyond the turns that it is lent.
//!
//! ## Core types
//! - [`TransactionalStorageProtocol`]: what an object asks of its storage: `write` a value on a base that a call answered, if
//!   that is the newest version, and `try_read_latest`. Its contracts alone say what an object over it does.
//! - [`SequencedStorageProtocol`]: versions with ids from 1 on, over a boundary: reads of one version, listings and deletes.
//!   Every type with it has the trait above.
//! - [`BoundaryObject`]: the boundary of a sequence: `check` an id against it, `advance` it.
//! - [`object_store`]: both over an object store: version 1 of `manifest` with the suffix `manifest` is the file
//!   `manifest/00000000000000000001.manifest` below a root, and the boundary the file `gc/manifest.boundary`.
//! - [`TransactionalObject`]: a version in memory. `refresh` moves it to the newest, `update` writes a [`DirtyObject`] on it,
//!   and `maybe_apply_update` asks a mutator, and once more after each conflict.
//! - [`SimpleTransactionalObject`]: such an object, with [`Invariant`]s that each update keeps.
//! - [`FenceableTransactionalObject`]: such an object in the hands of a holder. A claim (`init`) writes the newest value once
//!   more with a greater epoch in it, by an [`EpochField`]; from then on an older holder's update is a conflict, and its
//!   refresh finds it `Fenced`.
//! - [`ObjectCodec`]: how a value is written as bytes. [`MonotonicId`]: the id of a version. [`Turns`]: how many passes of a
//!   read, pages after the first, puts of an advance and attempts of an update a call may still begin. [`SystemClock`]: read
//!   before each update and each refresh of a claim, which begins none at its deadline or past it.
//!
//! ## Errors
//! An error is a [`TransactionalObjectError`], and each contract says which come, why, and what they leave.
//! - `ObjectVersionExists` is a conflict: the version that was to be written stands already, or it is at or below the
//!   boundary, or a candidate is of another version than the object is at. Refresh and try again, or let
//!   `maybe_apply_update` do so.
//! - `Fenced`: the version that was read has a greater epoch than this holder, which writes nothing more as long as no update
//!   without a holder lowers the epoch; or a claim asked for an epoch that is not above the one that stands.
//! - `InvalidObjectState`: what stands, or what is given, is not what the call needs: a boundary file says no number, a refresh
//!   finds no version, an id to be deleted is above the boundary, or a holder's version has a smaller epoch than its own, or
//!   its candidate another one.
//! - `LatestRecordMissing`: a load found no version. `ObjectUpdateTimeout`, `TurnsExhausted`: a claim's time, or the turns
//!   that were lent, ran out; what was written stands. `IdExhausted`: no greater id or epoch is left.
//! - `CallbackError` passes on what a codec, an invariant or a mutator refused, `ObjectStoreError` what the store did, and
//!   `NoMemory` tells that a growth was refused.
//!
//! After an error of a write or an update the value may stand in the store, unless the contract rules it out: whoever has to
//! know reads again.
//!
//! ## Example
//! A holder claims an object, writes on it, and is fenced once another has claimed it (a part of `fences_older_holder` of
//! `slatedb_txn_obj_uses`, which is proved for every value, field of epochs, clock, protocol and store, where both claims are
//! made by one protocol; of many clients with a protocol each, the theorem is that of `World` of `txn_world`):
//! ```text
//! let view: SimpleTransactionalObject<T, MonotonicId, NoInvariant> =
//!     SimpleTransactionalObject::load(alloc, protocol, store, turns)?;
//! let mut older = FenceableTransactionalObject::init(view, protocol, store, turns, TIMEOUT, clock, epochs)?;
//! let dirty = older.prepare_dirty()?; // a copy of the newest value, with its id
//! older.update(protocol, store, dirty)?; // written straight on it, with the holder's epoch
//! // .. another client claims the object ..
//! older.refresh(protocol, store, turns) // Err(Fenced)
//! ```
//!
//! A store of manifests is such an object with a codec of manifests, and calls of its own over `prepare_dirty` and
//! `update`.
#![tactic(auto)]

pub mod boundary;
pub mod clock;
pub mod fenceable;
pub mod object;
pub mod object_store;
pub mod protocol;
pub mod sequenced;
pub mod simple;

pub use boundary::BoundaryObject;
pub use clock::{Readings, SystemClock};
pub use fenceable::FenceableTransactionalObject;
pub use object::TransactionalObject;
pub use protocol::TransactionalStorageProtocol;
pub use sequenced::SequencedStorageProtocol;
pub use simple::SimpleTransactionalObject;
pub use txn_steps_driven::turns::Turns;
pub use txn_store::types::callback::CallbackFault;
pub use txn_store::types::codec::{CodecFault, ObjectCodec};
pub use txn_store::types::dirty::DirtyObject;
pub use txn_store::types::epoch::EpochField;
pub use txn_store::types::error::TransactionalObjectError;
pub use txn_store::types::id::MonotonicId;
pub use txn_store::types::identified::IdentifiedObjectMetadata;
pub use txn_store::types::invariant::{Invariant, NoInvariant};
pub use txn_store::types::test_utils;
