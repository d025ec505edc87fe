//! What every operation on a transactional object speaks of: ids of versions, errors, values as bytes, and where the
//! files of an object lie.
//!
//! ## Core types
//! - `MonotonicId`: the id of a version. The first is 1, and each later one is the one before plus 1.
//! - `CallbackFault`: how an invariant or a mutator refuses.
//! - `DirtyObject<T, Id>`: a local candidate `{ id, value }`, with the id of the version that it is made from.
//! - `EpochField<T>`: where a value keeps its epoch. What is set, it reads. `next_epoch` is that of a claim, and
//!   `test_epoch` tests a holder's.
//! - `IdentifiedObjectMetadata<Id>`: a listed file with the id of its version.
//! - `Invariant<T>`: what has to hold between a new value and the current one; `NoInvariant` always holds.
//! - `ObjectCodec<T>`: how values are written as bytes and read back. What it writes, it reads as the same value.
//! - `TransactionalObjectError`: the error of every call, of eleven kinds with stated numbers.
//! - `StepError`: the same error in two words, as operations and drivers move it.
//! - `Layout<C>`: where the versions and the boundary file of an object lie, and the codec of its values.
//!
//! ## Error semantics
//! - `ObjectVersionExists` is a conflict: another writer created the version first, or the created version was
//!   overtaken by the boundary. The caller refreshes and tries again; `is_sequenced_write_conflict` asks for it.
//! - `Fenced` tells a client that a newer one has claimed the object.
//! - `InvalidObjectState` is answered where a file is missing that has to be there, or is not what it has to be.
//! - `ObjectStoreError` holds the store's error. The store's want of memory becomes `NoMemory` instead.
//! - `CallbackError` holds what a codec, an invariant or a mutator refused with.
//! - `NoMemory`, `IdExhausted` and `TurnsExhausted` say what ran out, and never change an answer.

pub mod boundary;
pub mod callback;
pub mod codec;
pub mod dirty;
pub mod epoch;
pub mod error;
pub mod id;
pub mod identified;
pub mod invariant;
pub mod layout;
pub mod room;
pub mod step_error;
pub mod test_utils;
