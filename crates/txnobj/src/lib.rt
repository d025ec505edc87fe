//! One object in a store that others share, as a program's own: it is loaded, updated on the version that was read, claimed,
//! and its old versions are collected, while others do the same from elsewhere.
//!
//! A program gives a store ([`SharedStore`]: one function, which makes a call once) and a recorder, and makes an
//! [`ObjectClient`] over them. Each call is lent that client, always the same for an object.
//!
//! ## Core types
//! - [`ObjectClient`]: a client of one object. Its calls without an object are those of [`TransactionalStorageProtocol`]:
//!   `write` on a base, `try_read_latest`, `try_read_unchecked`, `list`, `advance`, `delete` and `collect_below`.
//! - [`SimpleTransactionalObject`]: a version in memory. `refresh` moves it to the newest, `update` writes a [`DirtyObject`] on
//!   it, with [`Invariant`]s that each update keeps, and `maybe_apply_update` asks a mutator, and once more after each conflict.
//! - [`FenceableTransactionalObject`]: such an object in the hands of a holder. A claim (`init`) writes the newest value once
//!   more with a greater epoch in it, by an [`EpochField`]; from then on an older holder finds itself `Fenced`.
//! - [`Error`]: why a call gave no answer, with the store's own fault in it.
//!
//! ## Error semantics
//! - `ObjectVersionExists` is a conflict: another wrote first. Refresh and try again, or let `maybe_apply_update` do so.
//! - `Fenced` tells a holder that a newer one has claimed the object; what it does not hold it cannot write.
//! - After `ObjectStoreError` and `TurnsExhausted` nobody knows whether what was to be written stands: read again.
//! - `NotPermitted` is an error of the program: the client makes no such call. `NoMemory`, `Unrecorded` and `Ended`: see
//!   [`ObjectClient::goes_on`].
//!
//! ## Example
//! ```text
//! let mut client = ObjectClient::new(alloc, 1, codec, epochs, store, recorder)?;
//! let mut view: SimpleTransactionalObject<T, NoInvariant> = SimpleTransactionalObject::load(alloc, &mut client)?;
//! let mut dirty = view.prepare_dirty()?;
//! dirty.value.count += 1;
//! view.update(&mut client, dirty)?; // written straight on the version that was read, or ObjectVersionExists
//! ```
#![tactic(auto)]

mod answers;
pub mod client;
pub mod clients;
pub mod error;
pub mod fenceable;
pub mod laws;
pub mod object;
pub mod protocol;
pub mod simple;
pub mod store;

pub use client::ObjectClient;
pub use error::Error;
pub use fenceable::FenceableTransactionalObject;
pub use object::TransactionalObject;
pub use protocol::TransactionalStorageProtocol;
pub use simple::SimpleTransactionalObject;
pub use slatedb_txn_obj::clock::{Readings, SystemClock};
pub use store::SharedStore;
pub use txn_store::types::callback::CallbackFault;
pub use txn_store::types::codec::{CodecFault, ObjectCodec};
pub use txn_store::types::dirty::DirtyObject;
pub use txn_store::types::epoch::EpochField;
pub use txn_store::types::id::MonotonicId;
pub use txn_store::types::invariant::{Invariant, NoInvariant};
