//! What one client is told by any list of calls.
ghost use Rattle.std.specs.Prelude.{◌≡◌, ℕ, List, length, IfOk, OnErr};
ghost use Rattle.slatedb_txn_obj_uses.specs.OneClient.{IsAllowed, Moves, Runs};

use slatedb_txn_obj::protocol::TransactionalStorageProtocol;
use slatedb_txn_obj::sequenced::SequencedStorageProtocol;
use std::alloc::{AllocError, Global};
use txn_steps_driven::turns::Turns;
use txn_store::store::ObjectStore;
use txn_store::types::error::TransactionalObjectError;
use txn_store::types::id::MonotonicId;

/// A checked call of a protocol.
#[derive(Drop)]
pub enum Call<T> {
    /// A write of a value on the version of this id, or as the first.
    Write(Option<MonotonicId>, T),
    /// A read of the newest version.
    Read,
    /// A check of an id.
    Check(MonotonicId),
    /// An advance of the boundary.
    Advance(MonotonicId),
    /// A delete of a version.
    Delete(MonotonicId),
}

/// What a call is told.
#[derive(Drop)]
pub enum Reply<T> {
    /// Of a write: the id of the new version.
    Wrote(Result<MonotonicId, TransactionalObjectError>),
    /// Of a read: the newest version and its value, or nothing.
    Newest(Result<Option<(MonotonicId, T)>, TransactionalObjectError>),
    /// Of a check, an advance or a delete.
    Done(Result<(), TransactionalObjectError>),
}

/// Makes one call. Where the protocol and the store stand for a history and a boundary, and the call is one that a client
/// may make there, they stand for what the call moves them to.
pub fn perform<T: Drop, S: ObjectStore, P: SequencedStorageProtocol<T, S>>(
    protocol: &mut P,
    store: &mut S,
    turns: &mut Turns,
    call: &Call<T>,
) -> Reply<T>
    ensures { (h : List T) (b : ℕ) → P.stands protocol.old store.old h b → IsAllowed h call.now → (h' : List T) × (b' : ℕ) × Moves h b call.now result h' b' × P.stands protocol.new store.new h' b' }
{
    match call {
        Call::Write(base, value) => Reply::Wrote(protocol.write(store, *base, value)),
        Call::Read => Reply::Newest(protocol.try_read_latest(store, turns)),
        Call::Check(id) => Reply::Done(protocol.check(store, *id)),
        Call::Advance(id) => Reply::Done(protocol.advance(store, *id, turns)),
        Call::Delete(id) => Reply::Done(protocol.delete(store, *id)),
    }
}

/// Makes calls one after another. Where the protocol and the store stand for a history and a boundary, and each call is one
/// that a client may make where the calls before it led, they stand for what the last one leads to, and each reply is the one
/// that its call's move says.
///
/// # Errors
///
/// Want of memory for the replies alone, for which room is made first: no call was made.
pub fn perform_all<T: Drop, S: ObjectStore, P: SequencedStorageProtocol<T, S>>(
    alloc: Global,
    protocol: &mut P,
    store: &mut S,
    turns: &mut Turns,
    calls: &[Call<T>],
) -> Result<Vec<Reply<T>>, AllocError>
    ensures runs { IfOk result (λ replies. (h : List T) (b : ℕ) → P.stands protocol.old store.old h b → Runs (P.stands protocol.new store.new) h b calls.now replies.items) }
    ensures each { IfOk result (λ replies. length replies.items ≡ length calls.now) }
    ensures none_made { OnErr result ((protocol.new ≡ protocol.old) × (store.new ≡ store.old) × (turns.new ≡ turns.old)) }
{
    let mut replies = Vec::with_capacity(alloc, calls.len())?;
    for call in calls {
        let reply = perform(protocol, store, turns, call);
        replies.push_reserved(reply);
    }
    Ok(replies)
}
