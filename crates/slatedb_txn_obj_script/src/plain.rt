//! The calls of a protocol.
use crate::said::Said;
use slatedb_txn_obj::{
    IdentifiedObjectMetadata, MonotonicId, SequencedStorageProtocol, TransactionalObjectError,
    TransactionalStorageProtocol, Turns,
};
use std::alloc::{AllocError, Global};
use std::ops::Bound;
use txn_history::event::{Answer, PlainAnswer, PlainCall};
use txn_history::ids::Ids;
use txn_script_lines::record::Record;
use txn_store::store::ObjectStore;

/// What a call without a view answers, or its error.
pub(crate) type PlainResult = Result<PlainAnswer<Record>, TransactionalObjectError>;

/// What an answer of a call without a view, or an error, says.
pub(crate) fn said_of(answer: PlainResult) -> Said {
    match answer {
        Ok(answer) => Said::Answered(Answer::Plain(answer)),
        Err(error) => Said::Refused(error),
    }
}

/// What a call says that answers nothing, or its error.
pub(crate) fn done(answer: Result<(), TransactionalObjectError>) -> Said {
    match answer {
        Ok(()) => Said::Answered(Answer::Plain(PlainAnswer::Done)),
        Err(error) => Said::Refused(error),
    }
}

fn base_of(base: Option<u64>) -> Option<MonotonicId> {
    match base {
        None => None,
        Some(id) => Some(MonotonicId::new(id)),
    }
}

fn bound_of(bound: Bound<u64>) -> Bound<MonotonicId> {
    match bound {
        Bound::Included(id) => Bound::Included(MonotonicId::new(id)),
        Bound::Excluded(id) => Bound::Excluded(MonotonicId::new(id)),
        Bound::Unbounded => Bound::Unbounded,
    }
}

fn ids_of(
    alloc: Global,
    versions: &[IdentifiedObjectMetadata<MonotonicId>],
) -> Result<Ids, AllocError> {
    let mut ids = Vec::new(alloc);
    for version in versions {
        ids.push(version.id.id())?;
    }
    Ok(Ids::from_vec(ids))
}

/// The newest version, as it is answered.
pub(crate) fn newest(found: Option<(MonotonicId, Record)>) -> PlainAnswer<Record> {
    match found {
        None => PlainAnswer::Read(None),
        Some((id, value)) => PlainAnswer::Read(Some((id.id(), value))),
    }
}

fn list<S: ObjectStore, P: SequencedStorageProtocol<Record, S>>(
    alloc: Global,
    protocol: &mut P,
    store: &mut S,
    from: Bound<u64>,
    to: Bound<u64>,
) -> PlainResult {
    let versions = protocol.list(store, bound_of(from), bound_of(to))?;
    Ok(PlainAnswer::Ids(ids_of(alloc, versions.as_slice())?))
}

/// A call that writes, checks, advances or deletes.
fn change<S: ObjectStore, P: SequencedStorageProtocol<Record, S>>(
    protocol: &mut P,
    store: &mut S,
    turns: &mut Turns,
    call: PlainCall<Record>,
) -> PlainResult {
    match call {
        PlainCall::Write(base, value) => Ok(PlainAnswer::Wrote(
            protocol.write(store, base_of(base), &value)?.id(),
        )),
        PlainCall::WriteUnchecked(base, value) => Ok(PlainAnswer::Wrote(
            protocol.write_unchecked(store, base_of(base), &value)?.id(),
        )),
        PlainCall::Check(id) => {
            protocol.check(store, MonotonicId::new(id))?;
            Ok(PlainAnswer::Done)
        }
        PlainCall::Advance(id) => {
            protocol.advance(store, MonotonicId::new(id), turns)?;
            Ok(PlainAnswer::Done)
        }
        PlainCall::Delete(id) => {
            protocol.delete(store, MonotonicId::new(id))?;
            Ok(PlainAnswer::Done)
        }
        _ => Ok(PlainAnswer::Done),
    }
}

/// A call without a view.
pub(crate) fn perform<S: ObjectStore, P: SequencedStorageProtocol<Record, S>>(
    alloc: Global,
    protocol: &mut P,
    store: &mut S,
    turns: &mut Turns,
    call: PlainCall<Record>,
) -> PlainResult {
    match call {
        PlainCall::Read => Ok(newest(protocol.try_read_latest(store, turns)?)),
        PlainCall::ReadUnchecked(id) => Ok(PlainAnswer::Value(protocol.try_read_unchecked(
            store,
            MonotonicId::new(id),
        )?)),
        PlainCall::ReadSeen(id) => Ok(PlainAnswer::Value(protocol.try_read_seen(
            store,
            MonotonicId::new(id),
        )?)),
        PlainCall::ListIds(from, to) => list(alloc, protocol, store, from, to),
        _ => change(protocol, store, turns, call),
    }
}
