//! Uses of the protocols from outside.
use crate::tests::told::{Told, did};
use slatedb_txn_obj::object_store::boundary::ObjectStoreBoundaryObject;
use slatedb_txn_obj::object_store::protocol::ObjectStoreSequencedStorageProtocol;
use slatedb_txn_obj::protocol::TransactionalStorageProtocol;
use slatedb_txn_obj::sequenced::SequencedStorageProtocol;
use slatedb_txn_obj::test_utils::NumberCodec;
use slatedb_txn_obj_uses::beside::write_beside;
use slatedb_txn_obj_uses::list_store::ListStore;
use slatedb_txn_obj_uses::one_client::{Call, Reply, perform_all};
use slatedb_txn_obj_uses::register::{Register, Revision};
use slatedb_txn_obj_uses::through::append;
use std::alloc::Global;
use std::ops::Bound::Unbounded;
use std::test::Fail;
use txn_steps_driven::turns::Turns;
use txn_store::in_memory::InMemory;
use txn_store::path::Path;
use txn_store::store::ObjectStore;
use txn_store::types::error::TransactionalObjectError;
use txn_store::types::id::MonotonicId;

/// A protocol over a store of files, of values that are numbers.
pub(crate) type Protocol = ObjectStoreSequencedStorageProtocol<
    u64,
    NumberCodec,
    ObjectStoreBoundaryObject,
>;

/// The protocol of a folder, with one file a page.
pub(crate) fn a_protocol(alloc: Global, subdir: &str) -> Result<Protocol, Fail> {
    let root = Path::from_text(alloc, "root")?;
    let protocol = ObjectStoreSequencedStorageProtocol::new(
        alloc,
        &root,
        subdir,
        "val",
        NumberCodec,
    )?;
    Ok(protocol.with_page(1))
}

/// The ids of two values that are appended, and what is newest then.
type Appended<Id> = (Id, Id, Option<(Id, u64)>);

fn append_two<Id: Drop, S: ObjectStore, P: TransactionalStorageProtocol<u64, Id, S>>(
    protocol: &mut P,
    store: &mut S,
    turns: u64,
) -> Result<Appended<Id>, Fail> {
    let mut turns = Turns::new(turns);
    let first = append(protocol, store, &mut turns, &10)?;
    let second = append(protocol, store, &mut turns, &20)?;
    Ok((first, second, protocol.try_read_latest(store, &mut turns)?))
}

fn append_two_to_files(alloc: Global) -> Result<Appended<MonotonicId>, Fail> {
    let mut protocol = a_protocol(alloc, "test")?;
    append_two(&mut protocol, &mut InMemory::new(alloc), 20)
}

#[test]
fn values_are_appended_to_files(rt: HostRuntime) -> Result<(), Fail> {
    let (first, second) = (MonotonicId::new(1), MonotonicId::new(2));
    assert_eq!(rt;
        append_two_to_files(rt.alloc())?,
        (first, second, Some((second, 20)))
    );
    Ok(())
}

#[test]
fn values_are_appended_to_a_register(rt: HostRuntime) -> Result<(), Fail> {
    let mut store = InMemory::new(rt.alloc());
    let mut register = Register::new(rt.alloc());
    let appended = append_two(&mut register, &mut store, 0)?;
    assert_eq!(rt;
        appended,
        (Revision(1), Revision(2), Some((Revision(2), 20)))
    );
    let stale = register.write(&mut store, Some(Revision(1)), &30);
    assert!(rt; matches!(&stale, Err(TransactionalObjectError::ObjectVersionExists)));
    Ok(())
}

/// A value is written by one protocol, and what is newest by another is read then.
fn read_beside<S: ObjectStore, P: TransactionalStorageProtocol<u64, MonotonicId, S>>(
    one: &mut P,
    other: &mut P,
    store: &mut S,
    base: Option<MonotonicId>,
    value: u64,
) -> Result<Option<(MonotonicId, u64)>, TransactionalObjectError> {
    write_beside(one, other, store, &mut Turns::new(10), base, &value)
}

fn write_first<S: ObjectStore, P: TransactionalStorageProtocol<u64, MonotonicId, S>>(
    protocol: &mut P,
    store: &mut S,
    value: u64,
) -> Result<MonotonicId, TransactionalObjectError> {
    protocol.write(store, None, &value)
}

/// What is newest by one protocol, before and after it has a version, each time once another one has a new version.
fn newest_with<S: ObjectStore, P: TransactionalStorageProtocol<u64, MonotonicId, S>>(
    one: &mut P,
    other: &mut P,
    store: &mut S,
) -> Result<[Option<(MonotonicId, u64)>; 2], TransactionalObjectError> {
    let before = read_beside(one, other, store, None, 10)?;
    write_first(other, store, 20)?;
    let after = read_beside(one, other, store, Some(MonotonicId::new(1)), 30)?;
    Ok([before, after])
}

/// The same of one protocol and of another folder of a store in memory.
fn newest_beside(
    alloc: Global,
    one: &mut Protocol,
) -> Result<[Option<(MonotonicId, u64)>; 2], Fail> {
    let mut other = a_protocol(alloc, "other")?;
    Ok(newest_with(one, &mut other, &mut InMemory::new(alloc))?)
}

/// The same of two folders.
fn newest_of_two(alloc: Global) -> Result<[Option<(MonotonicId, u64)>; 2], Fail> {
    newest_beside(alloc, &mut a_protocol(alloc, "test")?)
}

#[test]
fn two_folders_of_a_store_leave_each_other_alone(rt: HostRuntime) -> Result<(), Fail> {
    let newest = newest_of_two(rt.alloc())?;
    assert_eq!(rt; newest, [None, Some((MonotonicId::new(1), 20))]);
    Ok(())
}

/// What a write tells.
pub(crate) fn wrote(answer: &Result<MonotonicId, TransactionalObjectError>) -> Told {
    match answer {
        Ok(id) => Told::Wrote(id.id()),
        Err(error) => Told::Fails(error.number()),
    }
}

fn found(answer: &Result<Option<(MonotonicId, u64)>, TransactionalObjectError>) -> Told {
    match answer {
        Ok(Some((id, value))) => Told::Found(id.id(), *value),
        Ok(None) => Told::Nothing,
        Err(error) => Told::Fails(error.number()),
    }
}

/// What a reply tells.
fn told_by(reply: &Reply<u64>) -> Told {
    match reply {
        Reply::Wrote(answer) => wrote(answer),
        Reply::Newest(answer) => found(answer),
        Reply::Done(answer) => did(answer),
    }
}

/// The first reply that says something else, counted from 0, with what it says, where there is one.
fn other_told(replies: &[Reply<u64>], told: &[Told]) -> Option<(usize, Told)> {
    for (at, (reply, told)) in replies.iter().zip(told).enumerate() {
        let said = told_by(reply);
        if said != *told {
            return Some((at, said));
        }
    }
    None
}

/// How many replies there are to these calls, made one after another, and the first that says something else, counted from
/// 0, with what it says, where there is one.
fn other_reply<S: ObjectStore>(
    alloc: Global,
    protocol: &mut Protocol,
    store: &mut S,
    calls: &[Call<u64>],
    told: &[Told],
) -> Result<(usize, Option<(usize, Told)>), Fail> {
    let replies = perform_all(alloc, protocol, store, &mut Turns::new(20), calls)?;
    Ok((replies.len(), other_told(replies.as_slice(), told)))
}

/// The ids of a protocol's versions.
fn ids<S: ObjectStore>(
    alloc: Global,
    protocol: &mut Protocol,
    store: &mut S,
) -> Result<Vec<u64>, Fail> {
    let mut ids = Vec::new(alloc);
    for version in protocol.list(store, Unbounded, Unbounded)?.as_slice() {
        ids.push(version.id.id())?;
    }
    Ok(ids)
}

/// The replies to the calls over a list of files before its first listing: how many, and the first that says something else.
fn other_before_a_listing<S: ObjectStore>(
    alloc: Global,
    protocol: &mut Protocol,
    store: &mut S,
) -> Result<(usize, Option<(usize, Told)>), Fail> {
    let calls = [
        Call::Write(None, 10),
        Call::Write(Some(MonotonicId::new(1)), 20),
        Call::Read,
    ];
    let told = [Told::Wrote(1), Told::Wrote(2), Told::Found(2, 20)];
    other_reply(alloc, protocol, store, &calls, &told)
}

/// The same of the calls after it.
fn other_after_a_listing<S: ObjectStore>(
    alloc: Global,
    protocol: &mut Protocol,
    store: &mut S,
) -> Result<(usize, Option<(usize, Told)>), Fail> {
    let (first, second) = (MonotonicId::new(1), MonotonicId::new(2));
    let calls = [
        Call::Advance(first),
        Call::Check(first),
        Call::Delete(first),
        Call::Delete(second),
        Call::Write(Some(first), 30),
        Call::Write(Some(second), 30),
    ];
    let told = [
        Told::Did,
        Told::Fails(5),
        Told::Did,
        Told::Fails(7),
        Told::Fails(5),
        Told::Wrote(3),
    ];
    other_reply(alloc, protocol, store, &calls, &told)
}

/// How many replies come that are as they should be, and the ids that are listed then.
type Listed = ((usize, Option<(usize, Told)>), Vec<u64>);

/// Calls over a list of files, one file a page, and a listing, twice.
fn listed_over<S: ObjectStore>(
    alloc: Global,
    protocol: &mut Protocol,
    store: &mut S,
) -> Result<(Listed, Listed), Fail> {
    let before = other_before_a_listing(alloc, protocol, store)?;
    let first = ids(alloc, protocol, store)?;
    let after = other_after_a_listing(alloc, protocol, store)?;
    Ok(((before, first), (after, ids(alloc, protocol, store)?)))
}

fn listed_over_a_list(alloc: Global) -> Result<(Listed, Listed), Fail> {
    let mut protocol = a_protocol(alloc, "test")?;
    listed_over(alloc, &mut protocol, &mut ListStore::new(alloc))
}

#[test]
fn a_protocol_runs_over_a_list_of_files(rt: HostRuntime) -> Result<(), Fail> {
    let ((other, ids), (later_other, later_ids)) = listed_over_a_list(rt.alloc())?;
    assert_eq!(rt; (other, later_other), ((3, None), (6, None)));
    assert_eq!(rt;
        (ids.as_slice(), later_ids.as_slice()),
        (&[1, 2][..], &[2, 3][..])
    );
    Ok(())
}
