//! The protocol over a boundary in memory that counts its checks.
use crate::scripted::TestBoundary;
use crate::tests::told::{Told, did};
use crate::tests::uses::wrote;
use slatedb_txn_obj::boundary::BoundaryObject;
use slatedb_txn_obj::object_store::protocol::ObjectStoreSequencedStorageProtocol;
use slatedb_txn_obj::protocol::TransactionalStorageProtocol;
use slatedb_txn_obj::sequenced::SequencedStorageProtocol;
use slatedb_txn_obj::test_utils::NumberCodec;
use std::alloc::Global;
use std::test::Fail;
use txn_steps_driven::turns::Turns;
use txn_store::in_memory::InMemory;
use txn_store::path::Path;
use txn_store::types::error::TransactionalObjectError;
use txn_store::types::id::MonotonicId;

type Protocol = ObjectStoreSequencedStorageProtocol<u64, NumberCodec, TestBoundary>;

/// A call of the protocol.
#[derive(Clone, Copy)]
enum Call {
    /// A write of this value as the first version.
    Write(u64),
    Read(u64),
    Advance(u64),
    Delete(u64),
}

/// A call, what it tells, and how many checks of the boundary it makes.
type Row = (Call, Told, u64);

/// A protocol of values that are numbers, over this boundary.
fn a_protocol(alloc: Global, boundary: u64) -> Result<Protocol, Fail> {
    let root = Path::from_text(alloc, "/root")?;
    Ok(ObjectStoreSequencedStorageProtocol::new_with_boundary(
        alloc,
        &root,
        "test",
        "val",
        NumberCodec,
        TestBoundary::new(alloc, boundary, &[]),
    )?)
}

fn found(answer: Result<Option<u64>, TransactionalObjectError>) -> Told {
    match answer {
        Ok(value) => Told::Value(value),
        Err(error) => Told::Fails(error.number()),
    }
}

fn play(protocol: &mut Protocol, store: &mut InMemory, call: Call) -> Told {
    match call {
        Call::Write(value) => wrote(&protocol.write(store, None, &value)),
        Call::Read(id) => found(protocol.try_read_unchecked(store, MonotonicId::new(id))),
        Call::Advance(id) => {
            did(&protocol.advance(store, MonotonicId::new(id), &mut Turns::new(1)))
        }
        Call::Delete(id) => did(&protocol.delete(store, MonotonicId::new(id))),
    }
}

/// The first row that goes otherwise, counted from 0, with how it goes, where there is one.
fn first_other(
    protocol: &mut Protocol,
    store: &mut InMemory,
    rows: &[Row],
) -> Option<(usize, Told, u64)> {
    for (at, (call, told, checks)) in rows.iter().enumerate() {
        let before = protocol.boundary().checks();
        let played = play(protocol, store, *call);
        let made = protocol.boundary().checks().saturating_sub(before);
        if (played, made) != (*told, *checks) {
            return Some((at, played, made));
        }
    }
    None
}

/// The same over an empty store, with this boundary.
fn other(alloc: Global, boundary: u64, rows: &[Row]) -> Result<Option<(usize, Told, u64)>, Fail> {
    let mut protocol = a_protocol(alloc, boundary)?;
    Ok(first_other(&mut protocol, &mut InMemory::new(alloc), rows))
}

/// Rows over an empty store, by what they show, with its boundary.
const SCENARIOS: &[(&str, u64, &[Row])] = &[
    (
        "test_sequenced_storage_checks_boundary_after_successful_write",
        0,
        &[
            (Call::Write(1), Told::Wrote(1), 1),
            (Call::Read(1), Told::Value(Some(1)), 0),
        ],
    ),
    (
        "test_sequenced_storage_rejects_write_behind_boundary",
        1,
        &[
            (Call::Write(1), Told::Fails(5), 1),
            (Call::Read(1), Told::Value(Some(1)), 0),
            (Call::Write(2), Told::Fails(5), 0),
        ],
    ),
    (
        "test_sequenced_storage_allows_delete_at_or_below_boundary",
        0,
        &[
            (Call::Write(1), Told::Wrote(1), 1),
            (Call::Advance(1), Told::Did, 0),
            (Call::Delete(1), Told::Did, 1),
            (Call::Read(1), Told::Value(None), 0),
        ],
    ),
    (
        "test_sequenced_storage_rejects_delete_above_boundary",
        0,
        &[
            (Call::Write(1), Told::Wrote(1), 1),
            (Call::Delete(1), Told::Fails(7), 1),
            (Call::Read(1), Told::Value(Some(1)), 0),
            (Call::Advance(1), Told::Did, 0),
            (Call::Delete(1), Told::Did, 1),
            (Call::Read(1), Told::Value(None), 0),
        ],
    ),
    (
        "test_sequenced_storage_does_not_check_boundary_on_write_conflict",
        0,
        &[
            (Call::Write(1), Told::Wrote(1), 1),
            (Call::Advance(1), Told::Did, 0),
            (Call::Write(2), Told::Fails(5), 0),
        ],
    ),
];

#[test]
fn calls_check_the_boundary(rt: HostRuntime) -> Result<(), Fail> {
    for (name, boundary, rows) in SCENARIOS {
        assert_eq!(rt; (*name, other(rt.alloc(), *boundary, rows)?), (*name, None));
    }
    Ok(())
}
