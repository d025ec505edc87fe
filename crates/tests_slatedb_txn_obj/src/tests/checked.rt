//! The checked calls, over a type that does as it is told.
use crate::scripted::TestBoundary;
use slatedb_txn_obj::protocol::TransactionalStorageProtocol;
use std::alloc::Global;
use std::test::Fail;
use txn_steps_driven::turns::Turns;
use txn_store::in_memory::InMemory;

/// A version behind the boundary, and the one that is newest.
const READS: &[(u64, u64)] = &[(1, 1), (3, 3)];

/// The id and the value that a read with so many turns finds, or the number of its error; how many passes and checks it
/// makes, and how many turns it leaves.
fn read_with(alloc: Global, turns: u64) -> (Result<Option<(u64, u64)>, u8>, usize, u64, u64) {
    let mut store = InMemory::new(alloc);
    let mut protocol = TestBoundary::new(alloc, 2, READS);
    let mut turns = Turns::new(turns);
    let found = match protocol.try_read_latest(&mut store, &mut turns) {
        Ok(Some((id, value))) => Ok(Some((id.id(), value))),
        Ok(None) => Ok(None),
        Err(error) => Err(error.number()),
    };
    (found, protocol.calls(), protocol.checks(), turns.left())
}

#[test]
fn test_sequenced_storage_retries_read_latest_behind_boundary(rt: HostRuntime) -> Result<(), Fail> {
    assert_eq!(rt; read_with(rt.alloc(), 20), (Ok(Some((3, 3))), 2, 2, 18));
    // One turn is one pass.
    assert_eq!(rt; read_with(rt.alloc(), 1), (Err(11), 1, 1, 0));
    Ok(())
}
