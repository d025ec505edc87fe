//! The calls of workloads, by any protocol.
//!
//! The version of each id has the id as its value, so that each answer can be held against what was written.
ghost use Rattle.std.specs.Prelude.{◌≡◌, ◌+◌, ◌<◌, ◌≤◌, ◌↔◌, ℕ, [], Some, IsTrue, OnOk, IsErrOf};
ghost use Rattle.slatedb_txn_obj.specs.Protocol.{Stays};
ghost use Rattle.slatedb_txn_obj_uses.specs.Workloads.{numbers_to};
ghost use Rattle.slatedb_txn_obj_uses.specs.declared.fault.Fault.TheVariants as faults;

use crate::clock::StoppedClock;
use crate::fault::Fault;
use slatedb_txn_obj::protocol::TransactionalStorageProtocol;
use slatedb_txn_obj::sequenced::SequencedStorageProtocol;
use slatedb_txn_obj::{
    FenceableTransactionalObject, SimpleTransactionalObject, TransactionalObject,
};
use std::alloc::Global;
use std::ops::Bound;
use txn_steps_driven::turns::Turns;
use txn_store::store::ObjectStore;
use txn_store::types::error::TransactionalObjectError;
use txn_store::types::id::MonotonicId;
use txn_store::types::invariant::NoInvariant;
use txn_store::types::test_utils::NumberEpoch;

/// The turns that each read, and each claim, is lent.
const TURNS: u64 = 20;

/// How long a claim may take, in milliseconds.
const TIMEOUT: u64 = 1000;

/// An object of numbers, without invariants.
type View = SimpleTransactionalObject<u64, MonotonicId, NoInvariant>;

/// Writes so many versions, each on the one before it, from the first on.
///
/// # Errors
///
/// Those of a write but for a conflict, since one client is never overtaken. The versions before stand.
pub fn write_versions<S: ObjectStore, P: SequencedStorageProtocol<u64, S>>(
    protocol: &mut P,
    store: &mut S,
    count: u64,
) -> Result<(), TransactionalObjectError>
    ensures written { OnOk result ((b : ℕ) → P.stands protocol.old store.old [] b → P.stands protocol.new store.new (numbers_to count) b) }
    ensures no_conflict { IsErrOf result TransactionalObjectError.ObjectVersionExists → (b : ℕ) → P.stands protocol.old store.old [] b → ⊥ }
{
    let mut newest = None;
    for before in 0..count {
        newest = Some(protocol.write(store, newest, &(before + 1))?);
    }
    Ok(())
}

/// Writes the first version as an object, and updates that up to the version of id `last`.
///
/// # Errors
///
/// Those of a write but for a conflict, since one client is never overtaken. The versions before stand.
pub fn update_versions<S: ObjectStore, P: SequencedStorageProtocol<u64, S>>(
    alloc: Global,
    protocol: &mut P,
    store: &mut S,
    last: u64,
) -> Result<(), TransactionalObjectError>
    ensures updated { OnOk result (1 ≤ last → (b : ℕ) → P.stands protocol.old store.old [] b → P.stands protocol.new store.new (numbers_to last) b) }
    ensures no_conflict { IsErrOf result TransactionalObjectError.ObjectVersionExists → (b : ℕ) → P.stands protocol.old store.old [] b → ⊥ }
{
    let mut view: View = SimpleTransactionalObject::init(alloc, protocol, store, 1)?;
    for before in 1..last {
        let mut dirty = view.prepare_dirty()?;
        dirty.value = before + 1;
        view.update(protocol, store, dirty)?;
    }
    Ok(())
}

/// Whether a read answered the version of this id.
fn is_version(read: Option<(MonotonicId, u64)>, id: u64) -> bool
    ensures { IsTrue result ↔ (read ≡ Some (id, id)) }
{
    match read {
        Some((found, value)) => found.is(id) && value == id,
        None => false,
    }
}

/// Reads the newest version.
///
/// # Errors
///
/// `WrongAnswer` where it is any other than the one of this id; the read's own error. What stood stands.
pub fn read_newest<S: ObjectStore, P: SequencedStorageProtocol<u64, S>>(
    protocol: &mut P,
    store: &mut S,
    newest: u64,
) -> Result<(), Fault>
    ensures kept { Stays (P.stands protocol.old store.old) (P.stands protocol.new store.new) }
    ensures right { IsErrOf result faults.WrongAnswer → 0 < newest → (b : ℕ) → P.stands protocol.old store.old (numbers_to newest) b → ⊥ }
{
    let read = protocol.try_read_latest(store, &mut Turns::new(TURNS))?;
    if !is_version(read, newest) {
        return Err(Fault::WrongAnswer);
    }
    Ok(())
}

/// Lists all versions.
///
/// # Errors
///
/// `WrongAnswer` where they are not so many as the newest id; the listing's own error. What stood stands.
pub fn list_all<S: ObjectStore, P: SequencedStorageProtocol<u64, S>>(
    protocol: &mut P,
    store: &mut S,
    newest: u64,
) -> Result<(), Fault>
    ensures kept { Stays (P.stands protocol.old store.old) (P.stands protocol.new store.new) }
    ensures right { IsErrOf result faults.WrongAnswer → P.stands protocol.old store.old (numbers_to newest) 0 → ⊥ }
{
    let versions = protocol.list(store, Bound::Unbounded, Bound::Unbounded)?;
    if versions.len() as u64 != newest {
        return Err(Fault::WrongAnswer);
    }
    Ok(())
}

/// Loads the newest version, and claims it.
///
/// # Errors
///
/// `WrongAnswer` where the epoch is any other than the one above this id, which is the newest version's; the load's own error,
/// and the claim's, after which the claim may have been written.
pub fn claim_newest<S: ObjectStore, P: SequencedStorageProtocol<u64, S>>(
    alloc: Global,
    protocol: &mut P,
    store: &mut S,
    newest: u64,
) -> Result<(), Fault>
    ensures claimed { OnOk result ((b : ℕ) → P.stands protocol.old store.old (numbers_to newest) b → P.stands protocol.new store.new (numbers_to (newest + 1)) b) }
    ensures right { IsErrOf result faults.WrongAnswer → (b : ℕ) → P.stands protocol.old store.old (numbers_to newest) b → ⊥ }
{
    let mut turns = Turns::new(TURNS);
    let mut clock = StoppedClock::new();
    let view: View = SimpleTransactionalObject::load(alloc, protocol, store, &mut turns)?;
    let holder = FenceableTransactionalObject::init(
        view,
        protocol,
        store,
        &mut turns,
        TIMEOUT,
        &mut clock,
        NumberEpoch,
    )?;
    if holder.local_epoch().saturating_sub(1) != newest {
        return Err(Fault::WrongAnswer);
    }
    Ok(())
}
