//! Two holders of one object.
ghost use Rattle.std.specs.Prelude.{◌≡◌, ℕ, List, true, IfOk};
ghost use Rattle.txn_store.specs.types.Clones.{IsExactClone};

use slatedb_txn_obj::{
    EpochField, FenceableTransactionalObject, MonotonicId, NoInvariant, SimpleTransactionalObject,
    SystemClock, TransactionalObject, TransactionalObjectError, TransactionalStorageProtocol,
    Turns,
};
use std::alloc::Global;
use txn_store::store::ObjectStore;

/// How long each claim may take, in milliseconds.
const TIMEOUT: u64 = 1_000;

/// Claims an object, writes a version as its holder, and claims it once more as another would. Answers whether the older holder
/// is then fenced: it is, wherever the protocol and the store stood for a history. It asks that a clone is the same value.
///
/// # Errors
///
/// Those of a load, a claim and an update. What was written before stands.
pub fn fences_older_holder<
    T: Clone,
    X: EpochField<T>,
    S: ObjectStore,
    P: TransactionalStorageProtocol<T, MonotonicId, S>,
    K: SystemClock,
>(
    alloc: Global,
    protocol: &mut P,
    store: &mut S,
    turns: &mut Turns,
    clock: &mut K,
    epochs: X,
) -> Result<bool, TransactionalObjectError>
    requires { IsExactClone T.is_clone }
    ensures { IfOk result (λ fenced. (h : List T) (b : ℕ) → P.stands protocol.old store.old h b → fenced ≡ true) }
{
    let view: SimpleTransactionalObject<T, MonotonicId, NoInvariant> =
        SimpleTransactionalObject::load(alloc, protocol, store, turns)?;
    let mut older = FenceableTransactionalObject::init(
        view, protocol, store, turns, TIMEOUT, clock, epochs,
    )?;
    let dirty = older.prepare_dirty()?;
    older.update(protocol, store, dirty)?;
    let again: SimpleTransactionalObject<T, MonotonicId, NoInvariant> =
        SimpleTransactionalObject::load(alloc, protocol, store, turns)?;
    let newer = FenceableTransactionalObject::init(
        again, protocol, store, turns, TIMEOUT, clock, epochs,
    )?;
    match older.refresh(protocol, store, turns) {
        Err(TransactionalObjectError::Fenced) => Ok(true),
        Err(error) => Err(error),
        Ok(_) => Ok(false),
    }
}
