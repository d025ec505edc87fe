//! Calls through the traits.
ghost use Rattle.std.specs.Prelude.{◌≡◌, List, ℕ, length, ◌+◌, ◌++◌, ◌∷◌, [], ◌≤◌, IfOk, IsErrOf};

use slatedb_txn_obj::protocol::TransactionalStorageProtocol;
use txn_steps_driven::turns::Turns;
use txn_store::store::ObjectStore;
use txn_store::types::error::TransactionalObjectError;

/// Writes a value on the newest version.
///
/// # Errors
///
/// Those of a read and of a write but for a conflict, since one client is never overtaken. After one of a write the value may
/// have been written.
pub fn append<T: Drop, Id, S: ObjectStore, P: TransactionalStorageProtocol<T, Id, S>>(
    protocol: &mut P,
    store: &mut S,
    turns: &mut Turns,
    value: &T,
) -> Result<Id, TransactionalObjectError>
    ensures appended { IfOk result (λ id. (h : List T) (b : ℕ) → P.stands protocol.old store.old h b → (P.number id ≡ length h + 1) × P.stands protocol.new store.new (h ++ value.now ∷ []) b) }
    ensures no_conflict { IsErrOf result TransactionalObjectError.ObjectVersionExists → (h : List T) (b : ℕ) → P.stands protocol.old store.old h b → ⊥ }
{
    let newest = protocol.try_read_latest(store, turns)?;
    let base = match newest {
        None => None,
        Some((id, _value)) => Some(id),
    };
    protocol.write(store, base, value)
}
