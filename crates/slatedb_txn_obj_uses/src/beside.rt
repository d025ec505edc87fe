//! Two objects in one store.
ghost use Rattle.std.specs.Prelude.{List, ℕ, ◌≡◌, IfOk};
ghost use Rattle.slatedb_txn_obj.specs.Leaves.{AreApart};
ghost use Rattle.slatedb_txn_obj.specs.Protocol.{LatestBy, Stays};

use slatedb_txn_obj::protocol::TransactionalStorageProtocol;
use txn_steps_driven::turns::Turns;
use txn_store::store::ObjectStore;
use txn_store::types::error::TransactionalObjectError;

/// Writes a value of one object on a base, and then reads the newest version of another. Where the two have no file in common,
/// the write leaves the other what it stood for, so that the read answers its newest entry.
///
/// # Errors
///
/// Those of the write and of the read. Where the two have no file in common, each leaves the other object what it stood for;
/// the value may have been written.
pub fn write_beside<
    T,
    Id: Drop,
    U: Drop,
    Jd: Drop,
    S: ObjectStore,
    P: TransactionalStorageProtocol<T, Id, S>,
    Q: TransactionalStorageProtocol<U, Jd, S>,
>(
    protocol: &mut P,
    other: &mut Q,
    store: &mut S,
    turns: &mut Turns,
    base: Option<Id>,
    value: &T,
) -> Result<Option<(Jd, U)>, TransactionalObjectError>
    ensures latest { IfOk result (λ read. AreApart (P.owns (P.place protocol.old)) (Q.owns (Q.place other.old)) → (h : List U) (b : ℕ) → Q.stands other.old store.old h b → LatestBy Q.number h read) }
    ensures kept { AreApart (P.owns (P.place protocol.old)) (Q.owns (Q.place other.old)) → Stays (Q.stands other.old store.old) (Q.stands other.new store.new) }
    ensures placed { (P.place protocol.new ≡ P.place protocol.old) × (Q.place other.new ≡ Q.place other.old) }
{
    protocol.write(store, base, value)?;
    other.try_read_latest(store, turns)
}
