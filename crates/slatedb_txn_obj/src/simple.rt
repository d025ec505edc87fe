//! The simple object: a version of a value, with invariants on what may follow it.
ghost use Rattle.std.specs.Prelude.{ℕ, List, length, true, false, ◌≡◌, ◌+◌, ◌*◌, ◌≤◌, [], None, Some, Ok, Err, All, OnOk, OnErr, IfOk, IfErr, IsErr, IsErrOf, IfSome, MatchOption};
ghost use Rattle.txn_store.specs.types.Callbacks.{OnRefusal};
ghost use Rattle.txn_store.specs.types.Clones.{IsExactClone};
ghost use Rattle.txn_steps_driven.specs.Calls.{Spends, SpendsTurns};
ghost use Rattle.slatedb_txn_obj.specs.Leaves.{MayCreate};
ghost use Rattle.slatedb_txn_obj.specs.Protocol.{Appended, Overtaken, MayAppend, Unheld, UnheldAt, HasCauseOfWrite, HasCauseOfLatest, Stays, LeavesAll};
ghost use Rattle.slatedb_txn_obj.specs.Views.{IsRefusal, IsVersion, Updated, ShowsLatest, IsEmpty, Tested, IsTestFailure, HasCauseOfUpdate, HasCauseOfLoad};

use crate::object::TransactionalObject;
use crate::protocol::TransactionalStorageProtocol;
use std::alloc::{AllocError, Global};
use txn_steps_driven::turns::Turns;
use txn_store::store::ObjectStore;
use txn_store::types::callback::CallbackFault;
use txn_store::types::dirty::DirtyObject;
use txn_store::types::error::TransactionalObjectError;
use txn_store::types::invariant::Invariant;

/// A version of a value, with the invariants that each update keeps.
#[derive(Debug, Drop)]
pub struct SimpleTransactionalObject<T, Id, I> {
    id: Id,
    object: T,
    invariants: Vec<I>,
}

impl<T: Drop, Id: Drop, I> SimpleTransactionalObject<T, Id, I> {
    /// Writes the first version, and is at it, without invariants.
    ///
    /// # Errors
    ///
    /// - `ObjectVersionExists` where one is stored. What stood stands.
    /// - `InvalidObjectState` where the boundary file says no number, `ObjectStoreError` with the store's own error, `NoMemory`
    ///   where a growth was refused. The version may have been written.
    pub fn init<S: ObjectStore, P: TransactionalStorageProtocol<T, Id, S>>(
        alloc: Global,
        protocol: &mut P,
        store: &mut S,
        value: T,
    ) -> Result<SimpleTransactionalObject<T, Id, I>, TransactionalObjectError>
        ensures object { IfOk result (λ view. (view.object ≡ value) × (view.invariants.items ≡ [])) }
        ensures appended { IfOk result (λ view. Appended (P.stands protocol.old store.old) (P.stands protocol.new store.new) 0 value (P.number view.id)) }
        ensures written { IfOk result (λ view. P.writes_to protocol.old store.old None value (Ok view.id) protocol.new store.new) }
        ensures unwritten { IfErr result (λ e. P.writes_to protocol.old store.old None value (Err e) protocol.new store.new) }
        ensures conflict { IsErrOf result TransactionalObjectError.ObjectVersionExists → Overtaken (P.stands protocol.old store.old) (P.stands protocol.new store.new) 0 }
        ensures err { IfErr result (λ _. MayAppend (P.stands protocol.old store.old) (P.stands protocol.new store.new) 0 value) }
        ensures cause { IfErr result (HasCauseOfWrite (UnheldAt (P.stands protocol.old store.old) 0) 0 (S.state store.old) (S.state store.new)) }
        ensures spends { Spends 2 1 (S.state store.old) (S.state store.new) }
        ensures placed { P.place protocol.new ≡ P.place protocol.old }
        ensures creates { MayCreate (P.version_file (P.place protocol.old) 1) (S.state store.old) (S.state store.new) }
        ensures paged { (h : List T) (b : ℕ) → P.stands protocol.old store.old h b → P.pages protocol.new store.new ≤ P.pages protocol.old store.old + 1 }
    {
        let id = protocol.write(store, None, &value)?;
        Ok(SimpleTransactionalObject {
            id,
            object: value,
            invariants: Vec::new(alloc),
        })
    }

    /// Reads the newest version and is at it, without invariants, or nothing where none is stored. It spends turns as the read
    /// does.
    ///
    /// # Errors
    ///
    /// `TurnsExhausted` where a turn is due and none is left; `CallbackError`, `InvalidObjectState`, `ObjectStoreError` and
    /// `NoMemory` as of `try_read_latest`. No file is changed, also after an error.
    pub fn try_load<S: ObjectStore, P: TransactionalStorageProtocol<T, Id, S>>(
        alloc: Global,
        protocol: &mut P,
        store: &mut S,
        turns: &mut Turns,
    ) -> Result<Option<SimpleTransactionalObject<T, Id, I>>, TransactionalObjectError>
        ensures held { IfOk result (λ read. IfSome read (λ view. P.at_hand protocol.new (P.number view.id))) }
        ensures shown { IfOk result (λ read. MatchOption read (IsEmpty (P.stands protocol.old store.old)) (λ view. ShowsLatest (P.stands protocol.old store.old) (P.number view.id) view.object × (view.invariants.items ≡ []))) }
        ensures few { (h : List T) (b : ℕ) → P.stands protocol.old store.old h b → turns.old ≤ turns.new + 2 * P.pages protocol.old store.old }
        ensures enough { (h : List T) (b : ℕ) → P.stands protocol.old store.old h b → 2 * P.pages protocol.old store.old ≤ turns.old → IsErrOf result TransactionalObjectError.TurnsExhausted → ⊥ }
        ensures spends { SpendsTurns 7 0 0 turns.old turns.new (S.state store.old) (S.state store.new) }
        ensures cause { IfErr result (HasCauseOfLatest (Unheld (P.stands protocol.old store.old)) turns.new (S.state store.old) (S.state store.new)) }
        ensures left { LeavesAll (P.stands protocol.old store.old) (P.stands protocol.new store.new) (P.place protocol.old) (P.place protocol.new) (P.pages protocol.old store.old) (P.pages protocol.new store.new) (S.state store.old) (S.state store.new) }
    {
        match protocol.try_read_latest(store, turns)? {
            None => Ok(None),
            Some((id, object)) => Ok(Some(SimpleTransactionalObject {
                id,
                object,
                invariants: Vec::new(alloc),
            })),
        }
    }

    /// The same, where a version is stored.
    ///
    /// # Errors
    ///
    /// `LatestRecordMissing` where nothing is stored, and those of `try_load`. No file is changed, also after an error.
    pub fn load<S: ObjectStore, P: TransactionalStorageProtocol<T, Id, S>>(
        alloc: Global,
        protocol: &mut P,
        store: &mut S,
        turns: &mut Turns,
    ) -> Result<SimpleTransactionalObject<T, Id, I>, TransactionalObjectError>
        ensures held { IfOk result (λ view. P.at_hand protocol.new (P.number view.id)) }
        ensures shown { IfOk result (λ view. ShowsLatest (P.stands protocol.old store.old) (P.number view.id) view.object × (view.invariants.items ≡ [])) }
        ensures missing { IsErrOf result TransactionalObjectError.LatestRecordMissing → IsEmpty (P.stands protocol.old store.old) }
        ensures few { (h : List T) (b : ℕ) → P.stands protocol.old store.old h b → turns.old ≤ turns.new + 2 * P.pages protocol.old store.old }
        ensures enough { (h : List T) (b : ℕ) → P.stands protocol.old store.old h b → 2 * P.pages protocol.old store.old ≤ turns.old → IsErrOf result TransactionalObjectError.TurnsExhausted → ⊥ }
        ensures spends { SpendsTurns 7 0 0 turns.old turns.new (S.state store.old) (S.state store.new) }
        ensures cause { IfErr result (HasCauseOfLoad (Unheld (P.stands protocol.old store.old)) turns.new (S.state store.old) (S.state store.new)) }
        ensures left { LeavesAll (P.stands protocol.old store.old) (P.stands protocol.new store.new) (P.place protocol.old) (P.place protocol.new) (P.pages protocol.old store.old) (P.pages protocol.new store.new) (S.state store.old) (S.state store.new) }
    {
        match SimpleTransactionalObject::try_load(alloc, protocol, store, turns)? {
            Some(view) => Ok(view),
            None => Err(TransactionalObjectError::LatestRecordMissing),
        }
    }
}

impl<T, Id, I: Drop> SimpleTransactionalObject<T, Id, I> {
    /// The same with these invariants, in place of those that it had. It takes no memory.
    pub fn with_invariants(mut self, invariants: Vec<I>) -> SimpleTransactionalObject<T, Id, I>
        ensures { result ≡ record self { invariants = invariants } }
    {
        self.invariants = invariants;
        self
    }
}

impl<T: Clone, Id: Copy, I: Clone> SimpleTransactionalObject<T, Id, I> {
    /// A copy. It asks that a clone of a value, of an id and of an invariant is the same.
    ///
    /// # Errors
    ///
    /// `AllocError` where a growth was refused. The object is as it was, also after an answer.
    pub fn try_clone(&self) -> Result<SimpleTransactionalObject<T, Id, I>, AllocError>
        requires values { IsExactClone T.is_clone }
        requires invariants { IsExactClone I.is_clone }
        ensures { IfOk result (λ copy. (copy.id ≡ self.now.id) × (copy.object ≡ self.now.object) × (copy.invariants.items ≡ self.now.invariants.items)) }
    {
        Ok(SimpleTransactionalObject {
            id: self.id,
            object: self.object.clone()?,
            invariants: self.invariants.clone()?,
        })
    }
}

/// Tests the invariants in their order, up to the first that fails.
///
/// # Errors
///
/// The fault of the first that fails, which is a refusal, or want of memory.
pub fn test_all<T, I: Invariant<T>>(
    invariants: &[I],
    dirty: &T,
    current: &T,
) -> Result<(), CallbackFault>
    ensures tested { Tested (λ i. I.holds i dirty.now current.now) (λ i. I.fails i dirty.now current.now) invariants.now result }
    ensures refused { IfErr result (OnRefusal (All (λ i. I.holds i dirty.now current.now) invariants.now → ⊥)) }
{
    for invariant in invariants {
        invariant.test(dirty, current)?;
    }
    Ok(())
}

impl<T: Clone, Id: Copy + Eq, I: Invariant<T> + Drop> TransactionalObject<T, Id>
    for SimpleTransactionalObject<T, Id, I> {
    ghost use Rattle.std.specs.Prelude.{ℕ, List, refl, ◌≡◌, ◌⊎◌, All};

    ghost at = { λ v. v.id };

    ghost value = { λ v. v.object };

    ghost moved = { λ v id object. record v { id = id; object = object } };

    ghost allows = { λ v dirty. All (λ i. I.holds i dirty v.object) v.invariants.items };

    ghost is_open = { λ _. Unit {0} };

    ghost is_shut = { λ _ _. ⊥ };

    ghost refuses = { λ v dirty e. IsTestFailure (λ i. I.holds i dirty v.object) (λ i. I.fails i dirty v.object) v.invariants.items e };

    fn id(&self) -> Id {
        self.id
    }

    fn object(&self) -> &T {
        &self.object
    }

    fn prepare_dirty(&self) -> Result<DirtyObject<T, Id>, TransactionalObjectError> {
        let value = self.object.clone()?;
        Ok(DirtyObject { id: self.id, value })
    }

    fn refresh<S: ObjectStore, P: TransactionalStorageProtocol<T, Id, S>>(
        &mut self,
        protocol: &mut P,
        store: &mut S,
        turns: &mut Turns,
    ) -> Result<&T, TransactionalObjectError> {
        match protocol.try_read_latest(store, turns)? {
            Some((id, value)) => {
                self.id = id;
                self.object = value;
                Ok(&self.object)
            }
            None => Err(TransactionalObjectError::InvalidObjectState),
        }
    }

    fn update<S: ObjectStore, P: TransactionalStorageProtocol<T, Id, S>>(
        &mut self,
        protocol: &mut P,
        store: &mut S,
        dirty: DirtyObject<T, Id>,
    ) -> Result<(), TransactionalObjectError>
        ensures updated { OnOk result (Updated (P.stands protocol.old store.old) (P.stands protocol.new store.new) (P.number self.old.id) (P.number self.new.id) self.old.object dirty.value) }
        ensures moved { OnOk result ((self.new ≡ record self.old { id = self.new.id; object = dirty.value }) × (self.new.object ≡ dirty.value)) }
        ensures held { OnOk result ((h : List T) (b : ℕ) → P.stands protocol.old store.old h b → IsVersion h (P.number self.old.id) self.old.object → P.at_hand protocol.new (P.number self.new.id)) }
        ensures written { OnOk result (P.writes_to protocol.old store.old (Some self.old.id) dirty.value (Ok self.new.id) protocol.new store.new) }
        ensures allowed { OnOk result (All (λ i. I.holds i dirty.value self.old.object) self.old.invariants.items) }
        ensures left { OnErr result (self.new ≡ self.old) }
        ensures other { Id.eq dirty.id self.old.id ≡ false → IsErrOf result TransactionalObjectError.ObjectVersionExists × (protocol.new ≡ protocol.old) × (store.new ≡ store.old) }
        ensures refused { IfErr result (λ e. IsRefusal e → IsTestFailure (λ i. I.holds i dirty.value self.old.object) (λ i. I.fails i dirty.value self.old.object) self.old.invariants.items e → (protocol.new ≡ protocol.old) × (store.new ≡ store.old)) }
        ensures barred { (All (λ i. I.holds i dirty.value self.old.object) self.old.invariants.items → ⊥) → IsErr result × (protocol.new ≡ protocol.old) × (store.new ≡ store.old) }
        ensures answered { (All (λ i. I.holds i dirty.value self.old.object) self.old.invariants.items → ⊥) → Id.eq dirty.id self.old.id ≡ true → IfErr result (IsTestFailure (λ i. I.holds i dirty.value self.old.object) (λ i. I.fails i dirty.value self.old.object) self.old.invariants.items) }
        ensures conflict { IsErrOf result TransactionalObjectError.ObjectVersionExists → Id.eq dirty.id self.old.id ≡ true → Overtaken (P.stands protocol.old store.old) (P.stands protocol.new store.new) (P.number self.old.id) }
        ensures err { IfErr result (λ _. MayAppend (P.stands protocol.old store.old) (P.stands protocol.new store.new) (P.number self.old.id) dirty.value) }
        ensures cause { IfErr result (HasCauseOfUpdate (IsTestFailure (λ i. I.holds i dirty.value self.old.object) (λ i. I.fails i dirty.value self.old.object) self.old.invariants.items) (UnheldAt (P.stands protocol.old store.old) (P.number self.old.id)) (P.number self.old.id) (S.state store.old) (S.state store.new)) }
        ensures spends { Spends 2 1 (S.state store.old) (S.state store.new) }
        ensures paged { (h : List T) (b : ℕ) → P.stands protocol.old store.old h b → P.number self.old.id ≤ length h → P.pages protocol.new store.new ≤ P.pages protocol.old store.old + 1 }
        ensures placed { P.place protocol.new ≡ P.place protocol.old }
        ensures creates { MayCreate (P.version_file (P.place protocol.old) (P.number self.old.id + 1)) (S.state store.old) (S.state store.new) }
        ensures exhausted { IsErrOf result TransactionalObjectError.IdExhausted → (S.state store.new ≡ S.state store.old) × Stays (P.stands protocol.old store.old) (P.stands protocol.new store.new) }
    {
        if dirty.id != self.id {
            return Err(TransactionalObjectError::ObjectVersionExists);
        }
        test_all(self.invariants.as_slice(), &dirty.value, &self.object)?;
        let id = protocol.write(store, Some(self.id), &dirty.value)?;
        self.id = id;
        self.object = dirty.value;
        Ok(())
    }

    ghost moved_here = { λ _. refl };

    ghost moved_again = { λ _ _ _ _ _. refl };
}
