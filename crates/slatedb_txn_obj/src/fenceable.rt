//! The fenced holder: an object whose value has the holder's epoch.
ghost use Rattle.std.specs.Prelude.{ℕ, List, length, true, false, nat_eq, None, Some, Ok, ◌≡◌, ◌⊎◌, ◌+◌, ◌-◌, ◌*◌, ◌^◌, ◌<◌, ◌≤◌, [], ◌∷◌, ◌++◌, All, OnOk, OnErr, IfOk, IfErr, IsErr, IsErrOf};
ghost use Rattle.txn_store.specs.types.Clones.{IsExactClone};
ghost use Rattle.txn_store.specs.types.Epochs.{IsEpochError, NextEpoch, HasNoEpoch};
ghost use Rattle.txn_store.specs.declared.types.error.TransactionalObjectError.{TransactionalObjectError};
ghost use Rattle.txn_steps_driven.specs.Calls.{Spends, SpendsTurns};
ghost use Rattle.slatedb_txn_obj.specs.Claims.{IsUnlike, ReadsOne, HasCauseOfAttempt, IsUnwritten, MayClaim, ClaimEnds};
ghost use Rattle.slatedb_txn_obj.specs.Leaves.{MayCreate};
ghost use Rattle.slatedb_txn_obj.specs.Protocol.{Overtaken, MayAppend, Stays, UnheldAt};
ghost use Rattle.slatedb_txn_obj.specs.Views.{IsRefusal, IsVersion, Updated, IsTestFailure, HasCauseOfUpdate};

use crate::clock::{Deadline, SystemClock};
use crate::object::TransactionalObject;
use crate::protocol::TransactionalStorageProtocol;
use crate::simple::SimpleTransactionalObject;
use txn_steps_driven::turns::Turns;
use txn_store::store::ObjectStore;
use txn_store::types::dirty::DirtyObject;
use txn_store::types::epoch::{EpochField, next_epoch, test_epoch};
use txn_store::types::error::TransactionalObjectError;
use txn_store::types::id::MonotonicId;
use txn_store::types::invariant::Invariant;

/// An object that its holder has claimed: the epoch of each version that it writes is its own, and a greater one shuts it out.
#[derive(Debug, Drop)]
pub struct FenceableTransactionalObject<T, I, X> {
    delegate: SimpleTransactionalObject<T, MonotonicId, I>,
    local_epoch: u64,
    epochs: X,
}

impl<T, I, X> FenceableTransactionalObject<T, I, X> {
    /// The epoch of its claim.
    pub fn local_epoch(&self) -> u64
        ensures { result ≡ self.now.local_epoch }
    {
        self.local_epoch
    }
}

impl<T: Clone, I: Invariant<T> + Drop, X: EpochField<T>> FenceableTransactionalObject<T, I, X> {
    /// Claims the object: its newest version with the next epoch in it is written straight on it, and the holder is at that. An
    /// attempt that is overtaken refreshes, and makes another. Each attempt spends a turn, and so does each pass of a refresh
    /// and each page after a pass's first. The clock is read at the start and before each update and each refresh; the timeout
    /// is in milliseconds. It asks that a clone is the same value.
    ///
    /// # Errors
    ///
    /// - `ObjectUpdateTimeout` where the clock reads the start plus the timeout or later; `TurnsExhausted` where a turn is due
    ///   and none is left.
    /// - `IdExhausted` where the epoch or the version's id is the greatest.
    /// - `CallbackError` where an invariant fails, which writes nothing, and where the codec refuses what is stored, where
    ///   nothing stood.
    /// - `InvalidObjectState` where the boundary file says no number, `ObjectStoreError` with the store's own error, `NoMemory`
    ///   where a growth was refused.
    ///
    /// Each drops the delegate. After an error of a write its value may have been written.
    pub fn init<S: ObjectStore, P: TransactionalStorageProtocol<T, MonotonicId, S>, K: SystemClock>(
        delegate: SimpleTransactionalObject<T, MonotonicId, I>,
        protocol: &mut P,
        store: &mut S,
        turns: &mut Turns,
        object_update_timeout: u64,
        system_clock: &mut K,
        epochs: X,
    ) -> Result<FenceableTransactionalObject<T, I, X>, TransactionalObjectError>
        requires { IsExactClone T.is_clone }
        ensures { ClaimEnds X.epoch_of X.with_epoch I.holds I.fails P.number epochs delegate (P.stands protocol.old store.old) (P.stands protocol.new store.new) (P.owns (P.place protocol.old)) (P.place protocol.old) (P.place protocol.new) None object_update_timeout (P.pages protocol.old store.old) (P.pages protocol.new store.new) turns.old turns.new (S.state store.old) (S.state store.new) (K.readings system_clock.old) (K.readings system_clock.new) result }
    {
        claim(
            delegate,
            protocol,
            store,
            turns,
            object_update_timeout,
            system_clock,
            epochs,
            None,
        )
    }

    /// The same with this epoch in place of the next one.
    ///
    /// # Errors
    ///
    /// `Fenced` where the epoch of the version that an attempt is made on isn't below this one: that attempt writes nothing.
    /// The others are those of `init`, and leave the same.
    pub fn init_with_epoch<
        S: ObjectStore,
        P: TransactionalStorageProtocol<T, MonotonicId, S>,
        K: SystemClock,
    >(
        delegate: SimpleTransactionalObject<T, MonotonicId, I>,
        protocol: &mut P,
        store: &mut S,
        turns: &mut Turns,
        object_update_timeout: u64,
        system_clock: &mut K,
        epoch: u64,
        epochs: X,
    ) -> Result<FenceableTransactionalObject<T, I, X>, TransactionalObjectError>
        requires { IsExactClone T.is_clone }
        ensures { ClaimEnds X.epoch_of X.with_epoch I.holds I.fails P.number epochs delegate (P.stands protocol.old store.old) (P.stands protocol.new store.new) (P.owns (P.place protocol.old)) (P.place protocol.old) (P.place protocol.new) (Some epoch) object_update_timeout (P.pages protocol.old store.old) (P.pages protocol.new store.new) turns.old turns.new (S.state store.old) (S.state store.new) (K.readings system_clock.old) (K.readings system_clock.new) result }
    {
        claim(
            delegate,
            protocol,
            store,
            turns,
            object_update_timeout,
            system_clock,
            epochs,
            Some(epoch),
        )
    }

    /// Whether the epoch of its version is its own: a greater one is `Fenced`, and a smaller one `InvalidObjectState`.
    fn check_epoch(&self) -> Result<(), TransactionalObjectError>
        ensures own { OnOk result (X.epoch_of self.now.epochs self.now.delegate.object ≡ self.now.local_epoch) }
        ensures other { IfErr result (IsEpochError self.now.local_epoch (X.epoch_of self.now.epochs self.now.delegate.object)) }
    {
        let stored_epoch = self.epochs.get_epoch(self.delegate.object());
        test_epoch(self.local_epoch, stored_epoch)?;
        Ok(())
    }
}

/// One attempt of a claim: sets the next epoch in a copy of the value, and updates by it where time is left.
fn attempt<
    T: Clone,
    I: Invariant<T> + Drop,
    X: EpochField<T>,
    S: ObjectStore,
    P: TransactionalStorageProtocol<T, MonotonicId, S>,
    K: SystemClock,
>(
    view: &mut SimpleTransactionalObject<T, MonotonicId, I>,
    protocol: &mut P,
    store: &mut S,
    deadline: &Deadline,
    clock: &mut K,
    epochs: &X,
    asked: Option<u64>,
) -> Result<u64, TransactionalObjectError>
    requires { IsExactClone T.is_clone }
    ensures next { IfOk result (NextEpoch asked (X.epoch_of epochs.now view.old.object)) }
    ensures moved { IfOk result (λ e. (view.new ≡ record view.old { id = view.new.id; object = X.with_epoch epochs.now view.old.object e }) × (X.epoch_of epochs.now view.new.object ≡ e)) }
    ensures updated { IfOk result (λ e. Updated (P.stands protocol.old store.old) (P.stands protocol.new store.new) (P.number view.old.id) (P.number view.new.id) view.old.object (X.with_epoch epochs.now view.old.object e)) }
    ensures allowed { IfOk result (λ e. All (λ i. I.holds i (X.with_epoch epochs.now view.old.object e) view.old.object) view.old.invariants.items) }
    ensures left { OnErr result (view.new ≡ view.old) }
    ensures conflict { IsErrOf result TransactionalObjectError.ObjectVersionExists → Overtaken (P.stands protocol.old store.old) (P.stands protocol.new store.new) (P.number view.old.id) }
    ensures err { IfErr result (λ _. MayClaim (λ v. X.epoch_of epochs.now v) (λ v e. X.with_epoch epochs.now v e) (P.stands protocol.old store.old) (P.stands protocol.new store.new) (P.number view.old.id) view.old.object asked) }
    ensures in_time { OnOk result (ReadsOne (λ r. r - deadline.now.start < deadline.now.timeout) (K.readings clock.old) (K.readings clock.new)) }
    ensures conflict_in_time { IsErrOf result TransactionalObjectError.ObjectVersionExists → ReadsOne (λ r. r - deadline.now.start < deadline.now.timeout) (K.readings clock.old) (K.readings clock.new) }
    ensures cause { IfErr result (HasCauseOfAttempt asked (X.epoch_of epochs.now view.old.object) deadline.now.timeout (P.number view.old.id) (ReadsOne (λ r. deadline.now.timeout ≤ r - deadline.now.start) (K.readings clock.old) (K.readings clock.new)) (λ error. (e : ℕ) × NextEpoch asked (X.epoch_of epochs.now view.old.object) e × IsTestFailure (λ i. I.holds i (X.with_epoch epochs.now view.old.object e) view.old.object) (λ i. I.fails i (X.with_epoch epochs.now view.old.object e) view.old.object) view.old.invariants.items error) (UnheldAt (P.stands protocol.old store.old) (P.number view.old.id)) (S.state store.old) (S.state store.new)) }
    ensures spends { Spends 2 1 (S.state store.old) (S.state store.new) }
    ensures paged { (h : List T) (b : ℕ) → P.stands protocol.old store.old h b → P.number view.old.id ≤ length h → P.pages protocol.new store.new ≤ P.pages protocol.old store.old + 1 }
    ensures placed { P.place protocol.new ≡ P.place protocol.old }
    ensures creates { MayCreate (P.version_file (P.place protocol.old) (P.number view.old.id + 1)) (S.state store.old) (S.state store.new) }
    ensures blocked { (e : TransactionalObjectError) → HasNoEpoch asked (X.epoch_of epochs.now view.old.object) e → IsErrOf result e × (S.state store.new ≡ S.state store.old) }
    ensures unwritten { IfErr result (λ e. IsUnwritten e → (S.state store.new ≡ S.state store.old) × Stays (P.stands protocol.old store.old) (P.stands protocol.new store.new)) }
    ensures barred { (e : ℕ) → NextEpoch asked (X.epoch_of epochs.now view.old.object) e → (All (λ i. I.holds i (X.with_epoch epochs.now view.old.object e) view.old.object) view.old.invariants.items → ⊥) → IsErr result × (S.state store.new ≡ S.state store.old) × (IsErrOf result TransactionalObjectError.ObjectVersionExists → ⊥) }
{
    let epoch = next_epoch(asked, epochs.get_epoch(view.object()))?;
    let mut dirty = view.prepare_dirty()?;
    epochs.set_epoch(&mut dirty.value, epoch);
    deadline.check(clock)?;
    view.update(protocol, store, dirty)?;
    Ok(epoch)
}

/// A claim: attempts, each on the newest version after a conflict, until one is no conflict.
fn claim<
    T: Clone,
    I: Invariant<T> + Drop,
    X: EpochField<T>,
    S: ObjectStore,
    P: TransactionalStorageProtocol<T, MonotonicId, S>,
    K: SystemClock,
>(
    mut view: SimpleTransactionalObject<T, MonotonicId, I>,
    protocol: &mut P,
    store: &mut S,
    turns: &mut Turns,
    timeout: u64,
    clock: &mut K,
    epochs: X,
    asked: Option<u64>,
) -> Result<FenceableTransactionalObject<T, I, X>, TransactionalObjectError>
    requires { IsExactClone T.is_clone }
    ensures { ClaimEnds X.epoch_of X.with_epoch I.holds I.fails P.number epochs view (P.stands protocol.old store.old) (P.stands protocol.new store.new) (P.owns (P.place protocol.old)) (P.place protocol.old) (P.place protocol.new) asked timeout (P.pages protocol.old store.old) (P.pages protocol.new store.new) turns.old turns.new (S.state store.old) (S.state store.new) (K.readings clock.old) (K.readings clock.new) result }
{
    let deadline = Deadline::starting(clock, timeout);
    while turns.spend() {
        match attempt(&mut view, protocol, store, &deadline, clock, &epochs, asked) {
            Err(error) if error.is_sequenced_write_conflict() => {
                deadline.check(clock)?;
                view.refresh(protocol, store, turns)?;
            }
            Err(error) => return Err(error),
            Ok(local_epoch) => return Ok(FenceableTransactionalObject {
                delegate: view,
                local_epoch,
                epochs,
            }),
        }
    }
    Err(TransactionalObjectError::TurnsExhausted)
}

impl<T: Clone, I: Invariant<T> + Drop, X: EpochField<T>> TransactionalObject<T, MonotonicId>
    for FenceableTransactionalObject<T, I, X> {
    ghost use Rattle.std.specs.Prelude.{refl, ◌≡◌, ◌⊎◌, All};
    ghost use Rattle.txn_store.specs.types.Epochs.{IsEpochError};
    ghost use Rattle.slatedb_txn_obj.specs.Claims.{IsUnlike};
    ghost use Rattle.slatedb_txn_obj.specs.Views.{IsTestFailure};

    ghost at = { λ v. v.delegate.id };

    ghost value = { λ v. v.delegate.object };

    ghost moved = { λ v id object. record v { delegate = record v.delegate { id = id; object = object } } };

    ghost allows = { λ v dirty. (X.epoch_of v.epochs v.delegate.object ≡ v.local_epoch) × (X.epoch_of v.epochs dirty ≡ v.local_epoch) × All (λ i. I.holds i dirty v.delegate.object) v.delegate.invariants.items };

    ghost is_open = { λ v. X.epoch_of v.epochs v.delegate.object ≡ v.local_epoch };

    ghost is_shut = { λ v e. IsEpochError v.local_epoch (X.epoch_of v.epochs v.delegate.object) e };

    ghost refuses = { λ v dirty e. IsEpochError v.local_epoch (X.epoch_of v.epochs v.delegate.object) e ⊎ (IsUnlike v.local_epoch (X.epoch_of v.epochs dirty) e ⊎ IsTestFailure (λ i. I.holds i dirty v.delegate.object) (λ i. I.fails i dirty v.delegate.object) v.delegate.invariants.items e) };

    fn id(&self) -> MonotonicId {
        self.delegate.id()
    }

    fn object(&self) -> &T {
        self.delegate.object()
    }

    /// Where its version has a greater epoch than the holder's it is `Fenced`, and where a smaller one `InvalidObjectState`.
    fn prepare_dirty(&self) -> Result<DirtyObject<T, MonotonicId>, TransactionalObjectError> {
        self.check_epoch()?;
        self.delegate.prepare_dirty()
    }

    /// The version that it read shuts it out where its epoch is greater than the holder's, which is `Fenced`, or smaller, which
    /// is `InvalidObjectState`; the holder is at it then, with the epoch that it has claimed.
    fn refresh<S: ObjectStore, P: TransactionalStorageProtocol<T, MonotonicId, S>>(
        &mut self,
        protocol: &mut P,
        store: &mut S,
        turns: &mut Turns,
    ) -> Result<&T, TransactionalObjectError> {
        self.delegate.refresh(protocol, store, turns)?;
        self.check_epoch()?;
        Ok(self.delegate.object())
    }

    /// Where its version has a greater epoch than the holder's it is `Fenced`, and where a smaller one `InvalidObjectState`. A
    /// candidate with another epoch than the holder's is `InvalidObjectState`. Nothing is written then.
    fn update<S: ObjectStore, P: TransactionalStorageProtocol<T, MonotonicId, S>>(
        &mut self,
        protocol: &mut P,
        store: &mut S,
        dirty: DirtyObject<T, MonotonicId>,
    ) -> Result<(), TransactionalObjectError>
        ensures updated { OnOk result (Updated (P.stands protocol.old store.old) (P.stands protocol.new store.new) (P.number self.old.delegate.id) (P.number self.new.delegate.id) self.old.delegate.object dirty.value) }
        ensures moved { OnOk result ((self.new ≡ record self.old { delegate = record self.old.delegate { id = self.new.delegate.id; object = dirty.value } }) × (self.new.delegate.object ≡ dirty.value)) }
        ensures held { OnOk result ((h : List T) (b : ℕ) → P.stands protocol.old store.old h b → IsVersion h (P.number self.old.delegate.id) self.old.delegate.object → P.at_hand protocol.new (P.number self.new.delegate.id)) }
        ensures written { OnOk result (P.writes_to protocol.old store.old (Some self.old.delegate.id) dirty.value (Ok self.new.delegate.id) protocol.new store.new) }
        ensures allowed { OnOk result ((X.epoch_of self.old.epochs self.old.delegate.object ≡ self.old.local_epoch) × (X.epoch_of self.old.epochs dirty.value ≡ self.old.local_epoch) × All (λ i. I.holds i dirty.value self.old.delegate.object) self.old.delegate.invariants.items) }
        ensures left { OnErr result (self.new ≡ self.old) }
        ensures shut { (X.epoch_of self.old.epochs self.old.delegate.object ≡ self.old.local_epoch → ⊥) → IfErr result (IsEpochError self.old.local_epoch (X.epoch_of self.old.epochs self.old.delegate.object)) × IsErr result × (protocol.new ≡ protocol.old) × (store.new ≡ store.old) }
        ensures unlike { X.epoch_of self.old.epochs self.old.delegate.object ≡ self.old.local_epoch → (X.epoch_of self.old.epochs dirty.value ≡ self.old.local_epoch → ⊥) → IsErrOf result TransactionalObjectError.InvalidObjectState × (protocol.new ≡ protocol.old) × (store.new ≡ store.old) }
        ensures refused { IfErr result (λ e. IsRefusal e → IsEpochError self.old.local_epoch (X.epoch_of self.old.epochs self.old.delegate.object) e ⊎ (IsUnlike self.old.local_epoch (X.epoch_of self.old.epochs dirty.value) e ⊎ IsTestFailure (λ i. I.holds i dirty.value self.old.delegate.object) (λ i. I.fails i dirty.value self.old.delegate.object) self.old.delegate.invariants.items e) → (protocol.new ≡ protocol.old) × (store.new ≡ store.old)) }
        ensures other { nat_eq dirty.id self.old.delegate.id ≡ false → IsErr result × (protocol.new ≡ protocol.old) × (store.new ≡ store.old) }
        ensures unequal { X.epoch_of self.old.epochs self.old.delegate.object ≡ self.old.local_epoch → X.epoch_of self.old.epochs dirty.value ≡ self.old.local_epoch → nat_eq dirty.id self.old.delegate.id ≡ false → IsErrOf result TransactionalObjectError.ObjectVersionExists }
        ensures barred { ((X.epoch_of self.old.epochs self.old.delegate.object ≡ self.old.local_epoch) × (X.epoch_of self.old.epochs dirty.value ≡ self.old.local_epoch) × All (λ i. I.holds i dirty.value self.old.delegate.object) self.old.delegate.invariants.items → ⊥) → IsErr result × (protocol.new ≡ protocol.old) × (store.new ≡ store.old) }
        ensures answered { ((X.epoch_of self.old.epochs self.old.delegate.object ≡ self.old.local_epoch) × (X.epoch_of self.old.epochs dirty.value ≡ self.old.local_epoch) × All (λ i. I.holds i dirty.value self.old.delegate.object) self.old.delegate.invariants.items → ⊥) → nat_eq dirty.id self.old.delegate.id ≡ true → IfErr result (λ e. IsEpochError self.old.local_epoch (X.epoch_of self.old.epochs self.old.delegate.object) e ⊎ (IsUnlike self.old.local_epoch (X.epoch_of self.old.epochs dirty.value) e ⊎ IsTestFailure (λ i. I.holds i dirty.value self.old.delegate.object) (λ i. I.fails i dirty.value self.old.delegate.object) self.old.delegate.invariants.items e)) }
        ensures conflict { IsErrOf result TransactionalObjectError.ObjectVersionExists → nat_eq dirty.id self.old.delegate.id ≡ true → Overtaken (P.stands protocol.old store.old) (P.stands protocol.new store.new) (P.number self.old.delegate.id) }
        ensures err { IfErr result (λ _. MayAppend (P.stands protocol.old store.old) (P.stands protocol.new store.new) (P.number self.old.delegate.id) dirty.value) }
        ensures cause { IfErr result (HasCauseOfUpdate (λ e. IsEpochError self.old.local_epoch (X.epoch_of self.old.epochs self.old.delegate.object) e ⊎ (IsUnlike self.old.local_epoch (X.epoch_of self.old.epochs dirty.value) e ⊎ IsTestFailure (λ i. I.holds i dirty.value self.old.delegate.object) (λ i. I.fails i dirty.value self.old.delegate.object) self.old.delegate.invariants.items e)) (UnheldAt (P.stands protocol.old store.old) (P.number self.old.delegate.id)) (P.number self.old.delegate.id) (S.state store.old) (S.state store.new)) }
        ensures spends { Spends 2 1 (S.state store.old) (S.state store.new) }
        ensures paged { (h : List T) (b : ℕ) → P.stands protocol.old store.old h b → P.number self.old.delegate.id ≤ length h → P.pages protocol.new store.new ≤ P.pages protocol.old store.old + 1 }
        ensures placed { P.place protocol.new ≡ P.place protocol.old }
        ensures creates { MayCreate (P.version_file (P.place protocol.old) (P.number self.old.delegate.id + 1)) (S.state store.old) (S.state store.new) }
        ensures exhausted { IsErrOf result TransactionalObjectError.IdExhausted → (S.state store.new ≡ S.state store.old) × Stays (P.stands protocol.old store.old) (P.stands protocol.new store.new) }
    {
        self.check_epoch()?;
        if self.epochs.get_epoch(&dirty.value) != self.local_epoch {
            return Err(TransactionalObjectError::InvalidObjectState);
        }
        self.delegate.update(protocol, store, dirty)
    }

    ghost moved_here = { λ _. refl };

    ghost moved_again = { λ _ _ _ _ _. refl };
}
