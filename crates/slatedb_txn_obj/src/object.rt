//! Objects that hold a version of a value, and write their next.
ghost use Rattle.std.specs.Prelude.{true, false, ◌≡◌, ◌⊎◌, ◌+◌, ◌-◌, ◌*◌, ◌^◌, ◌≤◌, IfOk, IfErr, OnOk, OnErr, IsErrOf};

use crate::protocol::TransactionalStorageProtocol;
use txn_steps_driven::turns::Turns;
use txn_store::store::ObjectStore;
use txn_store::types::callback::CallbackFault;
use txn_store::types::dirty::DirtyObject;
use txn_store::types::error::TransactionalObjectError;

/// A version of a value with its id, which its holder updates where it is the newest, and refreshes where it isn't.
///
/// It holds no protocol and no store: each call is lent them. Where they stand for a history that has the object's value
/// under its id, they stand afterwards for one that has the new value under the new id.
pub trait TransactionalObject<T: Clone, Id: Copy + Eq> {
    ghost use Rattle.std.specs.Prelude.{ℕ, List, length, true, false, ⊤, ◌≡◌, ◌⊎◌, ◌+◌, ◌-◌, ◌*◌, ◌^◌, ◌≤◌, Some, Ok, IfOk, IfErr, OnOk, OnErr, IsErr, IsErrOf, MatchResult};
    ghost use Rattle.std.specs.Borrow.{sem};
    ghost use Rattle.std.specs.Fn.{FnReturnsAt};
    ghost use denote.Follow.{follows_so};
    ghost use mathlib.Core.Option.{none};
    ghost use Rattle.txn_store.specs.types.Clones.{IsExactClone};
    ghost use Rattle.txn_store.specs.declared.types.error.TransactionalObjectError.{TransactionalObjectError};
    ghost use Rattle.txn_steps_driven.specs.Calls.{Spends, SpendsTurns};
    ghost use Rattle.txn_steps_driven.specs.LatestReads.{IsLatest};
    ghost use Rattle.slatedb_txn_obj.specs.Leaves.{SameFiles, MayCreate, LeavesOthers};
    ghost use Rattle.slatedb_txn_obj.specs.Protocol.{Overtaken, MayAppend, Stays, UnheldAt};
    ghost use Rattle.slatedb_txn_obj.specs.Views.{IsRefusal, IsVersion, Updated, ShowsLatest, IsShutting, HasCauseOfUpdate, HasCauseOfRefresh, Applied, NotApplied, DecidedBy, KeepsIds, Stopped, HasCauseOfApply};

    /// The id that the object is at.
    ghost at: { Self → Id };

    /// The value there.
    ghost value: { Self → T };

    /// The object at another version.
    ghost moved: { Self → Id → T → Self };

    /// The object may be followed by this value.
    ghost allows: { Self → T → Type 0 };

    /// Its holder may write on it.
    ghost is_open: { Self → Type 0 };

    /// Why it is shut, where its holder may not.
    ghost is_shut: { Self → TransactionalObjectError → Type 0 };

    /// Why an update by this value is refused before anything is written.
    ghost refuses: { Self → T → TransactionalObjectError → Type 0 };

    /// The id that the object is at.
    fn id(&self) -> Id
        ensures { result ≡ at self.now };

    /// The value of the object.
    fn object(&self) -> &T
        ensures { result.now ≡ value self.now };

    /// A copy of the value, with its id, to be changed and given to `update`. It asks that a clone is the same value.
    ///
    /// # Errors
    ///
    /// They leave the object as it was: the error that shuts it, where it is shut, as `Fenced`; `NoMemory`, of an open one,
    /// where a growth was refused.
    fn prepare_dirty(&self) -> Result<DirtyObject<T, Id>, TransactionalObjectError>
        requires { IsExactClone T.is_clone }
        ensures dirty { IfOk result (λ dirty. (dirty.id ≡ at self.now) × (dirty.value ≡ value self.now) × is_open self.now) }
        ensures err { IfErr result (λ e. (e ≡ TransactionalObjectError.NoMemory) ⊎ is_shut self.now e) }
        ensures shut { (is_open self.now → ⊥) → IfErr result (is_shut self.now) × IsErr result };

    /// Reads the newest version, and is at it then. Each pass of the read spends a turn, and so does each page after the first
    /// that it lists. It changes no file.
    ///
    /// # Errors
    ///
    /// - The error that shuts it, as `Fenced`, where the version that it read does. The object is at that version.
    /// - `TurnsExhausted` where a turn is due and none is left.
    /// - `InvalidObjectState` where nothing is stored, or the boundary file says no number.
    /// - `CallbackError` where the codec refuses what is stored, `ObjectStoreError` with the store's own error, `NoMemory`
    ///   where a growth was refused.
    ///
    /// After all but the first the object is as it was.
    fn refresh<S: ObjectStore, P: TransactionalStorageProtocol<T, Id, S>>(
        &mut self,
        protocol: &mut P,
        store: &mut S,
        turns: &mut Turns,
    ) -> Result<&T, TransactionalObjectError>
        ensures held { OnOk result ((h : List T) (b : ℕ) → P.stands protocol.old store.old h b → P.at_hand protocol.new (length h)) }
        ensures* after { sem 𝓛 (follows_so Self.row Self.row self.entry.ghost_name none (λ _ _. ⊤) (λ object. MatchResult result
            (λ shown. (shown.now ≡ value object) × (object ≡ moved self.old (at object) (value object)) × ShowsLatest (P.stands protocol.old store.old) (P.number (at object)) (value object) × is_open object)
            (λ e. ((object ≡ self.old) × HasCauseOfRefresh (P.stands protocol.old store.old) turns.new (S.state store.old) (S.state store.new) e)
            ⊎ (IsShutting e × is_shut object e × (object ≡ moved self.old (at object) (value object)) × ShowsLatest (P.stands protocol.old store.old) (P.number (at object)) (value object))))) }
        ensures kept { Stays (P.stands protocol.old store.old) (P.stands protocol.new store.new) }
        ensures few { (h : List T) (b : ℕ) → P.stands protocol.old store.old h b → turns.old ≤ turns.new + 2 * P.pages protocol.old store.old }
        ensures enough { (h : List T) (b : ℕ) → P.stands protocol.old store.old h b → 2 * P.pages protocol.old store.old ≤ turns.old → IsErrOf result TransactionalObjectError.TurnsExhausted → ⊥ }
        ensures spends { SpendsTurns 7 0 0 turns.old turns.new (S.state store.old) (S.state store.new) }
        ensures paged { (h : List T) (b : ℕ) → P.stands protocol.old store.old h b → P.pages protocol.new store.new ≡ P.pages protocol.old store.old }
        ensures placed { P.place protocol.new ≡ P.place protocol.old }
        ensures files { SameFiles (S.state store.old) (S.state store.new) };

    /// Writes the candidate's value on the version that the object is at, and is at the new version then. It makes at most two
    /// calls of the store, takes at most one token, and creates at most the file of the version above that which the object is
    /// at.
    ///
    /// # Errors
    ///
    /// - The error by which the object refuses the candidate, as `CallbackError` of an invariant that fails. Nothing is
    ///   written.
    /// - `ObjectVersionExists` for a candidate of another id, unless the object refuses it for an epoch first, which writes
    ///   nothing; and where the version that the object is at isn't the newest.
    /// - `IdExhausted` where that version has the greatest id. Nothing is written.
    /// - `InvalidObjectState` where the boundary file says no number, `ObjectStoreError` with the store's own error, `NoMemory`
    ///   where a growth was refused. The value may have been written.
    ///
    /// After each the object is as it was.
    fn update<S: ObjectStore, P: TransactionalStorageProtocol<T, Id, S>>(
        &mut self,
        protocol: &mut P,
        store: &mut S,
        dirty: DirtyObject<T, Id>,
    ) -> Result<(), TransactionalObjectError>
        ensures updated { OnOk result (Updated (P.stands protocol.old store.old) (P.stands protocol.new store.new) (P.number (at self.old)) (P.number (at self.new)) (value self.old) dirty.value) }
        ensures moved { OnOk result ((self.new ≡ moved self.old (at self.new) dirty.value) × (value self.new ≡ dirty.value)) }
        ensures held { OnOk result ((h : List T) (b : ℕ) → P.stands protocol.old store.old h b → IsVersion h (P.number (at self.old)) (value self.old) → P.at_hand protocol.new (P.number (at self.new))) }
        ensures written { OnOk result (P.writes_to protocol.old store.old (Some (at self.old)) dirty.value (Ok (at self.new)) protocol.new store.new) }
        ensures allowed { OnOk result (allows self.old dirty.value) }
        ensures left { OnErr result (self.new ≡ self.old) }
        ensures other { Id.eq dirty.id (at self.old) ≡ false → IsErr result × (protocol.new ≡ protocol.old) × (store.new ≡ store.old) }
        ensures barred { (allows self.old dirty.value → ⊥) → IsErr result × (protocol.new ≡ protocol.old) × (store.new ≡ store.old) }
        ensures answered { (allows self.old dirty.value → ⊥) → Id.eq dirty.id (at self.old) ≡ true → IfErr result (refuses self.old dirty.value) }
        ensures refused { IfErr result (λ e. IsRefusal e → refuses self.old dirty.value e → (protocol.new ≡ protocol.old) × (store.new ≡ store.old)) }
        ensures conflict { IsErrOf result TransactionalObjectError.ObjectVersionExists → Id.eq dirty.id (at self.old) ≡ true → Overtaken (P.stands protocol.old store.old) (P.stands protocol.new store.new) (P.number (at self.old)) }
        ensures err { IfErr result (λ _. MayAppend (P.stands protocol.old store.old) (P.stands protocol.new store.new) (P.number (at self.old)) dirty.value) }
        ensures cause { IfErr result (HasCauseOfUpdate (refuses self.old dirty.value) (UnheldAt (P.stands protocol.old store.old) (P.number (at self.old))) (P.number (at self.old)) (S.state store.old) (S.state store.new)) }
        ensures spends { Spends 2 1 (S.state store.old) (S.state store.new) }
        ensures paged { (h : List T) (b : ℕ) → P.stands protocol.old store.old h b → P.number (at self.old) ≤ length h → P.pages protocol.new store.new ≤ P.pages protocol.old store.old + 1 }
        ensures placed { P.place protocol.new ≡ P.place protocol.old }
        ensures creates { MayCreate (P.version_file (P.place protocol.old) (P.number (at self.old) + 1)) (S.state store.old) (S.state store.new) }
        ensures exhausted { IsErrOf result TransactionalObjectError.IdExhausted → (S.state store.new ≡ S.state store.old) × Stays (P.stands protocol.old store.old) (P.stands protocol.new store.new) };

    /// Asks the mutator for a candidate made of the object, and updates by it. After a conflict it refreshes, and asks once
    /// more. Nothing asked for is Ok. Each attempt spends a turn, and so does each pass of a refresh and each page after a
    /// pass's first.
    ///
    /// # Errors
    ///
    /// - The mutator's refusal, as `CallbackError` or `NoMemory`. Its candidate is not written.
    /// - `TurnsExhausted` where a turn is due and none is left.
    /// - Those of `update` but for a conflict, and those of `refresh`. After `ObjectStoreError` and `NoMemory` the last
    ///   candidate may have been written, and after a boundary file that says no number, which is `InvalidObjectState`.
    ///
    /// Each was met at the version that the object is at then: the one that it was at, or the newest, which a refresh read.
    final fn maybe_apply_update<
        S: ObjectStore,
        P: TransactionalStorageProtocol<T, Id, S>,
        F: Fn(&Self) -> Result<Option<DirtyObject<T, Id>>, CallbackFault>,
    >(
        &mut self,
        protocol: &mut P,
        store: &mut S,
        turns: &mut Turns,
        mutator: &F,
    ) -> Result<(), TransactionalObjectError>
        requires { F.IsAlwaysCallable mutator.now }
        ensures applied { OnOk result ((h : List T) (b : ℕ) → P.stands protocol.old store.old h b → IsVersion h (P.number (at self.old)) (value self.old)
            → Applied (λ v r. FnReturnsAt F.Fn mutator.now v r) (λ v. P.number (at v)) value self.old (λ v. v ≡ moved self.old (at v) (value v)) allows h b (P.stands protocol.new store.new) self.new) }
        ensures failed { IfErr result (λ e. (h : List T) (b : ℕ) → P.stands protocol.old store.old h b → IsVersion h (P.number (at self.old)) (value self.old)
            → NotApplied (λ v r. FnReturnsAt F.Fn mutator.now v r) (λ v. P.number (at v)) value is_shut h b (P.stands protocol.new store.new) self.new e) }
        ensures first { 1 ≤ turns.old → (answer : _) × FnReturnsAt F.Fn mutator.now self.old answer × DecidedBy answer ((self.new ≡ self.old) × (protocol.new ≡ protocol.old) × (store.new ≡ store.old) × (turns.old ≡ turns.new + 1)) result }
        ensures spends { SpendsTurns 7 0 (turns.old - turns.new) turns.old turns.new (S.state store.old) (S.state store.new) }
        ensures few { (h : List T) (b : ℕ) → P.stands protocol.old store.old h b → IsVersion h (P.number (at self.old)) (value self.old)
            → KeepsIds (λ v r. FnReturnsAt F.Fn mutator.now v r) (λ v. P.number (at v)) value at Id.eq
            → (turns.old ≤ turns.new + 4 + 2 * P.pages protocol.old store.old) × ((S.state store.old).left ≤ (S.state store.new).left + 2) }
        ensures enough { (h : List T) (b : ℕ) → P.stands protocol.old store.old h b → IsVersion h (P.number (at self.old)) (value self.old)
            → KeepsIds (λ v r. FnReturnsAt F.Fn mutator.now v r) (λ v. P.number (at v)) value at Id.eq
            → 4 + 2 * P.pages protocol.old store.old ≤ turns.old → IsErrOf result TransactionalObjectError.TurnsExhausted → ⊥ }
        ensures cause { IfErr result (HasCauseOfApply (Stopped (λ v r. FnReturnsAt F.Fn mutator.now v r) is_shut refuses self.new) (P.number (at self.new) + 1 ≡ 2 ^ 64) ((h : List T) (b : ℕ) → P.stands protocol.old store.old h b → IsVersion h (P.number (at self.old)) (value self.old) → ⊥) turns.new (S.state store.old) (S.state store.new)) }
        ensures same_object { self.new ≡ moved self.old (at self.new) (value self.new) }
        ensures met { IfErr result (λ _. (self.new ≡ self.old) ⊎ ((h : List T) (b : ℕ) → P.stands protocol.old store.old h b → IsVersion h (P.number (at self.old)) (value self.old) → IsLatest h (P.number (at self.new)) (value self.new))) }
        ensures paged { (h : List T) (b : ℕ) → P.stands protocol.old store.old h b → IsVersion h (P.number (at self.old)) (value self.old) → P.pages protocol.new store.new ≤ P.pages protocol.old store.old + 2 }
        ensures placed { P.place protocol.new ≡ P.place protocol.old }
        ensures others { LeavesOthers (P.owns (P.place protocol.old)) (S.state store.old) (S.state store.new) }
    {
        while turns.spend() {
            match mutator(self) {
                Err(fault) => return Err(TransactionalObjectError::from(fault)),
                Ok(None) => return Ok(()),
                Ok(Some(dirty)) => match self.update(protocol, store, dirty) {
                    Err(error) if error.is_sequenced_write_conflict() => {
                        self.refresh(protocol, store, turns)?;
                    }
                    Err(error) => return Err(error),
                    Ok(()) => return Ok(()),
                },
            }
        }
        Err(TransactionalObjectError::TurnsExhausted)
    }

    /// An object at the version that it is at is as it was.
    ghost moved_here: { (v : Self) → moved v (at v) (value v) ≡ v };

    /// Where an object was before doesn't matter.
    ghost moved_again: { (v : Self) (i j : Id) (x y : T) → moved (moved v i x) j y ≡ moved v j y };
}
