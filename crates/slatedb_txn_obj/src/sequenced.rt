//! The trait of versions in sequence over a boundary, unchecked, and of their checked delete.
ghost use Rattle.std.specs.Prelude.{◌≡◌, ◌+◌, ◌^◌, ◌<◌, ◌≤◌, None, IfSome, length, map, OnOk, IfOk, IfErr, IsErrOf};

use crate::boundary::BoundaryObject;
use std::ops::Bound;
use txn_steps_driven::turns::Turns;
use txn_store::store::ObjectStore;
use txn_store::types::error::TransactionalObjectError;
use txn_store::types::id::MonotonicId;
use txn_store::types::identified::IdentifiedObjectMetadata;

/// Versions in sequence, each under an id of its own, over a boundary.
///
/// Each type says by a relation of its own when it and a store stand for a history of values and a boundary. What its calls
/// answer and move is said where they stand; what they cost, and why they fail, always.
///
/// Three errors mean the same in every call: `ObjectStoreError(Failed)` comes only where the store failed,
/// `ObjectStoreError(TokensExhausted)` only where the store has no token left, and `NoMemory` where a growth was refused. A
/// value that the codec refuses is `CallbackError`: where a history stands no version has such bytes. Each call says which
/// other errors it has, and what an error leaves.
pub trait SequencedStorageProtocol<T, S: ObjectStore>: BoundaryObject<S> {
    ghost use Rattle.std.specs.Prelude.{ℕ, List, length, map, ◌≡◌, ◌⊎◌, ◌+◌, ◌^◌, ◌<◌, ◌≤◌, OnOk, IfOk, IfErr, IsErrOf};
    ghost use Rattle.std.specs.Prelude.{Option, None, Result, Ok, Err, IfSome};
    ghost use Rattle.txn_store.specs.Paths.{Segments};
    ghost use Rattle.txn_store.specs.declared.types.error.TransactionalObjectError.{TransactionalObjectError};
    ghost use Rattle.txn_store.specs.declared.types.error.TransactionalObjectError.TheVariants.{ObjectVersionExists};
    ghost use Rattle.txn_store.specs.declared.types.identified.IdentifiedObjectMetadata.{IdentifiedObjectMetadata};
    ghost use Rattle.txn_steps_driven.specs.Calls.{HasCause, HasCauseOfPut, Spends, SpendsTurns};
    ghost use Rattle.txn_steps_driven.specs.ListRuns.{AreTold};
    ghost use Rattle.slatedb_txn_obj.specs.Checked.{CheckedDelete};
    ghost use Rattle.slatedb_txn_obj.specs.Leaves.{SameFiles, MayCreate, MayRemove, SameOwn};
    ghost use Rattle.slatedb_txn_obj.specs.Protocol.{base_number, LatestOrFenced, IsEntry, AreListed, EntryStands, Overtaken, MayAppend, Stays, IsWarmRead, Unheld, HasCauseOfLatestUnchecked, ReadsVersion, HasCauseOfDelete};

    /// This protocol and a store stand for a history and a boundary.
    ghost stands: { Self → S → List T → ℕ → Type 0 };

    /// Where the files of a protocol lie.
    ghost Place: { Type 0 };

    /// Where its files lie, which each call leaves.
    ghost place: { Self → Place };

    /// The files that a protocol of this place reads and writes: those of its versions, and the boundary's.
    ghost owns: { Place → Segments → Type 0 };

    /// The file of the version of this id.
    ghost version_file: { Place → ℕ → Segments };

    /// What an unchecked write on a base that answers so may leave of the protocol and the store.
    ghost writes_to: { Self → S → Option ℕ → T → Result ℕ TransactionalObjectError → Self → S → Type 0 };

    /// What an unchecked delete of an id that answers so may leave of the protocol and the store.
    ghost deletes_to: { Self → S → ℕ → Result (Unit {0}) TransactionalObjectError → Self → S → Type 0 };

    /// Nothing is held that might be fenced.
    ghost is_fresh: { Self → Type 0 };

    /// A check that refuses this id leaves the protocol fresh.
    ghost freshens: { Self → ℕ → Type 0 };

    /// The version of this id is held, and none above it.
    ghost at_hand: { Self → ℕ → Type 0 };

    /// The version of this id is held.
    ghost has_version: { Self → ℕ → Type 0 };

    /// How many calls of the store an unchecked read makes that answers, where the newest version has this id and is at hand.
    ghost warm_calls: { ℕ → ℕ };

    /// No version of this id is stored.
    ghost lacks: { Self → S → ℕ → Type 0 };

    /// How many pages a listing has.
    ghost pages: { Self → S → ℕ };

    /// Creates the version above the base, or version 1 where there is none, and answers its id. It makes at most one call of
    /// the store, takes at most one token, and creates at most the file of that version.
    ///
    /// # Errors
    ///
    /// - `ObjectVersionExists` where a version of that id stands already, and `IdExhausted` where the base is the greatest id,
    ///   and only there, without a call of the store. After both nothing has moved.
    /// - `ObjectStoreError` with the store's own error, `NoMemory` where a growth was refused. The version may have been
    ///   created, and nothing else has moved.
    fn write_unchecked(
        &mut self,
        store: &mut S,
        base: Option<MonotonicId>,
        value: &T,
    ) -> Result<MonotonicId, TransactionalObjectError>
        ensures entered { IfOk result (EntryStands (stands self.old store.old) (stands self.new store.new) (base_number (λ n. n) base) value.now) }
        ensures conflict { IsErrOf result TransactionalObjectError.ObjectVersionExists → Overtaken (stands self.old store.old) (stands self.new store.new) (base_number (λ n. n) base) }
        ensures err { IfErr result (λ _. MayAppend (stands self.old store.old) (stands self.new store.new) (base_number (λ n. n) base) value.now) }
        ensures cause { IfErr result (HasCauseOfPut (base_number (λ n. n) base) (S.state store.old) (S.state store.new)) }
        ensures spends { Spends 1 1 (S.state store.old) (S.state store.new) }
        ensures paged { pages self.new store.new ≤ pages self.old store.old + 1 }
        ensures placed { place self.new ≡ place self.old }
        ensures creates { MayCreate (version_file (place self.old) (base_number (λ n. n) base + 1)) (S.state store.old) (S.state store.new) }
        ensures held { IfOk result (λ id. (h : List T) (b : ℕ) → stands self.old store.old h b → length h ≤ base_number (λ n. n) base → at_hand self.new id) }
        ensures stood { IsErrOf result TransactionalObjectError.ObjectVersionExists → SameFiles (S.state store.old) (S.state store.new) }
        ensures full { base_number (λ n. n) base + 1 ≡ 2 ^ 64 → IsErrOf result TransactionalObjectError.IdExhausted }
        ensures exhausted { IsErrOf result TransactionalObjectError.IdExhausted → (S.state store.new ≡ S.state store.old) × Stays (stands self.old store.old) (stands self.new store.new) }
        ensures moved { writes_to self.old store.old base value.now result self.new store.new };

    /// The version of the greatest id, and its value, or nothing where there is none. It is at hand then. It may be fenced, and
    /// where what is held is, an older one than the newest. Each page after the first that it lists spends a turn. It makes at
    /// most six calls of the store, and two for each turn that it spends; where the newest version is at hand, it is
    /// `warm_calls` where it answers.
    ///
    /// # Errors
    ///
    /// `TurnsExhausted` where a turn is due and none is left; `CallbackError` for a value that the codec refuses, where it
    /// stood for nothing; `ObjectStoreError` with the store's own error; `NoMemory` where a growth was refused. What it stood
    /// for stands, and no file is changed, also after an error.
    fn try_read_latest_unchecked(
        &mut self,
        store: &mut S,
        turns: &mut Turns,
    ) -> Result<Option<(MonotonicId, T)>, TransactionalObjectError>
        ensures found { IfOk result (λ r. (h : List T) (b : ℕ) → stands self.old store.old h b → LatestOrFenced h b (is_fresh self.old) (freshens self.new) r) }
        ensures held { IfOk result (λ r. IfSome r (λ read. at_hand self.new read.0)) }
        ensures kept { Stays (stands self.old store.old) (stands self.new store.new) }
        ensures few { (h : List T) (b : ℕ) → stands self.old store.old h b → turns.old + 1 ≤ turns.new + pages self.old store.old }
        ensures enough { (h : List T) (b : ℕ) → stands self.old store.old h b → pages self.old store.old ≤ turns.old + 1 → IsErrOf result TransactionalObjectError.TurnsExhausted → ⊥ }
        ensures warm { (h : List T) (b : ℕ) → stands self.old store.old h b → at_hand self.old (length h) → 0 < length h → IsWarmRead (warm_calls (length h)) 0 (λ n. n) h turns.old turns.new (S.state store.old) (S.state store.new) result }
        ensures spends { SpendsTurns 2 6 0 turns.old turns.new (S.state store.old) (S.state store.new) }
        ensures paged { pages self.new store.new ≡ pages self.old store.old }
        ensures cause { IfErr result (HasCauseOfLatestUnchecked (Unheld (stands self.old store.old)) turns.new (S.state store.old) (S.state store.new)) }
        ensures placed { place self.new ≡ place self.old }
        ensures files { SameFiles (S.state store.old) (S.state store.new) };

    /// The value of a version, or nothing where it isn't stored, as after a delete. It makes at most one call of the store.
    ///
    /// # Errors
    ///
    /// `CallbackError` for a value that the codec refuses, where it stood for nothing; `ObjectStoreError` with the store's own
    /// error; `NoMemory` where a growth was refused. What it stood for stands, and no file is changed, also after an error.
    fn try_read_unchecked(
        &mut self,
        store: &mut S,
        id: MonotonicId,
    ) -> Result<Option<T>, TransactionalObjectError>
        ensures found { IfOk result (λ r. (h : List T) (b : ℕ) → stands self.old store.old h b → IsEntry h b id r) }
        ensures absent { lacks self.old store.old id → IfOk result (λ r. r ≡ None) }
        ensures read { ReadsVersion (stands self.old store.old) (stands self.new store.new) (place self.old) (place self.new) (pages self.old store.old) (pages self.new store.new) (S.state store.old) (S.state store.new) result };

    /// The same, and without a call of the store where the version is held, also after an error.
    ///
    /// # Errors
    ///
    /// Those of `try_read_unchecked`, which leave the same.
    fn try_read_seen(
        &mut self,
        store: &mut S,
        id: MonotonicId,
    ) -> Result<Option<T>, TransactionalObjectError>
        ensures found { IfOk result (λ r. (h : List T) (b : ℕ) → stands self.old store.old h b → IsEntry h b id r) }
        ensures unasked { has_version self.old id → S.state store.new ≡ S.state store.old }
        ensures read { ReadsVersion (stands self.old store.old) (stands self.new store.new) (place self.old) (place self.new) (pages self.old store.old) (pages self.new store.new) (S.state store.old) (S.state store.new) result };

    /// The versions whose ids are within the bounds, in ascending ids, each with the path, the size and the token of its file.
    /// It makes at most one call of the store a page, and is lent no turns.
    ///
    /// # Errors
    ///
    /// `ObjectStoreError` with the store's own error; `NoMemory` where a growth was refused. What it stood for stands, and no
    /// file is changed, also after an error.
    fn list(
        &mut self,
        store: &mut S,
        from: Bound<MonotonicId>,
        to: Bound<MonotonicId>,
    ) -> Result<Vec<IdentifiedObjectMetadata<MonotonicId>>, TransactionalObjectError>
        ensures listed { IfOk result (λ r. (h : List T) (b : ℕ) → stands self.old store.old h b → AreListed h b from to (map (λ v. v.id) r.items)) }
        ensures told { IfOk result (λ r. AreTold (version_file (place self.old)) (S.state store.old).files r.items) }
        ensures kept { Stays (stands self.old store.old) (stands self.new store.new) }
        ensures spends { Spends (pages self.old store.old) 0 (S.state store.old) (S.state store.new) }
        ensures paged { pages self.new store.new ≡ pages self.old store.old }
        ensures cause { IfErr result (HasCause (S.state store.old) (S.state store.new)) }
        ensures placed { place self.new ≡ place self.old }
        ensures files { SameFiles (S.state store.old) (S.state store.new) };

    /// Removes a version, whatever the boundary is: where it is done no version of the id is stored, also where none was. It
    /// makes at most one call of the store, and removes at most the file of that version. What stands stands on where the id is
    /// at or below the boundary, also after an error.
    ///
    /// # Errors
    ///
    /// `ObjectStoreError` with the store's own error, after which the version may be removed; `NoMemory` where a growth was
    /// refused.
    fn delete_unchecked(
        &mut self,
        store: &mut S,
        id: MonotonicId,
    ) -> Result<(), TransactionalObjectError>
        ensures removed { OnOk result (lacks self.new store.new id) }
        ensures kept { (h : List T) (b : ℕ) → stands self.old store.old h b → id ≤ b → stands self.new store.new h b }
        ensures spends { Spends 1 0 (S.state store.old) (S.state store.new) }
        ensures cause { IfErr result (HasCause (S.state store.old) (S.state store.new)) }
        ensures placed { place self.new ≡ place self.old }
        ensures removes { MayRemove (version_file (place self.old) id) (S.state store.old) (S.state store.new) }
        ensures moved { deletes_to self.old store.old id result self.new store.new };

    /// Removes a version at or below the boundary: where it is done no version of the id is stored. It makes at most two calls
    /// of the store, and removes at most the file of that version. What it stood for stands, also after an error.
    ///
    /// # Errors
    ///
    /// - `InvalidObjectState` for an id above the boundary, and where the boundary file says no number. Nothing is removed.
    /// - `ObjectStoreError` with the store's own error, `NoMemory` where a growth was refused. The version may be removed.
    fn delete(&mut self, store: &mut S, id: MonotonicId) -> Result<(), TransactionalObjectError>
        ensures removed { OnOk result (lacks self.new store.new id) }
        ensures fenced { OnOk result ((h : List T) (b : ℕ) → stands self.old store.old h b → id ≤ b) }
        ensures unfenced { IsErrOf result TransactionalObjectError.InvalidObjectState → (h : List T) (b : ℕ) → stands self.old store.old h b → b < id }
        ensures kept { Stays (stands self.old store.old) (stands self.new store.new) }
        ensures spends { Spends 2 0 (S.state store.old) (S.state store.new) }
        ensures cause { IfErr result (HasCauseOfDelete (S.state store.old) (S.state store.new)) }
        ensures placed { place self.new ≡ place self.old }
        ensures removes { MayRemove (version_file (place self.old) id) (S.state store.old) (S.state store.new) }
        ensures untouched { IsErrOf result TransactionalObjectError.InvalidObjectState → SameFiles (S.state store.old) (S.state store.new) }
        ensures moved { CheckedDelete result self.new store.new (λ answer p s. Self.checks_to self.old store.old id answer p s) (λ p s answer q t. deletes_to p s id answer q t) }
    {
        match self.check(store, id) {
            Ok(()) => Err(TransactionalObjectError::InvalidObjectState),
            Err(TransactionalObjectError::ObjectVersionExists) => self.delete_unchecked(store, id),
            Err(error) => Err(error),
        }
    }

    ghost stands_bounded: { (p : Self) (s : S) (h : List T) (b : ℕ) → stands p s h b → Self.bounds p s b };

    /// The boundary is below the newest id, or both are 0.
    ghost stands_below: { (p : Self) (s : S) (h : List T) (b : ℕ) → stands p s h b → b ≤ length h };

    ghost stands_above: { (p : Self) (s : S) (h : List T) (b : ℕ) → stands p s h b → 0 < length h → b < length h };

    /// A check leaves what stands.
    ghost stands_checked: { (p q : Self) (s t : S) (id : ℕ) (r : Result (Unit {0}) TransactionalObjectError) (h : List T) (b : ℕ) → Self.checks_to p s id r q t → stands p s h b → stands q t h b };

    /// A check that accepts leaves what is at hand.
    ghost at_hand_checked: { (p q : Self) (s t : S) (id n : ℕ) → Self.checks_to p s id (Ok tt) q t → at_hand p n → at_hand q n };

    /// They are one at most.
    ghost warm_calls_few: { (n : ℕ) → warm_calls n ≤ 1 };

    /// A listing has one page at least.
    ghost pages_some: { (p : Self) (s : S) → 1 ≤ pages p s };

    /// A check leaves the pages.
    ghost pages_checked: { (p q : Self) (s t : S) (id : ℕ) (r : Result (Unit {0}) TransactionalObjectError) (h : List T) (b : ℕ) → Self.checks_to p s id r q t → stands p s h b → pages q t ≡ pages p s };

    ghost refused_fresh: { (p q : Self) (s t : S) (id : ℕ) → Self.checks_to p s id (Err ObjectVersionExists) q t → freshens p id → is_fresh q };

    /// Whoever leaves the files of a protocol, and forgets no token, leaves what it stands for.
    ghost stands_frame: { (p : Self) (s t : S) (h : List T) (b : ℕ) → SameOwn (owns (place p)) (S.state s) (S.state t) → stands p s h b → stands p t h b };

    /// The files of its versions are its own, and so is the boundary's.
    ghost owns_version: { (at : Place) (n : ℕ) → owns at (version_file at n) };

    ghost owns_boundary: { (p : Self) → owns (place p) (Self.file p) };

    /// A check and an advance leave where the files lie.
    ghost place_checked: { (p q : Self) (s t : S) (id : ℕ) (r : Result (Unit {0}) TransactionalObjectError) → Self.checks_to p s id r q t → place q ≡ place p };

    ghost place_advanced: { (p q : Self) (s t : S) (id : ℕ) (r : Result (Unit {0}) TransactionalObjectError) → Self.advances_to p s id r q t → place q ≡ place p };

    /// An advance leaves the history: where the boundary is then one that stays below the newest id, both stand.
    ghost stands_advanced: { (p q : Self) (s t : S) (h : List T) (id b c : ℕ) (r : Result (Unit {0}) TransactionalObjectError) → Self.advances_to p s id r q t → stands p s h b → b ≤ c → c ≡ b ⊎ c < length h → Self.bounds q t c → stands q t h c };
}
