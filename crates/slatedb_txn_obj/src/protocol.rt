//! The protocols whose calls are checked against the boundary.
ghost use Rattle.std.specs.Prelude.{◌≡◌, ◌+◌, ◌*◌, ◌^◌, ◌<◌, ◌≤◌, IfOk, IfErr, IfSome, IsErrOf};

use crate::sequenced::SequencedStorageProtocol;
use txn_steps_driven::turns::Turns;
use txn_store::store::ObjectStore;
use txn_store::types::error::TransactionalObjectError;
use txn_store::types::id::MonotonicId;

/// A protocol that writes a value where the newest version is the base, and reads the newest.
///
/// `ObjectStoreError(Failed)` comes only where the store failed, `ObjectStoreError(TokensExhausted)` only where the store has
/// no token left, and `NoMemory` where a growth was refused.
pub trait TransactionalStorageProtocol<T, Id, S: ObjectStore> {
    ghost use Rattle.std.specs.Prelude.{ℕ, List, length, ◌≡◌, ◌+◌, ◌*◌, ◌^◌, ◌<◌, ◌≤◌, Option, Result, OnOk, IfOk, IfErr, IfSome, IsErrOf};
    ghost use Rattle.txn_store.specs.Paths.{Segments};
    ghost use Rattle.txn_store.specs.declared.types.error.TransactionalObjectError.{TransactionalObjectError};
    ghost use Rattle.txn_steps_driven.specs.Calls.{Spends, SpendsTurns};
    ghost use Rattle.slatedb_txn_obj.specs.Leaves.{SameFiles, MayCreate, SameOwn};
    ghost use Rattle.slatedb_txn_obj.specs.Protocol.{base_number, Appended, Overtaken, MayAppend, Stays, IsWarmRead, LatestBy, Unheld, UnheldAt, HasCauseOfWrite, HasCauseOfLatest};

    /// This protocol and a store stand for a history and a boundary.
    ghost stands: { Self → S → List T → ℕ → Type 0 };

    /// Where the files of a protocol lie.
    ghost Place: { Type 0 };

    /// Where its files lie, which each call leaves.
    ghost place: { Self → Place };

    /// The files that a protocol of this place reads and writes.
    ghost owns: { Place → Segments → Type 0 };

    /// The file of the version of this number.
    ghost version_file: { Place → ℕ → Segments };

    /// What a write on a base that answers so may leave of the protocol and the store.
    ghost writes_to: { Self → S → Option Id → T → Result Id TransactionalObjectError → Self → S → Type 0 };

    /// Which number an id stands for.
    ghost number: { Id → ℕ };

    /// The version of this number is held, and none above it.
    ghost at_hand: { Self → ℕ → Type 0 };

    /// How many calls of the store a read makes that answers, where the newest version has this number and is at hand.
    ghost warm_calls: { ℕ → ℕ };

    /// How many pages a listing has.
    ghost pages: { Self → S → ℕ };

    /// Writes the value as the version above the base, or as version 1 where there is none, and answers its id. It makes at
    /// most two calls of the store, takes at most one token, and creates at most the file of that version. The base is to be an
    /// id that a call answered: one above the newest version is written on too, and no clause says what stands then.
    ///
    /// # Errors
    ///
    /// - `ObjectVersionExists` where a newer version than the base stands. What stood stands. A sequenced protocol may then
    ///   have created a version, whose id the boundary had reached; no checked read answers it.
    /// - `IdExhausted` where the base is the greatest id, and only there, without a call of the store. Nothing has moved.
    /// - `InvalidObjectState` where the boundary file says no number, `ObjectStoreError` with the store's own error, `NoMemory`
    ///   where a growth was refused. The value may have been written.
    fn write(
        &mut self,
        store: &mut S,
        base: Option<Id>,
        value: &T,
    ) -> Result<Id, TransactionalObjectError>
        ensures appended { IfOk result (λ id. Appended (stands self.old store.old) (stands self.new store.new) (base_number number base) value.now (number id)) }
        ensures conflict { IsErrOf result TransactionalObjectError.ObjectVersionExists → Overtaken (stands self.old store.old) (stands self.new store.new) (base_number number base) }
        ensures err { IfErr result (λ _. MayAppend (stands self.old store.old) (stands self.new store.new) (base_number number base) value.now) }
        ensures cause { IfErr result (HasCauseOfWrite (UnheldAt (stands self.old store.old) (base_number number base)) (base_number number base) (S.state store.old) (S.state store.new)) }
        ensures spends { Spends 2 1 (S.state store.old) (S.state store.new) }
        ensures paged { (h : List T) (b : ℕ) → stands self.old store.old h b → base_number number base ≤ length h → pages self.new store.new ≤ pages self.old store.old + 1 }
        ensures placed { place self.new ≡ place self.old }
        ensures creates { MayCreate (version_file (place self.old) (base_number number base + 1)) (S.state store.old) (S.state store.new) }
        ensures held { IfOk result (λ id. (h : List T) (b : ℕ) → stands self.old store.old h b → base_number number base ≤ length h → at_hand self.new (number id)) }
        ensures full { base_number number base + 1 ≡ 2 ^ 64 → IsErrOf result TransactionalObjectError.IdExhausted }
        ensures exhausted { IsErrOf result TransactionalObjectError.IdExhausted → (S.state store.new ≡ S.state store.old) × Stays (stands self.old store.old) (stands self.new store.new) }
        ensures moved { writes_to self.old store.old base value.now result self.new store.new };

    /// The newest version and its value, or nothing where there is none. It is at hand then. Each pass, and each page after the
    /// first that a pass lists, spends a turn. It makes at most seven calls of the store for each turn that it spends; where
    /// the newest version is at hand, it is `warm_calls` where it answers, and one turn.
    ///
    /// # Errors
    ///
    /// - `TurnsExhausted` where a turn is due and none is left.
    /// - `CallbackError` for a value that the codec refuses, and `InvalidObjectState` for a boundary file that says no number:
    ///   both where it stood for nothing.
    /// - `ObjectStoreError` with the store's own error, `NoMemory` where a growth was refused.
    ///
    /// What it stood for stands, and no file is changed, also after an error.
    fn try_read_latest(
        &mut self,
        store: &mut S,
        turns: &mut Turns,
    ) -> Result<Option<(Id, T)>, TransactionalObjectError>
        ensures latest { IfOk result (λ r. (h : List T) (b : ℕ) → stands self.old store.old h b → LatestBy number h r) }
        ensures held { IfOk result (λ r. IfSome r (λ read. at_hand self.new (number read.0))) }
        ensures kept { Stays (stands self.old store.old) (stands self.new store.new) }
        ensures few { (h : List T) (b : ℕ) → stands self.old store.old h b → turns.old ≤ turns.new + 2 * pages self.old store.old }
        ensures enough { (h : List T) (b : ℕ) → stands self.old store.old h b → 2 * pages self.old store.old ≤ turns.old → IsErrOf result TransactionalObjectError.TurnsExhausted → ⊥ }
        ensures warm { (h : List T) (b : ℕ) → stands self.old store.old h b → at_hand self.old (length h) → 0 < length h → IsWarmRead (warm_calls (length h)) 1 number h turns.old turns.new (S.state store.old) (S.state store.new) result }
        ensures spends { SpendsTurns 7 0 0 turns.old turns.new (S.state store.old) (S.state store.new) }
        ensures paged { (h : List T) (b : ℕ) → stands self.old store.old h b → pages self.new store.new ≡ pages self.old store.old }
        ensures cause { IfErr result (HasCauseOfLatest (Unheld (stands self.old store.old)) turns.new (S.state store.old) (S.state store.new)) }
        ensures placed { place self.new ≡ place self.old }
        ensures files { SameFiles (S.state store.old) (S.state store.new) };

    /// They are two at most.
    ghost warm_calls_few: { (n : ℕ) → warm_calls n ≤ 2 };

    /// A listing has one page at least.
    ghost pages_some: { (p : Self) (s : S) → 1 ≤ pages p s };

    /// No two ids stand for one number.
    ghost one_number: { (a b : Id) → number a ≡ number b → a ≡ b };

    /// Whoever leaves the files of a protocol, and forgets no token, leaves what it stands for.
    ghost stands_frame: { (p : Self) (s t : S) (h : List T) (b : ℕ) → SameOwn (owns (place p)) (S.state s) (S.state t) → stands p s h b → stands p t h b };

    /// The files of its versions are its own.
    ghost owns_version: { (at : Place) (n : ℕ) → owns at (version_file at n) };
}

impl<T: Drop, S: ObjectStore, P: SequencedStorageProtocol<T, S>> TransactionalStorageProtocol<
    T,
    MonotonicId,
    S,
> for P {
    ghost use Rattle.std.specs.Prelude.{ℕ, List, length, ◌≡◌, ◌+◌, ◌*◌, ◌^◌, ◌<◌, ◌≤◌, IfOk, IfErr, IfSome, IsErrOf};
    ghost use Rattle.txn_steps_driven.specs.Calls.{Spends, SpendsTurns};
    ghost use Rattle.slatedb_txn_obj.specs.Checked.{CheckedWrite};
    ghost use Rattle.slatedb_txn_obj.specs.Leaves.{SameFiles, MayCreate};
    ghost use Rattle.slatedb_txn_obj.specs.Protocol.{base_number, Appended, Overtaken, MayAppend, Stays, IsWarmRead, LatestBy, Unheld, UnheldAt, HasCauseOfWrite, HasCauseOfLatest};
    ghost use Rattle.std.proofs.Math.Nat.{add-le-add};

    ghost stands = { P.stands };

    ghost Place = { P.Place };

    ghost place = { P.place };

    ghost owns = { P.owns };

    ghost version_file = { P.version_file };

    ghost writes_to = { λ p s base value r q t. CheckedWrite r q t (λ answer p' s'. P.writes_to p s base value answer p' s') (λ p' s' id answer q' t'. P.checks_to p' s' id answer q' t') };

    ghost number = { λ id. id };

    ghost at_hand = { P.at_hand };

    ghost warm_calls = { λ n. P.warm_calls n + P.check_calls };

    ghost warm_calls_few = { λ n. add-le-add (P.warm_calls_few n) P.check_calls_few };

    ghost pages = { P.pages };

    ghost pages_some = { P.pages_some };

    ghost one_number = { λ a b is. is };

    ghost stands_frame = { P.stands_frame };

    ghost owns_version = { P.owns_version };

    fn write(
        &mut self,
        store: &mut S,
        base: Option<MonotonicId>,
        value: &T,
    ) -> Result<MonotonicId, TransactionalObjectError>
        ensures appended { IfOk result (λ id. Appended (P.stands self.old store.old) (P.stands self.new store.new) (base_number (λ n. n) base) value.now id) }
        ensures conflict { IsErrOf result TransactionalObjectError.ObjectVersionExists → Overtaken (P.stands self.old store.old) (P.stands self.new store.new) (base_number (λ n. n) base) }
        ensures err { IfErr result (λ _. MayAppend (P.stands self.old store.old) (P.stands self.new store.new) (base_number (λ n. n) base) value.now) }
        ensures cause { IfErr result (HasCauseOfWrite (UnheldAt (P.stands self.old store.old) (base_number (λ n. n) base)) (base_number (λ n. n) base) (S.state store.old) (S.state store.new)) }
        ensures spends { Spends 2 1 (S.state store.old) (S.state store.new) }
        ensures paged { (h : List T) (b : ℕ) → P.stands self.old store.old h b → base_number (λ n. n) base ≤ length h → P.pages self.new store.new ≤ P.pages self.old store.old + 1 }
        ensures placed { P.place self.new ≡ P.place self.old }
        ensures creates { MayCreate (P.version_file (P.place self.old) (base_number (λ n. n) base + 1)) (S.state store.old) (S.state store.new) }
        ensures held { IfOk result (λ id. (h : List T) (b : ℕ) → P.stands self.old store.old h b → base_number (λ n. n) base ≤ length h → P.at_hand self.new id) }
        ensures full { base_number (λ n. n) base + 1 ≡ 2 ^ 64 → IsErrOf result TransactionalObjectError.IdExhausted }
        ensures exhausted { IsErrOf result TransactionalObjectError.IdExhausted → (S.state store.new ≡ S.state store.old) × Stays (P.stands self.old store.old) (P.stands self.new store.new) }
        ensures moved { CheckedWrite result self.new store.new (λ answer p s. P.writes_to self.old store.old base value.now answer p s) (λ p s id answer q t. P.checks_to p s id answer q t) }
    {
        let id = self.write_unchecked(store, base, value)?;
        self.check(store, id)?;
        Ok(id)
    }

    fn try_read_latest(
        &mut self,
        store: &mut S,
        turns: &mut Turns,
    ) -> Result<Option<(MonotonicId, T)>, TransactionalObjectError>
        ensures latest { IfOk result (λ r. (h : List T) (b : ℕ) → P.stands self.old store.old h b → LatestBy (λ n. n) h r) }
        ensures held { IfOk result (λ r. IfSome r (λ read. P.at_hand self.new read.0)) }
        ensures kept { Stays (P.stands self.old store.old) (P.stands self.new store.new) }
        ensures few { (h : List T) (b : ℕ) → P.stands self.old store.old h b → turns.old ≤ turns.new + 2 * P.pages self.old store.old }
        ensures enough { (h : List T) (b : ℕ) → P.stands self.old store.old h b → 2 * P.pages self.old store.old ≤ turns.old → IsErrOf result TransactionalObjectError.TurnsExhausted → ⊥ }
        ensures warm { (h : List T) (b : ℕ) → P.stands self.old store.old h b → P.at_hand self.old (length h) → 0 < length h → IsWarmRead (P.warm_calls (length h) + P.check_calls) 1 (λ n. n) h turns.old turns.new (S.state store.old) (S.state store.new) result }
        ensures spends { SpendsTurns 7 0 0 turns.old turns.new (S.state store.old) (S.state store.new) }
        ensures paged { (h : List T) (b : ℕ) → P.stands self.old store.old h b → P.pages self.new store.new ≡ P.pages self.old store.old }
        ensures cause { IfErr result (HasCauseOfLatest (Unheld (P.stands self.old store.old)) turns.new (S.state store.old) (S.state store.new)) }
        ensures placed { P.place self.new ≡ P.place self.old }
        ensures files { SameFiles (S.state store.old) (S.state store.new) }
    {
        'passes: while turns.spend() {
            let Some((id, value)) = self.try_read_latest_unchecked(store, turns)? else {
                return Ok(None);
            };
            match self.check(store, id) {
                Ok(()) => return Ok(Some((id, value))),
                Err(TransactionalObjectError::ObjectVersionExists) => {}
                Err(error) => return Err(error),
            }
        }
        Err(TransactionalObjectError::TurnsExhausted)
    }
}
