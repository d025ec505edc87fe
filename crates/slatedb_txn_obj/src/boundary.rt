//! The boundary below which versions are fenced.
ghost use Rattle.std.specs.Prelude.{◌≡◌, ◌<◌, ◌≤◌, OnOk, IfErr, IsErrOf, max};

use txn_steps_driven::turns::Turns;
use txn_store::store::ObjectStore;
use txn_store::types::error::TransactionalObjectError;
use txn_store::types::id::MonotonicId;

/// A lasting high mark of a sequence of versions: every id at or below it is fenced. It rises and never falls.
///
/// Each call is lent the store. What a call says of the boundary it says of each number for which the object and the store
/// stood before it, so nothing is said of a store that others broke. The counts, the causes of errors and what is left alone
/// are said of every store.
pub trait BoundaryObject<S: ObjectStore> {
    ghost use Rattle.std.specs.Prelude.{ℕ, ◌≡◌, ◌⊎◌, ◌+◌, ◌<◌, ◌≤◌, OnOk, IfErr, IsErrOf, Contains, Result, max};
    ghost use Rattle.txn_store.specs.Paths.{Segments};
    ghost use Rattle.txn_store.specs.declared.types.error.TransactionalObjectError.{TransactionalObjectError};
    ghost use Rattle.txn_steps_driven.specs.Calls.{HasCauseOfCheck, HasCauseOfAdvance, Spends, SpendsTurns, SameAt, SameBut};

    /// This object and a store stand for a boundary.
    ghost bounds: { Self → S → ℕ → Type 0 };

    /// The one file that it reads and writes.
    ghost file: { Self → Segments };

    /// What a check of an id that answers so may leave of the object and the store.
    ghost checks_to: { Self → S → ℕ → Result (Unit {0}) TransactionalObjectError → Self → S → Type 0 };

    /// How many calls of the store a check makes that accepts an id.
    ghost check_calls: { ℕ };

    /// Checks that an id is above the boundary. It makes one call of the store at most, and takes no token.
    ///
    /// # Errors
    ///
    /// - `ObjectVersionExists` where the id is at or below the boundary.
    /// - `ObjectStoreError` with the store's own error, and `NoMemory` where a growth was refused.
    /// - `InvalidObjectState` where the boundary file says no number, and only where the object and the store stood for no
    ///   boundary.
    ///
    /// Each leaves the boundary as it was, and so does an answer.
    fn check(&mut self, store: &mut S, id: MonotonicId) -> Result<(), TransactionalObjectError>
        ensures above { OnOk result ((b : ℕ) → bounds self.old store.old b → b < id) }
        ensures fenced { IsErrOf result TransactionalObjectError.ObjectVersionExists → (b : ℕ) → bounds self.old store.old b → id ≤ b }
        ensures cause { IfErr result (HasCauseOfCheck ((b : ℕ) → bounds self.old store.old b → ⊥) (S.state store.old) (S.state store.new)) }
        ensures spends { Spends 1 0 (S.state store.old) (S.state store.new) }
        ensures asked { OnOk result ((S.state store.new).calls ≡ (S.state store.old).calls + check_calls) }
        ensures moved { checks_to self.old store.old id result self.new store.new };

    /// What an advance to a target that answers so may leave of the object and the store.
    ghost advances_to: { Self → S → ℕ → Result (Unit {0}) TransactionalObjectError → Self → S → Type 0 };

    /// Raises the boundary to the target, and leaves it where it is at or above that. Each attempt spends a turn. It makes one
    /// call of the store at most and two for each turn that it spends, and takes one token at most. Where the object and the
    /// store stood for a boundary it spends two turns at most, so two are enough.
    ///
    /// # Errors
    ///
    /// - `TurnsExhausted` where a turn was due and none was left.
    /// - `ObjectStoreError`, `NoMemory` and `InvalidObjectState`, each as of a check.
    ///
    /// After each the boundary is as it was or raised to the target.
    fn advance(
        &mut self,
        store: &mut S,
        id: MonotonicId,
        turns: &mut Turns,
    ) -> Result<(), TransactionalObjectError>
        ensures raised { OnOk result ((b : ℕ) → bounds self.old store.old b → bounds self.new store.new (max b id)) }
        ensures kept { IfErr result (λ _. (b : ℕ) → bounds self.old store.old b → bounds self.new store.new b ⊎ bounds self.new store.new (max b id)) }
        ensures cause { IfErr result (HasCauseOfAdvance ((b : ℕ) → bounds self.old store.old b → ⊥) turns.new (S.state store.old) (S.state store.new)) }
        ensures spends { SpendsTurns 2 1 1 turns.old turns.new (S.state store.old) (S.state store.new) }
        ensures few { (b : ℕ) → bounds self.old store.old b → turns.old ≤ turns.new + 2 }
        ensures enough { (b : ℕ) → bounds self.old store.old b → 2 ≤ turns.old → IsErrOf result TransactionalObjectError.TurnsExhausted → ⊥ }
        ensures moved { advances_to self.old store.old id result self.new store.new };

    /// They are one at most.
    ghost check_calls_few: { check_calls ≤ 1 };

    /// Whoever leaves the file, and forgets no token, leaves the boundary.
    ghost bounds_frame: { (p : Self) (s t : S) (b : ℕ) → SameAt (file p) (S.state s) (S.state t) → bounds p s b → bounds p t b };

    /// A check leaves the object its file.
    ghost check_file: { (p q : Self) (s t : S) (id : ℕ) (r : Result (Unit {0}) TransactionalObjectError) → checks_to p s id r q t → file q ≡ file p };

    /// A check changes no file.
    ghost check_frame: { (p q : Self) (s t : S) (id : ℕ) (r : Result (Unit {0}) TransactionalObjectError) → checks_to p s id r q t → (S.state t).files ≡ (S.state s).files };

    /// A check forgets no token.
    ghost check_given: { (p q : Self) (s t : S) (id token : ℕ) (r : Result (Unit {0}) TransactionalObjectError) → checks_to p s id r q t → Contains (S.state s).given token → Contains (S.state t).given token };

    /// A check leaves the boundary.
    ghost check_keeps: { (p q : Self) (s t : S) (id b : ℕ) (r : Result (Unit {0}) TransactionalObjectError) → checks_to p s id r q t → bounds p s b → bounds q t b };

    /// An advance leaves the object its file.
    ghost advance_file: { (p q : Self) (s t : S) (id : ℕ) (r : Result (Unit {0}) TransactionalObjectError) → advances_to p s id r q t → file q ≡ file p };

    /// An advance changes no other file.
    ghost advance_frame: { (p q : Self) (s t : S) (id : ℕ) (r : Result (Unit {0}) TransactionalObjectError) → advances_to p s id r q t → SameBut (file p) (S.state s) (S.state t) };

    /// An advance forgets no token.
    ghost advance_given: { (p q : Self) (s t : S) (id token : ℕ) (r : Result (Unit {0}) TransactionalObjectError) → advances_to p s id r q t → Contains (S.state s).given token → Contains (S.state t).given token };
}
