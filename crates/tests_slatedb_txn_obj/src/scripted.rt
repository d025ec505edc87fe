//! A type that does as it is told, and counts its calls. It keeps the traits, and stands for nothing.
ghost use Rattle.std.specs.Prelude.{◌≡◌};

use slatedb_txn_obj::boundary::BoundaryObject;
use slatedb_txn_obj::sequenced::SequencedStorageProtocol;
use std::alloc::Global;
use std::ops::Bound;
use txn_steps_driven::turns::Turns;
use txn_store::store::ObjectStore;
use txn_store::types::error::TransactionalObjectError;
use txn_store::types::id::MonotonicId;
use txn_store::types::identified::IdentifiedObjectMetadata;

/// A boundary in memory, which counts its checks, and reads of the newest version that are told beforehand, none for a mere
/// boundary. Once they are through it reads nothing. A write is a conflict, but on the greatest id, and every other call
/// finds nothing.
#[derive(Drop)]
pub struct TestBoundary {
    alloc: Global,
    boundary: u64,
    checks: u64,
    reads: &'static [(u64, u64)],
    calls: usize,
}

impl TestBoundary {
    /// This boundary, and these reads, each an id and a value.
    pub fn new(alloc: Global, boundary: u64, reads: &'static [(u64, u64)]) -> TestBoundary
        ensures kept { result.boundary ≡ boundary }
        ensures unused { result.checks ≡ 0 }
        ensures script { result.reads ≡ reads.entry }
        ensures first { result.calls ≡ 0 }
    {
        TestBoundary {
            alloc,
            boundary,
            checks: 0,
            reads,
            calls: 0,
        }
    }

    /// How many checks it made.
    pub fn checks(&self) -> u64
        ensures { result ≡ self.now.checks }
    {
        self.checks
    }

    /// How often the newest version was read.
    pub fn calls(&self) -> usize
        ensures { result ≡ self.now.calls }
    {
        self.calls
    }
}

impl<S: ObjectStore> BoundaryObject<S> for TestBoundary {
    ghost use Rattle.std.specs.Prelude.{refl, [], ◌≡◌, Contains};
    ghost use Rattle.std.proofs.Common.{ap, subst, sym};
    ghost use Rattle.std.proofs.Math.Nat.{le-add_right};
    ghost use Rattle.std.specs.FinMap.{get};

    ghost bounds = { λ _ _ _. ⊥ };

    ghost file = { λ _. [] };

    ghost checks_to = { λ p s _ _ q t. S.state t ≡ S.state s };

    ghost check_calls = { 0 };

    ghost check_calls_few = { le-add_right 0 1 };

    ghost advances_to = { λ p s _ _ q t. S.state t ≡ S.state s };

    ghost check_file = { λ _ _ _ _ _ _ _. refl };

    ghost check_frame = { λ _ _ _ _ _ _ same. ap (λ s. s.files) same };

    ghost check_given = { λ _ _ s t _ token _ same given. subst (λ state. Contains state.given token) (sym same) given };

    ghost check_keeps = { λ _ _ _ _ _ _ _ _ h. h };

    ghost advance_file = { λ _ _ _ _ _ _ _. refl };

    ghost advance_frame = { λ _ _ _ _ _ _ same other _. ap (λ s. get s.files other) same };

    ghost advance_given = { λ _ _ s t _ token _ same given. subst (λ state. Contains state.given token) (sym same) given };

    ghost bounds_frame = { λ _ _ _ _ _ h. h };

    fn check(&mut self, _store: &mut S, id: MonotonicId) -> Result<(), TransactionalObjectError> {
        let checks = &mut self.checks;
        *checks = checks.saturating_add(1);
        if id.id() <= self.boundary {
            return Err(TransactionalObjectError::ObjectVersionExists);
        }
        Ok(())
    }

    fn advance(
        &mut self,
        _store: &mut S,
        id: MonotonicId,
        _turns: &mut Turns,
    ) -> Result<(), TransactionalObjectError> {
        self.boundary = self.boundary.max(id.id());
        Ok(())
    }
}

impl<S: ObjectStore> SequencedStorageProtocol<u64, S> for TestBoundary {
    ghost use Rattle.std.proofs.Common.{refl, [], ◌≡◌};
    ghost use Rattle.std.proofs.Math.Nat.{le_refl, le-add_right};

    ghost stands = { λ _ _ _ _. ⊥ };

    ghost Place = { Unit {0} };

    ghost place = { λ _. tt };

    ghost owns = { λ _ path. path ≡ [] };

    ghost version_file = { λ _ _. [] };

    ghost writes_to = { λ _ s _ _ _ _ t. S.state t ≡ S.state s };

    ghost deletes_to = { λ _ s _ _ _ t. S.state t ≡ S.state s };

    ghost is_fresh = { λ _. Unit {0} };

    ghost freshens = { λ _ _. Unit {0} };

    ghost at_hand = { λ _ _. Unit {0} };

    ghost has_version = { λ _ _. Unit {0} };

    ghost at_hand_checked = { λ _ _ _ _ _ _ _ at. at };

    ghost warm_calls = { λ _. 0 };

    ghost warm_calls_few = { λ _. le-add_right 0 1 };

    ghost lacks = { λ _ _ _. Unit {0} };

    ghost pages = { λ _ _. 1 };

    ghost stands_bounded = { λ _ _ _ _ h. h };

    ghost stands_below = { λ _ _ _ _ h. absurd h };

    ghost stands_above = { λ _ _ _ _ h _. absurd h };

    ghost stands_checked = { λ _ _ _ _ _ _ _ _ _ h. h };

    ghost stands_frame = { λ _ _ _ _ _ _ h. h };

    ghost owns_version = { λ _ _. refl };

    ghost owns_boundary = { λ _. refl };

    ghost place_checked = { λ _ _ _ _ _ _ _. refl };

    ghost place_advanced = { λ _ _ _ _ _ _ _. refl };

    ghost pages_some = { λ _ _. le_refl 1 };

    ghost pages_checked = { λ _ _ _ _ _ _ _ _ _ _. refl };

    ghost refused_fresh = { λ _ _ _ _ _ _ _. tt };

    ghost stands_advanced = { λ _ _ _ _ _ _ _ _ _ _ h _ _ _. h };

    fn write_unchecked(
        &mut self,
        _store: &mut S,
        base: Option<MonotonicId>,
        _value: &u64,
    ) -> Result<MonotonicId, TransactionalObjectError> {
        match base {
            Some(id) if id.id() == u64::MAX => Err(TransactionalObjectError::IdExhausted),
            _ => Err(TransactionalObjectError::ObjectVersionExists),
        }
    }

    fn try_read_latest_unchecked(
        &mut self,
        _store: &mut S,
        _turns: &mut Turns,
    ) -> Result<Option<(MonotonicId, u64)>, TransactionalObjectError> {
        let place = self.calls;
        self.calls = place.saturating_add(1);
        match self.reads.get(place) {
            None => Ok(None),
            Some((id, value)) => Ok(Some((MonotonicId::new(*id), *value))),
        }
    }

    fn try_read_unchecked(
        &mut self,
        _store: &mut S,
        _id: MonotonicId,
    ) -> Result<Option<u64>, TransactionalObjectError> {
        Ok(None)
    }

    fn try_read_seen(
        &mut self,
        _store: &mut S,
        _id: MonotonicId,
    ) -> Result<Option<u64>, TransactionalObjectError> {
        Ok(None)
    }

    fn list(
        &mut self,
        _store: &mut S,
        _from: Bound<MonotonicId>,
        _to: Bound<MonotonicId>,
    ) -> Result<Vec<IdentifiedObjectMetadata<MonotonicId>>, TransactionalObjectError> {
        Ok(Vec::new(self.alloc))
    }

    fn delete_unchecked(
        &mut self,
        _store: &mut S,
        _id: MonotonicId,
    ) -> Result<(), TransactionalObjectError> {
        Ok(())
    }
}
