//! The boundary object over an object store.
ghost use Rattle.std.specs.Prelude.{◌≡◌, ◌↔◌, ◌+◌, None, true, false, IfOk, OnOk, IfErr, IsErrOf};
ghost use Rattle.txn_store.specs.Paths.{is_plain};
ghost use Rattle.txn_store.specs.types.BoundaryText.{boundary_path};

use crate::boundary::BoundaryObject;
use std::alloc::Global;
use txn_steps::boundary::caches::CachedBoundary;
use txn_steps_driven::boundary::{advance_boundary, check_boundary};
use txn_steps_driven::turns::Turns;
use txn_store::path::{Path, PathFault};
use txn_store::store::ObjectStore;
use txn_store::types::error::TransactionalObjectError;
use txn_store::types::id::MonotonicId;
use txn_store::types::layout::Layout;
use txn_store::types::step_error::widened;

/// A boundary that one file of a store says, 0 where it is missing, and what this client has cached of it.
#[derive(Drop)]
pub struct ObjectStoreBoundaryObject {
    /// What takes memory for its requests.
    pub alloc: Global,
    /// The path of the file.
    pub path: Path,
    /// The greatest boundary that it read or wrote, with the token of its file.
    pub cached: Option<CachedBoundary>,
}

impl ObjectStoreBoundaryObject {
    /// The boundary of this name, in the file `<root>/gc/<name>.boundary`. Nothing is cached, and no call of a store is made.
    ///
    /// # Errors
    ///
    /// `BadSegment` exactly where the name is no plain segment; `NoMemory` where a growth was refused.
    pub fn new(
        alloc: Global,
        root: &Path,
        name: &str,
    ) -> Result<ObjectStoreBoundaryObject, PathFault>
        ensures path { IfOk result (λ object. object.path ≡ boundary_path root.now name.now) }
        ensures cached { IfOk result (λ object. object.cached ≡ None) }
        ensures bad_segment { IsErrOf result PathFault.BadSegment ↔ (is_plain name.now ≡ false) }
    {
        // The layout of the versions of this name has the path of their boundary file.
        let layout = Layout::new(alloc, root, name, "boundary", ())?;
        Ok(ObjectStoreBoundaryObject {
            alloc,
            path: layout.boundary,
            cached: None,
        })
    }
}

impl<S: ObjectStore> BoundaryObject<S> for ObjectStoreBoundaryObject {
    ghost use Rattle.std.specs.Prelude.{ℕ, ◌≡◌, ◌⊎◌, ◌+◌, ◌<◌, ◌≤◌, true, OnOk, IfErr, IsErrOf, max};
    ghost use Rattle.std.proofs.Math.Nat.{le_refl};
    ghost use Rattle.txn_steps.specs.boundary.Boundaries.{refused_by};
    ghost use Rattle.txn_steps_driven.specs.Calls.{HasCauseOfCheck, HasCauseOfAdvance, Spends, SpendsTurns};
    ghost use Rattle.txn_steps_driven.specs.Standing.{BoundaryStands};
    ghost use Rattle.txn_steps_driven.proofs.Frames.{BoundaryStands-frame};
    ghost use Rattle.txn_steps_driven.specs.Checking.{Unbounded, FromCache};
    ghost use Rattle.txn_steps_driven.specs.Advancing.{AlreadyReached};
    ghost use Rattle.slatedb_txn_obj.specs.Boundaries.{BoundaryChecks, BoundaryAdvances, check-frame, check-given, check-keeps};

    ghost bounds = { λ p s b. BoundaryStands p.path p.cached (S.state s) b };

    ghost file = { λ p. p.path };

    ghost checks_to = { λ p s id r q t. BoundaryChecks p.path q.path p.cached q.cached (S.state s) id r (S.state t) };

    ghost check_calls = { 1 };

    ghost check_calls_few = { le_refl 1 };

    ghost advances_to = { λ p s id r q t. BoundaryAdvances p.path q.path p.cached q.cached (S.state s) id r (S.state t) };

    ghost bounds_frame = { λ p s t b same stands. BoundaryStands-frame p.path p.cached (S.state s) (S.state t) b same stands };

    ghost check_file = { λ p q s t id r m. m.same_path };

    ghost check_frame = { λ p q s t id r m. check-frame p.path q.path p.cached q.cached (S.state s) id r (S.state t) m };

    ghost check_given = { λ p q s t id token r m. check-given p.path q.path p.cached q.cached (S.state s) id r (S.state t) token m };

    ghost check_keeps = { λ p q s t id b r m stands. check-keeps p.path q.path p.cached q.cached (S.state s) id r (S.state t) b m stands };

    ghost advance_file = { λ p q s t id r m. m.same_path };

    ghost advance_frame = { λ p q s t id r m. m.advanced.others };

    ghost advance_given = { λ p q s t id token r m. m.advanced.given token };

    /// A cached boundary at or above the id refuses it with no call of the store, and changes nothing. An id is accepted only by
    /// a get of the file, which is asked for where it is not as it is cached.
    fn check(&mut self, store: &mut S, id: MonotonicId) -> Result<(), TransactionalObjectError>
        ensures above { OnOk result ((b : ℕ) → BoundaryStands self.old.path self.old.cached (S.state store.old) b → b < id) }
        ensures fenced { IsErrOf result TransactionalObjectError.ObjectVersionExists → (b : ℕ) → BoundaryStands self.old.path self.old.cached (S.state store.old) b → id ≤ b }
        ensures cause { IfErr result (HasCauseOfCheck (Unbounded self.old.path self.old.cached (S.state store.old)) (S.state store.old) (S.state store.new)) }
        ensures spends { Spends 1 0 (S.state store.old) (S.state store.new) }
        ensures moved { BoundaryChecks self.old.path self.new.path self.old.cached self.new.cached (S.state store.old) id result (S.state store.new) }
        ensures from_cache { refused_by id self.old.cached ≡ true → FromCache (S.state store.old) (S.state store.new) self.old.cached self.new.cached result }
        ensures asked { OnOk result ((S.state store.new).calls ≡ (S.state store.old).calls + 1) }
    {
        widened(check_boundary(self.alloc, &self.path, &mut self.cached, store, id))
    }

    /// A cached boundary at or above the target is the answer, with no call of the store and no turn, and nothing changes.
    fn advance(
        &mut self,
        store: &mut S,
        id: MonotonicId,
        turns: &mut Turns,
    ) -> Result<(), TransactionalObjectError>
        ensures raised { OnOk result ((b : ℕ) → BoundaryStands self.old.path self.old.cached (S.state store.old) b → BoundaryStands self.new.path self.new.cached (S.state store.new) (max b id)) }
        ensures kept { IfErr result (λ _. (b : ℕ) → BoundaryStands self.old.path self.old.cached (S.state store.old) b → BoundaryStands self.new.path self.new.cached (S.state store.new) b ⊎ BoundaryStands self.new.path self.new.cached (S.state store.new) (max b id)) }
        ensures cause { IfErr result (HasCauseOfAdvance (Unbounded self.old.path self.old.cached (S.state store.old)) turns.new (S.state store.old) (S.state store.new)) }
        ensures spends { SpendsTurns 2 1 1 turns.old turns.new (S.state store.old) (S.state store.new) }
        ensures few { (b : ℕ) → BoundaryStands self.old.path self.old.cached (S.state store.old) b → turns.old ≤ turns.new + 2 }
        ensures enough { (b : ℕ) → BoundaryStands self.old.path self.old.cached (S.state store.old) b → 2 ≤ turns.old → IsErrOf result TransactionalObjectError.TurnsExhausted → ⊥ }
        ensures moved { BoundaryAdvances self.old.path self.new.path self.old.cached self.new.cached (S.state store.old) id result (S.state store.new) }
        ensures reached { refused_by id self.old.cached ≡ true → AlreadyReached (S.state store.old) (S.state store.new) turns.old turns.new self.old.cached self.new.cached result }
    {
        widened(advance_boundary(self.alloc, &self.path, &mut self.cached, store, id, turns))
    }
}
