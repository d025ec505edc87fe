//! Checks, advances, writes and deletes that run alone.
ghost use Rattle.std.specs.Prelude.{◌≡◌, ℕ, List, Option, Result};
ghost use Rattle.txn_store.specs.Paths.{Segments};
ghost use Rattle.txn_store.specs.VersionName.{Names};
ghost use Rattle.txn_store.specs.declared.types.error.TransactionalObjectError.{TransactionalObjectError};
ghost use Rattle.txn_steps.specs.declared.boundary.check.CheckOp.{CheckOp};
ghost use Rattle.txn_steps.specs.boundary.Checks.{check_started};
ghost use Rattle.txn_steps.specs.declared.delete.DeleteOp.{DeleteOp};
ghost use Rattle.txn_steps.specs.declared.write.WriteOp.{WriteOp};
ghost use Rattle.txn_steps.specs.Deletes.{delete_started};
ghost use Rattle.txn_steps.specs.Writes.{write_started};
ghost use Rattle.txn_steps_driven.specs.DriveChecked.{check_asks, advance_asks, write_asks, delete_asks};
ghost use Rattle.txn_steps_driven.specs.DriveEnds.{AnswersWithin};
ghost use Rattle.txn_steps_driven.specs.DriveRuns.{Scene, Drives};
ghost use Rattle.txn_steps_driven.specs.DriveSteps.{CanCheck, CheckSteps, CanAdvance, AdvanceSteps, CanWriteChecked, WriteSteps, CanDelete, DeleteSteps};

use crate::drive::{At, Drive};
use crate::replies::reply_to;
use txn_steps::boundary::advance::AdvanceOp;
use txn_steps::boundary::caches::Caches;
use txn_steps::boundary::check::CheckOp;
use txn_steps::boundary::turned::Turned;
use txn_steps::delete::{DeleteAnswer, DeleteOp};
use txn_steps::write::{WriteAnswer, WriteOp};
use txn_store::store::ObjectStore;
use txn_store::types::step_error::StepError;

/// What a check answers: that the id is above the boundary.
pub type CheckAnswer = Result<(), StepError>;

/// What an advance answers: that the boundary has reached the target.
pub type AdvanceAnswer = Result<(), StepError>;

/// A check looks at the cached boundary, reads the boundary's file between two looks, and drops what a refused id leaves.
impl<C, S: ObjectStore> Drive<C, S> for CheckOp {
    type Answer = CheckAnswer;

    ghost asks = { λ layout op. CanCheck op };

    ghost leads = { λ layout. CheckSteps };

    ghost asks_again = { λ layout a b can step. check_asks a b can step };

    fn step(&mut self, at: &At<C>, store: &mut S, caches: &mut Caches) -> Turned<CheckAnswer> {
        let reply = reply_to(at.alloc, store, self.ask());
        self.take(caches, reply)
    }
}

/// An advance raises the boundary, and then looks to drop the versions that it fences.
impl<C, S: ObjectStore> Drive<C, S> for AdvanceOp {
    type Answer = AdvanceAnswer;

    ghost asks = { λ layout op. CanAdvance op };

    ghost leads = { λ layout. AdvanceSteps layout.boundary };

    ghost asks_again = { λ layout a b can step. advance_asks layout.boundary a b can step };

    fn step(&mut self, at: &At<C>, store: &mut S, caches: &mut Caches) -> Turned<AdvanceAnswer> {
        let reply = reply_to(at.alloc, store, self.ask());
        self.take(at.alloc, at.layout, caches, reply)
    }
}

/// A write creates and holds its version, and then checks the id.
impl<C, S: ObjectStore> Drive<C, S> for WriteOp {
    type Answer = WriteAnswer;

    ghost asks = { λ layout op. CanWriteChecked op };

    ghost leads = { λ layout. WriteSteps };

    ghost asks_again = { λ layout a b can step. write_asks a b can step };

    fn step(&mut self, at: &At<C>, store: &mut S, caches: &mut Caches) -> Turned<WriteAnswer> {
        let reply = reply_to(at.alloc, store, self.ask());
        self.take(caches, reply)
    }
}

/// A delete checks its id, and where that is refused removes the version.
impl<C, S: ObjectStore> Drive<C, S> for DeleteOp {
    type Answer = DeleteAnswer;

    ghost asks = { λ layout op. CanDelete op };

    ghost leads = { λ layout. DeleteSteps };

    ghost asks_again = { λ layout a b can step. delete_asks a b can step };

    fn step(&mut self, at: &At<C>, store: &mut S, caches: &mut Caches) -> Turned<DeleteAnswer> {
        let reply = reply_to(at.alloc, store, self.ask());
        self.take(caches, reply)
    }
}

/// The law of a check, a write and a delete that run alone from their start: a check answers within five steps, a write and
/// a delete within seven.
pub fn checked_answer_soon()
    ensures check { (path : Segments) (id steps : ℕ) (a b : Scene CheckOp) (answer : Option (Result (Unit {0}) TransactionalObjectError)) → a.op ≡ check_started path id → Drives CheckSteps steps a answer b → AnswersWithin 5 steps answer }
    ensures write { (names : Names) (path : Segments) (base : Option ℕ) (bytes : List ℕ) (steps : ℕ) (a b : Scene WriteOp) (answer : Option (Result ℕ TransactionalObjectError)) → a.op ≡ write_started names path base bytes → Drives WriteSteps steps a answer b → AnswersWithin 7 steps answer }
    ensures delete { (names : Names) (path : Segments) (id steps : ℕ) (a b : Scene DeleteOp) (answer : Option (Result (Unit {0}) TransactionalObjectError)) → a.op ≡ delete_started names path id → Drives DeleteSteps steps a answer b → AnswersWithin 7 steps answer }
{}
