//! The laws of checks and advances that run alone.
ghost use Rattle.std.specs.Prelude.{◌≡◌, ℕ, ◌^◌, ◌<◌, Option, Result};
ghost use Rattle.txn_store.specs.Paths.{Segments};
ghost use Rattle.txn_store.specs.declared.types.error.TransactionalObjectError.{TransactionalObjectError};
ghost use Rattle.txn_steps.specs.boundary.Advances.{advance_started};
ghost use Rattle.txn_steps.specs.boundary.Checks.{check_started};
ghost use Rattle.txn_steps.specs.declared.boundary.advance.AdvanceOp.{AdvanceOp};
ghost use Rattle.txn_steps.specs.declared.boundary.check.CheckOp.{CheckOp};
ghost use Rattle.txn_steps_driven.specs.DriveRuns.{Scene, Drives};
ghost use Rattle.txn_steps_driven.specs.DriveSteps.{CheckSteps, AdvanceSteps};
ghost use Rattle.txn_steps_laws.specs.DrivenChecks.{CheckDriven, AdvanceDriven};

/// The law of a check that runs alone from its start: it answers and leaves what `check_boundary` does, and where it refuses
/// the id it keeps of the held versions those above it. Five steps are enough.
pub fn check_driven()
    ensures { (path : Segments) (id steps : ℕ) (a b : Scene CheckOp) (answer : Option (Result (Unit {0}) TransactionalObjectError)) → a.op ≡ check_started path id → Drives CheckSteps steps a answer b → CheckDriven path id steps a answer b }
{}

/// The law of an advance that runs alone from its start: it answers and leaves what `advance_boundary` does with as many
/// turns as it takes, so it never lacks one, but that `NoMemory` may come where the cached boundary has reached the target,
/// with nothing done. Of the held versions it keeps those above the target. Where file and cache stood for a boundary, 43
/// steps are enough. A target is a number of 64 bits.
pub fn advance_driven()
    ensures { (path : Segments) (target steps : ℕ) (a b : Scene AdvanceOp) (answer : Option (Result (Unit {0}) TransactionalObjectError)) → target < 2 ^ 64 → a.op ≡ advance_started target → Drives (AdvanceSteps path) steps a answer b → AdvanceDriven path target steps a answer b }
{}
