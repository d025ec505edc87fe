//! The laws of a checked write and of a checked delete that run alone.
ghost use Rattle.std.specs.Prelude.{◌≡◌, ℕ, ◌+◌, ◌^◌, ◌<◌, List, Option, Some, Result};
ghost use Rattle.txn_store.specs.Paths.{Segments};
ghost use Rattle.txn_store.specs.types.Numbers.{number_of};
ghost use Rattle.txn_store.specs.declared.types.error.TransactionalObjectError.{TransactionalObjectError};
ghost use Rattle.txn_steps.specs.declared.delete.DeleteOp.{DeleteOp};
ghost use Rattle.txn_steps.specs.declared.write.WriteOp.{WriteOp};
ghost use Rattle.txn_steps.specs.Deletes.{delete_started};
ghost use Rattle.txn_steps.specs.Writes.{write_started};
ghost use Rattle.txn_steps_driven.specs.DriveRuns.{Scene, Drives};
ghost use Rattle.txn_steps_driven.specs.DriveSteps.{WriteSteps, DeleteSteps};
ghost use Rattle.txn_steps_laws.specs.DrivenDeletes.{CheckedDeleteDriven};
ghost use Rattle.txn_steps_laws.specs.DrivenWrites.{CheckedWriteDriven};

use txn_store::types::codec::ObjectCodec;
use txn_store::types::layout::Layout;

/// The law of a checked write that runs alone from its start: it answers and leaves what `write_version` does, and where that
/// answers its id what `check_boundary` and the drop of a refused id do then. Seven steps are enough.
pub fn checked_write_driven<T, C: ObjectCodec<T>>(_layout: &Layout<C>)
    ensures { (path : Segments) (base : Option ℕ) (value : T) (steps : ℕ) (a b : Scene WriteOp) (answer : Option (Result ℕ TransactionalObjectError)) → number_of base + 1 < 2 ^ 64 → C.decoded _layout.now.codec (C.encoded _layout.now.codec value) ≡ Some value → a.op ≡ write_started _layout.now.names path base (C.encoded _layout.now.codec value) → Drives WriteSteps steps a answer b → CheckedWriteDriven _layout.now.names (C.decoded _layout.now.codec) path base (C.encoded _layout.now.codec value) value steps a answer b }
{}

/// The law of a checked delete that runs alone from its start: it leaves what `check_boundary` does, and where that refuses
/// the id it answers and leaves what `delete_version` does then. An id that is accepted is `InvalidObjectState`. Seven steps
/// are enough.
pub fn checked_delete_driven<T, C: ObjectCodec<T>>(_layout: &Layout<C>)
    ensures { (path : Segments) (id steps : ℕ) (a b : Scene DeleteOp) (answer : Option (Result (Unit {0}) TransactionalObjectError)) → a.op ≡ delete_started _layout.now.names path id → Drives DeleteSteps steps a answer b → CheckedDeleteDriven _layout.now.names (C.decoded _layout.now.codec) path id steps a answer b }
{}
