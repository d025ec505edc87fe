//! The laws of the calls that write on a view, run alone.
ghost use Rattle.std.specs.Prelude.{◌≡◌, ℕ, ◌^◌, ◌<◌, Option, None, Some, Result, Ok};
ghost use Rattle.txn_store.specs.declared.types.error.TransactionalObjectError.{TransactionalObjectError};
ghost use Rattle.txn_steps_driven.specs.DriveRuns.{Scene, Drives};
ghost use Rattle.txn_steps_views.specs.declared.entry.EntryOp.{EntryOp};
ghost use Rattle.txn_steps_views.specs.declared.outcome.Outcome.{Outcome};
ghost use Rattle.txn_steps_views.specs.Entries.{entry_started, holder_entry_started};
ghost use Rattle.txn_steps_laws.specs.declared.call.ViewCall.{ViewCall};
ghost use Rattle.txn_steps_laws.specs.CallRuns.{EntrySteps};
ghost use Rattle.txn_steps_laws.specs.Entering.{EntryDriven};

use txn_store::types::codec::ObjectCodec;
use txn_store::types::layout::Layout;

/// The law of a call that writes the first version and runs alone from its start: seven steps are enough. Where files, held
/// versions and the cached boundary stood for a history and a boundary, and that is empty, the value is its first version
/// and the view is at it; where it is not, it is `ObjectVersionExists`, and nothing moves. After any other error, which is
/// the store's, the value may have been written. On any files it leaves what its write does.
pub fn init_driven<T, C: ObjectCodec<T>>(_layout: &Layout<C>)
    ensures { (value : T) (steps : ℕ) (a b : Scene (ViewCall (EntryOp T))) (answer : Option (Result (Outcome T) TransactionalObjectError)) → C.decoded _layout.now.codec (C.encoded _layout.now.codec value) ≡ Some value → entry_started _layout.now.names _layout.now.boundary (C.encoded _layout.now.codec) None value ≡ Ok a.op.op → Drives EntrySteps steps a answer b → EntryDriven _layout.now.names (C.decoded _layout.now.codec) _layout.now.boundary None (C.encoded _layout.now.codec value) value steps a answer b }
{}

/// The law of a call that writes a value on a view's version and runs alone from its start: seven steps are enough. Where
/// files, held versions and the cached boundary stood for a history that has the version, and a boundary, and that was the
/// newest, the value stands straight on it and the view is at it; where a newer one stood, it is `ObjectVersionExists`, and
/// nothing moves. After any other error, which is the store's, the value may have been written. On any files it leaves what
/// its write does.
pub fn update_driven<T, C: ObjectCodec<T>>(_layout: &Layout<C>)
    ensures { (id : ℕ) (value : T) (steps : ℕ) (a b : Scene (ViewCall (EntryOp T))) (answer : Option (Result (Outcome T) TransactionalObjectError)) → id < 2 ^ 64 → C.decoded _layout.now.codec (C.encoded _layout.now.codec value) ≡ Some value → entry_started _layout.now.names _layout.now.boundary (C.encoded _layout.now.codec) (Some id) value ≡ Ok a.op.op → Drives EntrySteps steps a answer b → EntryDriven _layout.now.names (C.decoded _layout.now.codec) _layout.now.boundary (Some id) (C.encoded _layout.now.codec value) value steps a answer b }
{}

/// The law of a call that writes a value on a holder's version and runs alone from its start, as that of an update: it has
/// started, so the epochs of the version and of the value are the holder's.
pub fn holder_update_driven<T, C: ObjectCodec<T>>(_layout: &Layout<C>)
    ensures { (epoch_of : T → ℕ) (local id : ℕ) (object value : T) (steps : ℕ) (a b : Scene (ViewCall (EntryOp T))) (answer : Option (Result (Outcome T) TransactionalObjectError)) → id < 2 ^ 64 → C.decoded _layout.now.codec (C.encoded _layout.now.codec value) ≡ Some value → holder_entry_started _layout.now.names _layout.now.boundary (C.encoded _layout.now.codec) epoch_of local id object value ≡ Ok a.op.op → Drives EntrySteps steps a answer b → EntryDriven _layout.now.names (C.decoded _layout.now.codec) _layout.now.boundary (Some id) (C.encoded _layout.now.codec value) value steps a answer b }
{}
