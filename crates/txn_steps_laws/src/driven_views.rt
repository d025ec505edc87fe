//! The laws of the calls that read the newest version for a view, run alone.
ghost use Rattle.std.specs.Prelude.{◌≡◌, ℕ, ◌^◌, ◌<◌, ◌≤◌, Option, IfSome, Result};
ghost use Rattle.txn_store.specs.declared.types.error.TransactionalObjectError.{TransactionalObjectError};
ghost use Rattle.txn_steps.specs.boundary.Windows.{Ascends, greatest_held};
ghost use Rattle.txn_steps_driven.specs.DriveRuns.{Scene, Drives};
ghost use Rattle.txn_steps_views.specs.declared.outcome.Outcome.{Outcome};
ghost use Rattle.txn_steps_views.specs.declared.view_read.Purpose.TheVariants.{Load, Refresh, HolderRefresh};
ghost use Rattle.txn_steps_views.specs.declared.view_read.ViewReadOp.{ViewReadOp};
ghost use Rattle.txn_steps_views.specs.ViewReads.{view_read_started};
ghost use Rattle.txn_steps_laws.specs.declared.with_epochs.WithEpochs.{WithEpochs};
ghost use Rattle.txn_steps_laws.specs.CallRuns.{ViewReadSteps};
ghost use Rattle.txn_steps_laws.specs.Viewing.{LoadDriven, RefreshDriven, HolderDriven};

use txn_store::types::codec::ObjectCodec;
use txn_store::types::epoch::EpochField;
use txn_store::types::layout::Layout;

/// The law of a call that makes a view of the newest version and runs alone from its start. Where files, held versions and
/// the cached boundary stood for a history and a boundary, the view is at the newest version, or it is `LatestRecordMissing`
/// where there is none; they stand for the same afterwards, also after an error, which is else the store's or want of memory;
/// and 40 steps and two for each page are enough. On any files it leaves what its read does. What is held has ascending ids
/// of 64 bits, as each window's are, and a page has room for one file at least.
pub fn load_driven<T, X: EpochField<T>, C: ObjectCodec<T>>(_layout: &Layout<C>)
    requires { 1 ≤ _layout.now.page }
    ensures { (steps : ℕ) (a b : Scene (WithEpochs (ViewReadOp T) X)) (answer : Option (Result (Outcome T) TransactionalObjectError)) → Ascends a.caches.latest → IfSome (greatest_held a.caches.latest) (λ version. version.id < 2 ^ 64) → a.op.op ≡ view_read_started _layout.now.boundary Load → Drives (ViewReadSteps _layout.now.names _layout.now.boundary _layout.now.page (C.decoded _layout.now.codec) X.epoch_of) steps a answer b → LoadDriven _layout.now.names (C.decoded _layout.now.codec) _layout.now.boundary _layout.now.page steps a answer b }
{}

/// The law of a call that moves a view to the newest version and runs alone from its start, as that of a load, but that no
/// version is `InvalidObjectState`.
pub fn refresh_driven<T, X: EpochField<T>, C: ObjectCodec<T>>(_layout: &Layout<C>)
    requires { 1 ≤ _layout.now.page }
    ensures { (steps : ℕ) (a b : Scene (WithEpochs (ViewReadOp T) X)) (answer : Option (Result (Outcome T) TransactionalObjectError)) → Ascends a.caches.latest → IfSome (greatest_held a.caches.latest) (λ version. version.id < 2 ^ 64) → a.op.op ≡ view_read_started _layout.now.boundary Refresh → Drives (ViewReadSteps _layout.now.names _layout.now.boundary _layout.now.page (C.decoded _layout.now.codec) X.epoch_of) steps a answer b → RefreshDriven _layout.now.names (C.decoded _layout.now.codec) _layout.now.boundary _layout.now.page steps a answer b }
{}

/// The law of a call that moves a holder's view to the newest version and runs alone from its start, as that of a refresh:
/// where the newest version has another epoch than the holder's, the view is at it and the holder is shut, by `Fenced` where
/// that is greater and by `InvalidObjectState` where it is smaller.
pub fn holder_refresh_driven<T, X: EpochField<T>, C: ObjectCodec<T>>(_layout: &Layout<C>)
    requires { 1 ≤ _layout.now.page }
    ensures { (local steps : ℕ) (a b : Scene (WithEpochs (ViewReadOp T) X)) (answer : Option (Result (Outcome T) TransactionalObjectError)) → Ascends a.caches.latest → IfSome (greatest_held a.caches.latest) (λ version. version.id < 2 ^ 64) → a.op.op ≡ view_read_started _layout.now.boundary (HolderRefresh local) → Drives (ViewReadSteps _layout.now.names _layout.now.boundary _layout.now.page (C.decoded _layout.now.codec) X.epoch_of) steps a answer b → HolderDriven _layout.now.names (C.decoded _layout.now.codec) _layout.now.boundary _layout.now.page (X.epoch_of a.op.epochs) local steps a answer b }
{}
