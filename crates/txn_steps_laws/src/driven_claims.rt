//! The laws of the calls that make a view a holder, run alone.
ghost use Rattle.std.specs.Prelude.{◌≡◌, ℕ, ◌≤◌, Option, None, Some, Result, Ok};
ghost use Rattle.txn_store.specs.declared.types.error.TransactionalObjectError.{TransactionalObjectError};
ghost use Rattle.txn_steps.specs.boundary.Windows.{Ascends};
ghost use Rattle.txn_steps_driven.specs.DriveRuns.{Scene, Drives};
ghost use Rattle.txn_steps_views.specs.declared.claim.ClaimOp.{ClaimOp};
ghost use Rattle.txn_steps_views.specs.declared.outcome.Outcome.{Outcome};
ghost use Rattle.txn_steps_views.specs.Attempts.{IsMade};
ghost use Rattle.txn_steps_views.specs.Claims.{claim_started};
ghost use Rattle.txn_steps_laws.specs.declared.with_epochs.WithEpochs.{WithEpochs};
ghost use Rattle.txn_steps_laws.specs.Claimed.{ClaimDriven};
ghost use Rattle.txn_steps_laws.specs.ClaimSteps.{ClaimSteps};

use txn_store::types::codec::ObjectCodec;
use txn_store::types::epoch::EpochField;
use txn_store::types::layout::Layout;

/// The law of a claim of the next epoch that runs alone from its start on a version of the history. Where files, held versions
/// and the cached boundary stood for a history and a boundary, the newest value with the next epoch stands straight on the
/// newest version, and the view is its holder; two attempts are enough, and a read between them: 56 steps and two for each
/// page. `IdExhausted` comes where the newest version has no next epoch or no next id; any other error is the store's, or want
/// of memory. After an error nothing moved, or the newest value was written with its next epoch. What is held has ascending ids,
/// as each window's, and a page has room for one file at least.
pub fn claim_driven<T, X: EpochField<T>, C: ObjectCodec<T>>(_layout: &Layout<C>)
    requires { 1 ≤ _layout.now.page }
    ensures { (id : ℕ) (object : T) (steps : ℕ) (a b : Scene (WithEpochs (ClaimOp T) X)) (answer : Option (Result (Outcome T) TransactionalObjectError)) → Ascends a.caches.latest → claim_started _layout.now.names _layout.now.boundary (C.encoded _layout.now.codec) (X.epoch_of a.op.epochs) (X.with_epoch a.op.epochs) None id object ≡ Ok a.op.op → IsMade (C.encoded _layout.now.codec) (C.decoded _layout.now.codec) (X.epoch_of a.op.epochs) a.op.op.claiming → Drives (ClaimSteps _layout.now.names _layout.now.boundary _layout.now.page (C.encoded _layout.now.codec) (C.decoded _layout.now.codec) X.epoch_of X.with_epoch) steps a answer b → ClaimDriven _layout.now.names (C.decoded _layout.now.codec) _layout.now.boundary (X.epoch_of a.op.epochs) (X.with_epoch a.op.epochs) None _layout.now.page id object steps a answer b }
{}

/// The law of a claim of an epoch that is asked for, as that of the next one: where that is not above the newest version's,
/// it is `Fenced`.
pub fn claim_at_driven<T, X: EpochField<T>, C: ObjectCodec<T>>(_layout: &Layout<C>)
    requires { 1 ≤ _layout.now.page }
    ensures { (epoch id : ℕ) (object : T) (steps : ℕ) (a b : Scene (WithEpochs (ClaimOp T) X)) (answer : Option (Result (Outcome T) TransactionalObjectError)) → Ascends a.caches.latest → claim_started _layout.now.names _layout.now.boundary (C.encoded _layout.now.codec) (X.epoch_of a.op.epochs) (X.with_epoch a.op.epochs) (Some epoch) id object ≡ Ok a.op.op → IsMade (C.encoded _layout.now.codec) (C.decoded _layout.now.codec) (X.epoch_of a.op.epochs) a.op.op.claiming → Drives (ClaimSteps _layout.now.names _layout.now.boundary _layout.now.page (C.encoded _layout.now.codec) (C.decoded _layout.now.codec) X.epoch_of X.with_epoch) steps a answer b → ClaimDriven _layout.now.names (C.decoded _layout.now.codec) _layout.now.boundary (X.epoch_of a.op.epochs) (X.with_epoch a.op.epochs) (Some epoch) _layout.now.page id object steps a answer b }
{}
