//! Which refusals an operation ends with where a store call failed, and where a claim has no id or no epoch left.
ghost use Rattle.std.specs.Prelude.{◌≡◌, ◌⊎◌, ℕ, Bool, false, Option, Some, None, Ok};
ghost use Rattle.txn_store.specs.declared.request.Reply.{Reply};
ghost use Rattle.txn_store.specs.declared.store.StoreError.TheVariants as errors;
ghost use Rattle.txn_steps.specs.declared.boundary.caches.Caches.{Caches};
ghost use Rattle.txn_steps.specs.declared.boundary.turned.Turned.TheVariants.{Done};
ghost use Rattle.txn_steps.specs.boundary.Steps.{reply_error};
ghost use Rattle.txn_steps.specs.declared.read.ReadOp.{ReadOp};
ghost use Rattle.txn_steps.specs.Reads.{read_turned};
ghost use Rattle.txn_history.specs.declared.event.Failure.{Failure};
ghost use Rattle.txn_history.specs.Names.{world_names, world_boundary};
ghost use Rattle.txn_history.specs.Facts.{greatest};
ghost use Rattle.txn_steps_views.specs.declared.claim.ClaimOp.{ClaimOp};
ghost use Rattle.txn_steps_views.specs.declared.claiming.Claiming.{Claiming};
ghost use Rattle.txn_steps_views.specs.declared.claiming.Claiming.TheVariants as claiming;
ghost use Rattle.txn_steps_views.specs.declared.op.ViewOp.TheVariants as view_ops;
ghost use Rattle.txn_history.specs.declared.event.ViewCall.TheVariants as view_calls;
ghost use Rattle.txn_history.specs.declared.event.Call.TheVariants as any;
ghost use Rattle.txn_history.specs.Trace.{Told};
ghost use Rattle.txn_history.specs.Views.{View};
ghost use Rattle.txn_machine.specs.declared.doing.Doing.{Doing};
ghost use Rattle.txn_machine.specs.declared.doing.Doing.TheVariants as does;
ghost use Rattle.txn_machine.specs.Doing.{refused, started, turned, caches_after, IsReply};
ghost use Rattle.txn_machine.specs.Refusals.{FailsAsReplied, Found};
ghost use Rattle.txn_machine.specs.Machine.{State, Fails};

use txn_store::types::codec::ObjectCodec;
use txn_store::types::epoch::EpochField;

/// What a failed store call makes of an operation is what it makes of the reply `Failed`: it ends with the refusal 2, and leaves
/// its client's caches. So each failure, before the effect or after it, is the turn that this reply would be.
pub fn failures_are_taken<T: Drop, C: ObjectCodec<T>, E: EpochField<T>>(_codec: &C, _epochs: &E)
    ensures refused { (page : ℕ) (doing : Doing T) (caches : Caches) (reply : Reply) → reply_error reply ≡ Some errors.Failed → IsReply doing (Some reply) → turned page (C.encoded _codec.now) (C.decoded _codec.now) (E.epoch_of _epochs.now) (E.with_epoch _epochs.now) false doing caches (Some reply) ≡ refused 2 }
    ensures caches { (doing : Doing T) (caches : Caches) (reply : Reply) → reply_error reply ≡ Some errors.Failed → IsReply doing (Some reply) → caches_after doing caches (refused {T = T} 2).1 ≡ caches }
    ensures event { (old : State T) (op : ℕ) (failure : Failure) (said : Told T) (new : State T) → Fails old op failure said new → FailsAsReplied (C.encoded _codec.now) (C.decoded _codec.now) (E.epoch_of _epochs.now) (E.with_epoch _epochs.now) old op said new }
{}

/// A claim is refused with 10 only where the version that it would write on has the greatest id, or for a claim of the next
/// epoch the greatest epoch: that of its view as it stands, or after a conflict the one that its own read found.
pub fn claims_are_refused_by_their_base<T: Drop, C: ObjectCodec<T>, E: EpochField<T>>(
    _codec: &C,
    _epochs: &E,
)
    ensures first { (page number : ℕ) (view : View T) → started page (C.encoded _codec.now) (E.epoch_of _epochs.now) (E.with_epoch _epochs.now) (any.View (view_calls.Claim number)) (Some view) ≡ refused 10 → (view.id ≡ greatest) ⊎ (E.epoch_of _epochs.now view.object ≡ greatest) }
    ensures first_at { (page number epoch : ℕ) (view : View T) → started page (C.encoded _codec.now) (E.epoch_of _epochs.now) (E.with_epoch _epochs.now) (any.View (view_calls.ClaimAt number epoch)) (Some view) ≡ refused 10 → view.id ≡ greatest }
    ensures later { (page : ℕ) (lacks : Bool) (op : ClaimOp T) (caches : Caches) (reply : Option Reply) → op.asked ≡ None → turned page (C.encoded _codec.now) (C.decoded _codec.now) (E.epoch_of _epochs.now) (E.with_epoch _epochs.now) lacks (does.View (view_ops.Claims op)) caches reply ≡ refused 10 →
        (id : ℕ) × (value : T) × Found page (C.decoded _codec.now) op.claiming caches reply id value × ((id ≡ greatest) ⊎ (E.epoch_of _epochs.now value ≡ greatest)) }
    ensures later_at { (page : ℕ) (lacks : Bool) (epoch : ℕ) (op : ClaimOp T) (caches : Caches) (reply : Option Reply) → op.asked ≡ Some epoch → turned page (C.encoded _codec.now) (C.decoded _codec.now) (E.epoch_of _epochs.now) (E.with_epoch _epochs.now) lacks (does.View (view_ops.Claims op)) caches reply ≡ refused 10 →
        (id : ℕ) × (value : T) × Found page (C.decoded _codec.now) op.claiming caches reply id value × (id ≡ greatest) }
{}
