//! How many looks and calls of the store the bounded calls make at most, whatever others do.
ghost use Rattle.std.specs.Prelude.{◌≡◌, ◌≤◌, ◌⊎◌, ℕ, List, Bool, Option, Some};
ghost use Rattle.txn_store.specs.declared.request.Reply.{Reply};
ghost use Rattle.txn_steps.specs.declared.boundary.caches.Caches.{Caches};
ghost use Rattle.txn_steps.specs.boundary.Counts.{Budget, SpendsOne};
ghost use Rattle.txn_history.specs.declared.event.EventOf.TheVariants as events;
ghost use Rattle.txn_history.specs.declared.event.Call.{Call};
ghost use Rattle.txn_history.specs.Trace.{Event, Told};
ghost use Rattle.txn_history.specs.Views.{View};
ghost use Rattle.txn_machine.specs.declared.doing.Doing.{Doing};
ghost use Rattle.txn_machine.specs.Doing.{ended, started, turned, IsReply};
ghost use Rattle.txn_machine.specs.CallsLeft.{most_of, any_budget, is_look_of, is_serve_of, taken_of};
ghost use Rattle.txn_machine.specs.plain.Machine.{next_op};
ghost use Rattle.txn_machine.specs.Machine.{State, opening, Takes, Runs};

use txn_store::types::codec::ObjectCodec;
use txn_store::types::epoch::EpochField;

/// A write, an init, an update, a holder's update and a delete make at most five looks and two calls of the store, an unchecked
/// write one of each, a check four looks and one call, a read of one id one call, and of one that was perhaps seen two looks
/// beside: an operation has so many left as it starts, unless it is refused at once, each look takes one of the looks at
/// least, each reply one of the calls, and neither adds one of the other. So in a run no more looks and serves of the
/// operation are taken, whatever others do.
pub fn calls_are_bounded<T: Drop, C: ObjectCodec<T>, E: EpochField<T>>(_codec: &C, _epochs: &E)
    ensures started { (page : ℕ) (call : Call T) (view : Option (View T)) (most : Budget) → most_of call ≡ Some most → (any_budget (started page (C.encoded _codec.now) (E.epoch_of _epochs.now) (E.with_epoch _epochs.now) call view).0 ≡ Some most) ⊎ ((started page (C.encoded _codec.now) (E.epoch_of _epochs.now) (E.with_epoch _epochs.now) call view).0 ≡ ended) }
    ensures spends { (page : ℕ) (refused : Bool) (doing : Doing T) (caches : Caches) (reply : Option Reply) (left : Budget) → any_budget doing ≡ Some left → IsReply doing reply →
        (after : Budget) × (any_budget (turned page (C.encoded _codec.now) (C.decoded _codec.now) (E.epoch_of _epochs.now) (E.with_epoch _epochs.now) refused doing caches reply).0 ≡ Some after) × SpendsOne reply left after }
    ensures looks { (clients page : _) (before : List (Event T × Told T)) (old : State T) (client : ℕ) (call : Call T) (said : Told T) (first : State T) (taken : List (Event T × Told T)) (new : State T) (most : Budget) → 1 ≤ page → Runs (C.encoded _codec.now) (C.decoded _codec.now) (E.epoch_of _epochs.now) (E.with_epoch _epochs.now) (opening clients page) before old → Takes (C.encoded _codec.now) (C.decoded _codec.now) (E.epoch_of _epochs.now) (E.with_epoch _epochs.now) old (events.Begin client call) said first → Runs (C.encoded _codec.now) (C.decoded _codec.now) (E.epoch_of _epochs.now) (E.with_epoch _epochs.now) first taken new → most_of call ≡ Some most → taken_of (is_look_of (next_op old)) taken ≤ most.looks }
    ensures serves { (clients page : _) (before : List (Event T × Told T)) (old : State T) (client : ℕ) (call : Call T) (said : Told T) (first : State T) (taken : List (Event T × Told T)) (new : State T) (most : Budget) → 1 ≤ page → Runs (C.encoded _codec.now) (C.decoded _codec.now) (E.epoch_of _epochs.now) (E.with_epoch _epochs.now) (opening clients page) before old → Takes (C.encoded _codec.now) (C.decoded _codec.now) (E.epoch_of _epochs.now) (E.with_epoch _epochs.now) old (events.Begin client call) said first → Runs (C.encoded _codec.now) (C.decoded _codec.now) (E.epoch_of _epochs.now) (E.with_epoch _epochs.now) first taken new → most_of call ≡ Some most → taken_of (is_serve_of (next_op old)) taken ≤ most.calls }
{}
