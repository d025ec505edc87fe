//! The law of progress: an operation that nothing disturbs is answered within a stated number of its own looks and serves, and
//! each time that something disturbed it adds at most so many.
ghost use Rattle.std.specs.Prelude.{◌≡◌, ◌+◌, ◌*◌, ◌≤◌, ℕ, List, Some, None};
ghost use Rattle.txn_history.specs.declared.event.EventOf.TheVariants as events;
ghost use Rattle.txn_history.specs.declared.event.Call.{Call};
ghost use Rattle.txn_history.specs.Lists.{numbered};
ghost use Rattle.txn_history.specs.Seen.{Ask};
ghost use Rattle.txn_history.specs.Trace.{Event, Told};
ghost use Rattle.txn_machine.specs.declared.doing.Operation.{Operation};
ghost use Rattle.txn_machine.specs.Doing.{asked};
ghost use Rattle.txn_machine.specs.plain.Machine.{next_op};
ghost use Rattle.txn_machine.specs.Machine.{State, opening, refusal_of, next_event, Takes, Runs};
ghost use Rattle.txn_world.specs.finishing.Progress.{cost_of, most_left, own_count, FewPages, Disturbed, Undisturbed};
ghost use Rattle.txn_world.specs.finishing.Whole.{work_count, Costs};

use txn_store::types::codec::ObjectCodec;
use txn_store::types::epoch::EpochField;

/// From the begin of a call on, its operation takes no more looks and serves than its call takes alone, and so many more each
/// time that something disturbed it, where a listing of the versions has at most so many pages as it begins and after each
/// event. From any state that is reached, however far the operation has come, it takes no more than it has left alone
/// where nothing disturbs it. And what an operation asks for is never refused.
pub fn work_is_bounded<T: Drop, C: ObjectCodec<T>, E: EpochField<T>>(_codec: &C, _epochs: &E)
    ensures calls { (clients page pages times : ℕ) (before : List (Event T × Told T)) (old : State T) (client : ℕ) (call : Call T) (said : Told T) (first : State T) (taken : List (Event T × Told T)) (new : State T) → 1 ≤ page → Runs (C.encoded _codec.now) (C.decoded _codec.now) (E.epoch_of _epochs.now) (E.with_epoch _epochs.now) (opening clients page) before old → Takes (C.encoded _codec.now) (C.decoded _codec.now) (E.epoch_of _epochs.now) (E.with_epoch _epochs.now) old (events.Begin client call) said first →
        FewPages pages first → Disturbed (C.encoded _codec.now) (C.decoded _codec.now) (E.epoch_of _epochs.now) (E.with_epoch _epochs.now) (next_op old) pages times first taken new → own_count (next_op old) taken ≤ (cost_of call pages).alone + times * (cost_of call pages).again }
    ensures alone { (clients page pages : ℕ) (before : List (Event T × Told T)) (state : State T) (op : ℕ) (operation : Operation T) (ask : Ask) (taken : List (Event T × Told T)) (new : State T) → 1 ≤ page → Runs (C.encoded _codec.now) (C.decoded _codec.now) (E.epoch_of _epochs.now) (E.with_epoch _epochs.now) (opening clients page) before state → numbered state.operations op ≡ Some operation → asked operation.doing ≡ Some ask → FewPages pages state →
        Undisturbed (C.encoded _codec.now) (C.decoded _codec.now) (E.epoch_of _epochs.now) (E.with_epoch _epochs.now) op pages state taken new → own_count op taken ≤ most_left operation.doing pages }
    ensures allowed { (state : State T) (op : ℕ) (operation : Operation T) (ask : Ask) → numbered state.operations op ≡ Some operation → asked operation.doing ≡ Some ask → refusal_of (C.encoded _codec.now) (C.decoded _codec.now) (E.epoch_of _epochs.now) (E.with_epoch _epochs.now) state (next_event state op) ≡ None }
{}

/// All looks and serves of a run, of whichever operations, are no more than the run costs: for each begin what its call takes alone,
/// and for each event what it adds to each operation that it disturbs, where a listing of the versions has at most so many
/// pages after each event. So where no event changes the store's files, or what a client keeps, the operations come to their
/// answers, in whatever order they take their turns.
pub fn whole_run_is_bounded<T: Drop, C: ObjectCodec<T>, E: EpochField<T>>(_codec: &C, _epochs: &E)
    ensures { (clients page pages cost : ℕ) (taken : List (Event T × Told T)) (new : State T) → 1 ≤ page → Costs (C.encoded _codec.now) (C.decoded _codec.now) (E.epoch_of _epochs.now) (E.with_epoch _epochs.now) pages cost (opening clients page) taken new → work_count taken ≤ cost }
{}
