//! The law that every trace of a world obeys, whatever the events of all calls: it is one history, and views and claims fit
//! it. What follows of that is in `txn_history`. And how each event adds its rows, and what stands beside them goes on.
ghost use Rattle.std.specs.Prelude.{◌≡◌, ◌≤◌, List, Some, ℕ};
ghost use Rattle.txn_history.specs.Lists.{numbered};
ghost use Rattle.txn_history.specs.History.{stored, HasContents};
ghost use Rattle.txn_history.specs.Views.{ViewGoesOn};
ghost use Rattle.txn_history.specs.Trace.{Event, Told};
ghost use Rattle.txn_machine.specs.views.Layer.{Used};
ghost use Rattle.txn_machine.specs.Machine.{State, opening, Takes, Runs, TakesOrLacks, RunsOrLacks};
ghost use Rattle.txn_machine.specs.Laws.{HasOneHistory, KeepsClients, EventGoesOn};

use txn_store::types::codec::ObjectCodec;
use txn_store::types::epoch::EpochField;

/// Whatever events are taken, in whatever order, the trace is one history of all calls, each view fits it, and no two claims
/// are held with one epoch, where a page of a listing has room for a file at least.
pub fn one_history<T: Drop, C: ObjectCodec<T>, E: EpochField<T>>(_codec: &C, _epochs: &E)
    ensures { (clients page : _) (taken : List (Event T × Told T)) (state : State T) → 1 ≤ page → Runs (C.encoded _codec.now) (C.decoded _codec.now) (E.epoch_of _epochs.now) (E.with_epoch _epochs.now) (opening clients page) taken state → HasOneHistory (C.decoded _codec.now) (E.epoch_of _epochs.now) (E.with_epoch _epochs.now) state }
{}

/// From event to event of such a run each view that stays keeps its client, its id never falls, and a holder stays one of
/// the same epoch.
pub fn views_go_on<T: Drop, C: ObjectCodec<T>, E: EpochField<T>>(_codec: &C, _epochs: &E)
    ensures { (clients page : _) (taken : List (Event T × Told T)) (old : State T) (event : Event T) (said : Told T) (new : State T) → 1 ≤ page → Runs (C.encoded _codec.now) (C.decoded _codec.now) (E.epoch_of _epochs.now) (E.with_epoch _epochs.now) (opening clients page) taken old →
        Takes (C.encoded _codec.now) (C.decoded _codec.now) (E.epoch_of _epochs.now) (E.with_epoch _epochs.now) old event said new → (number : ℕ) (was is : Used T) → numbered old.views number ≡ Some (Some was) → numbered new.views number ≡ Some (Some is) → ViewGoesOn was.view is.view }
{}

/// What `one_history` says, where clients share a store that is none of theirs, and a serve may lack memory.
pub fn one_shared_history<T: Drop, C: ObjectCodec<T>, E: EpochField<T>>(_codec: &C, _epochs: &E)
    ensures { (clients page : _) (taken : List (Event T × Told T)) (state : State T) → 1 ≤ page → RunsOrLacks (C.encoded _codec.now) (C.decoded _codec.now) (E.epoch_of _epochs.now) (E.with_epoch _epochs.now) (opening clients page) taken state → HasOneHistory (C.decoded _codec.now) (E.epoch_of _epochs.now) (E.with_epoch _epochs.now) state }
{}

/// Each event of such a run adds the rows of what it did, and what stands beside the rows goes on as it says; the files are
/// those that the effect rows leave; no event changes how many clients there are or how many files a page has; and each view
/// is of one of the clients, which are numbered from 1.
pub fn rows_go_on<T: Drop, C: ObjectCodec<T>, E: EpochField<T>>(_codec: &C, _epochs: &E)
    ensures clients { (clients page : _) (taken : List (Event T × Told T)) (state : State T) → Runs (C.encoded _codec.now) (C.decoded _codec.now) (E.epoch_of _epochs.now) (E.with_epoch _epochs.now) (opening clients page) taken state → KeepsClients clients page state }
    ensures stored { (clients page : _) (taken : List (Event T × Told T)) (state : State T) → 1 ≤ page → Runs (C.encoded _codec.now) (C.decoded _codec.now) (E.epoch_of _epochs.now) (E.with_epoch _epochs.now) (opening clients page) taken state → HasContents state.store.files (stored state.trace) }
    ensures events { (clients page : _) (taken : List (Event T × Told T)) (old : State T) (event : Event T) (said : Told T) (new : State T) → 1 ≤ page → Runs (C.encoded _codec.now) (C.decoded _codec.now) (E.epoch_of _epochs.now) (E.with_epoch _epochs.now) (opening clients page) taken old → Takes (C.encoded _codec.now) (C.decoded _codec.now) (E.epoch_of _epochs.now) (E.with_epoch _epochs.now) old event said new → EventGoesOn old event said new }
{}

/// What `rows_go_on` says, where clients share a store that is none of theirs, and a serve may lack memory.
pub fn shared_rows_go_on<T: Drop, C: ObjectCodec<T>, E: EpochField<T>>(_codec: &C, _epochs: &E)
    ensures clients { (clients page : _) (taken : List (Event T × Told T)) (state : State T) → RunsOrLacks (C.encoded _codec.now) (C.decoded _codec.now) (E.epoch_of _epochs.now) (E.with_epoch _epochs.now) (opening clients page) taken state → KeepsClients clients page state }
    ensures stored { (clients page : _) (taken : List (Event T × Told T)) (state : State T) → 1 ≤ page → RunsOrLacks (C.encoded _codec.now) (C.decoded _codec.now) (E.epoch_of _epochs.now) (E.with_epoch _epochs.now) (opening clients page) taken state → HasContents state.store.files (stored state.trace) }
    ensures events { (clients page : _) (taken : List (Event T × Told T)) (old : State T) (event : Event T) (said : Told T) (new : State T) → 1 ≤ page → RunsOrLacks (C.encoded _codec.now) (C.decoded _codec.now) (E.epoch_of _epochs.now) (E.with_epoch _epochs.now) (opening clients page) taken old → TakesOrLacks (C.encoded _codec.now) (C.decoded _codec.now) (E.epoch_of _epochs.now) (E.with_epoch _epochs.now) old event said new → EventGoesOn old event said new }
{}
