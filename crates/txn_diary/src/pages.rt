//! How many turns a read takes that nothing disturbs, by how many files there are.
ghost use Rattle.std.specs.Prelude.{◌≡◌, ◌*◌, ◌≤◌, ℕ, List};
ghost use Rattle.txn_history.specs.Names.{world_names};
ghost use Rattle.txn_steps_driven.specs.PageCount.{pages_below};
ghost use Rattle.txn_history.specs.declared.event.Call.{Call};
ghost use Rattle.txn_history.specs.Trace.{Event, Told};
ghost use Rattle.txn_machine.specs.Alone.{IsReading, ReadsAlone, turns};
ghost use Rattle.txn_machine.specs.plain.Machine.{next_op};
ghost use Rattle.txn_machine.specs.Machine.{State, opening, Runs};

use txn_store::types::codec::ObjectCodec;
use txn_store::types::epoch::EpochField;

/// A read, a load, a refresh and a holder's refresh take at most two turns, that of their begin among them, for each page that
/// the files below the directory of the versions make, of which there is one at least, where nothing else happens.
pub fn two_turns_a_page<T: Drop, C: ObjectCodec<T>, E: EpochField<T>>(_codec: &C, _epochs: &E)
    ensures { (clients page : _) (before : List (Event T × Told T)) (state : State T) (client : ℕ) (call : Call T) (states : List (State T)) → 1 ≤ page → Runs (C.encoded _codec.now) (C.decoded _codec.now) (E.epoch_of _epochs.now) (E.with_epoch _epochs.now) (opening clients page) before state → IsReading call → ReadsAlone (C.encoded _codec.now) (C.decoded _codec.now) (E.epoch_of _epochs.now) (E.with_epoch _epochs.now) state client call states →
        turns (next_op state) state states ≤ 2 * pages_below world_names page state.store.files }
{}
