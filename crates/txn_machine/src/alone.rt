//! The laws of a read that nothing disturbs, of whatever call: how often it starts again, and how many turns it takes.
ghost use Rattle.std.specs.Prelude.{◌≡◌, ◌+◌, ◌*◌, ◌≤◌, ℕ, List};
ghost use Rattle.txn_machine.specs.plain.Alone.{HasPages};
ghost use Rattle.txn_history.specs.declared.event.Call.{Call};
ghost use Rattle.txn_history.specs.Trace.{Event, Told};
ghost use Rattle.txn_machine.specs.Alone.{IsReading, ReadsAlone, passes, turns};
ghost use Rattle.txn_machine.specs.plain.Machine.{next_op};
ghost use Rattle.txn_machine.specs.Machine.{State, opening, Runs};

use txn_store::types::codec::ObjectCodec;
use txn_store::types::epoch::EpochField;

/// A read, a load, a refresh and a holder's refresh begin at most two passes where nothing else happens from their begin on,
/// whatever happened before and whatever their client holds.
pub fn two_passes<T: Drop, C: ObjectCodec<T>, E: EpochField<T>>(_codec: &C, _epochs: &E)
    ensures { (clients page : _) (before : List (Event T × Told T)) (state : State T) (client : ℕ) (call : Call T) (states : List (State T)) → 1 ≤ page → Runs (C.encoded _codec.now) (C.decoded _codec.now) (E.epoch_of _epochs.now) (E.with_epoch _epochs.now) (opening clients page) before state → IsReading call → ReadsAlone (C.encoded _codec.now) (C.decoded _codec.now) (E.epoch_of _epochs.now) (E.with_epoch _epochs.now) state client call states → passes (next_op state) states ≤ 2 }
{}

/// Such a read takes at most two turns, that of its begin among them, for each page that a listing of the versions has.
pub fn turns_at_rest<T: Drop, C: ObjectCodec<T>, E: EpochField<T>>(_codec: &C, _epochs: &E)
    ensures { (clients page : _) (before : List (Event T × Told T)) (state : State T) (client : ℕ) (call : Call T) (more : ℕ) (states : List (State T)) → 1 ≤ page → Runs (C.encoded _codec.now) (C.decoded _codec.now) (E.epoch_of _epochs.now) (E.with_epoch _epochs.now) (opening clients page) before state → IsReading call → ReadsAlone (C.encoded _codec.now) (C.decoded _codec.now) (E.epoch_of _epochs.now) (E.with_epoch _epochs.now) state client call states → HasPages state.store.files state.page more → turns (next_op state) state states ≤ 2 * (more + 1) }
{}
