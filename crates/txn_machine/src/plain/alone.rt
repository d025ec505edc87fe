//! The laws of what a client holds, and of a read that nothing disturbs: how often it starts again, and how many turns it
//! takes.
ghost use Rattle.std.specs.Prelude.{◌≡◌, ◌+◌, ◌*◌, ◌≤◌, ℕ, List, Some};
ghost use Rattle.txn_steps.specs.declared.boundary.caches.Caches.{Caches};
ghost use Rattle.txn_history.specs.Lists.{numbered};
ghost use Rattle.txn_history.specs.Trace.{PlainEvent, PlainTold};
ghost use Rattle.txn_machine.specs.plain.Machine.{State, opening, next_op, Runs, IsReached};
ghost use Rattle.txn_machine.specs.plain.Alone.{IsWindow, ReadsAlone, HasPages, passes, turns};

use txn_store::types::codec::ObjectCodec;
use txn_store::types::epoch::EpochField;

/// Whatever events are taken, a client holds at most eight versions, with ascending ids.
pub fn one_window<T: Drop, C: ObjectCodec<T>, E: EpochField<T>>(_codec: &C, _epochs: &E)
    ensures { (clients page client : ℕ) (taken : List (PlainEvent T × PlainTold T)) (state : State T) (caches : Caches) → Runs (C.encoded _codec.now) (C.decoded _codec.now) (E.epoch_of _epochs.now) (opening clients page) taken state → numbered state.caches client ≡ Some caches → IsWindow caches.latest }
{}

/// Where nothing else happens, a read begins at most two passes, whatever its client holds.
pub fn two_passes<T: Drop, C: ObjectCodec<T>, E: EpochField<T>>(_codec: &C, _epochs: &E)
    ensures { (state : State T) (client : ℕ) (states : List (State T)) → IsReached (C.encoded _codec.now) (C.decoded _codec.now) (E.epoch_of _epochs.now) state → ReadsAlone (C.encoded _codec.now) (C.decoded _codec.now) (E.epoch_of _epochs.now) state client states → passes (next_op state) states ≤ 2 }
{}

/// Such a read takes at most two turns, that of its begin among them, for each page that a listing of the versions has.
pub fn turns_at_rest<T: Drop, C: ObjectCodec<T>, E: EpochField<T>>(_codec: &C, _epochs: &E)
    ensures { (state : State T) (client more : ℕ) (states : List (State T)) → IsReached (C.encoded _codec.now) (C.decoded _codec.now) (E.epoch_of _epochs.now) state → ReadsAlone (C.encoded _codec.now) (C.decoded _codec.now) (E.epoch_of _epochs.now) state client states → HasPages state.store.files state.page more → turns (next_op state) state states ≤ 2 * (more + 1) }
{}
