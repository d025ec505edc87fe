//! The law that every trace of the machine of plain calls obeys, whatever the events: it is one history of plain calls.
//! What follows of that is in `history`.
ghost use Rattle.std.specs.Prelude.{◌≤◌, List};
ghost use Rattle.txn_machine.specs.plain.PlainHistory.{IsOneHistory};
ghost use Rattle.txn_history.specs.Trace.{PlainEvent, PlainTold};
ghost use Rattle.txn_machine.specs.plain.Machine.{State, opening, Runs};

use txn_store::types::codec::ObjectCodec;
use txn_store::types::epoch::EpochField;

/// Whatever events are taken, in whatever order, the trace is one history of plain calls, where a page of a listing has room for a file
/// at least.
pub fn one_history<T: Drop, C: ObjectCodec<T>, E: EpochField<T>>(_codec: &C, _epochs: &E)
    ensures { (clients page : _) (taken : List (PlainEvent T × PlainTold T)) (state : State T) → 1 ≤ page → Runs (C.encoded _codec.now) (C.decoded _codec.now) (E.epoch_of _epochs.now) (opening clients page) taken state → IsOneHistory (C.decoded _codec.now) (E.epoch_of _epochs.now) state.failed state.trace }
{}
