//! The law of calls that have a bound.
ghost use Rattle.std.specs.Prelude.{◌≡◌, ◌≤◌, ℕ, Option, Some};
ghost use Rattle.txn_steps.specs.boundary.Counts.{Budget};
ghost use Rattle.txn_history.specs.declared.event.Call.{Call};
ghost use Rattle.txn_history.specs.declared.event.Answer.{Answer};
ghost use Rattle.txn_machine.specs.CallsLeft.{most_of};
ghost use Rattle.txn_diary.specs.Keepers.{DoesAndForgets};
ghost use Rattle.txnobj.specs.clients.Calling.{ClientState, MakesCall};
ghost use Rattle.txnobj.specs.clients.Bounds.{StaysWithin};

use crate::clients::recorder::Recorder;
use crate::clients::serve::Serve;
use txn_store::types::codec::ObjectCodec;
use txn_store::types::epoch::EpochField;

/// A call of a client that has a bound (`most_of`) makes at most so many looks and so many store calls, whatever the store
/// replies and whatever others do. Where it was given so many steps in all, it was answered.
pub fn bounded_calls_are_answered<
    T: Drop,
    C: ObjectCodec<T>,
    E: EpochField<T>,
    S: Serve,
    R: Recorder<T>,
>(_codec: &C, _epochs: &E, _store: &S, _recorder: &R)
    ensures { (limit : ℕ) (call : Call T) (answer : Option (Answer T)) (old new : ClientState T C E R S) (most : Budget) → 1 ≤ old.keeper.page → most_of call ≡ Some most → (made : MakesCall R.hands S.serves (DoesAndForgets C.encoded C.decoded E.epoch_of E.with_epoch) limit call answer old new) → StaysWithin most limit answer made.is_call.turns }
{}
