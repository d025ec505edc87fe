//! What follows of one history of plain calls, whatever the machine.
ghost use Rattle.std.specs.Prelude.{◌≡◌, ◌+◌, List, Option, None, ℕ};
ghost use Rattle.txn_machine.specs.plain.PlainAllowed.{fault_of};
ghost use Rattle.txn_history.specs.Calls.{begun_count};
ghost use Rattle.txn_history.specs.Seen.{Seen};
ghost use Rattle.txn_history.specs.declared.event.PlainCall.{PlainCall};
ghost use Rattle.txn_history.specs.declared.event.EventOf.TheVariants as events;
ghost use Rattle.txn_machine.specs.plain.PlainHistory.{PlainOpens, IsOneHistory};
ghost use Rattle.txn_history.specs.Laws.{NeverFalls, KeepsAbove, HasOneWriter};
ghost use Rattle.txn_machine.specs.plain.PlainLaws.{id_entered};
ghost use Rattle.txn_history.specs.Trace.{PlainRow};

/// The boundary never falls.
pub fn boundary_never_falls<T: Drop>(_value: &T)
    ensures { (decode : List ℕ → Option T) (get_epoch : T → ℕ) (failed : List ℕ) (rows : List (PlainRow T)) → IsOneHistory decode get_epoch failed rows → NeverFalls rows }
{}

/// A version above the boundary is never removed.
pub fn above_boundary_is_not_removed<T: Drop>(_value: &T)
    ensures { (decode : List ℕ → Option T) (get_epoch : T → ℕ) (failed : List ℕ) (rows : List (PlainRow T)) → IsOneHistory decode get_epoch failed rows → KeepsAbove rows }
{}

/// Two successful checked writes never have the same id.
pub fn one_writer_per_id<T: Drop>(_value: &T)
    ensures { (decode : List ℕ → Option T) (get_epoch : T → ℕ) (failed : List ℕ) (rows : List (PlainRow T)) → IsOneHistory decode get_epoch failed rows → HasOneWriter id_entered rows }
{}

/// A begin that is allowed opens the next operation.
pub fn allowed_begins_open<T: Drop>(_value: &T)
    ensures { (decode : List ℕ → Option T) (get_epoch : T → ℕ) (rows : List (PlainRow T)) (seen : Seen) (client : ℕ) (call : PlainCall T) →
        fault_of decode get_epoch seen rows (events.Begin client call) ≡ None → PlainOpens decode get_epoch rows (begun_count rows + 1) call }
{}
