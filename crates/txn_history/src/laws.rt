//! What follows of one history, whatever the events.
ghost use Rattle.std.specs.Prelude.{◌≡◌, ◌+◌, List, Option, None, ℕ};
ghost use Rattle.txn_history.specs.declared.event.EventOf.TheVariants as events;
ghost use Rattle.txn_history.specs.Calls.{begun_count};
ghost use Rattle.txn_history.specs.Laws.{NeverFalls, KeepsAbove, id_entered, HasOneWriter, HasOneClaimer, HoldersRise, HoldersStand};
ghost use Rattle.txn_history.specs.declared.event.Call.{Call};
ghost use Rattle.txn_history.specs.Trace.{Row};
ghost use Rattle.txn_history.specs.Views.{View, ViewsFit};
ghost use Rattle.txn_history.specs.Seen.{AllSeen};
ghost use Rattle.txn_history.specs.OneHistory.{Opens, IsOneHistory};
ghost use Rattle.txn_history.specs.Allowed.{fault_of};

/// The boundary never falls.
pub fn boundary_never_falls<T: Drop>(_value: &T)
    ensures { (decode : List ℕ → Option T) (get_epoch : T → ℕ) (set_epoch : T → ℕ → T) (failed : List ℕ) (rows : List (Row T)) → IsOneHistory decode get_epoch set_epoch failed rows → NeverFalls rows }
{}

/// A version above the boundary is never removed.
pub fn above_boundary_is_not_removed<T: Drop>(_value: &T)
    ensures { (decode : List ℕ → Option T) (get_epoch : T → ℕ) (set_epoch : T → ℕ → T) (failed : List ℕ) (rows : List (Row T)) → IsOneHistory decode get_epoch set_epoch failed rows → KeepsAbove rows }
{}

/// Two successful checked writes never have the same id.
pub fn one_writer_per_id<T: Drop>(_value: &T)
    ensures { (decode : List ℕ → Option T) (get_epoch : T → ℕ) (set_epoch : T → ℕ → T) (failed : List ℕ) (rows : List (Row T)) → IsOneHistory decode get_epoch set_epoch failed rows → HasOneWriter id_entered rows }
{}

/// Two successful claims never have the same epoch.
pub fn one_claimer_per_epoch<T: Drop>(_value: &T)
    ensures { (decode : List ℕ → Option T) (get_epoch : T → ℕ) (set_epoch : T → ℕ → T) (failed : List ℕ) (rows : List (Row T)) → IsOneHistory decode get_epoch set_epoch failed rows → HasOneClaimer rows }
{}

/// A holder's view never has an epoch below its own, in an answer that shows it and as it stands.
pub fn holders_keep_their_epoch<T: Drop>(_value: &T)
    ensures answers { (decode : List ℕ → Option T) (get_epoch : T → ℕ) (set_epoch : T → ℕ → T) (failed : List ℕ) (rows : List (Row T)) → IsOneHistory decode get_epoch set_epoch failed rows → HoldersRise get_epoch rows }
    ensures views { (decode : List ℕ → Option T) (get_epoch : T → ℕ) (set_epoch : T → ℕ → T) (failed : List ℕ) (rows : List (Row T)) (views : List (Option (View T))) →
        IsOneHistory decode get_epoch set_epoch failed rows → ViewsFit decode get_epoch rows views → HoldersStand get_epoch views }
{}

/// A begin that is allowed by the views as they stand opens the next operation by the rows.
pub fn allowed_begins_open<T: Drop>(_value: &T)
    ensures { (decode : List ℕ → Option T) (get_epoch : T → ℕ) (set_epoch : T → ℕ → T) (failed : List ℕ) (rows : List (Row T)) (seen : AllSeen T) (client : ℕ) (call : Call T) →
        IsOneHistory decode get_epoch set_epoch failed rows → ViewsFit decode get_epoch rows seen.views → fault_of decode get_epoch seen rows (events.Begin client call) ≡ None → Opens decode get_epoch rows (begun_count rows + 1) call }
{}
