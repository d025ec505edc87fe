//! What follows of recordings that are one history.
ghost use Rattle.std.specs.Prelude.{◌≡◌, ℕ, List, Option, Some, IsSome, reverse};
ghost use Rattle.txn_store.specs.declared.request.Reply.{Reply};
ghost use Rattle.txn_client_journals.specs.declared.rows.LogRow.{LogRow};
ghost use Rattle.txn_client_journals.specs.Merged.{Merged};
ghost use Rattle.txn_client_journals.specs.Shares.{Merges};
ghost use Rattle.txn_client_journals.specs.Traces.{trace_of};
ghost use Rattle.txn_client_journals.specs.Verdict.{AuditedDiary};
ghost use Rattle.txn_audit.specs.HistoryEnds.{EndsAt};
ghost use Rattle.txn_audit_recordings.specs.declared.row.RecordedRow.{RecordedRow};
ghost use Rattle.txn_audit_effects.specs.declared.clock.Clock.{Clock};
ghost use Rattle.txn_audit.specs.recordings.Calls.{StoreCall, HasCall, IsInTime, StandsBehind};
ghost use Rattle.txn_audit.specs.recordings.OneHistory.{IsOneHistoryOf};
ghost use Rattle.txn_audit.specs.recordings.Undecided.{version_shown, boundary_shown, undecided};

/// A call that was asked later than the reply to another was there, by their clocks, stands behind that in the log. So a read
/// that began after a write was answered comes after it.
pub fn later_calls_stand_behind<T: Drop>(_value: &T)
    ensures { (text encode : T → List ℕ) (decode : List ℕ → Option T) (get_epoch : T → ℕ) (set_epoch : T → ℕ → T) (recordings : List (List (RecordedRow T))) (clocks : List Clock) (log : List LogRow) (ds : List (AuditedDiary T)) (first second : StoreCall) (reply : ℕ × Reply) →
        IsOneHistoryOf text encode decode get_epoch set_epoch recordings clocks log ds → HasCall recordings first → HasCall recordings second → first.reply ≡ Some reply → IsSome second.reply → (IsInTime clocks second first (Some reply) → ⊥) → StandsBehind log first second }
{}

/// Where no put without a reply may decide how the history of recordings ends (`undecided` is 0), each history that they are ends
/// alike: in as many entries as the newest version that replies to puts and gets show, and at the greatest boundary that these
/// show.
pub fn histories_end_alike<T: Drop>(_value: &T)
    ensures { (text encode : T → List ℕ) (decode : List ℕ → Option T) (get_epoch : T → ℕ) (set_epoch : T → ℕ → T) (recordings : List (List (RecordedRow T))) (clocks : List Clock) (log : List LogRow) (ds : List (AuditedDiary T)) →
        IsOneHistoryOf text encode decode get_epoch set_epoch recordings clocks log ds → undecided recordings ≡ 0 → (m : Merged T) → Merges log ds m → EndsAt (trace_of (reverse m)) (version_shown recordings) (boundary_shown recordings) }
{}
