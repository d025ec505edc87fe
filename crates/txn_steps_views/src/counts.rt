//! How many looks and calls of the store the calls that write on a view make at most, and successors the others find.
ghost use Rattle.std.specs.Prelude.{◌≡◌, ℕ, List, Option, Ok};
ghost use Rattle.txn_store.specs.Paths.{Segments};
ghost use Rattle.txn_store.specs.VersionName.{Names};
ghost use Rattle.txn_store.specs.declared.request.Reply.{Reply};
ghost use Rattle.txn_steps.specs.declared.boundary.caches.Caches.{Caches};
ghost use Rattle.txn_steps.specs.boundary.Counts.{budget_after, SpendsOne};
ghost use Rattle.txn_steps_views.specs.declared.claiming.Claiming.{Claiming};
ghost use Rattle.txn_steps_views.specs.declared.entry.EntryOp.{EntryOp};
ghost use Rattle.txn_steps_views.specs.declared.view_read.ViewReadOp.{ViewReadOp};
ghost use Rattle.txn_steps_views.specs.Attempts.{claiming_turned, IsClaimingInRange};
ghost use Rattle.txn_steps_views.specs.CallsLeft.{entry_budget};
ghost use Rattle.txn_steps_views.specs.Entries.{entry_started, entry_turned, IsEntryReply};
ghost use Rattle.txn_steps_views.specs.ViewReads.{view_read_turned, IsViewReadInRange};

/// The write of a value that a view then shows makes at most five looks
/// and two calls of the store: it has so many left as it starts, and each step takes one of its kind at least and adds none
/// of the other.
pub fn entries_are_short<T: Drop>(_value: &T)
    ensures started { (names : Names) (boundary : Segments) (encode : T → List ℕ) (base : Option ℕ) (value : T) (op : EntryOp T) → entry_started names boundary encode base value ≡ Ok op → entry_budget op ≡ record { looks = 5; calls = 2 } }
    ensures spends { (op : EntryOp T) (caches : Caches) (reply : Option Reply) → IsEntryReply op reply → SpendsOne reply (entry_budget op) (budget_after (entry_turned op caches reply).1 (entry_budget (entry_turned op caches reply).0)) }
{}

/// The reads of these calls find at most four successors: each step leaves them in range.
pub fn reads_stay_in_range<T: Drop>(_value: &T)
    ensures view_read { (names : Names) (path : Segments) (page : ℕ) (decode : List ℕ → Option T) (epoch_of : T → ℕ) (op : ViewReadOp T) (caches : Caches) (reply : Option Reply) → IsViewReadInRange op → IsViewReadInRange (view_read_turned names path page decode epoch_of op caches reply).0 }
    ensures claiming { (names : Names) (path : Segments) (page : ℕ) (encode : T → List ℕ) (decode : List ℕ → Option T) (epoch_of : T → ℕ) (with_epoch : T → ℕ → T) (asked : Option ℕ) (op : Claiming T) (caches : Caches) (reply : Option Reply) → IsClaimingInRange op → IsClaimingInRange (claiming_turned names path page encode decode epoch_of with_epoch asked op caches reply).0 }
{}
