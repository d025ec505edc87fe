//! How many looks and calls of the store writes, deletes and a read of one id make at most, and successors a read finds.
ghost use Rattle.std.specs.Prelude.{◌≡◌, ℕ, List, Option};
ghost use Rattle.txn_store.specs.Paths.{Segments};
ghost use Rattle.txn_store.specs.VersionName.{Names};
ghost use Rattle.txn_store.specs.declared.request.Reply.{Reply};
ghost use Rattle.txn_steps.specs.declared.boundary.caches.Cached.{Cached};
ghost use Rattle.txn_steps.specs.declared.boundary.caches.Caches.{Caches};
ghost use Rattle.txn_steps.specs.boundary.Counts.{budget_after, SpendsOne};
ghost use Rattle.txn_steps.specs.declared.write.WriteUncheckedOp.{WriteUncheckedOp};
ghost use Rattle.txn_steps.specs.declared.write.WriteOp.{WriteOp};
ghost use Rattle.txn_steps.specs.declared.delete.DeleteUncheckedOp.{DeleteUncheckedOp};
ghost use Rattle.txn_steps.specs.declared.delete.DeleteOp.{DeleteOp};
ghost use Rattle.txn_steps.specs.declared.seen.ReadSeenOp.{ReadSeenOp};
ghost use Rattle.txn_steps.specs.declared.seen.ReadSeenOp.TheVariants as seen;
ghost use Rattle.txn_steps.specs.declared.latest.LatestOp.{LatestOp};
ghost use Rattle.txn_steps.specs.declared.read.ReadOp.{ReadOp};
ghost use Rattle.txn_steps.specs.Latest.{InRange, latest_turned};
ghost use Rattle.txn_steps.specs.Reads.{IsInRange, read_started, read_turned};
ghost use Rattle.txn_steps.specs.Writes.{unchecked_started, unchecked_turned, IsUncheckedReply, write_started, write_turned, IsWriteReply};
ghost use Rattle.txn_steps.specs.Deletes.{removal_started, removal_turned, IsRemovalReply, delete_started, delete_turned, IsDeleteReply};
ghost use Rattle.txn_steps.specs.SeenSteps.{seen_turned, IsSeenReply};
ghost use Rattle.txn_steps.specs.CallsLeft.{unchecked_budget, write_budget, removal_budget, delete_budget, seen_budget};

/// An unchecked write makes at most one look and one call of the store, and a write five and two: they have so many left
/// as they start, and each step takes one of its kind at least and adds none of the other.
pub fn writes_are_short()
    ensures unchecked_started { (names : Names) (base : Option ℕ) (bytes : List ℕ) → unchecked_budget (unchecked_started names base bytes) ≡ record { looks = 1; calls = 1 } }
    ensures unchecked_spends { (op : WriteUncheckedOp) (reply : Option Reply) → IsUncheckedReply op reply → SpendsOne reply (unchecked_budget op) (budget_after (unchecked_turned op reply).1 (unchecked_budget (unchecked_turned op reply).0)) }
    ensures started { (names : Names) (boundary : Segments) (base : Option ℕ) (bytes : List ℕ) → write_budget (write_started names boundary base bytes) ≡ record { looks = 5; calls = 2 } }
    ensures spends { (op : WriteOp) (caches : Caches) (reply : Option Reply) → IsWriteReply op reply → SpendsOne reply (write_budget op) (budget_after (write_turned op caches reply).1 (write_budget (write_turned op caches reply).0)) }
{}

/// An unchecked delete makes at most one look and one call of the store, and a delete five and two.
pub fn deletes_are_short()
    ensures unchecked_started { (names : Names) (id : ℕ) → removal_budget (removal_started names id) ≡ record { looks = 1; calls = 1 } }
    ensures unchecked_spends { (op : DeleteUncheckedOp) (reply : Option Reply) → IsRemovalReply op reply → SpendsOne reply (removal_budget op) (budget_after (removal_turned op reply).1 (removal_budget (removal_turned op reply).0)) }
    ensures started { (names : Names) (boundary : Segments) (id : ℕ) → delete_budget (delete_started names boundary id) ≡ record { looks = 5; calls = 2 } }
    ensures spends { (op : DeleteOp) (caches : Caches) (reply : Option Reply) → IsDeleteReply op reply → SpendsOne reply (delete_budget op) (budget_after (delete_turned op caches reply).1 (delete_budget (delete_turned op caches reply).0)) }
{}

/// A read of one id that was perhaps seen makes at most two looks and one call of the store.
pub fn a_seen_read_is_short<T: Drop>(_value: &T)
    ensures started { (id : ℕ) (op : ReadSeenOp T) → op ≡ seen.Looks id → seen_budget op ≡ record { looks = 2; calls = 1 } }
    ensures spends { (names : Names) (decode : List ℕ → Option T) (op : ReadSeenOp T) (latest : List Cached) (reply : Option Reply) → IsSeenReply op reply → SpendsOne reply (seen_budget op) (budget_after (seen_turned names decode op latest reply).1 (seen_budget (seen_turned names decode op latest reply).0)) }
{}

/// A read finds at most four successors: it starts in range, and each step leaves it there, as does one that lacks memory,
/// which leaves what was.
pub fn reads_stay_in_range<T: Drop>(_value: &T)
    ensures started { (path : Segments) (op : ReadOp T) → op ≡ read_started path → IsInRange op }
    ensures unchecked { (names : Names) (page : ℕ) (decode : List ℕ → Option T) (op : LatestOp T) (latest : List Cached) (reply : Option Reply) → InRange op → InRange (latest_turned names page decode op latest reply).0 }
    ensures stays { (names : Names) (path : Segments) (page : ℕ) (decode : List ℕ → Option T) (op : ReadOp T) (caches : Caches) (reply : Option Reply) → IsInRange op → IsInRange (read_turned names path page decode op caches reply).0 }
{}
