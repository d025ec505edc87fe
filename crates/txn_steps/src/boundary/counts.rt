//! How many looks and calls of the store a check makes at most.
ghost use Rattle.std.specs.Prelude.{◌≡◌, ℕ, Option};
ghost use Rattle.txn_store.specs.Paths.{Segments};
ghost use Rattle.txn_store.specs.declared.request.Reply.{Reply};
ghost use Rattle.txn_steps.specs.declared.boundary.caches.Caches.{Caches};
ghost use Rattle.txn_steps.specs.declared.boundary.check.CheckOp.{CheckOp};
ghost use Rattle.txn_steps.specs.boundary.Checks.{check_started, check_turned, IsCheckReply};
ghost use Rattle.txn_steps.specs.boundary.Counts.{check_budget, budget_after, SpendsOne};

/// A check makes at most four looks and one call of the store: it has so many left as it starts, and each step takes one
/// of its kind at least and adds none of the other.
pub fn a_check_is_short()
    ensures started { (path : Segments) (id : ℕ) → check_budget (check_started path id) ≡ record { looks = 4; calls = 1 } }
    ensures spends { (op : CheckOp) (caches : Caches) (reply : Option Reply) → IsCheckReply op reply → SpendsOne reply (check_budget op) (budget_after (check_turned op caches reply).1 (check_budget (check_turned op caches reply).0)) }
{}
