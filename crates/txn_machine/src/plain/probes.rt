//! The law of how often an unchecked read of the newest version probes.
ghost use Rattle.std.specs.Prelude.{◌≡◌, ◌+◌, ◌≤◌, ℕ, List, Option};
ghost use Rattle.txn_store.specs.VersionName.{Names};
ghost use Rattle.txn_steps.specs.declared.latest.LatestOp.{LatestOp};
ghost use Rattle.txn_steps.specs.declared.latest.LatestOp.TheVariants.{Looks};
ghost use Rattle.txn_steps.specs.Latest.{InRange};
ghost use Rattle.txn_machine.specs.plain.Probing.{probe_count, probes, probes_left, GoesTo, GoesThrough};

/// An unchecked read of the newest version makes at most four probes, whatever its client keeps and the store replies, and
/// none once it lists: a probe takes one of those that are left.
pub fn four_probes<T: Drop>(_value: &T)
    ensures few { (names : Names) (page : ℕ) (decode : List ℕ → Option T) (states : List (LatestOp T)) → GoesThrough names page decode Looks states → probes states ≤ 4 }
    ensures takes { (names : Names) (page : ℕ) (decode : List ℕ → Option T) (op next : LatestOp T) → InRange op → GoesTo names page decode op next → probe_count op + probes_left next ≤ probes_left op }
{}
