//! What holds after every run of the layer, whatever the writes and the reads do that its calls make.
ghost use Rattle.std.specs.Prelude.{◌≡◌, ◌≤◌, ◌+◌, List, Option, Some, ℕ};
ghost use Rattle.txn_history.specs.Laws.{HasOneClaimer};
ghost use Rattle.txn_history.specs.OneHistory.{IsOneHistory};
ghost use Rattle.txn_history.specs.Views.{view_count, ViewFits};
ghost use Rattle.txn_machine.specs.views.Layer.{Layer, Used, opening};
ghost use Rattle.txn_machine.specs.views.Steps.{Runs, Steps, GoesOn, IsHeld, Makeable};

/// After every run the rows are one history of all calls, each view that is there fits, and no two claims are held with
/// one epoch.
pub fn one_history<T: Drop>(_value: &T)
    ensures rows { (decode : List ℕ → Option T) (get_epoch : T → ℕ) (set_epoch : T → ℕ → T) (n : ℕ) (s : Layer T) → Runs decode get_epoch set_epoch n opening s → IsOneHistory decode get_epoch set_epoch s.failed s.rows }
    ensures count { (decode : List ℕ → Option T) (get_epoch : T → ℕ) (set_epoch : T → ℕ → T) (n : ℕ) (s : Layer T) → Runs decode get_epoch set_epoch n opening s → s.count ≡ view_count s.rows }
    ensures views { (decode : List ℕ → Option T) (get_epoch : T → ℕ) (set_epoch : T → ℕ → T) (n : ℕ) (s : Layer T) → Runs decode get_epoch set_epoch n opening s → (number : ℕ) (used : Used T) → s.views number ≡ Some used → (number ≤ s.count) × ViewFits decode get_epoch s.rows number used.view }
    ensures claims { (decode : List ℕ → Option T) (get_epoch : T → ℕ) (set_epoch : T → ℕ → T) (n : ℕ) (s : Layer T) → Runs decode get_epoch set_epoch n opening s → HasOneClaimer s.rows }
{}

/// From step to step, of what a run leads to, each view that was made goes on: its client stays, its id never falls, and
/// a holder stays one of the same epoch. A view that has ended stays ended.
pub fn views_go_on<T: Drop>(_value: &T)
    ensures { (decode : List ℕ → Option T) (get_epoch : T → ℕ) (set_epoch : T → ℕ → T) (n : ℕ) (s after : Layer T) → Runs decode get_epoch set_epoch n opening s → Steps decode get_epoch set_epoch s after → (number : ℕ) → number ≤ s.count → GoesOn (s.views number) (after.views number) }
{}

/// There is a run: a client makes the first version and a view of it, and claims that, with an epoch above the version's.
pub fn a_view_is_claimed<T: Drop>(_value: &T)
    ensures { (decode : List ℕ → Option T) (get_epoch : T → ℕ) (set_epoch : T → ℕ → T) (value : T) → Makeable decode get_epoch set_epoch value → (s : Layer T) × Runs decode get_epoch set_epoch 6 opening s × IsHeld s 1 (get_epoch value + 1) }
{}
