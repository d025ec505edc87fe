//! A clock for claims.
ghost use Rattle.std.specs.Prelude.{◌≡◌, [], ◌∷◌, ◌++◌};

use slatedb_txn_obj::{Readings, SystemClock};
use std::marker::Model;

/// A clock that stands still at 0, so that no claim is late.
#[derive(Drop)]
pub struct StoppedClock {
    given: Readings,
}

impl Model for StoppedClock {
    ghost use Rattle.std.specs.Prelude.{ℕ, List};

    ghost Value = { List ℕ };

    ghost view = { λ c. c.given };
}

impl StoppedClock {
    /// One that was never read. It takes no memory.
    pub fn new() -> StoppedClock
        ensures { result ≡ [] }
    {
        StoppedClock {
            given: Readings::new(),
        }
    }
}

impl SystemClock for StoppedClock {
    ghost readings = { λ c. c };

    fn now_millis(&mut self) -> u64
        ensures given { self.new ≡ self.old ++ result ∷ [] }
        ensures still { result ≡ 0 }
    {
        self.given.push(0);
        0
    }
}
