//! A clock of one's own.
ghost use Rattle.std.specs.Prelude.{◌≡◌, ◌-◌, ◌^◌, [], ◌∷◌, ◌++◌, min, length};

use slatedb_txn_obj::{Readings, SystemClock};
use std::marker::Model;

/// A clock that reads 0, then 1, and so on, and stays at 18446744073709551615. A clause sees the readings that it has given.
#[derive(Drop)]
pub struct TickingClock {
    next: u64,
    given: Readings,
}

impl Model for TickingClock {
    ghost use Rattle.std.specs.Prelude.{◌≡◌, ◌-◌, ◌^◌, ℕ, List, min, length};

    ghost Value = { List ℕ };

    ghost view = { λ c. c.given };

    ghost invariant = { λ c. c.next ≡ min (length c.given) (2 ^ 64 - 1) };
}

impl TickingClock {
    /// One that was never read. It takes no memory.
    pub fn new() -> TickingClock
        ensures { result ≡ [] }
    {
        TickingClock {
            next: 0,
            given: Readings::new(),
        }
    }
}

impl SystemClock for TickingClock {
    ghost readings = { λ c. c };

    fn now_millis(&mut self) -> u64
        ensures given { self.new ≡ self.old ++ result ∷ [] }
        ensures ticks { result ≡ min (length self.old) (2 ^ 64 - 1) }
    {
        let reading = self.next;
        self.given.push(reading);
        self.next = reading.saturating_add(1);
        reading
    }
}
