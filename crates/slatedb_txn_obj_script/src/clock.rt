//! The clock of claims.
use slatedb_txn_obj::{Readings, SystemClock};
use slatedb_txn_obj_uses::ticking::TickingClock;

/// A clock that gives the readings of a script, one after another, and after the last of them 0, 1, 2 and so on.
#[derive(Drop)]
pub(crate) struct LineClock {
    script: Vec<u64>,
    /// How often it was read.
    read: usize,
    after: TickingClock,
    given: Readings,
}

impl LineClock {
    /// One that was never read.
    pub(crate) fn new(script: Vec<u64>) -> LineClock {
        LineClock {
            script,
            read: 0,
            after: TickingClock::new(),
            given: Readings::new(),
        }
    }

    /// How often it was read.
    pub(crate) fn read(&self) -> usize {
        self.read
    }
}

impl SystemClock for LineClock {
    ghost readings = { λ c. c.given };

    fn now_millis(&mut self) -> u64 {
        let reading = match self.script.get(self.read) {
            Some(reading) => *reading,
            None => self.after.now_millis(),
        };
        self.read = self.read.saturating_add(1);
        self.given.push(reading);
        reading
    }
}
