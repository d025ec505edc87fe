//! Whether an order of calls keeps the recorded times.
ghost use Rattle.std.specs.Prelude.{◌≡◌, ◌+◌, ℕ, true, OnOk};
ghost use Rattle.txn_audit_effects.specs.declared.clock.Clock.{Clock};
ghost use Rattle.txn_audit_effects.specs.Clocks.{MayPrecede};
ghost use Rattle.txn_audit.specs.recordings.Places.{latest_of, HasAsked, KeepsAsked};

use std::alloc::{AllocError, Global};
use std::collections::HashMap;
use txn_audit_effects::clock::Clock;

/// When the calls of an order were asked, so far: the latest times alone, so that it takes the same work however many calls there
/// are. A sum of two times has more than 64 bits.
#[derive(Drop)]
pub(crate) struct AskedSoFar {
    /// By the number of a clock, the latest of its own times.
    pub of_clock: HashMap<usize, u128>,
    /// The latest of all, each taken as early as its clock may be off.
    pub of_all: u128,
}

/// A time as this clock and those that are as far ahead tell it.
fn exactly(clock: Clock, at: u64) -> u128
    ensures { result ≡ at + clock.ahead }
{
    u128::from(at) + u128::from(clock.ahead)
}

impl AskedSoFar {
    /// Before the first call.
    pub fn new(alloc: Global) -> AskedSoFar {
        AskedSoFar {
            of_clock: HashMap::new(alloc),
            of_all: 0,
        }
    }

    /// The latest time of a clock, 0 where it has none.
    fn latest(&self, number: usize) -> u128
        ensures { result ≡ latest_of self.now number }
    {
        match self.of_clock.get(&number) {
            Some(at) => *at,
            None => 0,
        }
    }

    /// Whether a reply that was there at this time was there no sooner than each call was asked.
    pub fn permits(&self, clock: Clock, replied: u64) -> bool
        ensures { result ≡ true → (one : Clock) (asked : ℕ) → HasAsked self.now one asked → MayPrecede one asked clock replied }
    {
        let told = exactly(clock, replied);
        self.latest(clock.number) <= told && self.of_all <= told + u128::from(clock.error)
    }

    /// Adds a call that was asked at this time.
    ///
    /// # Errors
    ///
    /// Want of memory alone. The times are as they were.
    pub fn add(&mut self, clock: Clock, asked: u64) -> Result<(), AllocError>
        ensures added { OnOk result (HasAsked self.new clock asked) }
        ensures kept { OnOk result (KeepsAsked self.old self.new) }
    {
        let at = exactly(clock, asked);
        let latest = self.latest(clock.number).max(at);
        self.of_clock.insert(clock.number, latest)?;
        self.of_all = self.of_all.max(at.saturating_sub(u128::from(clock.error)));
        Ok(())
    }
}
