//! The clock of a machine, for claims that may take a time.

use slatedb_txn_obj::clock::{Readings, SystemClock};
use std::alloc::AllocError;
use std::rt::Clock;
use std::time::Duration;

/// The machine's clock, which only rises.
#[derive(Drop)]
pub struct MachineClock {
    rt: HostRuntime,
    readings: Readings,
}

impl MachineClock {
    /// A clock that was not read yet.
    ///
    /// # Errors
    ///
    /// Want of memory alone, which changes nothing.
    pub fn new(rt: &HostRuntime) -> Result<MachineClock, AllocError> {
        Ok(MachineClock {
            rt: rt.clone()?,
            readings: Readings::new(),
        })
    }
}

/// The milliseconds of a time, the greatest number where there are more.
fn millis_of(time: Duration) -> u64 {
    u64::try_from(time.as_millis()).unwrap_or(u64::MAX)
}

/// The milliseconds that it reads. Where the system does not tell, it is the greatest number: a claim that began before is late
/// then.
impl SystemClock for MachineClock {
    ghost readings = { λ clock. clock.readings };

    fn now_millis(&mut self) -> u64 {
        let now = match self.rt.monotonic() {
            Ok(time) => millis_of(time),
            Err(_) => u64::MAX,
        };
        self.readings.push(now);
        now
    }
}
