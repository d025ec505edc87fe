//! How the times of recordings are held against each other.
ghost use Rattle.std.specs.Prelude.{◌≡◌};
ghost use Rattle.txn_audit_effects.specs.Clocks.{clock_of};

/// How the times of a recording become times of one clock with those of the others.
#[derive(Clone, Copy, Debug, PartialEq, Eq)]
pub struct Clock {
    /// Which clock it is: the times of one are exact among themselves.
    pub number: usize,
    /// The nanoseconds to add to its times.
    pub ahead: u64,
    /// The most nanoseconds by which they may then still be off.
    pub error: u64,
}

/// A clock that all recordings have.
pub(crate) const SHARED: Clock = Clock {
    number: 0,
    ahead: 0,
    error: 0,
};

impl Clock {
    /// A time, as this clock and those that are as far ahead tell it.
    pub(crate) fn exactly(self, at: u64) -> u64 {
        at.saturating_add(self.ahead)
    }

    /// The earliest moment that a time may be.
    pub(crate) fn earliest(self, at: u64) -> u64 {
        self.exactly(at).saturating_sub(self.error)
    }

    /// The latest moment that a time may be.
    pub(crate) fn latest(self, at: u64) -> u64 {
        self.exactly(at).saturating_add(self.error)
    }
}

/// The clock of a recording: that of all where it has none here.
pub fn clock_of(clocks: &[Clock], recording: usize) -> Clock
    ensures { result ≡ clock_of clocks.now recording }
{
    match clocks.get(recording) {
        Some(clock) => *clock,
        None => SHARED,
    }
}

/// How far two moments have to be apart at the most, that the one is surely before the other.
pub(crate) fn margin_of(clocks: &[Clock]) -> u64 {
    let mut greatest = 0u64;
    for clock in clocks {
        greatest = greatest.max(clock.error);
    }
    greatest.saturating_mul(2)
}
