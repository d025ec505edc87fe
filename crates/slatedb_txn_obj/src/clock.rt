//! Clocks, and how long a claim may take.
ghost use Rattle.std.specs.Prelude.{◌≡◌, ◌≤◌, ◌<◌, ◌-◌, ℕ, List, [], ◌∷◌, ◌++◌, OnOk, IfErr};
ghost use Rattle.std.specs.Borrow.{ftrue};
ghost use Rattle.slatedb_txn_obj.specs.Claims.{ReadsOne};

use std::marker::Model;
use txn_store::types::error::TransactionalObjectError;

/// A clock. Its meaning is the list of the readings that it has given, the first first.
pub trait SystemClock {
    ghost use Rattle.std.specs.Prelude.{ℕ, List, [], ◌≡◌, ◌∷◌, ◌++◌};

    /// The readings so far.
    ghost readings: { Self → List ℕ };

    /// The time, in milliseconds. It may go back.
    fn now_millis(&mut self) -> u64
        ensures { readings self.new ≡ readings self.old ++ result ∷ [] };
}

/// Numbers in no field.
#[derive(Drop)]
struct Unread {
    ghost values: { List ℕ },
}

impl Model for Unread {
    ghost also_owns = { λ _. ftrue };
}

impl Unread {
    fn new() -> Unread
        ensures { result.values ≡ [] }
    {
        Unread {}
    }

    fn then(&self, _value: u64) -> Unread
        ensures { result.values ≡ self.now.values ++ _value ∷ [] }
    {
        Unread {}
    }
}

/// The readings that a clock has given, the first first, by which a clock of one's own keeps `SystemClock`: it adds each
/// reading that it gives. Clauses alone read them. They take no memory, and nothing of them runs.
#[derive(Drop)]
pub struct Readings {
    unread: Unread,
}

impl Model for Readings {
    ghost use Rattle.std.specs.Prelude.{ℕ, List};

    ghost Value = { List ℕ };

    ghost view = { λ r. r.unread.values };
}

impl Readings {
    /// None yet.
    pub fn new() -> Readings
        ensures { result ≡ [] }
    {
        Readings {
            unread: Unread::new(),
        }
    }

    /// One more.
    pub fn push(&mut self, reading: u64)
        ensures { self.new ≡ self.old ++ reading ∷ [] }
    {
        self.unread = self.unread.then(reading);
    }
}

/// When a call began, and how long it may take, in milliseconds.
#[derive(Clone, Copy, Debug)]
pub struct Deadline {
    start: u64,
    timeout: u64,
}

impl Deadline {
    /// From the time on that the clock reads.
    pub fn starting<K: SystemClock>(clock: &mut K, timeout: u64) -> Deadline
        ensures timeout { result.timeout ≡ timeout }
        ensures read { K.readings clock.new ≡ K.readings clock.old ++ result.start ∷ [] }
    {
        let start = clock.now_millis();
        Deadline { start, timeout }
    }

    /// Reads the clock. A reading below the start counts as the start.
    ///
    /// # Errors
    ///
    /// `ObjectUpdateTimeout`, with the timeout in milliseconds, where it reads the start plus the timeout or later. One reading
    /// more has been made, as after an answer.
    pub fn check<K: SystemClock>(&self, clock: &mut K) -> Result<(), TransactionalObjectError>
        ensures in_time { OnOk result (ReadsOne (λ r. r - self.now.start < self.now.timeout) (K.readings clock.old) (K.readings clock.new)) }
        ensures late { IfErr result (λ e. (e ≡ TransactionalObjectError.ObjectUpdateTimeout self.now.timeout) × ReadsOne (λ r. self.now.timeout ≤ r - self.now.start) (K.readings clock.old) (K.readings clock.new)) }
    {
        if clock.now_millis().saturating_sub(self.start) >= self.timeout {
            return Err(TransactionalObjectError::ObjectUpdateTimeout {
                timeout: self.timeout,
            });
        }
        Ok(())
    }
}
