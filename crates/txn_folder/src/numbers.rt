//! The numbers of a process's files.
ghost use Rattle.std.specs.Prelude.{◌≡◌, ◌<◌, ◌≤◌, IfOk, IfSome, OnErr};

use std::rt::Clock;
use txn_folder_files::fault::{Doing, Fault, Halt, at_error};
use txn_folder_files::written::number_now;

/// The numbers that a process gives to the files that it writes: the nanoseconds since 1970, more than the last, and ending
/// in 1.
#[derive(Drop)]
pub(crate) struct Numbers {
    last: u64,
    /// Whether the file system kept a number as a time. None that ends in 1 is kept by a clock that counts in anything more
    /// than a nanosecond, so one file shows it.
    are_kept: bool,
}

/// The first number from this one on that ends in 1, where there is one.
fn ending_in_1(number: u64) -> Option<u64>
    ensures { IfSome result (λ found. number ≤ found) }
{
    let digit = number % 10;
    number.checked_add(11_u64.saturating_sub(digit) % 10)
}

impl Numbers {
    pub fn new() -> Numbers
        ensures { result.last ≡ 0 }
    {
        Numbers {
            last: 0,
            are_kept: false,
        }
    }

    /// The next number. Where none is left, or the clock fails, it is a fault.
    pub fn next<R: Clock>(&mut self, rt: &R) -> Result<u64, Halt>
        ensures rises { IfOk result (λ number. self.old.last < number) }
        ensures ok { IfOk result (λ number. self.new.last ≡ number) }
        ensures err { OnErr result (self.new ≡ self.old) }
    {
        let now = match number_now(rt) {
            Ok(now) => now,
            Err(error) => return Err(at_error(Doing::ReadingClock, error)),
        };
        let Some(next) = self.last.checked_add(1) else {
            return Err(Halt::Fault(Fault::at(Doing::ReadingClock)));
        };
        let Some(number) = ending_in_1(now.max(next)) else {
            return Err(Halt::Fault(Fault::at(Doing::ReadingClock)));
        };
        self.last = number;
        Ok(number)
    }

    /// Whether the time of a file has to be read back: none was yet.
    pub fn are_untried(&self) -> bool {
        !self.are_kept
    }

    /// The time of a file was kept.
    pub fn keep(&mut self)
        ensures { self.new.last ≡ self.old.last }
    {
        self.are_kept = true;
    }
}
