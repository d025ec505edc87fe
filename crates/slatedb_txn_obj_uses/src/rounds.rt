//! Figures of rounds.
ghost use Rattle.std.specs.Prelude.{◌≡◌, ◌<◌, ◌/◌, ◌%◌, length};
ghost use Rattle.std.specs.Duration.{as_nanos};
ghost use Rattle.slatedb_txn_obj_uses.specs.Rounds.{IsMiddle};

use std::time::Duration;

/// How many rounds of a workload are measured.
pub const ROUNDS: usize = 5;

/// The whole nanoseconds of one call, where so many took this time.
pub fn nanos_a_call(time: Duration, calls: u64) -> u128
    requires { 0 < calls }
    ensures { result ≡ as_nanos time / calls }
{
    time.as_nanos() / u128::from(calls)
}

/// The middle of an odd count of figures, which are put in ascending order.
pub fn middle_of(figures: &mut [u128]) -> u128
    requires { length figures.old % 2 ≡ 1 }
    ensures { IsMiddle figures.old result }
{
    figures.sort_unstable();
    figures[figures.len() / 2]
}
