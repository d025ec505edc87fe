//! Lengths of time in words.

ghost use Rattle.std.specs.Prelude.{◌≡◌, ℕ, ◌≤◌, IfOk, string_bytes};
ghost use Rattle.txn_drawing_moments.specs.Durations.{unit_text, duration_text};

use std::alloc::{AllocError, Global};

/// A length of time in a unit, of which this is a hundredth: three digits of it, or all where it has more before the point.
fn in_unit(
    alloc: Global,
    nanoseconds: u64,
    hundredth: u64,
    unit: &str,
) -> Result<String, AllocError>
    requires { 1 ≤ hundredth }
    ensures { IfOk result (λ words. string_bytes words ≡ unit_text nanoseconds hundredth unit.now) }
{
    let hundredths = nanoseconds / hundredth;
    let (whole, tenth, last) = (hundredths / 100, hundredths / 10 % 10, hundredths % 10);
    if whole >= 100 || (tenth == 0 && (whole >= 10 || last == 0)) {
        format!(in alloc; "{whole} {unit}")
    } else if whole >= 10 || last == 0 {
        format!(in alloc; "{whole}.{tenth} {unit}")
    } else {
        format!(in alloc; "{whole}.{tenth}{last} {unit}")
    }
}

/// A length of time in words, in the greatest unit of which it has one: seconds, milliseconds, microseconds or nanoseconds. Three
/// of its digits, or all before the point, and none of it is rounded up.
///
/// # Errors
///
/// Want of memory alone.
pub fn duration(alloc: Global, nanoseconds: u64) -> Result<String, AllocError>
    ensures { IfOk result (λ words. string_bytes words ≡ duration_text nanoseconds) }
{
    match nanoseconds {
        0..=999 => format!(in alloc; "{nanoseconds} ns"),
        1_000..=999_999 => in_unit(alloc, nanoseconds, 10, "µs"),
        1_000_000..=999_999_999 => in_unit(alloc, nanoseconds, 10_000, "ms"),
        _ => in_unit(alloc, nanoseconds, 10_000_000, "s"),
    }
}
