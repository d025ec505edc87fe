//! Numbers of calls, by their places.

ghost use Rattle.std.specs.Prelude.{◌≡◌};
ghost use Rattle.txn_drawing_recordings.specs.Places.{number_of};

use crate::rings::Ringed;
use std::alloc::{AllocError, Global};
use std::collections::BTreeMap;
use txn_audit_order::order::CallPlace;

/// Numbers of calls, by the recording and the row of each.
pub(crate) type Numbers = BTreeMap<(usize, usize), u64>;

/// The number of a call, 0 where it has none.
pub(crate) fn number_in(numbers: &Numbers, at: CallPlace) -> u64
    ensures { result ≡ number_of numbers.now at }
{
    match numbers.get(&(at.recording, at.row)) {
        Some(number) => *number,
        None => 0,
    }
}

/// The numbers of calls in this order, counted from 1.
pub(crate) fn numbered(alloc: Global, ringed: &[Ringed]) -> Result<Numbers, AllocError> {
    let mut numbers = BTreeMap::new(alloc);
    for (place, it) in ringed.iter().enumerate() {
        numbers.insert((it.call.recording, it.call.row), place as u64 + 1)?;
    }
    Ok(numbers)
}
