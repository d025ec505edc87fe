//! The calls whose reply nobody saw, and that have no place in an order.

use crate::numbers::{Numbers, number_in};
use crate::times::{Timed, sort};
use std::alloc::{AllocError, Global};
use std::collections::BTreeMap;
use txn_audit_effects::clock::{Clock, clock_of};
use txn_audit_order::order::{CallPlace, Placed};
use txn_audit_recordings::row::RecordedRow;

/// Whether a row is a reply.
fn is_reply<T>(row: Option<&RecordedRow<T>>) -> bool {
    matches!(row, Some(RecordedRow::Reply(..)))
}

/// Whether a reply stands in rows from one up to another.
pub(crate) fn has_reply<T>(rows: &[RecordedRow<T>], from: usize, to: usize) -> bool {
    for place in from..to {
        if is_reply(rows.get(place)) {
            return true;
        }
    }
    false
}

/// The calls of an order, by their places.
fn placed(alloc: Global, order: &[Placed]) -> Result<Numbers, AllocError> {
    let mut numbers = BTreeMap::new(alloc);
    for it in order {
        numbers.insert((it.call.recording, it.call.row), 1)?;
    }
    Ok(numbers)
}

/// Adds the calls of a recording that have no reply and no place.
fn add_lost<T>(
    lost: &mut Vec<Timed>,
    recording: usize,
    rows: &[RecordedRow<T>],
    ahead: u64,
    placed: &Numbers,
) -> Result<(), AllocError> {
    for (row, it) in rows.iter().enumerate() {
        let call = CallPlace { recording, row };
        if let RecordedRow::Ask(_, at, _) = it {
            let is_told = is_reply(rows.get(row.saturating_add(1))) || number_in(placed, call) != 0;
            if !is_told {
                lost.push(Timed {
                    at: at.saturating_add(ahead),
                    call,
                })?;
            }
        }
    }
    Ok(())
}

/// The calls whose reply nobody saw and that have no place in an order, in the order in which they were asked.
///
/// # Errors
///
/// Want of memory alone.
pub(crate) fn lost_calls<T>(
    alloc: Global,
    recordings: &[Vec<RecordedRow<T>>],
    clocks: &[Clock],
    order: &[Placed],
) -> Result<Vec<Timed>, AllocError> {
    let placed = placed(alloc, order)?;
    let mut lost = Vec::new(alloc);
    for (recording, rows) in recordings.iter().enumerate() {
        let ahead = clock_of(clocks, recording).ahead;
        add_lost(&mut lost, recording, rows.as_slice(), ahead, &placed)?;
    }
    sort(&mut lost)?;
    Ok(lost)
}
