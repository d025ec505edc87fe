//! The store calls of recordings in the order of their times, where there is no other order.

ghost use Rattle.std.specs.Prelude.{◌≡◌, ◌++◌, IfOk, OnOk, map, IsPermutation};
ghost use Rattle.std.specs.List.Sorted.{IsNonDecreasingBy, IsStableByKey};
ghost use Rattle.std.specs.Ordering.{nat_cmp};
ghost use Rattle.txn_drawing_recordings.specs.ByTime.{timed_row, timed_rows, placed_of, IsByTime};

use std::alloc::{AllocError, Global};
use txn_audit_effects::clock::{Clock, clock_of};
use txn_audit_order::order::{CallPlace, Placed};
use txn_audit_recordings::row::RecordedRow;

/// A call and when its reply was there, or when it was asked, in nanoseconds.
#[derive(Clone, Copy)]
pub(crate) struct Timed {
    pub(crate) at: u64,
    pub(crate) call: CallPlace,
}

/// Adds the call of a row, if that is a reply.
fn add_call<T>(
    calls: &mut Vec<Timed>,
    recording: usize,
    ahead: u64,
    row: usize,
    it: &RecordedRow<T>,
) -> Result<(), AllocError>
    ensures { OnOk result (calls.new.items ≡ calls.old.items ++ timed_row recording ahead row it.now) }
{
    match it {
        RecordedRow::Reply(_, at, _) => {
            calls.push(Timed {
                at: at.saturating_add(ahead),
                call: CallPlace {
                    recording,
                    row: row.saturating_sub(1),
                },
            })?;
            Ok(())
        }
        _ => Ok(()),
    }
}

/// Adds the calls of a recording that have a reply.
fn add_calls<T>(
    calls: &mut Vec<Timed>,
    recording: usize,
    rows: &[RecordedRow<T>],
    ahead: u64,
) -> Result<(), AllocError>
    ensures { OnOk result (calls.new.items ≡ calls.old.items ++ timed_rows recording ahead 0 rows.now) }
{
    for (row, it) in rows.iter().enumerate() {
        add_call(calls, recording, ahead, row, it)?;
    }
    Ok(())
}

/// Puts calls into the order of their times.
pub(crate) fn sort(calls: &mut Vec<Timed>) -> Result<(), AllocError>
    ensures same { IsPermutation calls.old.items calls.new.items }
    ensures sorted { OnOk result (IsNonDecreasingBy (λ it. it.at) calls.new.items) }
    ensures stable { OnOk result (IsStableByKey (λ it. it.at) nat_cmp calls.old.items calls.new.items) }
{
    calls.sort_by_key(|it| it.at)?;
    Ok(())
}

/// The places of calls, none of which landed late.
fn placed(alloc: Global, calls: &[Timed]) -> Result<Vec<Placed>, AllocError>
    ensures { IfOk result (λ order. order.items ≡ map placed_of calls.now) }
{
    let mut order = Vec::new(alloc);
    for it in calls {
        order.push(Placed {
            call: it.call,
            landed: None,
        })?;
    }
    Ok(order)
}

/// The calls that have a reply, in the order of the times of these.
///
/// # Errors
///
/// Want of memory alone.
pub fn by_time<T>(
    alloc: Global,
    recordings: &[Vec<RecordedRow<T>>],
    clocks: &[Clock],
) -> Result<Vec<Placed>, AllocError>
    ensures { IfOk result (λ order. IsByTime clocks.now recordings.now order.items) }
{
    let mut calls = Vec::new(alloc);
    for (recording, rows) in recordings.iter().enumerate() {
        let ahead = clock_of(clocks, recording).ahead;
        add_calls(&mut calls, recording, rows.as_slice(), ahead)?;
    }
    sort(&mut calls)?;
    let order = placed(alloc, calls.as_slice())?;
    Ok(order)
}
