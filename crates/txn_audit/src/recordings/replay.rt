//! The recorded calls on an honest store, in their order.
ghost use Rattle.std.specs.Prelude.{IfOk, map};
ghost use Rattle.txn_audit.specs.recordings.Places.{IsReplayed};

use crate::recordings::fault::RowFault;
use crate::recordings::placing::Placing;
use crate::recordings::refusal::Refusal;
use std::alloc::{AllocError, Global};
use txn_audit_effects::clock::Clock;
use txn_audit_order::order::Placed;
use txn_audit_recordings::row::RecordedRow;
use txn_client_journals::audited::Logged;
use txn_client_journals::honest::HonestLog;
use txn_client_journals::log_fault::LogFault;

/// For each recording the places of its replies in an order.
pub(crate) fn places_of(
    alloc: Global,
    recordings: usize,
    order: &[Placed],
) -> Result<Vec<Vec<u64>>, AllocError> {
    let mut places: Vec<Vec<u64>> = Vec::new(alloc);
    for _ in 0..recordings {
        places.push(Vec::new(alloc))?;
    }
    for place in 0..order.len() {
        let placed = &order[place];
        if placed.landed.is_none() {
            if let Some(places) = places.get_mut(placed.call.recording) {
                places.push(place as u64)?;
            }
        }
    }
    Ok(places)
}

/// The calls on an honest store, in this order, which is to keep their times by these clocks.
///
/// # Errors
///
/// `Dishonest` for the first reply that no honest store gives there, `OutOfTime` for the first that was there before its call or an
/// earlier one was asked, `Row` for a place at which no call is recorded, for the second landing of one operation, and for a reply
/// without a place, `NoMemory` where a growth was refused.
pub(crate) fn replay<T>(
    alloc: Global,
    recordings: &[Vec<RecordedRow<T>>],
    clocks: &[Clock],
    order: Vec<Placed>,
) -> Result<HonestLog, Refusal>
    ensures { IfOk result (IsReplayed (map (λ rows. rows.items) recordings.now) clocks.now) }
{
    let mut log = HonestLog::new(alloc);
    let mut placing = Placing::new(alloc);
    for placed in order {
        let call = placed.call;
        let place = log.log().len() as u64;
        let row = placing.take(recordings, clocks, placed, place)?;
        match log.push(alloc, row) {
            Ok(()) => {}
            Err(LogFault::NoMemory) => return Err(Refusal::NoMemory),
            Err(fault) => return Err(Refusal::Dishonest(call, place, fault)),
        }
    }
    match placing.missing(recordings) {
        Some(call) => Err(Refusal::Row(call, RowFault::NoPlace)),
        None => Ok(log),
    }
}
