//! The calls of an order that have a place, while they are replayed.
ghost use Rattle.std.specs.HashSet.{contains};
ghost use Rattle.std.specs.Prelude.{◌≡◌, ℕ, true, false, IfOk, IfSome, IfNone, length, map};
ghost use Rattle.txn_audit_effects.specs.Clocks.{clock_of};
ghost use Rattle.txn_audit.specs.recordings.Calls.{StoreCall, IsInTime};
ghost use Rattle.txn_audit.specs.recordings.Places.{is_same_pair, as_call, is_placed, HasAsked, IsReplied, ArePlaced, AllArePlaced, IsTaken};

use crate::recordings::fault::RowFault;
use crate::recordings::recorded::{RecordedCall, is_replied, log_row, recorded};
use crate::recordings::refusal::Refusal;
use crate::recordings::times::AskedSoFar;
use std::alloc::{AllocError, Global};
use std::collections::HashSet;
use txn_audit_effects::clock::{Clock, clock_of};
use txn_audit_order::order::{CallPlace, Placed};
use txn_audit_recordings::row::RecordedRow;
use txn_client_journals::rows::LogRow;

/// What is kept of the calls of an order while they are replayed.
#[derive(Drop)]
pub(crate) struct Placing {
    /// The operations that landed, each with its client.
    pub landed: HashSet<(u64, u64)>,
    /// The calls that have a place, by recording and row.
    pub placed: HashSet<(usize, usize)>,
    /// When they were asked.
    pub asked: AskedSoFar,
}

/// Notes a row's landing, where it is one. False where one of the same operation of the same client was noted.
fn note(landed: &mut HashSet<(u64, u64)>, row: &LogRow) -> Result<bool, AllocError>
    ensures kept { (q : ℕ × ℕ) → contains is_same_pair landed.old q ≡ true → contains is_same_pair landed.new q ≡ true }
    ensures new { IfOk result (λ new. new ≡ true → IfSome row.now.landed (λ op. (contains is_same_pair landed.old (row.now.client, op) ≡ false) × (contains is_same_pair landed.new (row.now.client, op) ≡ true))) }
{
    match row.landed {
        Some(op) => Ok(landed.insert((row.client, op))?),
        None => Ok(true),
    }
}

/// Whether a call may stand behind those that were asked so far: its reply, where one was seen, was there no sooner than any of
/// these and it were asked.
fn is_in_time(asked: &AskedSoFar, clocks: &[Clock], call: RecordedCall<'_>) -> bool
    ensures { result ≡ true → (first : StoreCall) → HasAsked asked.now (clock_of clocks.now first.recording) first.asked → IsInTime clocks.now first (as_call call.entry) (as_call call.entry).reply }
{
    match call.reply {
        Some((at, _)) => asked.permits(clock_of(clocks, call.place.recording), at),
        None => true,
    }
}

impl Placing {
    /// Before the first call.
    pub fn new(alloc: Global) -> Placing
        ensures placed { (recording place : ℕ) → is_placed result recording place ≡ false }
    {
        Placing {
            landed: HashSet::new(alloc),
            placed: HashSet::new(alloc),
            asked: AskedSoFar::new(alloc),
        }
    }

    /// The row of the log that the next call of the order is, which has this place there.
    ///
    /// # Errors
    ///
    /// `Row` for a place at which no call is recorded, for a landing that has a reply, and for the second landing of one operation;
    /// `OutOfTime` where its reply was there before it or a call before it was asked; `NoMemory` where a growth was refused.
    pub fn take<T>(
        &mut self,
        recordings: &[Vec<RecordedRow<T>>],
        clocks: &[Clock],
        placed: Placed,
        at: u64,
    ) -> Result<LogRow, Refusal>
        ensures { IfOk result (λ row. IsTaken (map (λ rows. rows.items) recordings.now) clocks.now self.old row self.new) }
    {
        let place = placed.call;
        let Some(call) = recorded(recordings, place) else {
            return Err(Refusal::Row(place, RowFault::NoClient));
        };
        self.asked
            .add(clock_of(clocks, place.recording), call.asked)?;
        if !is_in_time(&self.asked, clocks, call) {
            return Err(Refusal::OutOfTime(place, at));
        }
        let Some(row) = log_row(call, placed.landed)? else {
            return Err(Refusal::Row(place, RowFault::NoPlace));
        };
        if !note(&mut self.landed, &row)? {
            return Err(Refusal::Row(place, RowFault::NoPlace));
        }
        self.placed.insert((place.recording, place.row))?;
        Ok(row)
    }

    /// Whether the row at a place of a recording has a reply and no place in the order.
    fn is_missing<T>(&self, recording: usize, rows: &[RecordedRow<T>], place: usize) -> bool
        ensures { result ≡ false → IsReplied rows.now place → is_placed self.now recording place ≡ true }
    {
        is_replied(rows, place) && !self.placed.contains(&(recording, place))
    }

    /// The first row of a recording that has a reply and no place in the order.
    fn missing_in<T>(&self, recording: usize, rows: &[RecordedRow<T>]) -> Option<usize>
        ensures { IfNone result (ArePlaced self.now recording rows.now (length rows.now)) }
    {
        for place in 0..rows.len() {
            if self.is_missing(recording, rows, place) {
                return Some(place);
            }
        }
        None
    }

    /// The first call that has a reply and no place in the order.
    pub fn missing<T>(&self, recordings: &[Vec<RecordedRow<T>>]) -> Option<CallPlace>
        ensures { IfNone result (AllArePlaced self.now (map (λ rows. rows.items) recordings.now) (length recordings.now)) }
    {
        for recording in 0..recordings.len() {
            if let Some(row) = self.missing_in(recording, recordings[recording].as_slice()) {
                return Some(CallPlace { recording, row });
            }
        }
        None
    }
}
