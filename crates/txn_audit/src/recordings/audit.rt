//! The audit of recordings.
ghost use Rattle.std.specs.Prelude.{◌≤◌, All, IfOk, map};
ghost use Rattle.txn_store.specs.types.Clones.{IsExactClone};
ghost use Rattle.txn_diary.specs.Diaries.{as_diary, IsMadeWith};
ghost use Rattle.txn_audit.specs.recordings.OneHistory.{IsOf, AreOf, IsOneHistoryOf};

use crate::diaries::audit_diaries;
use crate::recordings::fault::RowFault;
use crate::recordings::rebuild::rebuild;
use crate::recordings::refusal::Refusal;
use crate::recordings::replay::{places_of, replay};
use std::alloc::{AllocError, Global};
use std::collections::HashSet;
use txn_audit_effects::clock::Clock;
use txn_audit_order::order::{CallPlace, order};
use txn_audit_recordings::row::RecordedRow;
use txn_client_journals::fault::AuditFault;
use txn_client_journals::honest::HonestLog;
use txn_diary::diary::Diary;
use txn_script_lines::text_form::LineValue;
use txn_store::types::codec::ObjectCodec;
use txn_store::types::epoch::EpochField;

/// What an audit that agrees found: the calls in an order that an honest store serves, and the clients' diaries.
#[derive(Drop)]
pub struct OneHistory<T: Clone, C: ObjectCodec<T> + Drop, E: EpochField<T>> {
    pub log: HonestLog,
    pub diaries: Vec<Diary<T, C, E>>,
}

/// The page that the first row of the first recording names, 1 where there is none.
fn page_of<T>(recordings: &[Vec<RecordedRow<T>>]) -> u64
    ensures { 1 ≤ result }
{
    let Some(rows) = recordings.first() else {
        return 1;
    };
    match rows.first() {
        Some(RecordedRow::Client(_, page)) => { if *page == 0 { 1 } else { *page } }
        _ => 1,
    }
}

/// The place of a row that its client cannot have made, as a refusal.
fn refusal_of(recording: usize, row: usize, fault: RowFault) -> Refusal {
    match fault {
        RowFault::NoMemory => Refusal::NoMemory,
        fault => Refusal::Row(CallPlace { recording, row }, fault),
    }
}

/// The diary of a recording whose page is this.
fn diary_of<T: Clone + LineValue, C: ObjectCodec<T> + Copy + Drop, E: EpochField<T> + Copy>(
    alloc: Global,
    codec: C,
    epochs: E,
    page: u64,
    recording: usize,
    rows: &Vec<RecordedRow<T>>,
    places: &[u64],
) -> Result<Diary<T, C, E>, Refusal>
    requires exact { IsExactClone T.is_clone }
    requires paged { 1 ≤ page }
    ensures of { IfOk result (λ diary. IsOf page T.text rows.now.items (as_diary diary)) }
    ensures made { IfOk result (λ diary. IsMadeWith page codec epochs diary) }
{
    match rebuild(alloc, codec, epochs, page, rows.as_slice(), places) {
        Ok(diary) => Ok(diary),
        Err((row, fault)) => Err(refusal_of(recording, row, fault)),
    }
}

/// The places in the order of the replies of a recording.
fn places_in(places: &[Vec<u64>], recording: usize) -> &[u64] {
    match places.get(recording) {
        Some(places) => places.as_slice(),
        None => &[],
    }
}

/// The diaries of recordings whose page is this, each recording's replies with these places in the order.
fn diaries_of<T: Clone + LineValue, C: ObjectCodec<T> + Copy + Drop, E: EpochField<T> + Copy>(
    alloc: Global,
    codec: C,
    epochs: E,
    page: u64,
    recordings: &[Vec<RecordedRow<T>>],
    places: &[Vec<u64>],
) -> Result<Vec<Diary<T, C, E>>, Refusal>
    requires exact { IsExactClone T.is_clone }
    requires paged { 1 ≤ page }
    ensures told { IfOk result (λ diaries. AreOf page T.text (map (λ rows. rows.items) recordings.now) (map as_diary diaries.items)) }
    ensures made { IfOk result (λ diaries. All (IsMadeWith page codec epochs) diaries.items) }
{
    let mut diaries = Vec::new(alloc);
    for recording in 0..recordings.len() {
        let rows = &recordings[recording];
        let places = places_in(places, recording);
        let diary = diary_of(alloc, codec, epochs, page, recording, rows, places)?;
        diaries.push(diary)?;
    }
    Ok(diaries)
}

/// Whether two recordings are of one client.
fn has_twins<T>(alloc: Global, recordings: &[Vec<RecordedRow<T>>]) -> Result<bool, AllocError> {
    let mut clients = HashSet::new(alloc);
    for rows in recordings {
        if let Some(RecordedRow::Client(client, _)) = rows.as_slice().first() {
            if !clients.insert(*client)? {
                return Ok(true);
            }
        }
    }
    Ok(false)
}

/// Holds an order of the recorded calls on an honest store against the diaries made from the recordings.
///
/// Each recording is the rows of one client, from the first; its times are of its clock in `clocks`, or of the clock of all where
/// that has none for it. Where this agrees, the recordings are one history: `IsOneHistoryOf`
/// says so, and what follows of it.
///
/// # Errors
///
/// `Differs` where two recordings are of one client, before anything else, and where the diaries and the log differ; `Circle` where
/// the calls have no order; `Row` for the first row of a recording that its client cannot have made, and for a call in the order
/// that is not recorded, has no place there or is of an operation that landed before; `Dishonest` for the first reply in the order
/// that no honest store gave, `OutOfTime` for the first that was there before its call or an earlier one was asked; `NoMemory` where a growth
/// was refused.
pub fn audit_recordings<
    T: Clone + LineValue,
    C: ObjectCodec<T> + Copy + Drop,
    E: EpochField<T> + Copy,
>(
    alloc: Global,
    codec: C,
    epochs: E,
    recordings: &[Vec<RecordedRow<T>>],
    clocks: &[Clock],
) -> Result<OneHistory<T, C, E>, Refusal>
    requires { IsExactClone T.is_clone }
    ensures { IfOk result (λ found. IsOneHistoryOf T.text (C.encoded codec) (C.decoded codec) (E.epoch_of epochs) (E.with_epoch epochs) (map (λ rows. rows.items) recordings.now) clocks.now found.log (map as_diary found.diaries.items)) }
{
    if has_twins(alloc, recordings)? {
        return Err(Refusal::Differs(AuditFault::ClientTwice));
    }
    let page = page_of(recordings);
    let order = order(alloc, recordings, clocks)?;
    let places = places_of(alloc, recordings.len(), order.as_slice())?;
    let diaries = diaries_of(alloc, codec, epochs, page, recordings, places.as_slice())?;
    let log = replay(alloc, recordings, clocks, order)?;
    audit_diaries(page, &codec, &epochs, &log, diaries.as_slice())?;
    Ok(OneHistory { log, diaries })
}
