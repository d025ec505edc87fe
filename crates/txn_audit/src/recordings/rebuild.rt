//! A client's diary, made once more from its recording.
ghost use Rattle.std.specs.Prelude.{◌≡◌, ◌≤◌, Some, IfOk, OnOk, slice_get, drop};
ghost use Rattle.txn_store.specs.types.Clones.{IsExactClone};
ghost use Rattle.txn_script_lines.specs.Printed.{answered_text};
ghost use Rattle.txn_audit_recordings.specs.declared.row.RecordedRow.TheVariants as kinds;
ghost use Rattle.txn_audit.specs.recordings.Told.{recording_tells, journal_tells, TellsSame};
ghost use Rattle.txn_audit.specs.recordings.Stages.{Goes, IsSameClient, IsOpened};

use crate::recordings::fault::RowFault;
use crate::recordings::stage::{Rebuilding, Stage};
use std::alloc::Global;
use txn_audit_recordings::row::RecordedRow;
use txn_diary::diary::Diary;
use txn_script_lines::text_form::LineValue;
use txn_store::types::codec::ObjectCodec;
use txn_store::types::epoch::EpochField;

/// The client that the first row names, at least 1, with this page.
fn client_of<T>(rows: &[RecordedRow<T>], page: u64) -> Result<u64, RowFault>
    ensures client { IfOk result (λ client. slice_get rows.now 0 ≡ Some (kinds.Client client page)) }
    ensures some { IfOk result (λ client. 1 ≤ client) }
{
    match rows.first() {
        Some(RecordedRow::Client(client, named)) => {
            if *client == 0 {
                return Err(RowFault::NoClient);
            }
            if *named != page {
                return Err(RowFault::OtherPage);
            }
            Ok(*client)
        }
        _ => Err(RowFault::NoClient),
    }
}

/// A client of this number and this page that has done nothing yet.
fn opened<'a, T: Clone, C: ObjectCodec<T> + Drop, E: EpochField<T>>(
    alloc: Global,
    codec: C,
    epochs: E,
    client: u64,
    page: u64,
) -> Result<Rebuilding<'a, T, C, E>, RowFault>
    requires some { 1 ≤ client }
    requires paged { 1 ≤ page }
    ensures opened { IfOk result (λ r. IsOpened client page codec epochs r.diary r.begun r.stage) }
{
    Ok(Rebuilding {
        diary: Diary::new(alloc, client, codec, epochs, page)?,
        begun: 0,
        stage: Stage::Idle,
    })
}

/// A client's diary, made once more from its recording, and where the recording cannot be one, its row and why.
///
/// The client is the one that the first row names, and does what each row after it says: it begins the call, looks at its caches
/// as often as its operation asks to, asks the store what is recorded, takes the recorded reply, which has its place in the order
/// by `places`, and is answered in the recorded words. Where the recording ends while an operation runs, or before an answer is
/// written, the client was killed.
///
/// # Errors
///
/// The place of the first row that such a client cannot have made, counted from 0, and the fault: `NoClient` for a first row that
/// names no client, and for another that names one; `OutOfTurn` for a number that is not the next, for an operation that does not
/// run, and for a row of another kind than what comes next; `OtherRequest` for a request that the operation does not ask for;
/// `OtherPage` for a first row with another page; `OtherAnswer` for an answer that it was not told; `NoPlace` for a reply without a place; `Refused` for what the client does not
/// permit; `NoMemory` where a growth was refused.
pub fn rebuild<T: Clone + LineValue, C: ObjectCodec<T> + Drop, E: EpochField<T>>(
    alloc: Global,
    codec: C,
    epochs: E,
    page: u64,
    rows: &[RecordedRow<T>],
    places: &[u64],
) -> Result<Diary<T, C, E>, (usize, RowFault)>
    requires exact { IsExactClone T.is_clone }
    requires paged { 1 ≤ page }
    // The client is the one that the first row names, with this page.
    ensures client { IfOk result (λ diary. slice_get rows.now 0 ≡ Some (kinds.Client diary.client page)) }
    ensures page { IfOk result (λ diary. diary.page ≡ page) }
    ensures codec { IfOk result (λ diary. diary.codec ≡ codec) }
    ensures epochs { IfOk result (λ diary. diary.epochs ≡ epochs) }
    // Its journal tells what the recording tells.
    ensures tells { IfOk result (λ diary. TellsSame (recording_tells rows.now) (journal_tells (answered_text T.text) 0 diary.rows)) }
{
    let client = match client_of(rows, page) {
        Ok(client) => client,
        Err(fault) => return Err((0, fault)),
    };
    let mut rebuilding = match opened(alloc, codec, epochs, client, page) {
        Ok(rebuilding) => rebuilding,
        Err(fault) => return Err((0, fault)),
    };
    if let Err(at) = follow(alloc, &mut rebuilding, rows, places) {
        return Err(at);
    }
    match rebuilding.finish() {
        Ok(()) => Ok(rebuilding.diary),
        Err(fault) => Err((rows.len(), fault)),
    }
}

/// Has a client that has done nothing make the rows after the first, each reply with its place in the order.
#[tactic(auto, using(crate::proofs::recordings::Following::leads_first, crate::proofs::recordings::Following::leads_more, crate::proofs::recordings::Following::leads_all, crate::proofs::recordings::Telling::same_more))]
fn follow<'a, T: Clone + LineValue, C: ObjectCodec<T> + Drop, E: EpochField<T>>(
    alloc: Global,
    rebuilding: &mut Rebuilding<'a, T, C, E>,
    rows: &'a [RecordedRow<T>],
    places: &[u64],
) -> Result<(), (usize, RowFault)>
    requires { IsExactClone T.is_clone }
    ensures told { OnOk result (Goes T.text (recording_tells (drop 1 rows.now)) rebuilding.old.diary.rows rebuilding.old.begun rebuilding.old.stage rebuilding.new.diary.rows rebuilding.new.begun rebuilding.new.stage) }
    ensures same { OnOk result (IsSameClient rebuilding.old.diary rebuilding.new.diary) }
{
    let mut replies = 0;
    for place in 1..rows.len() {
        let row = &rows[place];
        let at = places.get(replies).copied();
        replies = counted(replies, row);
        if let Err(fault) = rebuilding.take(alloc, row, at) {
            return Err((place, fault));
        }
    }
    Ok(())
}

/// So many replies, and one more where a row is a reply.
fn counted<T>(replies: usize, row: &RecordedRow<T>) -> usize {
    match row {
        RecordedRow::Reply(_, _, _) => replies.saturating_add(1),
        _ => replies,
    }
}
