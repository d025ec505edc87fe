//! The audit of a log and the diaries of its clients.
ghost use Rattle.std.specs.Prelude.{◌≡◌, List, Ok, Err, map, Decides};
ghost use Rattle.txn_client_journals.specs.Verdict.{AuditedDiary, HasClient, HaveDifferentClients, HasDiaries, HaveRows, WereLeft, IsDue};

use crate::landings::were_left;
use crate::receipts::receipts_are_rows;
use txn_client_journals::audited::{Audited, Logged};
use txn_client_journals::fault::AuditFault;
use txn_client_journals::rows::LogRow;

/// Whether some diary is of this client.
fn has_client<T, D: Audited<T>>(diaries: &[D], client: u64) -> bool
    ensures { Decides result (HasClient (map D.diary diaries.now) client) }
{
    for diary in diaries {
        if diary.client() == client {
            return true;
        }
    }
    false
}

/// Whether no two diaries are of one client.
fn clients_differ<T, D: Audited<T>>(diaries: &[D]) -> bool
    ensures { Decides result (HaveDifferentClients (map D.diary diaries.now)) }
{
    for i in 0..diaries.len() {
        if has_client(&diaries[i + 1..], diaries[i].client()) {
            return false;
        }
    }
    true
}

/// Whether each row of the log is of a diary's client.
fn each_has_diary<T, D: Audited<T>>(log: &[LogRow], diaries: &[D]) -> bool
    ensures { Decides result (HasDiaries log.now (map D.diary diaries.now)) }
{
    for row in log {
        if !has_client(diaries, row.client) {
            return false;
        }
    }
    true
}

/// Whether each diary's receipts are, in order, the log's rows of its client.
fn each_agrees<T, D: Audited<T>>(log: &[LogRow], diaries: &[D]) -> bool
    ensures { Decides result (HaveRows log.now (map D.diary diaries.now)) }
{
    for diary in diaries {
        if !receipts_are_rows(diary.client(), diary.rows(), log) {
            return false;
        }
    }
    true
}

/// Whether the diaries and the log agree. It takes no memory.
///
/// # Errors
///
/// `ClientTwice` where two diaries are of one client, else `ClientMissing` where a row of the log is of no diary's client,
/// else `RowsDiffer` where a diary's receipts are not, in order, the log's rows of its client, else `LandingUnknown` where a
/// landing is not of what its client had left before its next receipt, or its reply says that the store lacked memory.
pub fn audit<T, L: Logged, D: Audited<T>>(log: &L, diaries: &[D]) -> Result<(), AuditFault>
    ensures { IsDue (L.logged log.now) (map D.diary diaries.now) result }
{
    let rows = log.log();
    if !clients_differ(diaries) {
        return Err(AuditFault::ClientTwice);
    }
    if !each_has_diary(rows, diaries) {
        return Err(AuditFault::ClientMissing);
    }
    if !each_agrees(rows, diaries) {
        return Err(AuditFault::RowsDiffer);
    }
    if !were_left(rows, diaries) {
        return Err(AuditFault::LandingUnknown);
    }
    Ok(())
}
