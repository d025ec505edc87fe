//! Whether a journal's receipts are the log's rows of its client.
ghost use Rattle.std.specs.Prelude.{◌≡◌, ◌≤◌, ◌++◌, List, length, drop, Decides};
ghost use Rattle.std.specs.Option.{option_copied, option_to_list};
ghost use Rattle.txn_client_journals.specs.declared.rows.Receipt.{Receipt};
ghost use Rattle.txn_client_journals.specs.Verdict.{received_by, receipts_in, receipt_at, is_taken, rows_of};
ghost use Rattle.txn_audit.specs.Receipts.{IsNext};

use txn_client_journals::rows::{Act, JournalRow, LogRow, Receipt, Step};
use txn_client_journals::same::{same_reply, same_request};

/// Whether a receipt is of this row, at this place.
fn is_row(receipt: &Receipt, place: u64, row: &LogRow) -> bool
    ensures { Decides result (receipt.now ≡ receipt_at place row.now) }
{
    receipt.place == place
        && same_request(&receipt.request, &row.request)
        && same_reply(&receipt.reply, &row.reply)
}

/// The receipt of a journal's row, where it has one.
fn receipt_of<T>(row: &JournalRow<T>) -> Option<&Receipt>
    ensures { (rest : List Receipt) → received_by row.now.step rest ≡ option_to_list (option_copied result) ++ rest }
{
    match &row.step {
        Step::Act(_, Act::Receive(receipt)) => Some(receipt),
        _ => None,
    }
}

/// Whether a row is of this client, which took the reply.
fn is_taken(client: u64, row: &LogRow) -> bool
    ensures { result ≡ is_taken client row.now }
{
    row.client == client && row.landed.is_none()
}

/// The place of the client's next row that took its reply, from this one on: the log's end where there is none.
fn next_row(client: u64, log: &[LogRow], from: usize) -> usize
    requires { from ≤ length log.now }
    ensures above { from ≤ result }
    ensures within { result ≤ length log.now }
    ensures same { rows_of client from (drop from log.now) ≡ rows_of client result (drop result log.now) }
    ensures next { IsNext client (drop result log.now) }
{
    let mut place = from;
    while place < log.len() && !is_taken(client, &log[place]) {
        place += 1;
    }
    place
}

/// Whether the receipts of a journal are, in order, the rows of its client in the log that took their replies, each with its
/// place.
pub fn receipts_are_rows<T>(client: u64, rows: &[JournalRow<T>], log: &[LogRow]) -> bool
    ensures { Decides result (receipts_in rows.now ≡ rows_of client 0 log.now) }
{
    let mut place = 0;
    for row in rows {
        if let Some(receipt) = receipt_of(row) {
            let at = next_row(client, log, place);
            if at == log.len() || !is_row(receipt, at as u64, &log[at]) {
                return false;
            }
            place = at + 1;
        }
    }
    next_row(client, log, place) == log.len()
}
