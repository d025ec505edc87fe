//! The lines of what a client does, made before it does it. Where no rows are kept there is none.
ghost use Rattle.std.specs.Prelude.{◌≡◌, IfOk, option_map, string_bytes};
ghost use Rattle.txn_audit_recordings.specs.RowLines.{row_line};
ghost use Rattle.txn_client_seat.specs.Kept.{seen};
ghost use Rattle.txn_client_seat.specs.Lines.{asked_line, begun_line, client_line, failed_line, given_up_line, looked_line, replied_line};
ghost use Rattle.txn_client_seat.specs.Waiting.{IsLine};

use crate::rows_kept::KeptRows;
use std::alloc::{AllocError, Global};
use txn_audit_recordings::written::{
    ask_row, begin_row, client_row, failed_row, give_up_row, reply_row,
};
use txn_history::event::Call;
use txn_script_lines::values::entry::Entry;
use txn_store::request::{Reply, Request};

/// A row with its line feed. The only error is want of memory, here and below.
pub(crate) fn with_feed(row: String) -> Result<String, AllocError>
    ensures { IfOk result (λ line. string_bytes line ≡ row_line (string_bytes row)) }
{
    let mut line = row;
    line.push('\n')?;
    Ok(line)
}

/// The line that names a client and its pages.
pub(crate) fn named(alloc: Global, client: u64, page: u64) -> Result<String, AllocError>
    ensures { IfOk result (λ line. string_bytes line ≡ client_line client page) }
{
    with_feed(client_row(alloc, client, page)?)
}

/// The line of a call that begins.
///
/// # Errors
///
/// Want of memory alone.
pub fn begun(
    kept: &Option<KeptRows>,
    op: u64,
    call: &Call<Entry>,
) -> Result<Option<String>, AllocError>
    ensures { IfOk result (λ line. IsLine (seen kept.now) (begun_line op call.now) (option_map (λ s. string_bytes s) line)) }
{
    match kept {
        Some(kept) => {
            let row = begin_row(kept.alloc, op, call)?;
            Ok(Some(with_feed(row)?))
        }
        None => Ok(None),
    }
}

/// A look has no line.
pub fn looked(kept: &Option<KeptRows>) -> Option<String>
    ensures { IsLine (seen kept.now) looked_line (option_map (λ s. string_bytes s) result) }
{
    match kept {
        Some(_) => None,
        None => None,
    }
}

/// The line of what an operation is about to ask the store.
///
/// # Errors
///
/// Want of memory alone.
pub fn asked(
    kept: &Option<KeptRows>,
    op: u64,
    request: &Request,
) -> Result<Option<String>, AllocError>
    ensures { IfOk result (λ line. IsLine (seen kept.now) (asked_line op request.now) (option_map (λ s. string_bytes s) line)) }
{
    match kept {
        Some(kept) => {
            let row = ask_row(kept.alloc, op, kept.at, request)?;
            Ok(Some(with_feed(row)?))
        }
        None => Ok(None),
    }
}

/// The line of the store's reply.
///
/// # Errors
///
/// Want of memory alone.
pub fn replied(
    kept: &Option<KeptRows>,
    op: u64,
    reply: &Reply,
) -> Result<Option<String>, AllocError>
    ensures { IfOk result (λ line. IsLine (seen kept.now) (replied_line op reply.now) (option_map (λ s. string_bytes s) line)) }
{
    match kept {
        Some(kept) => {
            let row = reply_row(kept.alloc, op, kept.at, reply)?;
            Ok(Some(with_feed(row)?))
        }
        None => Ok(None),
    }
}

/// The line of a store call that failed.
///
/// # Errors
///
/// Want of memory alone.
pub fn failed(kept: &Option<KeptRows>, op: u64) -> Result<Option<String>, AllocError>
    ensures { IfOk result (λ line. IsLine (seen kept.now) (failed_line op) (option_map (λ s. string_bytes s) line)) }
{
    match kept {
        Some(kept) => {
            let row = failed_row(kept.alloc, op, kept.at)?;
            Ok(Some(with_feed(row)?))
        }
        None => Ok(None),
    }
}

/// The line of an operation that is given up.
///
/// # Errors
///
/// Want of memory alone.
pub fn given_up(kept: &Option<KeptRows>, op: u64) -> Result<Option<String>, AllocError>
    ensures { IfOk result (λ line. IsLine (seen kept.now) (given_up_line op) (option_map (λ s. string_bytes s) line)) }
{
    match kept {
        Some(kept) => {
            let row = give_up_row(kept.alloc, op)?;
            Ok(Some(with_feed(row)?))
        }
        None => Ok(None),
    }
}
