//! The lines of the rows that wait.
ghost use Rattle.std.specs.Prelude.{◌≡◌, ◌++◌, IfOk, OnOk, option_map, string_bytes};
ghost use Rattle.std.specs.Option.{option_copied};
ghost use Rattle.txn_client_seat.specs.Kept.{line_of, lines_of, seen};
ghost use Rattle.txn_client_seat.specs.Lines.{answer_line};
ghost use Rattle.txn_client_seat.specs.Waiting.{lines_in, or_none};

use crate::rows_kept::{KeptRow, KeptRows};
use crate::rows_made::with_feed;
use std::alloc::{AllocError, Global};
use txn_audit_recordings::written::answer_row;
use txn_history::event::Answer;
use txn_script_lines::values::entry::Entry;

/// Adds a line, where there is one. The only error is want of memory, here and below.
fn push_line(text: &mut String, line: Option<&String>) -> Result<(), AllocError>
    ensures { OnOk result (string_bytes text.new ≡ string_bytes text.old ++ or_none (option_map (λ s. string_bytes s) (option_copied line.entry))) }
{
    match line {
        Some(line) => text.push_str(line.as_str()),
        None => Ok(()),
    }
}

/// Adds the line of an answer, where there is one.
fn push_answer(
    alloc: Global,
    text: &mut String,
    op: u64,
    answer: Option<&Answer<Entry>>,
) -> Result<(), AllocError>
    ensures { OnOk result (string_bytes text.new ≡ string_bytes text.old ++ answer_line op (option_copied answer.entry)) }
{
    match answer {
        Some(answer) => {
            let line = with_feed(answer_row(alloc, op, answer)?)?;
            text.push_str(line.as_str())
        }
        None => Ok(()),
    }
}

/// Adds the lines of a row.
fn push_row(alloc: Global, text: &mut String, row: &KeptRow) -> Result<(), AllocError>
    ensures { OnOk result (string_bytes text.new ≡ string_bytes text.old ++ line_of row.now) }
{
    push_line(text, row.line.as_ref())?;
    push_answer(alloc, text, row.op, row.answer.as_ref())
}

/// The lines of rows.
fn lines_of(alloc: Global, rows: &[KeptRow]) -> Result<String, AllocError>
    ensures { IfOk result (λ text. string_bytes text ≡ lines_of rows.now) }
{
    let mut text = String::new(alloc);
    for row in rows {
        push_row(alloc, &mut text, row)?;
    }
    Ok(text)
}

/// The lines that wait, none where no rows are kept.
///
/// # Errors
///
/// Want of memory alone.
pub fn lines(alloc: Global, kept: &Option<KeptRows>) -> Result<String, AllocError>
    ensures { IfOk result (λ text. string_bytes text ≡ lines_in (seen kept.now)) }
{
    match kept {
        Some(kept) => lines_of(alloc, kept.rows.as_slice()),
        None => Ok(String::new(alloc)),
    }
}
