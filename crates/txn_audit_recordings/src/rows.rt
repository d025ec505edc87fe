//! Rows that are added to what a writer has, each with its line feed.
ghost use Rattle.std.specs.Prelude.{◌≡◌, ◌++◌, IfOk, IsOk, OnOk, string_bytes};
ghost use Rattle.std.specs.Io.KnownBytes.{Appends};
ghost use Rattle.txn_audit_recordings.specs.Written.{source_row_text, client_row_text, begin_row_text, ask_row_text, reply_row_text, failed_row_text, give_up_row_text, answer_row_text};
ghost use Rattle.txn_audit_recordings.specs.RowLines.{row_line};

use crate::source::Source;
use crate::written::{
    answer_row, ask_row, begin_row, client_row, failed_row, give_up_row, reply_row, source_row,
};
use std::alloc::{AllocError, Global};
use std::io;
use std::io::Write;
use txn_history::event::{Answer, Call};
use txn_script_lines::text_form::LineValue;
use txn_store::request::{Reply, Request};

/// Adds a row and its line feed, by one write. The error is that of the writer or want of memory, here and below: a part of the
/// row may be there.
fn add<W: Write>(out: &mut W, row: Result<String, AllocError>) -> io::Result<()>
    ensures added { OnOk result (IfOk row (λ row. Appends (W.contents out.old) (W.contents out.new) (row_line (string_bytes row)))) }
    ensures row_is { OnOk result (IsOk row) }
{
    let mut row = row?;
    row.push('\n')?;
    out.write_all(row.as_bytes())
}

/// The rows that stand before a client's others: of its source, and of its number and the page of its listings.
fn first_rows(alloc: Global, source: &Source, client: u64, page: u64) -> Result<String, AllocError>
    ensures { IfOk result (λ rows. string_bytes rows ≡ row_line (source_row_text (string_bytes source.now.object) (string_bytes source.now.clock) source.now.ahead) ++ client_row_text client page) }
{
    let row = client_row(alloc, client, page)?;
    let mut rows = source_row(
        alloc,
        source.object.as_str(),
        source.clock.as_str(),
        source.ahead,
    )?;
    rows.push('\n')?;
    rows.push_str(row.as_str())?;
    Ok(rows)
}

/// Adds the rows that stand before a client's others, by one write.
///
/// # Errors
///
/// The writer's error, and want of memory, which adds nothing. After the writer's a part may have been added, here and below.
pub fn add_first_rows<W: Write>(
    alloc: Global,
    out: &mut W,
    source: &Source,
    client: u64,
    page: u64,
) -> io::Result<()>
    ensures { OnOk result (Appends (W.contents out.old) (W.contents out.new) (row_line (row_line (source_row_text (string_bytes source.now.object) (string_bytes source.now.clock) source.now.ahead) ++ client_row_text client page))) }
{
    add(out, first_rows(alloc, source, client, page))
}

/// Adds the row of a call that begins.
///
/// # Errors
///
/// As of the first rows.
pub fn add_begun<W: Write, T: LineValue>(
    alloc: Global,
    out: &mut W,
    op: u64,
    call: &Call<T>,
) -> io::Result<()>
    ensures { OnOk result (Appends (W.contents out.old) (W.contents out.new) (row_line (begin_row_text T.text op call.now))) }
{
    add(out, begin_row(alloc, op, call))
}

/// Adds the row of what an operation is about to ask at a time.
///
/// # Errors
///
/// As of the first rows.
pub fn add_asked<W: Write>(
    alloc: Global,
    out: &mut W,
    op: u64,
    at: u64,
    request: &Request,
) -> io::Result<()>
    ensures { OnOk result (Appends (W.contents out.old) (W.contents out.new) (row_line (ask_row_text op at request.now))) }
{
    add(out, ask_row(alloc, op, at, request))
}

/// Adds the row of a reply that an operation has at a time.
///
/// # Errors
///
/// As of the first rows.
pub fn add_replied<W: Write>(
    alloc: Global,
    out: &mut W,
    op: u64,
    at: u64,
    reply: &Reply,
) -> io::Result<()>
    ensures { OnOk result (Appends (W.contents out.old) (W.contents out.new) (row_line (reply_row_text op at reply.now))) }
{
    add(out, reply_row(alloc, op, at, reply))
}

/// Adds the row of a store call that has failed at a time.
///
/// # Errors
///
/// As of the first rows.
pub fn add_failed<W: Write>(alloc: Global, out: &mut W, op: u64, at: u64) -> io::Result<()>
    ensures { OnOk result (Appends (W.contents out.old) (W.contents out.new) (row_line (failed_row_text op at))) }
{
    add(out, failed_row(alloc, op, at))
}

/// Adds the row of an operation that is given up.
///
/// # Errors
///
/// As of the first rows.
pub fn add_gave_up<W: Write>(alloc: Global, out: &mut W, op: u64) -> io::Result<()>
    ensures { OnOk result (Appends (W.contents out.old) (W.contents out.new) (row_line (give_up_row_text op))) }
{
    add(out, give_up_row(alloc, op))
}

/// Adds the row of an answer.
///
/// # Errors
///
/// As of the first rows.
pub fn add_answered<W: Write, T: LineValue>(
    alloc: Global,
    out: &mut W,
    op: u64,
    answer: &Answer<T>,
) -> io::Result<()>
    ensures { OnOk result (Appends (W.contents out.old) (W.contents out.new) (row_line (answer_row_text T.text op answer.now))) }
{
    add(out, answer_row(alloc, op, answer))
}
