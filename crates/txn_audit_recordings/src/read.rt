//! How the text of a row is read: a text is read as a row only where it is the text that is written of that row.
ghost use Rattle.std.specs.Prelude.{◌≡◌, IfOk, Decides, string_bytes};
ghost use Rattle.txn_audit_recordings.specs.Rows.{row_text};

use crate::row::RecordedRow;
use crate::written::{ask_row, begin_row, client_row, failed_row, give_up_row, reply_row};
use bytes::Bytes;
use hex::FromHexError;
use std::alloc::{AllocError, Global};
use txn_history::event::Call;
use txn_script_lines::numerals::read_decimal;
use txn_script_lines::text_form::{LineValue, TextForm};
use txn_store::page::{Listing, Page};
use txn_store::path::{Path, PathFault};
use txn_store::request::{Reply, Request};
use txn_store::store::{Got, ObjectMeta, PutMode, StoreError, Token};
use txn_store::types::room::push_within;

/// Why a text is not read as a row.
#[derive(Clone, Copy, Debug, PartialEq, Eq)]
pub enum TextFault {
    /// It is the text of no row.
    BadRow,
    /// A growth was refused.
    NoMemory,
}

impl From<AllocError> for TextFault {
    fn from(_e: AllocError) -> TextFault {
        TextFault::NoMemory
    }
}

/// What stands before the first space, and what stands after it.
pub(crate) fn cut(text: &str) -> Result<(&str, &str), TextFault> {
    text.split_once(' ').ok_or(TextFault::BadRow)
}

/// A number.
pub(crate) fn number(text: &str) -> Result<u64, TextFault> {
    read_decimal(text).ok_or(TextFault::BadRow)
}

/// A path.
fn path(alloc: Global, text: &str) -> Result<Path, TextFault> {
    match Path::from_text(alloc, text) {
        Ok(path) => Ok(path),
        Err(PathFault::BadSegment) => Err(TextFault::BadRow),
        Err(PathFault::NoMemory) => Err(TextFault::NoMemory),
    }
}

/// Bytes, as hex digits.
fn hex_bytes(alloc: Global, text: &str) -> Result<Bytes, TextFault> {
    match hex::decode(alloc, text) {
        Ok(bytes) => Bytes::from_vec(bytes).map_err(|_| TextFault::NoMemory),
        Err(FromHexError::OutOfMemory) => Err(TextFault::NoMemory),
        Err(_) => Err(TextFault::BadRow),
    }
}

/// A put of this mode, of a path and of bytes as hex digits.
fn put_of(alloc: Global, name: &str, hex: &str, mode: PutMode) -> Result<Request, TextFault> {
    let path = path(alloc, name)?;
    let bytes = hex_bytes(alloc, hex)?;
    Ok(Request::Put { path, bytes, mode })
}

/// A put of this mode: its path and its bytes.
fn read_put(alloc: Global, text: &str, mode: PutMode) -> Result<Request, TextFault> {
    let (path, hex) = cut(text)?;
    put_of(alloc, path, hex, mode)
}

/// A put over another: its path, the token of the other, and its bytes.
fn read_update(alloc: Global, text: &str) -> Result<Request, TextFault> {
    let (path, rest) = cut(text)?;
    let (token, hex) = cut(rest)?;
    let mode = PutMode::Update(Token::new(number(token)?));
    put_of(alloc, path, hex, mode)
}

/// A get: its path, and the token that is known.
fn read_get(alloc: Global, text: &str) -> Result<Request, TextFault> {
    let (name, known) = cut(text)?;
    let if_none_match = if known == "-" {
        None
    } else {
        Some(Token::new(number(known)?))
    };
    Ok(Request::Get {
        path: path(alloc, name)?,
        if_none_match,
    })
}

/// A listing: its prefix, its limit, and the path after which it begins.
fn read_list(alloc: Global, text: &str) -> Result<Request, TextFault> {
    let (prefix, rest) = cut(text)?;
    let (limit, after) = match rest.split_once(' ') {
        Some((limit, after)) => (limit, Some(path(alloc, after)?)),
        None => (rest, None),
    };
    Ok(Request::List {
        prefix: path(alloc, prefix)?,
        after,
        limit: number(limit)?,
    })
}

/// A request.
fn read_request(alloc: Global, text: &str) -> Result<Request, TextFault> {
    let (word, rest) = cut(text)?;
    match word {
        "create" => read_put(alloc, rest, PutMode::Create),
        "update" => read_update(alloc, rest),
        "overwrite" => read_put(alloc, rest, PutMode::Overwrite),
        "get" => read_get(alloc, rest),
        "list" => read_list(alloc, rest),
        "delete" => Ok(Request::Delete {
            path: path(alloc, rest)?,
        }),
        _ => Err(TextFault::BadRow),
    }
}

/// The error of this name.
fn error_named(name: &str) -> Option<StoreError> {
    match name {
        "NotFound" => Some(StoreError::NotFound),
        "AlreadyExists" => Some(StoreError::AlreadyExists),
        "Precondition" => Some(StoreError::Precondition),
        "NotModified" => Some(StoreError::NotModified),
        "Failed" => Some(StoreError::Failed),
        "NoMemory" => Some(StoreError::NoMemory),
        "TokensExhausted" => Some(StoreError::TokensExhausted),
        _ => None,
    }
}

/// The answer of a put.
fn read_put_answer(text: &str) -> Result<Reply, TextFault> {
    match error_named(text) {
        Some(error) => Ok(Reply::Put(Err(error))),
        None => Ok(Reply::Put(Ok(Token::new(number(text)?)))),
    }
}

/// The answer of a get.
fn read_get_answer(alloc: Global, text: &str) -> Result<Reply, TextFault> {
    if let Some(error) = error_named(text) {
        return Ok(Reply::Get(Err(error)));
    }
    let (token, hex) = cut(text)?;
    Ok(Reply::Get(Ok(Got {
        bytes: hex_bytes(alloc, hex)?,
        token: Token::new(number(token)?),
    })))
}

/// A file of a listing.
fn read_meta(alloc: Global, text: &str) -> Result<ObjectMeta, TextFault> {
    let (location, rest) = text.split_once(':').ok_or(TextFault::BadRow)?;
    let (token, size) = rest.split_once(':').ok_or(TextFault::BadRow)?;
    Ok(ObjectMeta {
        location: path(alloc, location)?,
        size: number(size)?,
        token: Token::new(number(token)?),
    })
}

/// The files of a listing, divided by one space each.
fn read_metas(alloc: Global, text: &str) -> Result<Vec<ObjectMeta>, TextFault> {
    let mut metas = Vec::new(alloc);
    for word in text.split(' ') {
        metas.reserve(1)?;
        push_within(&mut metas, read_meta(alloc, word)?);
    }
    Ok(metas)
}

/// The answer of a listing.
fn read_list_answer(alloc: Global, text: &str) -> Result<Reply, TextFault> {
    if let Some(error) = error_named(text) {
        return Ok(Reply::List(Err(error)));
    }
    let (word, metas) = match text.split_once(' ') {
        Some((word, rest)) => (word, read_metas(alloc, rest)?),
        None => (text, Vec::new(alloc)),
    };
    Ok(Reply::List(Ok(Page {
        metas: Listing::from_vec(metas),
        more: word == "more",
    })))
}

/// The answer of a delete.
fn read_delete_answer(text: &str) -> Result<Reply, TextFault> {
    match error_named(text) {
        Some(error) => Ok(Reply::Delete(Err(error))),
        None => Ok(Reply::Delete(Ok(()))),
    }
}

/// A reply.
fn read_reply(alloc: Global, text: &str) -> Result<Reply, TextFault> {
    let (word, rest) = cut(text)?;
    match word {
        "put" => read_put_answer(rest),
        "get" => read_get_answer(alloc, rest),
        "list" => read_list_answer(alloc, rest),
        "delete" => read_delete_answer(rest),
        _ => Err(TextFault::BadRow),
    }
}

/// The client and the page of a first row.
fn read_client<T>(text: &str) -> Result<RecordedRow<T>, TextFault> {
    let (client, rest) = cut(text)?;
    let (_, page) = cut(rest)?;
    Ok(RecordedRow::Client(number(client)?, number(page)?))
}

/// The time and the request of a call.
fn read_ask<T>(alloc: Global, op: u64, text: &str) -> Result<RecordedRow<T>, TextFault> {
    let (at, request) = cut(text)?;
    Ok(RecordedRow::Ask(op, number(at)?, read_request(alloc, request)?))
}

/// The time and the reply of a call.
fn read_replied<T>(alloc: Global, op: u64, text: &str) -> Result<RecordedRow<T>, TextFault> {
    let (at, reply) = cut(text)?;
    Ok(RecordedRow::Reply(op, number(at)?, read_reply(alloc, reply)?))
}

/// A call that begins.
fn read_begin<T: LineValue>(
    alloc: Global,
    op: u64,
    text: &str,
) -> Result<RecordedRow<T>, TextFault> {
    match Call::<T>::read_text(alloc, text)? {
        Some(call) => Ok(RecordedRow::Begin(op, call)),
        None => Err(TextFault::BadRow),
    }
}

/// A row of the operation that its second word names.
fn read_of<T: LineValue>(
    alloc: Global,
    word: &str,
    op: u64,
    rest: &str,
) -> Result<RecordedRow<T>, TextFault> {
    match word {
        "begin" => read_begin(alloc, op, rest),
        "ask" => read_ask(alloc, op, rest),
        "reply" => read_replied(alloc, op, rest),
        "failed" => Ok(RecordedRow::Failed(op, number(rest)?)),
        "answer" => Ok(RecordedRow::Answer(op, String::from_str(alloc, rest)?)),
        _ => Err(TextFault::BadRow),
    }
}

/// The row that a text may be: a text that is not what is written of a row is read as some row, or as none.
fn guess<T: LineValue>(alloc: Global, text: &str) -> Result<RecordedRow<T>, TextFault> {
    let (word, rest) = cut(text)?;
    match word {
        "client" => read_client(rest),
        "giveup" => Ok(RecordedRow::GiveUp(number(rest)?)),
        _ => {
            let (op, rest) = cut(rest)?;
            read_of(alloc, word, number(op)?, rest)
        }
    }
}

/// The text of a row, without its line feed.
///
/// # Errors
///
/// Want of memory alone, which changes nothing.
pub fn text_of<T: LineValue>(alloc: Global, row: &RecordedRow<T>) -> Result<String, AllocError>
    ensures { IfOk result (λ words. string_bytes words ≡ row_text T.text row.now) }
{
    match row {
        RecordedRow::Client(client, page) => client_row(alloc, *client, *page),
        RecordedRow::Begin(op, call) => begin_row(alloc, *op, call),
        RecordedRow::Ask(op, at, request) => ask_row(alloc, *op, *at, request),
        RecordedRow::Reply(op, at, reply) => reply_row(alloc, *op, *at, reply),
        RecordedRow::Failed(op, at) => failed_row(alloc, *op, *at),
        RecordedRow::GiveUp(op) => give_up_row(alloc, *op),
        RecordedRow::Answer(op, words) => format!(in alloc; "answer {op} {words}"),
    }
}

/// Whether a text is that of a row.
pub(crate) fn is_text(written: &str, text: &str) -> bool
    ensures { Decides result (written.now ≡ text.now) }
{
    written == text
}

/// The row that a text, without its line feed, is written of.
///
/// # Errors
///
/// `BadRow` where the text is not what is written of the row that it seems to be, `NoMemory` where a growth was refused.
pub fn read_row<T: LineValue>(alloc: Global, text: &str) -> Result<RecordedRow<T>, TextFault>
    // What is read is the row that the text is written of.
    ensures { IfOk result (λ row. text.now ≡ row_text T.text row) }
{
    let row = guess(alloc, text)?;
    let written = text_of(alloc, &row)?;
    if !is_text(written.as_str(), text) {
        return Err(TextFault::BadRow);
    }
    Ok(row)
}
