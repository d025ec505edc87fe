//! The text of each row, without a line feed.
ghost use Rattle.std.specs.Prelude.{◌≡◌, ◌++◌, ◌∷◌, Ok, IfOk, OnOk, string_bytes};
ghost use Rattle.std.specs.Option.{option_copied};
ghost use Rattle.txn_store.specs.declared.request.Request.TheVariants as requests;
ghost use Rattle.txn_store.specs.declared.request.Reply.TheVariants as replies;
ghost use Rattle.txn_audit_recordings.specs.Written.{put_text, request_text, error_text, meta_text, metas_text, reply_text, source_row_text, client_row_text, ask_row_text, reply_row_text, failed_row_text, give_up_row_text, begin_row_text, answer_row_text};

use bytes::Bytes;
use std::alloc::{AllocError, Global};
use std::fmt::Write;
use txn_history::event::{Answer, Call};
use txn_script_lines::called::Called;
use txn_script_lines::printed::Answered;
use txn_script_lines::text_form::LineValue;
use txn_store::page::Page;
use txn_store::path::Path;
use txn_store::request::{Reply, Request};
use txn_store::store::{Got, ObjectMeta, PutMode, StoreError, Token};

/// What a put asks for.
fn put_text(alloc: Global, path: &Path, bytes: &Bytes, mode: &PutMode) -> Result<String, AllocError>
    ensures { IfOk result (λ text. string_bytes text ≡ put_text path.now bytes.now mode.now) }
{
    let hex = hex::encode(alloc, bytes.as_slice())?;
    match mode {
        PutMode::Create => format!(in alloc; "create {path} {hex}"),
        PutMode::Update(token) => {
            let number = token.number();
            format!(in alloc; "update {path} {number} {hex}")
        }
        PutMode::Overwrite => format!(in alloc; "overwrite {path} {hex}"),
    }
}

/// What a get asks for.
fn get_text(alloc: Global, path: &Path, known: Option<Token>) -> Result<String, AllocError>
    ensures { IfOk result (λ text. string_bytes text ≡ request_text (requests.Get path.now known)) }
{
    match known {
        None => format!(in alloc; "get {path} -"),
        Some(token) => {
            let number = token.number();
            format!(in alloc; "get {path} {number}")
        }
    }
}

/// What a listing asks for.
fn list_text(
    alloc: Global,
    prefix: &Path,
    after: Option<&Path>,
    limit: u64,
) -> Result<String, AllocError>
    ensures { IfOk result (λ text. string_bytes text ≡ request_text (requests.List prefix.now (option_copied after.entry) limit)) }
{
    match after {
        None => format!(in alloc; "list {prefix} {limit}"),
        Some(path) => format!(in alloc; "list {prefix} {limit} {path}"),
    }
}

/// The text of a request.
fn request_text(alloc: Global, request: &Request) -> Result<String, AllocError>
    ensures { IfOk result (λ text. string_bytes text ≡ request_text request.now) }
{
    match request {
        Request::Put { path, bytes, mode } => put_text(alloc, path, bytes, mode),
        Request::Get {
            path,
            if_none_match,
        } => get_text(alloc, path, *if_none_match),
        Request::List {
            prefix,
            after,
            limit,
        } => list_text(alloc, prefix, after.as_ref(), *limit),
        Request::Delete { path } => format!(in alloc; "delete {path}"),
    }
}

/// The name of an error.
fn error_name(error: StoreError) -> &'static str
    ensures { result.now ≡ error_text error }
{
    match error {
        StoreError::NotFound => "NotFound",
        StoreError::AlreadyExists => "AlreadyExists",
        StoreError::Precondition => "Precondition",
        StoreError::NotModified => "NotModified",
        StoreError::Failed => "Failed",
        StoreError::NoMemory => "NoMemory",
        StoreError::TokensExhausted => "TokensExhausted",
    }
}

/// The answer of a put.
fn put_answer(alloc: Global, answer: Result<Token, StoreError>) -> Result<String, AllocError>
    ensures { IfOk result (λ text. string_bytes text ≡ reply_text (replies.Put answer)) }
{
    match answer {
        Ok(token) => {
            let number = token.number();
            format!(in alloc; "put {number}")
        }
        Err(error) => {
            let name = error_name(error);
            format!(in alloc; "put {name}")
        }
    }
}

/// The answer of a get.
fn get_answer(alloc: Global, answer: &Result<Got, StoreError>) -> Result<String, AllocError>
    ensures { IfOk result (λ text. string_bytes text ≡ reply_text (replies.Get answer.now)) }
{
    match answer {
        Ok(got) => {
            let number = got.token.number();
            let hex = hex::encode(alloc, got.bytes.as_slice())?;
            format!(in alloc; "get {number} {hex}")
        }
        Err(error) => {
            let name = error_name(*error);
            format!(in alloc; "get {name}")
        }
    }
}

/// Adds a space and a file of a listing.
fn push_meta(text: &mut String, meta: &ObjectMeta) -> Result<(), AllocError>
    ensures { OnOk result (string_bytes text.new ≡ string_bytes text.old ++ 32 ∷ meta_text meta.now) }
{
    let location = &meta.location;
    let number = meta.token.number();
    let size = meta.size;
    write!(text, " {location}:{number}:{size}")
}

/// Adds the files of a listing, each after one space.
fn push_metas(text: &mut String, metas: &[ObjectMeta]) -> Result<(), AllocError>
    ensures { OnOk result (string_bytes text.new ≡ string_bytes text.old ++ metas_text metas.now) }
{
    for meta in metas {
        push_meta(text, meta)?;
    }
    Ok(())
}

/// The page of a listing.
fn page_text(alloc: Global, page: &Page) -> Result<String, AllocError>
    ensures { IfOk result (λ text. string_bytes text ≡ reply_text (replies.List (Ok page.now))) }
{
    let word = if page.more { "more" } else { "last" };
    let mut text = format!(in alloc; "list {word}")?;
    push_metas(&mut text, page.metas.as_slice())?;
    Ok(text)
}

/// The answer of a listing.
fn list_answer(alloc: Global, answer: &Result<Page, StoreError>) -> Result<String, AllocError>
    ensures { IfOk result (λ text. string_bytes text ≡ reply_text (replies.List answer.now)) }
{
    match answer {
        Ok(page) => page_text(alloc, page),
        Err(error) => {
            let name = error_name(*error);
            format!(in alloc; "list {name}")
        }
    }
}

/// The answer of a delete.
fn delete_answer(alloc: Global, answer: Result<(), StoreError>) -> Result<String, AllocError>
    ensures { IfOk result (λ text. string_bytes text ≡ reply_text (replies.Delete answer)) }
{
    match answer {
        Ok(()) => String::from_str(alloc, "delete done"),
        Err(error) => {
            let name = error_name(error);
            format!(in alloc; "delete {name}")
        }
    }
}

/// The text of a reply.
fn reply_text(alloc: Global, reply: &Reply) -> Result<String, AllocError>
    ensures { IfOk result (λ text. string_bytes text ≡ reply_text reply.now) }
{
    match reply {
        Reply::Put(answer) => put_answer(alloc, *answer),
        Reply::Get(answer) => get_answer(alloc, answer),
        Reply::List(answer) => list_answer(alloc, answer),
        Reply::Delete(answer) => delete_answer(alloc, *answer),
    }
}

/// The row that stands in a file before a client's first: the object that the recording is of, the name of the clock that its
/// times are of, and the nanoseconds that are added to these for those since 1970.
///
/// # Errors
///
/// Want of memory alone.
pub fn source_row(
    alloc: Global,
    object: &str,
    clock: &str,
    ahead: u64,
) -> Result<String, AllocError>
    ensures { IfOk result (λ text. string_bytes text ≡ source_row_text object.now clock.now ahead) }
{
    format!(in alloc; "of {object} clock {clock} ahead {ahead}")
}

/// The first row of a client's recording: its number, and how many files a page of its listings has at most.
///
/// # Errors
///
/// Want of memory alone.
pub fn client_row(alloc: Global, client: u64, page: u64) -> Result<String, AllocError>
    ensures { IfOk result (λ text. string_bytes text ≡ client_row_text client page) }
{
    format!(in alloc; "client {client} page {page}")
}

/// The row that stands before a store call: the operation, the time, and what it asks for.
///
/// # Errors
///
/// Want of memory alone.
pub fn ask_row(alloc: Global, op: u64, at: u64, request: &Request) -> Result<String, AllocError>
    ensures { IfOk result (λ text. string_bytes text ≡ ask_row_text op at request.now) }
{
    let request = request_text(alloc, request)?;
    format!(in alloc; "ask {op} {at} {request}")
}

/// The row of a store's reply.
///
/// # Errors
///
/// Want of memory alone.
pub fn reply_row(alloc: Global, op: u64, at: u64, reply: &Reply) -> Result<String, AllocError>
    ensures { IfOk result (λ text. string_bytes text ≡ reply_row_text op at reply.now) }
{
    let reply = reply_text(alloc, reply)?;
    format!(in alloc; "reply {op} {at} {reply}")
}

/// The row of a store call that failed, of which nobody knows whether it took effect.
///
/// # Errors
///
/// Want of memory alone.
pub fn failed_row(alloc: Global, op: u64, at: u64) -> Result<String, AllocError>
    ensures { IfOk result (λ text. string_bytes text ≡ failed_row_text op at) }
{
    format!(in alloc; "failed {op} {at}")
}

/// The row of an operation that its client gives up.
///
/// # Errors
///
/// Want of memory alone.
pub fn give_up_row(alloc: Global, op: u64) -> Result<String, AllocError>
    ensures { IfOk result (λ text. string_bytes text ≡ give_up_row_text op) }
{
    format!(in alloc; "giveup {op}")
}

/// The row of a call that begins as the operation of this number.
///
/// # Errors
///
/// Want of memory alone.
pub fn begin_row<T: LineValue>(alloc: Global, op: u64, call: &Call<T>) -> Result<String, AllocError>
    ensures { IfOk result (λ text. string_bytes text ≡ begin_row_text T.text op call.now) }
{
    let called = Called(call);
    format!(in alloc; "begin {op} {called}")
}

/// The row of the answer of an operation.
///
/// # Errors
///
/// Want of memory alone.
pub fn answer_row<T: LineValue>(
    alloc: Global,
    op: u64,
    answer: &Answer<T>,
) -> Result<String, AllocError>
    ensures { IfOk result (λ text. string_bytes text ≡ answer_row_text T.text op answer.now) }
{
    let answered = Answered(answer);
    format!(in alloc; "answer {op} {answered}")
}
