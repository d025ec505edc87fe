//! Numbers of C's as what they stand for.
ghost use Rattle.std.specs.Prelude.{◌≡◌, IfOk};
ghost use Rattle.txnobj_c.specs.Numbers.{based, bounded, entry_of, error_of, or_error, put_reply, got_reply, deleted_reply};

use bytes::Bytes;
use std::alloc::{AllocError, Global};
use std::ops::Bound;
use txn_script_lines::values::entry::Entry;
use txn_store::request::Reply;
use txn_store::store::{Got, StoreError, Token};

/// The base of a write: none for 0.
pub(crate) fn based(id: u64) -> Option<u64>
    ensures { result ≡ based id }
{
    if id == 0 { None } else { Some(id) }
}

/// A bound of a listing: none for kind 0, within for 1, not within for 2 and above.
pub(crate) fn bounded(kind: u8, id: u64) -> Bound<u64>
    ensures { result ≡ bounded kind id }
{
    match kind {
        0 => Bound::Unbounded,
        1 => Bound::Included(id),
        _ => Bound::Excluded(id),
    }
}

/// A value. The only error is want of memory.
pub(crate) fn entry(alloc: Global, epoch: u64, bytes: &[u8]) -> Result<Entry, AllocError>
    ensures { IfOk result (λ value. value ≡ entry_of epoch bytes.now) }
{
    let payload = Bytes::copy_from_slice(alloc, bytes)?;
    Ok(Entry { epoch, payload })
}

/// The error of this number: not found (1), already exists (2), precondition (3), not modified (4), no memory (6), tokens
/// exhausted (7), and for any other that it failed, and nobody knows whether it took effect (5).
pub(crate) fn error_of(number: u8) -> StoreError
    ensures { result ≡ error_of number }
{
    match number {
        1 => StoreError::NotFound,
        2 => StoreError::AlreadyExists,
        3 => StoreError::Precondition,
        4 => StoreError::NotModified,
        6 => StoreError::NoMemory,
        7 => StoreError::TokensExhausted,
        _ => StoreError::Failed,
    }
}

/// The reply to a put.
pub(crate) fn put_of(error: u8, token: u64) -> Reply
    ensures { result ≡ put_reply error token }
{
    if error == 0 {
        Reply::Put(Ok(Token::new(token)))
    } else {
        Reply::Put(Err(error_of(error)))
    }
}

/// The reply to a get. The only error is want of memory.
pub(crate) fn got_of(
    alloc: Global,
    error: u8,
    token: u64,
    bytes: &[u8],
) -> Result<Reply, AllocError>
    ensures { IfOk result (λ reply. reply ≡ got_reply error token bytes.now) }
{
    if error != 0 {
        return Ok(Reply::Get(Err(error_of(error))));
    }
    let bytes = Bytes::copy_from_slice(alloc, bytes)?;
    let token = Token::new(token);
    Ok(Reply::Get(Ok(Got { bytes, token })))
}

/// The reply to a delete.
pub(crate) fn deleted_of(error: u8) -> Reply
    ensures { result ≡ deleted_reply error }
{
    if error == 0 {
        Reply::Delete(Ok(()))
    } else {
        Reply::Delete(Err(error_of(error)))
    }
}
