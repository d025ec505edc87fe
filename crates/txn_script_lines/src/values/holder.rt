//! What a holder writes on a version, and what anybody else does.
ghost use Rattle.std.specs.Prelude.{◌≡◌, IfOk};
ghost use Rattle.txn_script_lines.specs.values.Holder.{may_write, IsNextEntry};

use crate::values::entry::Entry;
use bytes::Bytes;
use std::alloc::AllocError;
use txn_store::types::epoch::test_epoch;
use txn_store::types::step_error::StepError;

/// Whether the holder of an epoch, if there is one, may write on a version of the stored epoch. It takes no memory.
///
/// # Errors
///
/// `Fenced`, where the version has a greater epoch than the holder; `InvalidObjectState`, where it has a smaller one, so
/// that nobody claimed the holder's.
pub fn test_holder(holder: Option<u64>, stored: u64) -> Result<(), StepError>
    ensures { result ≡ may_write holder stored }
{
    match holder {
        None => Ok(()),
        Some(local) => test_epoch(local, stored),
    }
}

/// The entry with this payload that goes on a version of the stored epoch, which it keeps; none where the holder may not write
/// on that version ([`test_holder`]).
///
/// # Errors
///
/// Want of memory alone, which changes nothing.
pub fn next_entry(
    holder: Option<u64>,
    stored: u64,
    payload: &Bytes,
) -> Result<Option<Entry>, AllocError>
    ensures { IfOk result (IsNextEntry holder stored payload.now) }
{
    if test_holder(holder, stored).is_err() {
        return Ok(None);
    }
    Ok(Some(Entry {
        epoch: stored,
        payload: payload.clone()?,
    }))
}
