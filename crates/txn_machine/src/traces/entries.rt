//! The values of a history, read off its rows.
ghost use Rattle.std.specs.Prelude.{◌≡◌, map, IfOk, Some};
ghost use Rattle.std.specs.Option.{option_copied};
ghost use Rattle.txn_history.specs.Names.{world_names};
ghost use Rattle.txn_history.specs.History.{created_by, bytes_as, history};
ghost use Rattle.txn_history.specs.OneHistory.{IsOneHistory};

use crate::traces::requests::created_version;
use bytes::Bytes;
use std::alloc::{AllocError, Global};
use txn_history::trace::Row;
use txn_store::types::codec::{CodecFault, ObjectCodec};
use txn_store::types::epoch::EpochField;
use txn_store::types::layout::Layout;
use txn_store::version_names::VersionNames;

/// The bytes of the version of this id, where a row creates it.
fn bytes_of<'a, T>(names: &VersionNames, row: &'a Row<T>, id: u64) -> Option<&'a Bytes>
    requires { names.now ≡ world_names }
    ensures { option_copied result ≡ bytes_as id (created_by row.now) }
{
    match row {
        Row::Effect(_, request) => match created_version(names, request) {
            Some((created, bytes)) if created == id => Some(bytes),
            _ => None,
        },
        _ => None,
    }
}

/// The values of the entries that rows make: in one history each create of the next id makes one, and a create of another id
/// makes an erased name again. `field` and `failed` say of which history.
///
/// # Errors
///
/// Want of memory alone, which changes nothing.
pub fn entries_of<T: Drop, C: ObjectCodec<T>, E: EpochField<T>>(
    alloc: Global,
    layout: &Layout<C>,
    field: &E,
    failed: &[u64],
    rows: &[Row<T>],
) -> Result<Vec<T>, AllocError>
    requires names { layout.now.names ≡ world_names }
    requires good { IsOneHistory (C.decoded layout.now.codec) (E.epoch_of field.now) (E.with_epoch field.now) failed.now rows.now }
    ensures { IfOk result (λ entries. map Some entries.items ≡ history (C.decoded layout.now.codec) rows.now) }
{
    let mut entries = Vec::new(alloc);
    for row in rows {
        let next = entries.len() as u64 + 1;
        if let Some(bytes) = bytes_of(&layout.names, row, next) {
            match layout.codec.decode(alloc, bytes) {
                Ok(value) => entries.push(value)?,
                Err(CodecFault::NoMemory) => return Err(AllocError),
                Err(CodecFault::Refused(_)) => unreachable!(),
            }
        }
    }
    Ok(entries)
}
