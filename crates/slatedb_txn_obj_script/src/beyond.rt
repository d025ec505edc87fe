//! The calls of a client that no world's script has.
use crate::boundaries::boundary_call;
use crate::objects::{Change, Object};
use crate::plain::{done, newest, said_of};
use crate::reading::{first_word, read_update_at};
use crate::said::Said;
use crate::setting::{Client, Desk, Store};
use crate::views::{Target, apply, fences, place, try_load, update};
use slatedb_txn_obj::{MonotonicId, SequencedStorageProtocol};
use std::alloc::AllocError;
use txn_script_lines::numerals::{read_decimal, read_pair};
use txn_script_lines::record::Record;
use txn_store::store::ObjectStore;

fn read_unchecked<S: ObjectStore, P: SequencedStorageProtocol<Record, S>>(
    protocol: &mut P,
    desk: &mut Desk<S>,
) -> Said {
    match protocol.try_read_latest_unchecked(&mut desk.store, &mut desk.turns) {
        Ok(found) => said_of(Ok(newest(found))),
        Err(error) => Said::Refused(error),
    }
}

fn remove_unchecked<S: ObjectStore, P: SequencedStorageProtocol<Record, S>>(
    protocol: &mut P,
    desk: &mut Desk<S>,
    words: &str,
) -> Option<Said> {
    let id = MonotonicId::new(read_decimal(words)?);
    Some(done(protocol.delete_unchecked(&mut desk.store, id)))
}

/// A view, and how much its mutator adds, or, where nothing is said of that, that it counts its attempts.
fn read_change(words: &str) -> Option<(u64, Change)> {
    match read_decimal(words) {
        Some(number) => Some((number, Change::Attempt)),
        None => {
            let (number, more) = read_pair(words)?;
            Some((number, Change::More(more)))
        }
    }
}

/// An update by a mutator.
fn apply_to<S: ObjectStore, P: SequencedStorageProtocol<Record, S>>(
    objects: &mut [Object],
    protocol: &mut P,
    desk: &mut Desk<S>,
    words: &str,
) -> Option<Said> {
    let (number, change) = read_change(words)?;
    match objects.get_mut(place(number)) {
        Some(object) => Some(apply(Target { number, object }, protocol, desk, change)),
        None => Some(Said::Misplaced),
    }
}

/// An update whose candidate has another id: the object, the id, and the value.
fn update_at<S: ObjectStore, P: SequencedStorageProtocol<Record, S>>(
    objects: &mut [Object],
    protocol: &mut P,
    desk: &mut Desk<S>,
    words: &str,
) -> Option<Said> {
    let (number, id, value) = read_update_at(words)?;
    match objects.get_mut(place(number)) {
        Some(object) => Some(update(Target { number, object }, protocol, desk, Some(id), value)),
        None => Some(Said::Misplaced),
    }
}

/// A call by its word and the words after it.
pub(crate) fn call_beyond(
    client: &mut Client,
    objects: &mut Vec<Object>,
    desk: &mut Desk<Store>,
    words: &str,
) -> Result<Option<Said>, AllocError> {
    let (word, rest) = first_word(words);
    let Client { protocol, boundary } = client;
    match word {
        "try_load" => Ok(Some(try_load(objects, protocol, desk)?)),
        "fences" => Ok(Some(fences(protocol, desk))),
        "apply" => Ok(apply_to(objects, protocol, desk, rest)),
        "update_at" => Ok(update_at(objects, protocol, desk, rest)),
        "read_latest_unchecked" => Ok(Some(read_unchecked(protocol, desk))),
        "delete_unchecked" => Ok(remove_unchecked(protocol, desk, rest)),
        _ => Ok(boundary_call(boundary, desk, word, rest)),
    }
}
