//! Files that are looked at, put or erased by hand.
use crate::reading::{first_word, read_bytes};
use crate::said::Said;
use bytes::Bytes;
use std::alloc::{AllocError, Global};
use txn_history::event::{Answer, PlainAnswer};
use txn_store::path::{Path, PathFault};
use txn_store::store::{Got, ObjectStore, PutMode, StoreError};

/// What a line says, none where its words are no path and no bytes of a file. The only error is want of memory.
type Read = Result<Option<Said>, AllocError>;

/// The path that a word is, where it is one.
fn read_path(alloc: Global, word: &str) -> Result<Option<Path>, AllocError> {
    match Path::from_text(alloc, word) {
        Ok(path) => Ok(Some(path)),
        Err(PathFault::BadSegment) => Ok(None),
        Err(PathFault::NoMemory) => Err(AllocError),
    }
}

/// What a get says of its file.
fn got(answer: Result<Got, StoreError>) -> Said {
    match answer {
        Ok(got) => Said::File(Some(got)),
        Err(StoreError::NotFound) => Said::File(None),
        Err(error) => Said::Refused(error.into()),
    }
}

fn done<T: Drop>(answer: Result<T, StoreError>) -> Said {
    match answer {
        Ok(_) => Said::Answered(Answer::Plain(PlainAnswer::Done)),
        Err(error) => Said::Refused(error.into()),
    }
}

/// A path, and the bytes of a file, none where no word says them.
fn read_put(alloc: Global, words: &str) -> Result<Option<(Path, Bytes)>, AllocError> {
    let (word, bytes) = first_word(words);
    match read_path(alloc, word)? {
        None => Ok(None),
        Some(path) => Ok(Some((path, Bytes::from_vec(read_bytes(alloc, bytes)?)?))),
    }
}

/// A file is put, in place of any other.
pub(crate) fn put<S: ObjectStore>(alloc: Global, store: &mut S, words: &str) -> Read {
    match read_put(alloc, words)? {
        None => Ok(None),
        Some((path, bytes)) => Ok(Some(done(store.put(&path, &bytes, &PutMode::Overwrite)))),
    }
}

/// What a file holds. It gets the file.
pub(crate) fn look<S: ObjectStore>(alloc: Global, store: &mut S, word: &str) -> Read {
    match read_path(alloc, word)? {
        None => Ok(None),
        Some(path) => Ok(Some(got(store.get(&path, None)))),
    }
}

/// A file is removed.
pub(crate) fn erase<S: ObjectStore>(alloc: Global, store: &mut S, word: &str) -> Read {
    match read_path(alloc, word)? {
        None => Ok(None),
        Some(path) => Ok(Some(done(store.delete(&path)))),
    }
}
