//! Errors: their numbers and texts, and what those of a store become.
use TransactionalObjectError::{
    CallbackError, Fenced, IdExhausted, InvalidObjectState, IoError, LatestRecordMissing,
    ObjectStoreError, ObjectUpdateTimeout, ObjectVersionExists, TurnsExhausted,
};
use anyhow::anyhow;
use std::alloc::{AllocError, Global};
use std::test::Fail;
use txn_store::path::PathFault;
use txn_store::store::StoreError;
use txn_store::types::codec::CodecFault;
use txn_store::types::error::TransactionalObjectError;
use txn_store::types::step_error::{ErrorKind, StepError};

/// The errors of a store.
const STORE_ERRORS: [StoreError; 7] = [
    StoreError::NotFound,
    StoreError::AlreadyExists,
    StoreError::Precondition,
    StoreError::NotModified,
    StoreError::Failed,
    StoreError::NoMemory,
    StoreError::TokensExhausted,
];

/// What a store's error becomes.
fn become_of(error: StoreError) -> Result<(), TransactionalObjectError> {
    Err(error)?;
    Ok(())
}

/// The text of a store's error, and what it becomes: it is kept, but for that of want of memory.
fn store_words(alloc: Global, error: StoreError) -> Result<String, AllocError> {
    let became = become_of(error);
    format!(in alloc; "{error}: {became:?}\n")
}

/// What each of a store's errors says and becomes, and the faults of paths.
const STORE_WORDS: &str = "\
not found: Err(ObjectStoreError(NotFound))
already exists: Err(ObjectStoreError(AlreadyExists))
precondition failed: Err(ObjectStoreError(Precondition))
not modified: Err(ObjectStoreError(NotModified))
failed: Err(ObjectStoreError(Failed))
no memory: Err(NoMemory)
tokens exhausted: Err(ObjectStoreError(TokensExhausted))
bad segment: BadSegment, no memory: NoMemory
";

fn all_store_words(alloc: Global) -> Result<String, AllocError> {
    let mut text = String::new(alloc);
    for error in STORE_ERRORS {
        text.push_str(store_words(alloc, error)?.as_str())?;
    }
    let (bad, lacking) = (PathFault::BadSegment, PathFault::NoMemory);
    text.push_str(format!(in alloc; "{bad}: {bad:?}, {lacking}: {lacking:?}\n")?.as_str())?;
    Ok(text)
}

/// The error of this number.
fn error_of(number: u8) -> TransactionalObjectError {
    match number {
        1 => IoError,
        2 => ObjectStoreError(StoreError::Failed),
        3 => ObjectUpdateTimeout { timeout: 1500 },
        4 => LatestRecordMissing,
        5 => ObjectVersionExists,
        6 => Fenced,
        7 => InvalidObjectState,
        8 => CallbackError(anyhow!("bad bytes")),
        9 => TransactionalObjectError::NoMemory,
        10 => IdExhausted,
        _ => TurnsExhausted,
    }
}

/// Each error: its number, whether it is a conflict, and its text.
const WORDS: &str = "\
1 false io error
2 false object store error
3 false object update timed out
4 false failed to find latest record
5 true object version exists
6 false detected newer client
7 false object in store is in an unexpected state
8 false callback error
9 false no memory
10 false id exhausted
11 false turns exhausted
ObjectUpdateTimeout { timeout: 1500 }
";

fn words(alloc: Global, error: TransactionalObjectError) -> Result<String, AllocError> {
    let number = error.number();
    let is_conflict = error.is_sequenced_write_conflict();
    format!(in alloc; "{number} {is_conflict} {error}\n")
}

fn all_words(alloc: Global) -> Result<String, AllocError> {
    let mut text = String::new(alloc);
    for number in 1..12u8 {
        text.push_str(words(alloc, error_of(number))?.as_str())?;
    }
    let timeout = ObjectUpdateTimeout { timeout: 1500 };
    text.push_str(format!(in alloc; "{timeout:?}\n")?.as_str())?;
    Ok(text)
}

#[test]
fn errors_have_their_numbers_and_texts(rt: HostRuntime) -> Result<(), Fail> {
    assert_eq!(rt; all_store_words(rt.alloc())?.as_str(), STORE_WORDS);
    assert_eq!(rt; all_words(rt.alloc())?.as_str(), WORDS);
    Ok(())
}

/// The errors that say all by their kind.
const KINDS: [ErrorKind; 7] = [
    ErrorKind::LatestRecordMissing,
    ErrorKind::ObjectVersionExists,
    ErrorKind::Fenced,
    ErrorKind::InvalidObjectState,
    ErrorKind::NoMemory,
    ErrorKind::IdExhausted,
    ErrorKind::TurnsExhausted,
];

/// Each error as steps move it: its number, whether it is a conflict, and what it becomes.
const STEP_WORDS: &str = "\
4 false LatestRecordMissing
5 true ObjectVersionExists
6 false Fenced
7 false InvalidObjectState
9 false NoMemory
10 false IdExhausted
11 false TurnsExhausted
2 false ObjectStoreError(Failed)
9 false NoMemory
9 false NoMemory
8 false CallbackError(bad bytes)
9 false NoMemory
";

fn step_words(alloc: Global, error: StepError) -> Result<String, AllocError> {
    let number = error.number();
    let is_conflict = error.is_sequenced_write_conflict();
    let became = TransactionalObjectError::from(error);
    format!(in alloc; "{number} {is_conflict} {became:?}\n")
}

fn all_step_words(alloc: Global) -> Result<String, AllocError> {
    let mut text = String::new(alloc);
    for kind in KINDS {
        text.push_str(step_words(alloc, kind.into())?.as_str())?;
    }
    text.push_str(step_words(alloc, StoreError::Failed.into())?.as_str())?;
    text.push_str(step_words(alloc, StoreError::NoMemory.into())?.as_str())?;
    text.push_str(step_words(alloc, AllocError.into())?.as_str())?;
    let refused = StepError::of_fault(alloc, CodecFault::Refused(anyhow!("bad bytes")));
    text.push_str(step_words(alloc, refused)?.as_str())?;
    let lacking = StepError::of_fault(alloc, CodecFault::NoMemory);
    text.push_str(step_words(alloc, lacking)?.as_str())?;
    Ok(text)
}

#[test]
fn errors_of_steps_have_the_numbers_of_what_they_become(rt: HostRuntime) -> Result<(), Fail> {
    assert_eq!(rt; all_step_words(rt.alloc())?.as_str(), STEP_WORDS);
    Ok(())
}
