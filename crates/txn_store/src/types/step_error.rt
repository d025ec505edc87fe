//! The error of every call, as operations and drivers move it.
ghost use Rattle.std.specs.Prelude.{◌≡◌, ◌↔◌, IsTrue};
ghost use Rattle.txn_store.specs.declared.types.error.TransactionalObjectError.TheVariants.{NoMemory};
ghost use Rattle.txn_store.specs.declared.types.error.TransactionalObjectError.{TransactionalObjectError};
ghost use Rattle.txn_store.specs.types.Errors.{error_number, error_of_store};
ghost use Rattle.txn_store.specs.types.StepErrors.{error_of_kind, BecomesOf};

use crate::store::StoreError;
use crate::types::codec::CodecFault;
use crate::types::error::TransactionalObjectError;
use std::alloc::{AllocError, Global};
use std::marker::Model;

/// What an error says by its kind alone. Each is the kind of [`TransactionalObjectError`] of its name.
#[derive(Clone, Copy, Debug, PartialEq, Eq)]
pub enum ErrorKind {
    /// A load found no version.
    LatestRecordMissing,
    /// A conflict.
    ObjectVersionExists,
    /// A newer client has claimed the object.
    Fenced,
    /// A file is missing that has to be there, or is not what it has to be.
    InvalidObjectState,
    /// A growth was refused.
    NoMemory,
    /// No greater id or epoch is left.
    IdExhausted,
    /// A turn was due and none was left.
    TurnsExhausted,
}

/// What a small error has.
#[derive(Debug, Drop)]
enum Held {
    Plain(ErrorKind),
    Store(StoreError),
    Callback(Box<anyhow::Error>),
}

/// An error of a call, in two words: each step of each operation moves one, and the text of a callback's error, of some
/// 260 bytes, is behind a pointer. A contract sees the [`TransactionalObjectError`] that it becomes.
#[derive(Debug, Drop)]
pub struct StepError {
    held: Held,
}

impl Model for StepError {
    ghost use Rattle.txn_store.specs.declared.types.error.TransactionalObjectError.{TransactionalObjectError};

    ghost Value = { TransactionalObjectError };

    ghost use Rattle.txn_store.specs.types.Held.{error_held};

    ghost view = { λ e. error_held e.held };
}

impl StepError {
    /// What a codec's fault becomes. Where a growth is refused it is `NoMemory`.
    pub fn of_fault(alloc: Global, fault: CodecFault) -> StepError
        ensures { BecomesOf fault result }
    {
        let held = match fault {
            CodecFault::Refused(error) => match Box::new(alloc, error) {
                Ok(error) => Held::Callback(error),
                Err(_) => Held::Plain(ErrorKind::NoMemory),
            },
            CodecFault::NoMemory => Held::Plain(ErrorKind::NoMemory),
        };
        StepError { held }
    }

    /// The number of its kind. It takes no memory.
    pub fn number(&self) -> u8
        ensures { result ≡ error_number self.now }
    {
        match &self.held {
            Held::Plain(ErrorKind::LatestRecordMissing) => 4,
            Held::Plain(ErrorKind::ObjectVersionExists) => 5,
            Held::Plain(ErrorKind::Fenced) => 6,
            Held::Plain(ErrorKind::InvalidObjectState) => 7,
            Held::Plain(ErrorKind::NoMemory) => 9,
            Held::Plain(ErrorKind::IdExhausted) => 10,
            Held::Plain(ErrorKind::TurnsExhausted) => 11,
            Held::Store(_) => 2,
            Held::Callback(_) => 8,
        }
    }

    /// Whether it is a conflict, after which the caller refreshes and tries again. It takes no memory.
    pub fn is_sequenced_write_conflict(&self) -> bool
        ensures number { IsTrue result ↔ (error_number self.now ≡ 5) }
        ensures kind { IsTrue result ↔ (self.now ≡ TransactionalObjectError.ObjectVersionExists) }
    {
        matches!(self.held, Held::Plain(ErrorKind::ObjectVersionExists))
    }
}

impl From<ErrorKind> for StepError {
    ghost from_gives = { λ kind made. made ≡ error_of_kind kind };

    fn from(kind: ErrorKind) -> StepError {
        StepError {
            held: Held::Plain(kind),
        }
    }
}

impl From<StoreError> for StepError {
    ghost from_gives = { λ error made. made ≡ error_of_store error };

    fn from(error: StoreError) -> StepError {
        StepError {
            held: match error {
                StoreError::NoMemory => Held::Plain(ErrorKind::NoMemory),
                other => Held::Store(other),
            },
        }
    }
}

impl From<AllocError> for StepError {
    ghost from_gives = { λ _ made. made ≡ NoMemory };

    fn from(_error: AllocError) -> StepError {
        ErrorKind::NoMemory.into()
    }
}

impl From<StepError> for TransactionalObjectError {
    ghost from_gives = { λ error made. made ≡ error };

    fn from(error: StepError) -> TransactionalObjectError {
        match error.held {
            Held::Plain(kind) => error_of(kind),
            Held::Store(error) => TransactionalObjectError::ObjectStoreError(error),
            Held::Callback(error) => TransactionalObjectError::CallbackError(Box::into_inner(
                error,
            )),
        }
    }
}

/// The same answer, an error as what it becomes. It takes no memory.
///
/// # Errors
///
/// What the error of the answer becomes, where it is one.
pub fn widened<A>(answer: Result<A, StepError>) -> Result<A, TransactionalObjectError>
    ensures { result ≡ answer }
{
    match answer {
        Ok(answer) => Ok(answer),
        Err(error) => Err(error.into()),
    }
}

/// The error of a kind.
fn error_of(kind: ErrorKind) -> TransactionalObjectError
    ensures { result ≡ error_of_kind kind }
{
    match kind {
        ErrorKind::LatestRecordMissing => TransactionalObjectError::LatestRecordMissing,
        ErrorKind::ObjectVersionExists => TransactionalObjectError::ObjectVersionExists,
        ErrorKind::Fenced => TransactionalObjectError::Fenced,
        ErrorKind::InvalidObjectState => TransactionalObjectError::InvalidObjectState,
        ErrorKind::NoMemory => TransactionalObjectError::NoMemory,
        ErrorKind::IdExhausted => TransactionalObjectError::IdExhausted,
        ErrorKind::TurnsExhausted => TransactionalObjectError::TurnsExhausted,
    }
}
