//! The error of every call.
ghost use Rattle.std.specs.Prelude.{◌≡◌, ◌↔◌, IsTrue};
ghost use Rattle.txn_store.specs.declared.types.error.TransactionalObjectError.TheVariants.{NoMemory};
ghost use Rattle.txn_store.specs.types.Callbacks.{error_of_callback};
ghost use Rattle.txn_store.specs.types.Errors.{error_number, store_error_number, error_of_store, error_of_fault};

use crate::store::StoreError;
use crate::types::callback::CallbackFault;
use crate::types::codec::CodecFault;
use std::alloc::AllocError;
use thiserror::Error;

/// Why a call was refused. Each kind has a number, from 1 in this order.
#[derive(Debug, Drop, Error)]
pub enum TransactionalObjectError {
    /// Never made here: kept so that the kinds and their numbers stay.
    #[error("io error")]
    IoError,
    /// The store answered an error that no rule of the call names. It is never the store's `NoMemory`.
    #[error("object store error")]
    ObjectStoreError(StoreError),
    /// A claim read its clock at or past its deadline. What it wrote stands.
    #[error("object update timed out")]
    ObjectUpdateTimeout {
        /// The time that the claim was given, in milliseconds.
        timeout: u64,
    },
    /// A load found no version.
    #[error("failed to find latest record")]
    LatestRecordMissing,
    /// A conflict: the version that was to be created stands already, it is at or below the boundary, or a candidate is of
    /// another version than its object is at.
    #[error("object version exists")]
    ObjectVersionExists,
    /// A newer client has claimed the object, or a claim asked for an epoch that is not above the stored one.
    #[error("detected newer client")]
    Fenced,
    /// A file is missing that has to be there, or is not what it has to be; an id to be deleted is above the boundary; or a
    /// holder's version has a smaller epoch than its own, or its candidate another one.
    #[error("object in store is in an unexpected state")]
    InvalidObjectState,
    /// A codec, an invariant or a mutator refused, with this error.
    #[error("callback error")]
    CallbackError(anyhow::Error),
    /// A growth was refused.
    #[error("no memory")]
    NoMemory,
    /// No greater id or epoch is left.
    #[error("id exhausted")]
    IdExhausted,
    /// A turn was due and none was left. What was written stands.
    #[error("turns exhausted")]
    TurnsExhausted,
}

impl TransactionalObjectError {
    /// The number of its kind. It takes no memory.
    pub fn number(&self) -> u8
        ensures { result ≡ error_number self.now }
    {
        match self {
            TransactionalObjectError::IoError => 1,
            TransactionalObjectError::ObjectStoreError(_) => 2,
            TransactionalObjectError::ObjectUpdateTimeout { .. } => 3,
            TransactionalObjectError::LatestRecordMissing => 4,
            TransactionalObjectError::ObjectVersionExists => 5,
            TransactionalObjectError::Fenced => 6,
            TransactionalObjectError::InvalidObjectState => 7,
            TransactionalObjectError::CallbackError(_) => 8,
            TransactionalObjectError::NoMemory => 9,
            TransactionalObjectError::IdExhausted => 10,
            TransactionalObjectError::TurnsExhausted => 11,
        }
    }

    /// Whether it is a conflict, after which the caller refreshes and tries again. It takes no memory.
    pub fn is_sequenced_write_conflict(&self) -> bool
        ensures number { IsTrue result ↔ (error_number self.now ≡ 5) }
        ensures kind { IsTrue result ↔ (self.now ≡ TransactionalObjectError.ObjectVersionExists) }
    {
        matches!(self, TransactionalObjectError::ObjectVersionExists)
    }
}

impl From<StoreError> for TransactionalObjectError {
    ghost from_gives = { λ error made. made ≡ error_of_store error };

    fn from(error: StoreError) -> TransactionalObjectError
        ensures error { result ≡ error_of_store error }
        ensures number { error_number result ≡ store_error_number error }
    {
        match error {
            StoreError::NoMemory => TransactionalObjectError::NoMemory,
            other => TransactionalObjectError::ObjectStoreError(other),
        }
    }
}

impl From<AllocError> for TransactionalObjectError {
    ghost from_gives = { λ _ made. made ≡ NoMemory };

    fn from(_error: AllocError) -> TransactionalObjectError {
        TransactionalObjectError::NoMemory
    }
}

impl From<CodecFault> for TransactionalObjectError {
    ghost from_gives = { λ fault made. made ≡ error_of_fault fault };

    fn from(fault: CodecFault) -> TransactionalObjectError {
        match fault {
            CodecFault::Refused(error) => TransactionalObjectError::CallbackError(error),
            CodecFault::NoMemory => TransactionalObjectError::NoMemory,
        }
    }
}

impl From<CallbackFault> for TransactionalObjectError {
    ghost from_gives = { λ fault made. made ≡ error_of_callback fault };

    fn from(fault: CallbackFault) -> TransactionalObjectError {
        match fault {
            CallbackFault::Refused(error) => TransactionalObjectError::CallbackError(error),
            CallbackFault::NoMemory => TransactionalObjectError::NoMemory,
        }
    }
}
