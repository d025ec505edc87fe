//! The error of every call.
ghost use Rattle.std.specs.Prelude.{◌≡◌, ◌↔◌, IsTrue};
ghost use Rattle.txnobj.specs.declared.error.Error.TheVariants.{NoMemory};
ghost use Rattle.txnobj.specs.Errors.{error_number, error_of_stop, error_of_callback};

use crate::clients::stop::Stop;
use std::alloc::AllocError;
use std::io;
use txn_history::event::EventFault;
use txn_store::types::callback::CallbackFault;

/// Why a call gave no answer. Each kind has a number; those that `TransactionalObjectError` has too, have its number there.
#[derive(Debug, Drop, thiserror::Error)]
pub enum Error<F> {
    /// A store call failed, and this is why, where the store said so. What was to be written may stand.
    #[error("object store error")]
    ObjectStoreError(Option<F>),
    /// A claim read its clock at or past its deadline.
    #[error("object update timed out")]
    ObjectUpdateTimeout {
        /// The time that the claim was given, in milliseconds.
        timeout: u64,
    },
    /// A load found no version.
    #[error("failed to find latest record")]
    LatestRecordMissing,
    /// A conflict: the version that was to be created stands already, it is at or below the boundary, or a candidate is of
    /// another version than its object is at.
    #[error("object version exists")]
    ObjectVersionExists,
    /// A newer client has claimed the object, or a claim asked for an epoch that is not above the stored one.
    #[error("detected newer client")]
    Fenced,
    /// A file is missing that has to be there, or is not what it has to be; an id to be deleted is above the boundary; a
    /// holder's candidate has another epoch than its own; or an answer is of no kind that the call has.
    #[error("object in store is in an unexpected state")]
    InvalidObjectState,
    /// An invariant or a mutator refused, with this error; or the codec refused the bytes of a version, of which the client
    /// tells no more.
    #[error("callback error")]
    CallbackError(anyhow::Error),
    /// A growth was refused. In the middle of a call it ends the client.
    #[error("no memory")]
    NoMemory,
    /// No greater id or epoch is left.
    #[error("id exhausted")]
    IdExhausted,
    /// A call was not answered within its looks and store calls, or each attempt was a conflict. A write that was asked for may
    /// still reach the store.
    #[error("turns exhausted")]
    TurnsExhausted,
    /// The client does not permit the call, which made none of the store.
    #[error("the client does not permit the call")]
    NotPermitted(EventFault),
    /// The recorder failed. The client makes no further call; what was asked for may have taken effect.
    #[error("the recorder failed")]
    Unrecorded(io::Error),
    /// The client ended before, where its recorder failed, or for want of memory.
    #[error("the client has ended")]
    Ended,
}

impl<F> Error<F> {
    /// The number of its kind. It takes no memory.
    pub fn number(&self) -> u8
        ensures { result ≡ error_number self.now }
    {
        match self {
            Error::ObjectStoreError(_) => 2,
            Error::ObjectUpdateTimeout { .. } => 3,
            Error::LatestRecordMissing => 4,
            Error::ObjectVersionExists => 5,
            Error::Fenced => 6,
            Error::InvalidObjectState => 7,
            Error::CallbackError(_) => 8,
            Error::NoMemory => 9,
            Error::IdExhausted => 10,
            Error::TurnsExhausted => 11,
            Error::NotPermitted(_) => 12,
            Error::Unrecorded(_) => 13,
            Error::Ended => 14,
        }
    }

    /// Whether it is a conflict, after which the caller refreshes and tries again. It takes no memory.
    pub fn is_sequenced_write_conflict(&self) -> bool
        ensures number { IsTrue result ↔ (error_number self.now ≡ 5) }
        ensures kind { IsTrue result ↔ (self.now ≡ Error.ObjectVersionExists) }
    {
        matches!(self, Error::ObjectVersionExists)
    }
}

/// What the reason becomes for which a client brought no call to its answer.
impl<F> From<Stop> for Error<F> {
    ghost from_gives = { λ stop made. made ≡ error_of_stop stop };

    fn from(stop: Stop) -> Error<F> {
        match stop {
            Stop::Refused(EventFault::NoMemory) => Error::NoMemory,
            Stop::Refused(fault) => Error::NotPermitted(fault),
            Stop::StepsSpent => Error::TurnsExhausted,
            Stop::Unrecorded(error) => Error::Unrecorded(error),
            Stop::NoMemory => Error::NoMemory,
            Stop::Ended => Error::Ended,
        }
    }
}

/// What becomes of a refusal by an invariant or a mutator.
impl<F> From<CallbackFault> for Error<F> {
    ghost from_gives = { λ fault made. made ≡ error_of_callback fault };

    fn from(fault: CallbackFault) -> Error<F> {
        match fault {
            CallbackFault::Refused(error) => Error::CallbackError(error),
            CallbackFault::NoMemory => Error::NoMemory,
        }
    }
}

impl<F> From<AllocError> for Error<F> {
    ghost from_gives = { λ _ made. made ≡ NoMemory };

    fn from(_error: AllocError) -> Error<F> {
        Error::NoMemory
    }
}
