//! Why a log takes no row.
ghost use Rattle.std.specs.Prelude.{◌≡◌};
ghost use Rattle.txn_client_journals.specs.declared.log_fault.LogFault.TheVariants.{NoMemory};

use std::alloc::AllocError;

/// Why the log of an honest store takes no row. Each but `NoMemory` says that no honest store with the log so far can have
/// replied so.
#[derive(Clone, Copy, Debug, PartialEq, Eq)]
pub enum LogFault {
    /// The reply is of another kind than the request.
    OtherKind,
    /// The reply says that the call failed: an honest store does not fail.
    Failed,
    /// The files, or how many tokens are left, answer the call otherwise, whatever token a put was given.
    OtherAnswer,
    /// The put was given a token that was given before.
    TokenGiven,
    /// A growth was refused. With more memory the row may be taken.
    NoMemory,
}

impl From<AllocError> for LogFault {
    ghost from_gives = { λ _ e. e ≡ NoMemory };

    fn from(_e: AllocError) -> LogFault {
        LogFault::NoMemory
    }
}
