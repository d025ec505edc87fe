//! How code of the caller's refuses: an invariant, or a mutator.
ghost use Rattle.txn_store.specs.declared.types.callback.CallbackFault.TheVariants.{NoMemory};
ghost use Rattle.std.specs.Prelude.{◌≡◌};

use std::alloc::AllocError;

/// Why an invariant or a mutator gave no answer.
#[derive(Debug, Drop)]
pub enum CallbackFault {
    /// It refused, with this error.
    Refused(anyhow::Error),
    /// A growth was refused.
    NoMemory,
}

impl From<AllocError> for CallbackFault {
    ghost from_gives = { λ _ made. made ≡ NoMemory };

    fn from(_error: AllocError) -> CallbackFault {
        CallbackFault::NoMemory
    }
}
