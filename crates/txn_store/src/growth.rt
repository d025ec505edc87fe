//! A refused growth among the errors of this crate: what `?` makes of it.
ghost use Rattle.std.specs.Prelude.{◌≡◌};
ghost use Rattle.txn_store.specs.declared.path.PathFault.{PathFault};
ghost use Rattle.txn_store.specs.declared.store.StoreError.{StoreError};

use crate::path::PathFault;
use crate::store::StoreError;
use std::alloc::{AllocError, AllocFailed};

impl From<AllocError> for PathFault {
    ghost from_gives = { λ _ e. e ≡ PathFault.NoMemory };

    fn from(_e: AllocError) -> PathFault {
        PathFault::NoMemory
    }
}

impl From<AllocError> for StoreError {
    ghost from_gives = { λ _ e. e ≡ StoreError.NoMemory };

    fn from(_e: AllocError) -> StoreError {
        StoreError::NoMemory
    }
}

impl<T: Drop> From<AllocFailed<T>> for StoreError {
    ghost from_gives = { λ _ e. e ≡ StoreError.NoMemory };

    fn from(_e: AllocFailed<T>) -> StoreError {
        StoreError::NoMemory
    }
}
