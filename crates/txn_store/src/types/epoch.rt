//! Epochs: where values keep them, the next one of a claim, and the test of a holder's.
ghost use Rattle.std.specs.Prelude.{◌≡◌, ◌<◌, ℕ, IfOk, IfErr, OnOk};
ghost use Rattle.txn_store.specs.types.Epochs.{claimed_epoch, epoch_tested, IsEpochError, NextEpoch, HasNoEpoch};

use crate::types::step_error::{ErrorKind, StepError};

/// Where the values of a type keep their epoch, the number that shuts out clients of smaller ones.
///
/// Reading and setting are stated functions of the field and the value, and what was set is read.
pub trait EpochField<T>: Copy {
    /// The epoch of a value.
    ghost epoch_of: { Self → T → ℕ };

    /// The value with another epoch.
    ghost with_epoch: { Self → T → ℕ → T };

    /// The epoch of the value. It takes no memory.
    fn get_epoch(&self, value: &T) -> u64
        ensures { result ≡ epoch_of self.now value.now };

    /// Sets the epoch of the value. It takes no memory.
    fn set_epoch(&self, value: &mut T, epoch: u64)
        ensures set { value.new ≡ with_epoch self.now value.old epoch }
        // What was set is read.
        ensures reads_back { epoch_of self.now (with_epoch self.now value.old epoch) ≡ epoch };
}

/// The epoch that a claim sets where this one is stored: one more, or the one that is asked for. It takes no memory.
///
/// # Errors
///
/// `IdExhausted` where none is asked for and there is no greater one; `Fenced` where the one that is asked for isn't greater.
pub fn next_epoch(asked: Option<u64>, stored: u64) -> Result<u64, StepError>
    ensures claimed { result ≡ claimed_epoch asked stored }
    ensures rises { IfOk result (λ epoch. stored < epoch) }
    ensures next { IfOk result (NextEpoch asked stored) }
    ensures none { IfErr result (HasNoEpoch asked stored) }
{
    match asked {
        None => stored.checked_add(1).ok_or(ErrorKind::IdExhausted.into()),
        Some(epoch) if epoch <= stored => Err(ErrorKind::Fenced.into()),
        Some(epoch) => Ok(epoch),
    }
}

/// Whether a stored epoch is the holder's own. It takes no memory.
///
/// # Errors
///
/// `Fenced` for a greater one; `InvalidObjectState` for a smaller one.
pub fn test_epoch(local: u64, stored: u64) -> Result<(), StepError>
    ensures tested { result ≡ epoch_tested local stored }
    ensures own { OnOk result (stored ≡ local) }
    ensures other { IfErr result (IsEpochError local stored) }
{
    if local < stored {
        return Err(ErrorKind::Fenced.into());
    }
    if local > stored {
        return Err(ErrorKind::InvalidObjectState.into());
    }
    Ok(())
}
