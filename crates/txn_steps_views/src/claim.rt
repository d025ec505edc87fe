//! The call that makes a view a holder, of the next epoch or of one that is asked for.
ghost use Rattle.std.specs.Prelude.{◌≡◌, IfOk};
ghost use Rattle.txn_store.specs.types.Clones.{IsExactClone};
ghost use Rattle.txn_steps.specs.boundary.Steps.{by_number};
ghost use Rattle.txn_steps_views.specs.Lacking.{lacks, or_lacking};
ghost use Rattle.txn_steps_views.specs.Attempts.{IsMade};
ghost use Rattle.txn_steps_views.specs.Claims.{claim_started};

use crate::claiming::{Claiming, begin};
use std::alloc::Global;
use txn_store::types::codec::ObjectCodec;
use txn_store::types::epoch::EpochField;
use txn_store::types::id::MonotonicId;
use txn_store::types::layout::Layout;
use txn_store::types::step_error::StepError;

/// Makes a view a holder: enters the newest version once more, with its epoch one higher or with the one that is asked for.
/// An attempt that is overtaken leads to a read of the newest version and another attempt, and each one is refused where the
/// epoch that is asked for is not above that of the version that it is on. A claim that is refused ends its view.
#[derive(Drop)]
pub struct ClaimOp<T> {
    /// The epoch that is asked for; none asks for the next one.
    pub asked: Option<u64>,
    /// Its attempts.
    pub claiming: Claiming<T>,
}

impl<T: Clone> ClaimOp<T> {
    /// A claim of this epoch, or of the next one, whose first attempt is on the view's version, of this id and this value. It
    /// asks that a clone is the same value.
    ///
    /// # Errors
    ///
    /// `Fenced` for an epoch that is asked for and is not above that of the value; `IdExhausted` for a value that has no next
    /// epoch, its own being the greatest u64, and for an id that is the greatest u64; `NoMemory` where a growth was refused.
    /// They change nothing.
    pub fn start<C: ObjectCodec<T>, X: EpochField<T>>(
        alloc: Global,
        layout: &Layout<C>,
        epochs: &X,
        asked: Option<u64>,
        id: MonotonicId,
        object: &T,
    ) -> Result<ClaimOp<T>, StepError>
        requires { IsExactClone T.is_clone }
        ensures started { by_number result ≡ or_lacking (lacks (by_number result)) (claim_started layout.now.names layout.now.boundary (C.encoded layout.now.codec) (X.epoch_of epochs.now) (X.with_epoch epochs.now) asked id object.now) }
        ensures made { IfOk result (λ op. IsMade (C.encoded layout.now.codec) (C.decoded layout.now.codec) (X.epoch_of epochs.now) op.claiming) }
    {
        let claiming = begin(alloc, layout, epochs, asked, id, object)?;
        Ok(ClaimOp { asked, claiming })
    }
}
