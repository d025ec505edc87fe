//! A read of the newest version that a view then shows.
ghost use Rattle.std.specs.Prelude.{◌≡◌, None, Some, Option, IfOk};
ghost use Rattle.txn_store.specs.declared.store.StoreError.{StoreError};
ghost use Rattle.txn_store.specs.types.Clones.{IsExactClone};
ghost use Rattle.txn_steps.specs.boundary.Steps.{by_number, turned_by_number, lacks_memory, HasErrorOf, TellsErrorOf};
ghost use Rattle.txn_steps.specs.boundary.Asking.{unless_lacking};
ghost use Rattle.txn_steps_views.specs.Lacking.{lacks, or_lacking};
ghost use Rattle.txn_steps_views.specs.Readings.{GoesAs};
ghost use Rattle.txn_steps_views.specs.ViewReads.{view_read_started, view_read_ended, view_read_told, holder_refreshed, shown};

use crate::copies::Copies;
use crate::outcome::{Outcome, ViewAnswer};
use std::alloc::AllocError;
use std::mem;
use txn_steps::boundary::turned::Turned;
use txn_steps::latest::ReadAnswer;
use txn_steps::read::ReadOp;
use txn_store::types::epoch::{EpochField, test_epoch};
use txn_store::types::id::MonotonicId;
use txn_store::types::layout::Layout;
use txn_store::types::step_error::{ErrorKind, StepError};

/// What the newest version is read for.
#[derive(Clone, Copy)]
pub enum Purpose {
    /// To make a view of it.
    Load,
    /// To move a view to it.
    Refresh,
    /// To move the view of a holder of this epoch to it, and to test that epoch.
    HolderRefresh(u64),
}

/// Reads the newest version, and makes a view of it, or moves a view to it.
#[derive(Drop)]
pub struct ViewReadOp<T> {
    /// What it reads for.
    pub purpose: Purpose,
    /// The read.
    pub read: ReadOp<T>,
}

/// What a holder's refresh makes of the version that its read found: the view is at it, be its epoch the holder's or not.
fn holder_refreshed<T: Clone, X: EpochField<T>>(
    epochs: &X,
    local: u64,
    id: MonotonicId,
    value: T,
) -> ViewAnswer<T>
    requires { IsExactClone T.is_clone }
    ensures refreshed { by_number result ≡ or_lacking (lacks (by_number result)) (holder_refreshed (X.epoch_of epochs.now) local (Some (id, value))) }
    ensures store_error { HasErrorOf None result }
{
    match test_epoch(local, epochs.get_epoch(&value)) {
        Ok(()) => Ok(Outcome::Viewed(id, Copies::of(value)?)),
        Err(error) => Ok(Outcome::Shut(id, value, error)),
    }
}

/// What it makes of what was found, by what that was read for.
fn shown<T: Clone, X: EpochField<T>>(
    epochs: &X,
    purpose: Purpose,
    found: Option<(MonotonicId, T)>,
) -> ViewAnswer<T>
    requires { IsExactClone T.is_clone }
    ensures shown { by_number result ≡ or_lacking (lacks (by_number result)) (shown (X.epoch_of epochs.now) purpose found) }
    ensures store_error { HasErrorOf None result }
{
    match (purpose, found) {
        (Purpose::Load, None) => Err(ErrorKind::LatestRecordMissing.into()),
        (_, None) => Err(ErrorKind::InvalidObjectState.into()),
        (Purpose::Load | Purpose::Refresh, Some((id, value))) => {
            Ok(Outcome::Viewed(id, Copies::of(value)?))
        }
        (Purpose::HolderRefresh(local), Some((id, value))) => {
            holder_refreshed(epochs, local, id, value)
        }
    }
}

impl<T: Drop> ViewReadOp<T> {
    /// A read of the newest version for this purpose, which begins with a look.
    ///
    /// # Errors
    ///
    /// Want of memory alone, which changes nothing.
    pub fn start<C>(layout: &Layout<C>, purpose: Purpose) -> Result<ViewReadOp<T>, AllocError>
        ensures { IfOk result (λ op. op ≡ view_read_started layout.now.boundary purpose) }
    {
        let read = ReadOp::start(layout)?;
        Ok(ViewReadOp { purpose, read })
    }
}

impl<T: Clone> ViewReadOp<T> {
    /// Its read says this. The view is at the version that the read answers: where its epoch is greater than that of a holder
    /// that refreshes, the holder is shut by `Fenced`, and where it is smaller by `InvalidObjectState`. None is
    /// `LatestRecordMissing` for a load, and else `InvalidObjectState`; an error of the read is answered. A growth that is
    /// refused is `NoMemory`. An answer ends it. It asks that a clone is the same value.
    pub fn after_read<X: EpochField<T>>(
        &mut self,
        epochs: &X,
        told: Turned<ReadAnswer<T>>,
    ) -> Turned<ViewAnswer<T>>
        requires { IsExactClone T.is_clone }
        ensures turned { (self.new, turned_by_number result) ≡ unless_lacking (lacks_memory (turned_by_number result)) (view_read_ended self.old) (view_read_told (X.epoch_of epochs.now) self.old (turned_by_number told)) }
        ensures goes { GoesAs (turned_by_number told) (turned_by_number result) }
        ensures store_error { (error : Option StoreError) → TellsErrorOf error told → TellsErrorOf error result }
    {
        match told {
            Turned::Goes => Turned::Goes,
            Turned::Done(told) => {
                // (by a call: in place, the proof would follow each state that may be dropped)
                drop(mem::replace(&mut self.read, ReadOp::Ended));
                match told {
                    Ok(found) => Turned::Done(shown(epochs, self.purpose, found)),
                    Err(error) => Turned::Done(Err(error)),
                }
            }
        }
    }
}
