//! A write of a value that a view then shows.
ghost use Rattle.std.specs.Prelude.{◌≡◌, ◌<◌, ◌^◌, ◌-◌, Some, IfOk, OnOk};
ghost use Rattle.txn_store.specs.types.Clones.{IsExactClone};
ghost use Rattle.txn_store.specs.types.Numbers.{number_of};
ghost use Rattle.txn_steps.specs.boundary.Steps.{by_number, turned_by_number, TellsErrorOf};
ghost use Rattle.txn_steps.specs.boundary.Asking.{asks, reply_told};
ghost use Rattle.txn_steps_views.specs.Lacking.{lacks, or_lacking};
ghost use Rattle.txn_steps_views.specs.Entries.{entry_started, holder_entry_started, own_epochs, entry_asked, entry_value, entry_turned, entry_caches, IsWriting, IsEntryReply};

use crate::copies::Copies;
use crate::outcome::{Outcome, ViewAnswer};
use std::alloc::{AllocError, Global};
use std::mem;
use txn_steps::boundary::ask::Ask;
use txn_steps::boundary::caches::Caches;
use txn_steps::boundary::turned::Turned;
use txn_steps::write::WriteOp;
use txn_store::request::Reply;
use txn_store::types::codec::ObjectCodec;
use txn_store::types::epoch::{EpochField, test_epoch};
use txn_store::types::id::MonotonicId;
use txn_store::types::layout::Layout;
use txn_store::types::step_error::{ErrorKind, StepError};

/// A write of a value that a view then shows: as the first version, or directly on the view's version. The copies for the
/// answer are made beforehand, so that nothing grows once it is made. It has at most two calls of the store and five looks.
#[derive(Drop)]
pub enum EntryOp<T> {
    /// It writes this value.
    Writes(WriteOp, Copies<T>),
    /// It was answered.
    Ended,
}

/// Copies of a value. They ask that a clone is the same value. The only error is want of memory.
fn copies_of<T: Clone>(value: &T) -> Result<Copies<T>, AllocError>
    requires { IsExactClone T.is_clone }
    ensures { IfOk result (λ copies. copies ≡ value.now) }
{
    Copies::of(value.clone()?)
}

/// Whether the epoch of the view's value, and that of the value to be written, are the holder's.
fn test_epochs<T, X: EpochField<T>>(
    epochs: &X,
    local: u64,
    object: &T,
    value: &T,
) -> Result<(), StepError>
    ensures { by_number result ≡ own_epochs local (X.epoch_of epochs.now object.now) (X.epoch_of epochs.now value.now) }
{
    test_epoch(local, epochs.get_epoch(object))?;
    if epochs.get_epoch(value) != local {
        return Err(ErrorKind::InvalidObjectState.into());
    }
    Ok(())
}

impl<T: Clone> EntryOp<T> {
    /// A write of the value directly on the version of this id, or as the first version where there is none. It asks that a
    /// clone is the same value.
    ///
    /// # Errors
    ///
    /// `IdExhausted` for a base that is the greatest u64; `NoMemory` where a growth was refused. Both change nothing.
    #[inline(always)]
    pub fn start<C: ObjectCodec<T>>(
        alloc: Global,
        layout: &Layout<C>,
        base: Option<MonotonicId>,
        value: &T,
    ) -> Result<EntryOp<T>, StepError>
        requires { IsExactClone T.is_clone }
        ensures started { by_number result ≡ or_lacking (lacks (by_number result)) (entry_started layout.now.names layout.now.boundary (C.encoded layout.now.codec) base value.now) }
        ensures last { OnOk result (number_of base < 2 ^ 64 - 1) }
        ensures reads_back { OnOk result (C.decoded layout.now.codec (C.encoded layout.now.codec value.now) ≡ Some value.now) }
    {
        let write = WriteOp::start(alloc, layout, base, value)?;
        match copies_of(value) {
            Ok(copies) => Ok(EntryOp::Writes(write, copies)),
            // (by a call: in place, the proof would follow each state that may be dropped)
            Err(error) => {
                drop(write);
                Err(error.into())
            }
        }
    }

    /// A write of the value directly on the version of this id and this object, those of the holder's view. It asks that a
    /// clone is the same value.
    ///
    /// # Errors
    ///
    /// `Fenced` where the object's epoch is greater than the holder's; `InvalidObjectState` where it is smaller, or the value's
    /// is another one; `IdExhausted` for an id that is the greatest u64; `NoMemory` where a growth was refused. They change
    /// nothing.
    pub fn start_for_holder<C: ObjectCodec<T>, X: EpochField<T>>(
        alloc: Global,
        layout: &Layout<C>,
        epochs: &X,
        local: u64,
        id: MonotonicId,
        object: &T,
        value: &T,
    ) -> Result<EntryOp<T>, StepError>
        requires { IsExactClone T.is_clone }
        ensures started { by_number result ≡ or_lacking (lacks (by_number result)) (holder_entry_started layout.now.names layout.now.boundary (C.encoded layout.now.codec) (X.epoch_of epochs.now) local id object.now value.now) }
        ensures last { OnOk result (id < 2 ^ 64 - 1) }
        ensures reads_back { OnOk result (C.decoded layout.now.codec (C.encoded layout.now.codec value.now) ≡ Some value.now) }
    {
        test_epochs(epochs, local, object, value)?;
        EntryOp::start(alloc, layout, Some(id), value)
    }
}

impl<T: Drop> EntryOp<T> {
    /// What it asks for. It takes no memory.
    pub fn ask(&self) -> Ask<'_>
        ensures { asks result ≡ entry_asked self.now }
    {
        match self {
            EntryOp::Writes(write, _) => write.ask(),
            EntryOp::Ended => Ask::Look,
        }
    }

    /// Ends, and gives its value. It takes no memory.
    #[inline(always)]
    fn end(&mut self) -> Copies<T>
        requires { IsWriting self.old }
        ensures next { self.new ≡ EntryOp.Ended }
        ensures value { Some result ≡ entry_value self.old }
    {
        let EntryOp::Writes(_, copies) = mem::replace(self, EntryOp::Ended) else {
            unreachable!()
        };
        copies
    }

    /// Takes the store's reply to what it asks, or none for a look. Where the write answers its id, the view is at that,
    /// with the value. A version that stands already, or that the boundary has reached, is `ObjectVersionExists`; a boundary's
    /// file that says no number is `InvalidObjectState`; any other error is the store's, as it becomes. An answer ends it. It
    /// takes no memory.
    pub fn take(&mut self, caches: &mut Caches, reply: Option<Reply>) -> Turned<ViewAnswer<T>>
        requires { IsEntryReply self.old reply }
        ensures turned { (self.new, turned_by_number result) ≡ entry_turned self.old caches.old reply }
        ensures caches { caches.new ≡ entry_caches self.old caches.old }
        ensures store_error { TellsErrorOf (reply_told reply) result }
    {
        match self {
            EntryOp::Writes(write, _) => match write.take(caches, reply) {
                Turned::Goes => Turned::Goes,
                Turned::Done(Ok(id)) => Turned::Done(Ok(Outcome::Viewed(id, self.end()))),
                Turned::Done(Err(error)) => {
                    self.end();
                    Turned::Done(Err(error))
                }
            },
            EntryOp::Ended => unreachable!(),
        }
    }
}
