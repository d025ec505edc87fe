//! An unchecked read of one version that runs alone.
ghost use Rattle.std.specs.Prelude.{◌≡◌, IfOk};
ghost use Rattle.txn_steps.specs.Requests.{version_got};
ghost use Rattle.txn_steps_driven.specs.DriveReads.{version_asks};
ghost use Rattle.txn_steps_driven.specs.DriveSteps.{CanGet, ReadVersionSteps};

use crate::drive::{At, Drive};
use crate::replies::reply_to;
use std::alloc::{AllocError, Global};
use std::marker::PhantomData;
use txn_steps::boundary::caches::Caches;
use txn_steps::boundary::turned::Turned;
use txn_steps::seen::{ReadUncheckedOp, ValueAnswer};
use txn_store::store::ObjectStore;
use txn_store::types::codec::ObjectCodec;
use txn_store::types::id::MonotonicId;
use txn_store::types::layout::Layout;

/// An unchecked read of one version, whose value has this type: the state of `txn_steps`, which names no type of values.
#[derive(Drop)]
pub struct ReadVersion<T> {
    /// The state.
    pub op: ReadUncheckedOp,
    /// The type of the value.
    pub of: PhantomData<T>,
}

impl<T> ReadVersion<T> {
    /// A read of the version of this id.
    ///
    /// # Errors
    ///
    /// Want of memory alone, which changes nothing.
    pub fn start<C>(
        alloc: Global,
        layout: &Layout<C>,
        id: MonotonicId,
    ) -> Result<ReadVersion<T>, AllocError>
        ensures { IfOk result (λ read. read.op ≡ record { request = version_got layout.now.names id }) }
    {
        Ok(ReadVersion {
            op: ReadUncheckedOp::start(alloc, layout, id)?,
            of: PhantomData,
        })
    }
}

/// It gets the version, and answers.
impl<T, C: ObjectCodec<T>, S: ObjectStore> Drive<C, S> for ReadVersion<T> {
    type Answer = ValueAnswer<T>;

    ghost asks = { λ layout read. CanGet read.op.request };

    ghost leads = { λ layout. ReadVersionSteps (C.decoded layout.codec) };

    ghost asks_again = { λ layout a b can step. version_asks (C.decoded layout.codec) a b can step };

    fn step(&mut self, at: &At<C>, store: &mut S, _caches: &mut Caches) -> Turned<Self::Answer> {
        let reply = reply_to(at.alloc, store, self.op.ask());
        self.op.take(at.alloc, at.layout, reply)
    }
}
