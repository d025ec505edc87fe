//! A delete of a version, driven to its end.
ghost use Rattle.txn_steps_driven.specs.RemovalRuns.{Deleted};

use crate::replies::reply_to;
use std::alloc::Global;
use txn_steps::boundary::turned::Turned;
use txn_steps::boundary::window::Window;
use txn_steps::delete::{DeleteAnswer, DeleteUncheckedOp};
use txn_store::store::ObjectStore;
use txn_store::types::codec::ObjectCodec;
use txn_store::types::id::MonotonicId;
use txn_store::types::layout::Layout;

/// Removes the version of this id, whether it is stored or not, and drops the held version of that id alone. No boundary
/// is read: the caller knows that the id is at or below it. It makes one store call at most, and takes no token.
///
/// `ObjectStoreError(Failed)` comes only where the store failed: the version may have been removed. `NoMemory` comes where
/// a growth was refused, and leaves the files. No error changes what is held.
pub fn delete_version<T, C: ObjectCodec<T>, S: ObjectStore>(
    alloc: Global,
    layout: &Layout<C>,
    latest: &mut Window,
    store: &mut S,
    id: MonotonicId,
) -> DeleteAnswer
    ensures { Deleted layout.now.names (C.decoded layout.now.codec) id (S.state store.old) (S.state store.new) latest.old latest.new result }
{
    let mut op = DeleteUncheckedOp::start(alloc, layout, id)?;
    'steps: loop {
        match op.take(latest, reply_to(alloc, store, op.ask())) {
            Turned::Goes => {}
            Turned::Done(answer) => return answer,
        }
    }
}
