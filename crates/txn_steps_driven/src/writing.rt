//! A write of a version, driven to its end.
ghost use Rattle.txn_steps_driven.specs.WriteRuns.{Written};

use crate::replies::reply_to;
use std::alloc::Global;
use txn_steps::boundary::turned::Turned;
use txn_steps::boundary::window::Window;
use txn_steps::write::{WriteAnswer, WriteUncheckedOp};
use txn_store::store::ObjectStore;
use txn_store::types::codec::ObjectCodec;
use txn_store::types::id::MonotonicId;
use txn_store::types::layout::Layout;

/// Creates the version directly after a base, or the first version where there is none, as the bytes that the codec writes
/// of the value, and answers its id. No boundary is read: the caller checks the id. It makes one store call at most, and
/// takes one token at most.
///
/// `ObjectVersionExists` comes where a version of that id is stored already, and `IdExhausted` exactly where the base is
/// the greatest u64; neither changes the files. `ObjectStoreError(Failed)` comes only where the store failed: the version
/// may have been created. `ObjectStoreError(TokensExhausted)` comes only where the store has no token left, and `NoMemory`
/// where a growth was refused; neither changes the files. Where it answers the id the version is put in the window, as
/// [`Window::keep`] does, and no error changes what is held.
pub fn write_version<T, C: ObjectCodec<T>, S: ObjectStore>(
    alloc: Global,
    layout: &Layout<C>,
    latest: &mut Window,
    store: &mut S,
    base: Option<MonotonicId>,
    value: &T,
) -> WriteAnswer
    ensures { Written layout.now.names (C.decoded layout.now.codec) base (C.encoded layout.now.codec value.now) value.now (S.state store.old) (S.state store.new) latest.old latest.new result }
{
    let mut op = WriteUncheckedOp::start(alloc, layout, base, value)?;
    'steps: loop {
        match op.take(latest, reply_to(alloc, store, op.ask())) {
            Turned::Goes => {}
            Turned::Done(answer) => return answer,
        }
    }
}
