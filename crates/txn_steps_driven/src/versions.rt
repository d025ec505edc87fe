//! Reads of one version, driven to their end.
ghost use Rattle.std.specs.Prelude.{◌≡◌, ◌^◌, ◌<◌};
ghost use Rattle.txn_steps_driven.specs.VersionReads.{SeenRead, VersionRead};

use crate::replies::reply_to;
use std::alloc::Global;
use txn_steps::boundary::turned::Turned;
use txn_steps::boundary::window::Window;
use txn_steps::seen::{ReadSeenOp, ReadUncheckedOp, ValueAnswer};
use txn_store::store::ObjectStore;
use txn_store::types::codec::ObjectCodec;
use txn_store::types::id::MonotonicId;
use txn_store::types::layout::Layout;

/// The number of an id has 64 bits. This says so to a proof, and does nothing.
pub fn number_fits(id: MonotonicId)
    ensures { id < 2 ^ 64 }
{
    let _number = id.id();
}

/// Reads the version of this id, by one call of the store. It answers its value, or `None` where it is not stored.
/// `CallbackError` comes where the codec refuses its bytes, `ObjectStoreError` where the store failed, and `NoMemory`
/// where a growth was refused. The files stay as they were.
pub fn read_version<T: Drop, C: ObjectCodec<T>, S: ObjectStore>(
    alloc: Global,
    layout: &Layout<C>,
    store: &mut S,
    id: MonotonicId,
) -> ValueAnswer<T>
    ensures { VersionRead layout.now.names (C.decoded layout.now.codec) (S.state store.old) (S.state store.new) id result }
{
    number_fits(id);
    let op = ReadUncheckedOp::start(alloc, layout, id)?;
    let reply = reply_to(alloc, store, op.ask());
    match op.take(alloc, layout, reply) {
        Turned::Done(answer) => answer,
        Turned::Goes => unreachable!(),
    }
}

/// Reads the version of this id, where it is held with no call of the store, and else by one. A version that is stored
/// is put in the window: where that is full, in place of the smallest id that it holds, if its own is above that. It
/// answers its value, or `None` where it is neither held nor stored. `CallbackError` comes where the codec refuses its
/// bytes, `ObjectStoreError` where the store failed, and `NoMemory` where a growth was refused. The files stay as they
/// were.
pub fn read_seen<T: Drop, C: ObjectCodec<T>, S: ObjectStore>(
    alloc: Global,
    layout: &Layout<C>,
    latest: &mut Window,
    store: &mut S,
    id: MonotonicId,
) -> ValueAnswer<T>
    ensures { SeenRead layout.now.names (C.decoded layout.now.codec) (S.state store.old) (S.state store.new) latest.old latest.new id result }
{
    number_fits(id);
    let mut op = ReadSeenOp::start(id);
    'steps: loop {
        match op.take(alloc, layout, latest, reply_to(alloc, store, op.ask())) {
            Turned::Goes => {}
            Turned::Done(answer) => return answer,
        }
    }
}
