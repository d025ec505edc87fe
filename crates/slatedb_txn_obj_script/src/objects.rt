//! Views and holders, and their calls.
use crate::ceiling::Ceiling;
use crate::said::Said;
use slatedb_txn_obj::{
    CallbackFault, DirtyObject, FenceableTransactionalObject, MonotonicId,
    SimpleTransactionalObject, SystemClock, TransactionalObject, TransactionalObjectError,
    TransactionalStorageProtocol, Turns,
};
use std::alloc::{AllocError, Global};
use std::cell::Cell;
use txn_history::event::{Answer, PlainAnswer};
use txn_script_lines::record::{Record, RecordEpoch};
use txn_store::store::ObjectStore;

pub(crate) type View = SimpleTransactionalObject<Record, MonotonicId, Ceiling>;

pub(crate) type Holder = FenceableTransactionalObject<Record, Ceiling, RecordEpoch>;

/// What a call answers, or its error.
pub(crate) type ObjectAnswer = Result<Answer<Record>, TransactionalObjectError>;

/// An object of a number.
#[derive(Drop)]
pub(crate) enum Object {
    /// A view whose claim was not held.
    Ended,
    View(View),
    Holder(Holder),
}

/// What an object is at.
pub(crate) fn shown(number: u64, object: &Object) -> Said {
    match object {
        Object::Ended => Said::Misplaced,
        Object::View(view) => {
            Said::Answered(Answer::View(number, view.id().id(), *view.object()))
        }
        Object::Holder(holder) => Said::Answered(Answer::Held(
            number,
            holder.id().id(),
            *holder.object(),
            holder.local_epoch(),
        )),
    }
}

/// The candidate of an object.
pub(crate) fn prepared<O: TransactionalObject<Record, MonotonicId>>(object: &O) -> ObjectAnswer {
    let dirty = object.prepare_dirty()?;
    Ok(Answer::Plain(PlainAnswer::Read(Some((dirty.id.id(), dirty.value)))))
}

/// An object goes on to the newest version.
pub(crate) fn refreshed<
    S: ObjectStore,
    P: TransactionalStorageProtocol<Record, MonotonicId, S>,
    O: TransactionalObject<Record, MonotonicId>,
>(number: u64, object: &mut O, protocol: &mut P, store: &mut S, turns: &mut Turns) -> ObjectAnswer {
    let value = *object.refresh(protocol, store, turns)?;
    Ok(Answer::View(number, object.id().id(), value))
}

/// An update to this value, whose candidate has this id where one is given.
pub(crate) fn updated<
    S: ObjectStore,
    P: TransactionalStorageProtocol<Record, MonotonicId, S>,
    O: TransactionalObject<Record, MonotonicId>,
>(
    number: u64,
    object: &mut O,
    protocol: &mut P,
    store: &mut S,
    id: Option<u64>,
    value: Record,
) -> ObjectAnswer {
    let DirtyObject { id: own, .. } = object.prepare_dirty()?;
    let id = id.map_or(own, MonotonicId::new);
    object.update(protocol, store, DirtyObject { id, value })?;
    Ok(Answer::View(number, object.id().id(), *object.object()))
}

/// What a mutator makes of a payload.
#[derive(Clone, Copy)]
pub(crate) enum Change {
    /// So much more.
    More(u64),
    /// The number of the attempt.
    Attempt,
}

/// The candidate of the attempt that the count comes to.
fn candidate(
    view: &View,
    change: Change,
    attempts: &Cell<u64>,
) -> Result<Option<DirtyObject<Record, MonotonicId>>, CallbackFault> {
    attempts.set(attempts.get().saturating_add(1));
    let Ok(mut dirty) = view.prepare_dirty() else {
        return Err(CallbackFault::NoMemory);
    };
    dirty.value.payload = match change {
        Change::More(more) => dirty.value.payload.saturating_add(more),
        Change::Attempt => attempts.get(),
    };
    Ok(Some(dirty))
}

/// An update by a mutator.
pub(crate) fn applied<S: ObjectStore, P: TransactionalStorageProtocol<Record, MonotonicId, S>>(
    number: u64,
    view: &mut View,
    protocol: &mut P,
    store: &mut S,
    turns: &mut Turns,
    change: Change,
) -> ObjectAnswer {
    let attempts = Cell::new(0);
    let mutator = |view: &View| candidate(view, change, &attempts);
    view.maybe_apply_update(protocol, store, turns, &mutator)?;
    Ok(Answer::View(number, view.id().id(), *view.object()))
}

/// The holder of a view that is claimed with this epoch, or with the next one.
pub(crate) fn claimed<
    S: ObjectStore,
    P: TransactionalStorageProtocol<Record, MonotonicId, S>,
    K: SystemClock,
>(
    view: View,
    protocol: &mut P,
    store: &mut S,
    turns: &mut Turns,
    clock: &mut K,
    timeout: u64,
    epoch: Option<u64>,
) -> Result<Holder, TransactionalObjectError> {
    match epoch {
        None => Holder::init(view, protocol, store, turns, timeout, clock, RecordEpoch),
        Some(epoch) => Holder::init_with_epoch(
            view,
            protocol,
            store,
            turns,
            timeout,
            clock,
            epoch,
            RecordEpoch,
        ),
    }
}

/// Ceilings, of which the first says that it is.
pub(crate) fn ceilings_of(alloc: Global, numbers: &[u64]) -> Result<Vec<Ceiling>, AllocError> {
    let mut ceilings = Vec::new(alloc);
    for ceiling in numbers {
        let is_first = ceilings.is_empty();
        let ceiling = *ceiling;
        ceilings.push(Ceiling { is_first, ceiling })?;
    }
    Ok(ceilings)
}
