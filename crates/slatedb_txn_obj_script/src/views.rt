//! The calls that make objects, or use one by its number.
use crate::objects::{
    Change, Object, View, applied, ceilings_of, claimed, prepared, refreshed, shown, updated,
};
use crate::plain::newest;
use crate::said::Said;
use crate::setting::Desk;
use slatedb_txn_obj::{MonotonicId, TransactionalObjectError, TransactionalStorageProtocol};
use slatedb_txn_obj_uses::holders::fences_older_holder;
use std::alloc::{AllocError, Global};
use std::mem;
use txn_history::event::{Answer, ViewCall};
use txn_script_lines::record::{Record, RecordEpoch};
use txn_store::store::ObjectStore;

/// The place of a number, counted from 1, and past the end for 0.
pub(crate) fn place(number: u64) -> usize {
    match number.checked_sub(1) {
        Some(place) => place as usize,
        None => usize::MAX,
    }
}

/// The object that a call is for, and its number.
#[derive(Drop)]
pub(crate) struct Target<'o> {
    pub number: u64,
    pub object: &'o mut Object,
}

/// A view gets the next number.
fn enter(objects: &mut Vec<Object>, view: View) -> Result<Said, AllocError> {
    let number = (objects.len() as u64).saturating_add(1);
    let object = Object::View(view);
    let said = shown(number, &object);
    objects.push(object)?;
    Ok(said)
}

/// A view that a call made gets the next number.
fn entered(
    objects: &mut Vec<Object>,
    answer: Result<View, TransactionalObjectError>,
) -> Result<Said, AllocError> {
    match answer {
        Ok(view) => enter(objects, view),
        Err(error) => Ok(Said::Refused(error)),
    }
}

/// A view of the newest version, where there is one.
pub(crate) fn try_load<S: ObjectStore, P: TransactionalStorageProtocol<Record, MonotonicId, S>>(
    objects: &mut Vec<Object>,
    protocol: &mut P,
    desk: &mut Desk<S>,
) -> Result<Said, AllocError> {
    let Desk {
        alloc,
        store,
        turns,
        ..
    } = desk;
    match View::try_load(*alloc, protocol, store, turns) {
        Ok(Some(view)) => enter(objects, view),
        Ok(None) => Ok(Said::Answered(Answer::Plain(newest(None)))),
        Err(error) => Ok(Said::Refused(error)),
    }
}

/// The view of a place, which it leaves.
fn take_view(object: &mut Object) -> Option<View> {
    if !matches!(&*object, Object::View(_)) {
        return None;
    }
    match mem::replace(object, Object::Ended) {
        Object::View(view) => Some(view),
        _ => None,
    }
}

/// The view leaves its place, and its holder takes it.
fn claim<S: ObjectStore, P: TransactionalStorageProtocol<Record, MonotonicId, S>>(
    target: Target<'_>,
    protocol: &mut P,
    desk: &mut Desk<S>,
    epoch: Option<u64>,
) -> Said {
    let Some(view) = take_view(target.object) else {
        return Said::Misplaced;
    };
    let Desk {
        store,
        turns,
        clock,
        timeout,
        ..
    } = desk;
    match claimed(view, protocol, store, turns, clock, *timeout, epoch) {
        Ok(holder) => {
            *target.object = Object::Holder(holder);
            shown(target.number, target.object)
        }
        Err(error) => Said::Refused(error),
    }
}

fn refresh<S: ObjectStore, P: TransactionalStorageProtocol<Record, MonotonicId, S>>(
    target: Target<'_>,
    protocol: &mut P,
    desk: &mut Desk<S>,
) -> Said {
    let Target { number, object } = target;
    let Desk { store, turns, .. } = desk;
    match object {
        Object::Ended => Said::Misplaced,
        Object::View(view) => Said::of(refreshed(number, view, protocol, store, turns)),
        Object::Holder(holder) => Said::of(refreshed(number, holder, protocol, store, turns)),
    }
}

/// An update to this value, whose candidate has this id where one is given.
pub(crate) fn update<S: ObjectStore, P: TransactionalStorageProtocol<Record, MonotonicId, S>>(
    target: Target<'_>,
    protocol: &mut P,
    desk: &mut Desk<S>,
    id: Option<u64>,
    value: Record,
) -> Said {
    let Target { number, object } = target;
    let store = &mut desk.store;
    match object {
        Object::Ended => Said::Misplaced,
        Object::View(view) => Said::of(updated(number, view, protocol, store, id, value)),
        Object::Holder(holder) => Said::of(updated(number, holder, protocol, store, id, value)),
    }
}

/// An update of a view by a mutator.
pub(crate) fn apply<S: ObjectStore, P: TransactionalStorageProtocol<Record, MonotonicId, S>>(
    target: Target<'_>,
    protocol: &mut P,
    desk: &mut Desk<S>,
    change: Change,
) -> Said {
    let Target { number, object } = target;
    let Desk { store, turns, .. } = desk;
    match object {
        Object::View(view) => Said::of(applied(number, view, protocol, store, turns, change)),
        _ => Said::Misplaced,
    }
}

/// A call of an object that is there.
fn act<S: ObjectStore, P: TransactionalStorageProtocol<Record, MonotonicId, S>>(
    target: Target<'_>,
    protocol: &mut P,
    desk: &mut Desk<S>,
    call: ViewCall<Record>,
) -> Said {
    match call {
        ViewCall::Refresh(_) => refresh(target, protocol, desk),
        ViewCall::HolderRefresh(_) => refresh(target, protocol, desk),
        ViewCall::Update(_, value) => update(target, protocol, desk, None, value),
        ViewCall::HolderUpdate(_, value) => update(target, protocol, desk, None, value),
        ViewCall::Claim(_) => claim(target, protocol, desk, None),
        ViewCall::ClaimAt(_, epoch) => claim(target, protocol, desk, Some(epoch)),
        _ => Said::Misplaced,
    }
}

/// The number of the object that a call is for.
fn number_of(call: &ViewCall<Record>) -> u64 {
    match call {
        ViewCall::Init(_) => 0,
        ViewCall::Load => 0,
        ViewCall::Refresh(number) => *number,
        ViewCall::Update(number, _) => *number,
        ViewCall::Claim(number) => *number,
        ViewCall::ClaimAt(number, _) => *number,
        ViewCall::HolderRefresh(number) => *number,
        ViewCall::HolderUpdate(number, _) => *number,
    }
}

/// A call that makes a view, or uses one.
pub(crate) fn view_call<S: ObjectStore, P: TransactionalStorageProtocol<Record, MonotonicId, S>>(
    objects: &mut Vec<Object>,
    protocol: &mut P,
    desk: &mut Desk<S>,
    call: ViewCall<Record>,
) -> Result<Said, AllocError> {
    let alloc = desk.alloc;
    match call {
        ViewCall::Init(value) => {
            entered(objects, View::init(alloc, protocol, &mut desk.store, value))
        }
        ViewCall::Load => {
            let Desk { store, turns, .. } = desk;
            entered(objects, View::load(alloc, protocol, store, turns))
        }
        call => {
            let number = number_of(&call);
            match objects.get_mut(place(number)) {
                Some(object) => Ok(act(Target { number, object }, protocol, desk, call)),
                None => Ok(Said::Misplaced),
            }
        }
    }
}

/// A holder claims what is stored, and another holder after it: whether the older one is fenced.
pub(crate) fn fences<S: ObjectStore, P: TransactionalStorageProtocol<Record, MonotonicId, S>>(
    protocol: &mut P,
    desk: &mut Desk<S>,
) -> Said {
    let Desk {
        alloc,
        store,
        turns,
        clock,
        ..
    } = desk;
    match fences_older_holder(*alloc, protocol, store, turns, clock, RecordEpoch) {
        Ok(fenced) => Said::Fenced(fenced),
        Err(error) => Said::Refused(error),
    }
}

/// A copy of a view.
pub(crate) fn copy(objects: &mut Vec<Object>, number: u64) -> Result<Said, AllocError> {
    match objects.get(place(number)) {
        Some(Object::View(view)) => {
            let copy = view.try_clone()?;
            enter(objects, copy)
        }
        _ => Ok(Said::Misplaced),
    }
}

/// A view is given these ceilings.
fn keep(alloc: Global, object: &mut Object, ceilings: &[u64]) -> Result<Said, AllocError> {
    let ceilings = ceilings_of(alloc, ceilings)?;
    match take_view(object) {
        Some(view) => {
            *object = Object::View(view.with_invariants(ceilings));
            Ok(Said::Set)
        }
        None => Ok(Said::Misplaced),
    }
}

/// The view of a number is given these ceilings.
pub(crate) fn keep_at(
    alloc: Global,
    objects: &mut [Object],
    number: u64,
    ceilings: &[u64],
) -> Result<Said, AllocError> {
    match objects.get_mut(place(number)) {
        Some(object) => keep(alloc, object, ceilings),
        None => Ok(Said::Misplaced),
    }
}

/// What the object of a number is at.
pub(crate) fn show(objects: &[Object], number: u64) -> Said {
    match objects.get(place(number)) {
        Some(object) => shown(number, object),
        None => Said::Misplaced,
    }
}

/// The candidate of the object of a number.
pub(crate) fn prepare(objects: &[Object], number: u64) -> Said {
    match objects.get(place(number)) {
        Some(Object::View(view)) => Said::of(prepared(view)),
        Some(Object::Holder(holder)) => Said::of(prepared(holder)),
        _ => Said::Misplaced,
    }
}
