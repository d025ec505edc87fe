//! A check of an id against the boundary, and an advance of the boundary.
ghost use Rattle.std.specs.Prelude.{ℕ, ◌≡◌, ◌+◌, true, false};
ghost use Rattle.std.specs.Bool.{OnTrue, OnFalse};
ghost use Rattle.txn_steps.specs.boundary.Boundaries.{refused_by};
ghost use Rattle.txn_steps.specs.boundary.BoundaryAdvances.{asks_put};
ghost use Rattle.txn_steps_driven.specs.Calls.{one_if};
ghost use Rattle.txn_steps_driven.specs.Checking.{Checked};
ghost use Rattle.txn_steps_driven.specs.Advancing.{Advanced};

use crate::replies::reply_to;
use crate::turns::Turns;
use crate::versions::number_fits;
use std::alloc::Global;
use txn_steps::boundary::advance::BoundaryAdvance;
use txn_steps::boundary::caches::CachedBoundary;
use txn_steps::boundary::check::BoundaryCheck;
use txn_steps::boundary::turned::Turned;
use txn_store::path::Path;
use txn_store::store::ObjectStore;
use txn_store::types::id::MonotonicId;
use txn_store::types::step_error::{ErrorKind, StepError};

/// Whether the cached boundary is at or above the id.
fn is_reached(id: MonotonicId, cached: &Option<CachedBoundary>) -> bool
    ensures { result ≡ refused_by id cached.now }
{
    match cached {
        Some(known) => id.id() <= known.number,
        None => false,
    }
}

/// Checks that an id is above the boundary that the file of this path says, 0 where it is missing. A cached boundary at or
/// above the id refuses it with no call of the store; an id is accepted by one get alone, which asks for the file only where it
/// is not as it is cached. What was read is cached, unless a greater boundary is. Each answer leaves the files as they were,
/// and what stood for a boundary stands for it.
///
/// # Errors
///
/// `ObjectVersionExists` for an id at or below the boundary; `InvalidObjectState` for a file that says no number; `NoMemory`
/// where a growth was refused; `ObjectStoreError` with any other error of the store. Each leaves the files as they were.
pub fn check_boundary<S: ObjectStore>(
    alloc: Global,
    path: &Path,
    cached: &mut Option<CachedBoundary>,
    store: &mut S,
    id: MonotonicId,
) -> Result<(), StepError>
    ensures { Checked path.now id (S.state store.old) (S.state store.new) cached.old cached.new result }
{
    // Nothing grows where the cached boundary is the answer.
    if is_reached(id, cached) {
        return Err(ErrorKind::ObjectVersionExists.into());
    }
    let mut op = BoundaryCheck::asking(path, id, cached)?;
    'steps: loop {
        match op.take(cached, reply_to(alloc, store, op.ask())) {
            Turned::Goes => {}
            // (by a call: in place, the proof would follow each state that may be dropped)
            Turned::Done(answer) => {
                drop(op);
                return answer;
            }
        }
    }
}

/// Spends the turn of a put. It answers false, and changes nothing, where one is due and none is left.
fn pay(op: &BoundaryAdvance, turns: &mut Turns) -> bool
    ensures paid { OnTrue result (turns.old ≡ turns.new + one_if (asks_put op.now)) }
    ensures lacks { OnFalse result ((asks_put op.now ≡ true) × (turns.old ≡ 0) × (turns.new ≡ 0)) }
{
    !matches!(op, BoundaryAdvance::Puts(..)) || turns.spend()
}

/// Runs an advance that has not begun, to a target above the cached boundary, to its end.
fn run_advance<S: ObjectStore>(
    alloc: Global,
    path: &Path,
    cached: &mut Option<CachedBoundary>,
    store: &mut S,
    target: MonotonicId,
    turns: &mut Turns,
    op: &mut BoundaryAdvance,
) -> Result<(), StepError>
    requires unreached { refused_by target cached.old ≡ false }
    requires looks { op.old ≡ BoundaryAdvance.Looks target }
    ensures { Advanced path.now target (S.state store.old) (S.state store.new) turns.old turns.new cached.old cached.new result }
{
    number_fits(target);
    'steps: loop {
        if !pay(op, turns) {
            return Err(ErrorKind::TurnsExhausted.into());
        }
        match op.take(alloc, path, cached, reply_to(alloc, store, op.ask())) {
            Turned::Goes => {}
            Turned::Done(answer) => return answer,
        }
    }
}

/// Raises the boundary that the file of this path says, 0 where it is missing, to the target. A cached boundary at or above the
/// target is the answer, with no call of the store and no turn. Each put spends a turn, replaces the file only where that is as
/// it is cached, and creates it only where it is missing; a put that came too late leads to a read of the file and another put.
/// What was read or put is cached, unless a greater boundary is.
///
/// # Errors
///
/// `TurnsExhausted` where a put is due and no turn is left; `InvalidObjectState` for a file that says no number; `NoMemory`
/// where a growth was refused; `ObjectStoreError` with any other error of the store. Each leaves what stood for a boundary
/// standing for that one or for the greater of it and the target: a put that was taken stands, also where its answer was a
/// failure.
pub fn advance_boundary<S: ObjectStore>(
    alloc: Global,
    path: &Path,
    cached: &mut Option<CachedBoundary>,
    store: &mut S,
    target: MonotonicId,
    turns: &mut Turns,
) -> Result<(), StepError>
    ensures { Advanced path.now target (S.state store.old) (S.state store.new) turns.old turns.new cached.old cached.new result }
{
    // Nothing grows where the cached boundary is the answer.
    if is_reached(target, cached) {
        return Ok(());
    }
    let mut op = BoundaryAdvance::start(target);
    let advanced = run_advance(alloc, path, cached, store, target, turns, &mut op);
    drop(op);
    advanced
}
