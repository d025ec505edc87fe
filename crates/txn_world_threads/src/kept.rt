//! A world beside the journal of what its workers did, to be kept under a lock.
ghost use Rattle.std.specs.Prelude.{◌≡◌, ◌≤◌, ◌<◌, ◌+◌, ◌-◌, ◌^◌, [], IfOk, IfErr, All, Some, length, nat_eq, if◌then◌else◌, slice_get, slice_index};
ghost use Rattle.txn_store.specs.types.Clones.{IsExactClone};
ghost use Rattle.txn_history.specs.Seen.{asks_of};
ghost use Rattle.txn_machine.specs.plain.Doing.{asks_as};
ghost use Rattle.txn_machine.specs.Machine.{opening, seen_calls};
ghost use Rattle.txn_world_threads.specs.Lists.{AreEach};
ghost use Rattle.txn_world_threads.specs.Kept.{one_more, AreCounts, AreFirst, AreZeros};

use std::alloc::{AllocError, Global};
use std::marker::Model;
use txn_history::event::{Event, EventFault, Told};
use txn_steps::boundary::ask::Ask;
use txn_store::types::codec::ObjectCodec;
use txn_store::types::epoch::EpochField;
use txn_store::types::room::push_within;
use txn_world::world::World;

/// One event that a worker took, and what it told.
#[derive(Debug, Drop)]
pub struct EventRow<T> {
    pub worker: u64,
    pub event: Event<T>,
    pub told: Told<T>,
}

/// A worker's own count of the events that it took. Workers are numbered from 1. It is made by
/// [`Kept::new`] and given back to [`finish`](crate::finish::finish), and cannot be copied.
#[derive(Debug, Drop, PartialEq, Eq)]
pub struct Share {
    worker: u64,
    count: u64,
}

impl Share {
    ghost use Rattle.std.specs.Prelude.{◌≡◌};

    /// The worker's number.
    pub fn worker(&self) -> u64
        ensures { result ≡ self.now.worker }
    {
        self.worker
    }

    /// How many events it took, at most 2^64 - 1.
    pub fn count(&self) -> u64
        ensures { result ≡ self.now.count }
    {
        self.count
    }
}

/// A world beside the journal of its events. Its type keeps that taking the journal's events in order,
/// from a world in which nothing has happened, tells what the journal says and ends in this world. So
/// whatever threads do to it, it is the world of one client after another.
#[derive(Drop)]
pub struct Kept<T: Clone, C: ObjectCodec<T> + Drop, E: EpochField<T>> {
    world: World<T, C, E>,
    workers: u64,
    journal: Vec<EventRow<T>>,
    /// Room for the count of each worker's rows: all 0 until the end of the run.
    counts: Vec<u64>,
}

impl<T: Clone, C: ObjectCodec<T> + Drop, E: EpochField<T>> Model for Kept<T, C, E> {
    ghost use Rattle.txn_world_threads.specs.Kept.{KeptState, Replays, AreZeros};

    ghost Value = { KeptState T C E };

    ghost use Rattle.std.specs.Coded.{codes};
    ghost use Rattle.txn_store.specs.Memory.{files_code};

    ghost coded = { Prim.hlevel (codes, files_code) };

    ghost view = { λ kept. record { world = kept.world; workers = kept.workers; journal = kept.journal.items } };

    ghost invariant = { λ kept. Replays (C.encoded kept.world.codec) (C.decoded kept.world.codec) (E.epoch_of kept.world.epochs) (E.with_epoch kept.world.epochs) kept.journal.items kept.world.state × AreZeros kept.workers kept.counts.items };
}

/// The shares of workers 1 to `workers`, each with no event.
fn first_shares(alloc: Global, workers: u64) -> Result<Vec<Share>, AllocError>
    ensures { IfOk result (λ shares. AreFirst workers shares.items) }
{
    let mut shares = Vec::new(alloc);
    for before in 0..workers {
        shares.push(Share {
            worker: before + 1,
            count: 0,
        })?;
    }
    Ok(shares)
}

/// Counts a row of this worker. Where the worker has no count, the row counts for nobody.
fn count_row(counts: &mut [u64], worker: u64)
    requires { All (λ count. count < 2 ^ 64 - 1) counts.old }
    ensures { AreEach (λ k. slice_index counts.old k + (if nat_eq worker (k + 1) then 1 else 0)) (length counts.old) counts.new }
{
    let Some(place) = worker.checked_sub(1) else {
        return;
    };
    if place < counts.len() as u64 {
        counts[place as usize] += 1;
    }
}

/// Counts the rows of each worker, where nothing is counted yet.
fn count_rows<T>(counts: &mut [u64], journal: &[EventRow<T>])
    requires { AreZeros (length counts.old) counts.old }
    ensures { AreCounts (length counts.old) journal.now counts.new }
{
    for row in journal {
        count_row(counts, row.worker);
    }
}

impl<T: Clone, C: ObjectCodec<T> + Drop, E: EpochField<T>> Kept<T, C, E> {
    ghost use Rattle.std.specs.Prelude.{◌≡◌, ◌<◌, ◌≤◌, [], IfOk, OnOk, OnErr, MatchResult, length};
    ghost use Rattle.std.specs.Borrow.{sem};
    ghost use Rattle.txn_store.specs.types.Clones.{IsExactClone};
    ghost use Rattle.txn_history.specs.Seen.{asks_of};
    ghost use Rattle.txn_history.specs.Trace.{Told};
    ghost use Rattle.txn_machine.specs.plain.Doing.{asks_as};
    ghost use Rattle.txn_machine.specs.plain.Machine.{fault_met};
    ghost use Rattle.txn_machine.specs.Machine.{opening, seen_calls, next_event};
    ghost use Rattle.txn_world_threads.specs.Kept.{IsLack, due_fault, one_more, AreFirst, AddsEventRow, IsLastTold, Replays, AreCounts};
    ghost use Rattle.txn_world_threads.specs.KeptLends.{ends_taken};

    /// Keeps a world in which nothing has happened, for workers 1 to `workers`, of which there are as many as clients at most;
    /// and a share for each worker, worker 1 first.
    ///
    /// # Errors
    ///
    /// Want of memory alone. The world is gone then.
    pub fn new(
        alloc: Global,
        world: World<T, C, E>,
        workers: u64,
    ) -> Result<(Kept<T, C, E>, Vec<Share>), AllocError>
        requires opening { world.state ≡ opening world.state.clients world.state.page }
        requires some { 1 ≤ workers }
        requires few { workers ≤ world.state.clients }
        ensures kept { IfOk result (λ made. made.0 ≡ record { world = world; workers = workers; journal = [] }) }
        ensures shares { IfOk result (λ made. AreFirst workers made.1.items) }
    {
        let shares = first_shares(alloc, workers)?;
        let kept = Kept {
            world,
            workers,
            journal: Vec::new(alloc),
            counts: vec![in alloc; 0; workers as usize]?,
        };
        Ok((kept, shares))
    }

    /// Why an event is refused for which memory is wanting: by the fault that it is due, where it is due one.
    fn lack(&self, event: Event<T>) -> EventFault
        ensures { IsLack (due_fault (C.encoded self.now.world.codec) (C.decoded self.now.world.codec) (E.epoch_of self.now.world.epochs) (E.with_epoch self.now.world.epochs) self.now.world event) result }
    {
        let fault = self.world.refusal(&event);
        // By a call: in place, the proof would follow each call that may be dropped here.
        drop(event);
        match fault {
            Some(fault) => fault,
            None => EventFault::NoMemory,
        }
    }

    /// Takes an event of a worker and adds its row. Room and the row's copy of the event are made before
    /// the world takes it.
    fn add(&mut self, worker: u64, event: Event<T>) -> Result<(), EventFault>
        requires { IsExactClone T.is_clone }
        ensures ok { OnOk result ((told : Told T) × AddsEventRow (C.encoded self.old.world.codec) (C.decoded self.old.world.codec) (E.epoch_of self.old.world.epochs) (E.with_epoch self.old.world.epochs) self.old self.new worker event told) }
        ensures refused { fault_met result ≡ due_fault (C.encoded self.old.world.codec) (C.decoded self.old.world.codec) (E.epoch_of self.old.world.epochs) (E.with_epoch self.old.world.epochs) self.old.world event }
        ensures err { OnErr result (self.new ≡ self.old) }
    {
        let Ok(()) = self.journal.reserve(1) else {
            return Err(self.lack(event));
        };
        let Ok(copy) = event.try_clone() else {
            return Err(self.lack(event));
        };
        let told = self.world.take(event)?;
        push_within(
            &mut self.journal,
            EventRow {
                worker,
                event: copy,
                told,
            },
        );
        Ok(())
    }

    /// What the last row of the journal tells.
    fn last_told(&self) -> &Told<T>
        requires { 0 < length self.now.journal }
        ensures { IsLastTold self.now.journal result.now }
    {
        &self.journal[self.journal.len() - 1].told
    }

    /// Takes one event of the share's worker and lends what it told: the journal gains one row, and the share one event.
    ///
    /// # Errors
    ///
    /// Those of [`World::take`], with [`EventFault::NoMemory`] only where a growth was refused and no other fault is due.
    /// World, journal and share are as they were.
    pub fn take<'a>(
        &'a mut self,
        share: &mut Share,
        event: Event<T>,
    ) -> Result<&'a Told<T>, EventFault>
        requires { IsExactClone T.is_clone }
        ensures refused { fault_met result ≡ due_fault (C.encoded self.old.world.codec) (C.decoded self.old.world.codec) (E.epoch_of self.old.world.epochs) (E.with_epoch self.old.world.epochs) self.old.world event }
        ensures share { MatchResult result (λ _. share.new ≡ one_more share.old) (λ _. share.new ≡ share.old) }
        ensures* after { sem 𝓛 (ends_taken T.row C.row E.row T.Clone C.ObjectCodec E.EpochField self.entry share.old.worker event result) }
    {
        self.add(share.worker, event)?;
        share.count = share.count.saturating_add(1);
        Ok(self.last_told())
    }

    /// Takes the next event of an operation for the share's worker, and lends what it told: a look where the operation asks for
    /// a look, and else a serve. The rest is as [`Kept::take`] does it.
    ///
    /// # Errors
    ///
    /// Those of [`Kept::take`], which leave the same.
    pub fn take_next<'a>(
        &'a mut self,
        share: &mut Share,
        op: u64,
    ) -> Result<&'a Told<T>, EventFault>
        requires { IsExactClone T.is_clone }
        ensures refused { fault_met result ≡ due_fault (C.encoded self.old.world.codec) (C.decoded self.old.world.codec) (E.epoch_of self.old.world.epochs) (E.with_epoch self.old.world.epochs) self.old.world (next_event self.old.world.state op) }
        ensures share { MatchResult result (λ _. share.new ≡ one_more share.old) (λ _. share.new ≡ share.old) }
        ensures* after { sem 𝓛 (ends_taken T.row C.row E.row T.Clone C.ObjectCodec E.EpochField self.entry share.old.worker (next_event self.old.world.state op) result) }
    {
        let event = self.next_event(op);
        self.take(share, event)
    }

    /// What an operation asks for: a store call, or a look at its client's caches, and nothing where it is
    /// not there or has ended. It takes no memory.
    pub fn asks(&self, op: u64) -> Option<Ask<'_>>
        ensures { asks_as result ≡ asks_of (seen_calls self.now.world.state) op }
    {
        self.world.asks(op)
    }

    /// The event that gives an operation what it asks for.
    fn next_event(&self, op: u64) -> Event<T>
        ensures { result ≡ next_event self.now.world.state op }
    {
        self.world.next_event(op)
    }

    /// The world.
    pub fn world(&self) -> &World<T, C, E>
        ensures world { result.now ≡ self.now.world }
        // It is where the journal's events lead.
        ensures replays { Replays (C.encoded self.now.world.codec) (C.decoded self.now.world.codec) (E.epoch_of self.now.world.epochs) (E.with_epoch self.now.world.epochs) self.now.journal self.now.world.state }
    {
        &self.world
    }

    /// What the workers did, event by event.
    pub fn journal(&self) -> &[EventRow<T>]
        ensures { result.now ≡ self.now.journal }
    {
        self.journal.as_slice()
    }

    /// How many workers it is kept for.
    pub(crate) fn workers(&self) -> u64
        ensures { result ≡ self.now.workers }
    {
        self.workers
    }

    /// The count of each worker's rows, worker 1 first. It goes over the journal once.
    pub(crate) fn into_counts(self) -> Vec<u64>
        ensures { AreCounts self.workers self.journal result.items }
    {
        let Kept {
            journal,
            mut counts,
            ..
        } = self;
        count_rows(&mut counts, &journal);
        counts
    }
}
