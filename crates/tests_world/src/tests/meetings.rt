//! Workers meet at a gate: they are at work at the same time, round one kept world, and with diaries round one store.
use crate::tests::verdicts::{Records, client};
use crate::tests::workers::{ONE, TWO, kept_by};
use std::alloc::{AllocError, AllocGlobal, Global};
use std::sync::atomic::{AtomicU64, Ordering};
use std::sync::{Mutex, Wait};
use std::test::Fail;
use std::thread;
use std::thread::Threads;
use txn_audit::audit::audit;
use txn_client_journals::logged::LoggedStore;
use txn_history::event::{Call, PlainCall};
use txn_script_lines::record::Record;
use txn_world_threads::caller::Caller;
use txn_world_threads::finish::finish;
use txn_world_threads::gate::{Gate, GateSpent};
use txn_world_threads::jobs::{End, Job};
use txn_world_threads::work::{Worked, Worker, work, work_all};

/// How often a worker looks for the other at its gate.
const LOOKS: u64 = 10_000_000;

/// A gate at which two workers meet: worker 1 at its first turn and worker 2 at its second raise their
/// flag, and wait for the other's.
#[derive(Clone, Copy)]
struct Meeting<'a> {
    first: &'a AtomicU64,
    second: &'a AtomicU64,
}

impl Gate for Meeting<'_> {
    fn pass(&mut self, worker: u64, turn: u64) -> Result<(), GateSpent> {
        if turn != worker {
            return Ok(());
        }
        let (mine, other) = if worker == 1 {
            (self.first, self.second)
        } else {
            (self.second, self.first)
        };
        mine.store(1, Ordering::SeqCst);
        for _ in 0..LOOKS {
            if other.load(Ordering::SeqCst) == 1 {
                return Ok(());
            }
            thread::yield_now();
        }
        Err(GateSpent)
    }
}

/// The jobs of each: a first write, and one on what it reads.
fn jobs(alloc: Global) -> Result<Vec<Job<Record>>, AllocError> {
    Ok(vec![in alloc;
        Job::Call(Call::Plain(PlainCall::Write(None, ONE))),
        Job::WriteOnRead(TWO),
    ]?)
}

/// The workers of two callers, at a meeting.
fn at_a_meeting<'a, X: Drop>(
    alloc: Global,
    callers: Vec<X>,
    gate: Meeting<'a>,
) -> Result<Vec<Worker<X, Record, Meeting<'a>>>, AllocError> {
    let mut workers = Vec::new(alloc);
    for caller in callers {
        let jobs = jobs(alloc)?;
        workers.push(Worker { caller, gate, jobs })?;
    }
    Ok(workers)
}

/// What workers leave that meet on threads of their own.
fn worked_on_threads<P: Sync, X: Caller<Record, P> + Drop + Send>(
    rt: &(impl Threads + Wait + Sync + AllocGlobal),
    place: &P,
    callers: Vec<X>,
) -> Result<Vec<Worked<X>>, AllocError> {
    let (first, second) = (AtomicU64::new(0), AtomicU64::new(0));
    let gate = Meeting {
        first: &first,
        second: &second,
    };
    work_all(rt, place, at_a_meeting(rt.alloc(), callers, gate)?)
}

/// How many workers ended with all done, and who made their calls.
fn done_by<X: Drop>(alloc: Global, worked: Vec<Worked<X>>) -> Result<(u64, Vec<X>), AllocError> {
    let mut done = 0u64;
    let mut callers = Vec::new(alloc);
    for one in worked {
        done = done.saturating_add(u64::from(one.end == End::Done));
        callers.push(one.caller)?;
    }
    Ok((done, callers))
}

/// How many workers on threads of their own there were, how many of them ended with all done, and whether their shares
/// finish the kept world.
fn workers_on_threads(
    rt: &(impl Threads + Wait + Sync + AllocGlobal),
) -> Result<(usize, u64, bool), AllocError> {
    let (kept, shares) = kept_by(rt.alloc(), 2)?;
    let kept = Mutex::new(kept);
    let (done, shares) = done_by(rt.alloc(), worked_on_threads(rt, &kept, shares)?)?;
    Ok((
        shares.len(),
        done,
        finish(kept.into_inner(), shares).is_ok(),
    ))
}

/// Clients 1 and 2, which have done nothing.
fn clients(alloc: Global) -> Result<Vec<Records>, AllocError> {
    Ok(vec![in alloc; client(alloc, 1)?, client(alloc, 2)?]?)
}

/// How many clients on threads of their own there were, how many of them ended with all done, and whether an audit agrees.
fn clients_on_threads(
    rt: &(impl Threads + Wait + Sync + AllocGlobal),
) -> Result<(usize, u64, bool), AllocError> {
    let store = Mutex::new(LoggedStore::new(rt.alloc()));
    let worked = worked_on_threads(rt, &store, clients(rt.alloc())?)?;
    let (done, diaries) = done_by(rt.alloc(), worked)?;
    let agrees = audit(&store.into_inner(), &diaries).is_ok();
    Ok((diaries.len(), done, agrees))
}

/// How a worker ends.
fn end_of<P, X: Caller<Record, P> + Drop>(
    rt: &impl Wait,
    place: &P,
    worker: Option<Worker<X, Record, Meeting<'_>>>,
) -> Option<End> {
    let Worker {
        caller,
        mut gate,
        jobs,
    } = worker?;
    Some(work(rt, place, caller, &mut gate, &jobs).end)
}

/// How two workers end one after the other.
fn ends_in_turn<P, X: Caller<Record, P> + Drop>(
    rt: &(impl Wait + AllocGlobal),
    place: &P,
    callers: Vec<X>,
) -> Result<[Option<End>; 2], AllocError> {
    let (first, second) = (AtomicU64::new(0), AtomicU64::new(0));
    let gate = Meeting {
        first: &first,
        second: &second,
    };
    let mut workers = at_a_meeting(rt.alloc(), callers, gate)?;
    let second = workers.pop();
    let first = end_of(rt, place, workers.pop());
    Ok([first, end_of(rt, place, second)])
}

/// How two workers of a kept world end in turn.
fn workers_in_turn(rt: &(impl Wait + AllocGlobal)) -> Result<[Option<End>; 2], AllocError> {
    let (kept, shares) = kept_by(rt.alloc(), 2)?;
    ends_in_turn(rt, &Mutex::new(kept), shares)
}

/// How two clients of a store end in turn.
fn clients_in_turn(rt: &(impl Wait + AllocGlobal)) -> Result<[Option<End>; 2], AllocError> {
    let store = Mutex::new(LoggedStore::new(rt.alloc()));
    ends_in_turn(rt, &store, clients(rt.alloc())?)
}

#[test]
fn workers_and_clients_are_at_work_at_the_same_time(rt: HostRuntime) -> Result<(), Fail> {
    assert_eq!(rt; workers_on_threads(&rt)?, (2, 2, true));
    assert_eq!(rt; clients_on_threads(&rt)?, (2, 2, true));
    // In turn they do not meet.
    let ends = [Some(End::GateSpent), Some(End::Done)];
    assert_eq!(rt; workers_in_turn(&rt)?, ends);
    assert_eq!(rt; clients_in_turn(&rt)?, ends);
    Ok(())
}
