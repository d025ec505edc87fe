//! Workers on threads of their own, round one place.
ghost use Rattle.std.specs.Prelude.{◌≡◌, ◌*◌, IfOk, length, vec_len};
ghost use Rattle.txn_store.specs.types.Clones.{IsExactClone};
ghost use Rattle.txn_world_threads.specs.Crew.{EachGoes, EachDone};
ghost use Rattle.txn_world_threads.specs.Done.{DoesJobs};

use crate::caller::Caller;
use crate::gate::Gate;
use crate::jobs::{End, Job, Turns, end_of};
use std::alloc::AllocError;
use std::sync::Wait;
use std::thread;
use std::thread::Threads;

/// Who made a worker's calls, and how the worker came to its end.
#[derive(Debug, Drop, PartialEq, Eq)]
pub struct Worked<X> {
    pub caller: X,
    pub end: End,
}

/// Does the jobs in order, each event after the gate was asked, and gives the caller back. It goes on past a call that is
/// answered with a refusal, and ends at the first job that could not be done.
pub fn work<R: Wait, T: Clone, P, X: Caller<T, P>, G: Gate>(
    rt: &R,
    place: &P,
    caller: X,
    gate: &mut G,
    jobs: &[Job<T>],
) -> Worked<X>
    requires { IsExactClone T.is_clone }
    ensures goes { X.goes caller (400 * length jobs.now) result.caller }
    // Where it says that each job was done, each was, in their order.
    ensures done { result.end ≡ End.Done → DoesJobs X.took caller jobs.now result.caller }
{
    let mut worker = Turns { caller, turns: 0 };
    let end = end_of(rt, place, &mut worker, gate, jobs);
    let Turns { caller, turns: _ } = worker;
    Worked { caller, end }
}

/// What a thread takes along: who makes a worker's calls, its gate, and its jobs.
#[derive(Drop)]
pub struct Worker<X, T, G> {
    pub caller: X,
    pub gate: G,
    pub jobs: Vec<Job<T>>,
}

/// Lets each worker work on a thread of its own, where one can be made, and waits until all have ended. The answers stand in
/// the workers' order.
///
/// # Errors
///
/// Want of memory alone. The callers are gone then; the place stands as the workers left it.
pub fn work_all<
    R: Threads + Wait + Sync,
    T: Clone + Send,
    P: Sync,
    X: Caller<T, P> + Drop + Send,
    G: Gate + Drop + Send,
>(rt: &R, place: &P, workers: Vec<Worker<X, T, G>>) -> Result<Vec<Worked<X>>, AllocError>
    requires { IsExactClone T.is_clone }
    ensures all { IfOk result (λ worked. vec_len worked ≡ vec_len workers) }
    ensures each { IfOk result (λ worked. EachGoes X.goes workers.items worked.items) }
    ensures done { IfOk result (λ worked. EachDone X.took workers.items worked.items) }
{
    thread::map_vec(
        rt,
        workers,
        &|worker: Worker<X, T, G>| -> Worked<X>
            requires { IsExactClone T.is_clone }
            ensures goes { X.goes worker.caller (400 * vec_len worker.jobs) result.caller }
            ensures done { result.end ≡ End.Done → DoesJobs X.took worker.caller worker.jobs.items result.caller }
        {
            let Worker {
                caller,
                mut gate,
                jobs,
            } = worker;
            work(rt, place, caller, &mut gate, &jobs)
        },
    )
}
