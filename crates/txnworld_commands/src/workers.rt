//! The workers of a run: each does its jobs on a thread of its own.

ghost use Rattle.std.specs.Prelude.{◌≡◌, ◌≤◌, All, IfOk, IfErr, length};
ghost use Rattle.txnworld_commands.specs.Tallies.{IsHaltOf};
ghost use Rattle.txnworld_commands.specs.Workers.{AreNumbered, AreAfter, IsCrew, caller_list, stopped_worker};

use crate::halt::Halt;
use crate::jobs::jobs_of;
use std::alloc::{AllocError, Global};
use std::sync::Wait;
use std::thread::Threads;
use txn_script_lines::record::Record;
use txn_world_threads::caller::{Caller, Numbered};
use txn_world_threads::gate::FreeGate;
use txn_world_threads::jobs::End;
use txn_world_threads::work::{Worked, Worker, work_all};

/// The workers of these callers, each with its jobs.
fn crew<X: Numbered + Drop>(
    alloc: Global,
    callers: Vec<X>,
) -> Result<Vec<Worker<X, Record, FreeGate>>, AllocError>
    requires { All (λ caller. X.numbered caller ≤ 64) callers.items }
    ensures { IfOk result (λ crew. IsCrew X.numbered callers.items crew.items) }
{
    let mut crew = Vec::new(alloc);
    for caller in callers {
        let jobs = jobs_of(alloc, caller.number())?;
        crew.push(Worker {
            caller,
            gate: FreeGate,
            jobs,
        })?;
    }
    Ok(crew)
}

/// The first worker that left a job undone, where there is one.
fn first_stopped<X: Numbered>(worked: &[Worked<X>]) -> Option<u64>
    ensures { result ≡ stopped_worker X.numbered worked.now }
{
    let stopped = worked.iter().find(|one| !matches!(one.end, End::Done))?;
    Some(stopped.caller.number())
}

/// The callers of workers that ended.
fn callers_of<X: Drop>(alloc: Global, worked: Vec<Worked<X>>) -> Result<Vec<X>, AllocError>
    ensures { IfOk result (λ callers. callers.items ≡ caller_list worked.items) }
{
    let mut callers = Vec::new(alloc);
    for one in worked {
        callers.push(one.caller)?;
    }
    Ok(callers)
}

/// Lets these callers, numbered from 1 on, do their jobs at the same time round one place, and gives them back in their order.
pub(crate) fn work_off<R: Threads + Wait + Sync, P: Sync, X: Caller<Record, P> + Drop + Send>(
    rt: &R,
    alloc: Global,
    place: &P,
    callers: Vec<X>,
) -> Result<Vec<X>, Halt>
    requires numbers { AreNumbered X.numbered callers.items }
    requires few { length callers.items ≤ 64 }
    ensures left { IfOk result (λ left. AreAfter X.goes callers.items left.items) }
    ensures halt { IfErr result (IsHaltOf (length callers.items)) }
{
    let worked = work_all(rt, place, crew(alloc, callers)?)?;
    if let Some(worker) = first_stopped(&worked) {
        return Err(Halt::Worker(worker));
    }
    Ok(callers_of(alloc, worked)?)
}
