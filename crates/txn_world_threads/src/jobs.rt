//! What a worker is to do, and how it does it, whoever makes its calls.
ghost use Rattle.std.specs.Prelude.{◌≡◌, ◌*◌, length, IfOk, IfErr, OnOk, ◌≢◌};
ghost use Rattle.txn_store.specs.types.Clones.{IsExactClone};
ghost use Rattle.txn_world_threads.specs.declared.jobs.Job.TheVariants.{WriteOnRead};
ghost use Rattle.txn_world_threads.specs.Done.{MakesCall, DoesJob, DoesJobs};

use crate::caller::{Caller, Heard, Next};
use crate::gate::Gate;
use std::sync::Wait;
use txn_history::event::{Call, EventFault, PlainCall};

/// The most events of one call of a worker, its begin among them.
pub const EVENTS_OF_A_CALL: u64 = 200;

/// What a worker is to do.
#[derive(Debug, Drop, PartialEq, Eq)]
pub enum Job<T> {
    /// Makes this call.
    Call(Call<T>),
    /// Reads, then writes the value on the id that it read, or as the first version where there was
    /// none. Where the read is refused there is no write.
    WriteOnRead(T),
}

/// How a worker came to its end.
#[derive(Clone, Copy, Debug, PartialEq, Eq)]
pub enum End {
    /// Each job was done: each of its calls was answered.
    Done,
    /// The gate let it take no further event.
    GateSpent,
    /// A call was not answered within [`EVENTS_OF_A_CALL`] events.
    LimitSpent,
    /// Its event was refused, or memory was wanting for the event.
    Refused(EventFault),
}

/// Asks the gate for one event more.
fn pass<G: Gate>(gate: &mut G, number: u64, turns: &mut u64) -> Result<(), End>
    ensures { IfErr result (λ end. end ≢ End.Done) }
{
    *turns = turns.saturating_add(1);
    match gate.pass(number, *turns) {
        Ok(()) => Ok(()),
        Err(_) => Err(End::GateSpent),
    }
}

/// A worker at work: who makes its calls, and how many turns it asked its gate for.
pub(crate) struct Turns<X> {
    pub(crate) caller: X,
    pub(crate) turns: u64,
}

/// Takes the next event, where the gate lets it.
fn take<R: Wait, T: Clone, P, X: Caller<T, P>, G: Gate>(
    rt: &R,
    place: &P,
    worker: &mut Turns<X>,
    gate: &mut G,
    next: Next<T>,
) -> Result<Heard, End>
    requires { IsExactClone T.is_clone }
    ensures goes { X.goes worker.old.caller 1 worker.new.caller }
    ensures stops { IfErr result (λ end. end ≢ End.Done) }
    ensures took { IfOk result (λ heard. X.took worker.old.caller next heard worker.new.caller) }
{
    pass(gate, worker.caller.number(), &mut worker.turns)?;
    match worker.caller.take(rt, place, next) {
        Ok(heard) => Ok(heard),
        Err(fault) => Err(End::Refused(fault)),
    }
}

/// Makes one call, and gives the base for a write where it read.
fn call<R: Wait, T: Clone, P, X: Caller<T, P>, G: Gate>(
    rt: &R,
    place: &P,
    worker: &mut Turns<X>,
    gate: &mut G,
    call: Call<T>,
) -> Result<Option<Option<u64>>, End>
    requires { IsExactClone T.is_clone }
    ensures goes { X.goes worker.old.caller 200 worker.new.caller }
    ensures stops { IfErr result (λ end. end ≢ End.Done) }
    ensures made { IfOk result (λ base. MakesCall X.took worker.old.caller call base worker.new.caller) }
{
    let mut next = Next::Begin(call);
    for _ in 0..EVENTS_OF_A_CALL {
        match take(rt, place, worker, gate, next)? {
            Heard::Goes(op) => next = Next::Step(op),
            Heard::Ended(base) => return Ok(base),
        }
    }
    Err(End::LimitSpent)
}

/// Reads, then writes the value on what it read.
fn write_on_read<R: Wait, T: Clone, P, X: Caller<T, P>, G: Gate>(
    rt: &R,
    place: &P,
    worker: &mut Turns<X>,
    gate: &mut G,
    value: T,
) -> Result<(), End>
    requires { IsExactClone T.is_clone }
    ensures goes { X.goes worker.old.caller 400 worker.new.caller }
    ensures stops { IfErr result (λ end. end ≢ End.Done) }
    ensures done { OnOk result (DoesJob X.took worker.old.caller (WriteOnRead value) worker.new.caller) }
{
    if let Some(base) = call(rt, place, worker, gate, Call::Plain(PlainCall::Read))? {
        let write = Call::Plain(PlainCall::Write(base, value));
        call(rt, place, worker, gate, write)?;
    }
    Ok(())
}

/// Does one job.
fn do_job<R: Wait, T: Clone, P, X: Caller<T, P>, G: Gate>(
    rt: &R,
    place: &P,
    worker: &mut Turns<X>,
    gate: &mut G,
    job: &Job<T>,
) -> Result<(), End>
    requires { IsExactClone T.is_clone }
    ensures goes { X.goes worker.old.caller 400 worker.new.caller }
    ensures stops { IfErr result (λ end. end ≢ End.Done) }
    ensures done { OnOk result (DoesJob X.took worker.old.caller job.now worker.new.caller) }
{
    match job {
        Job::Call(made) => {
            let Ok(made) = made.try_clone() else {
                return Err(End::Refused(EventFault::NoMemory));
            };
            call(rt, place, worker, gate, made)?;
            Ok(())
        }
        Job::WriteOnRead(value) => {
            let Ok(value) = value.clone() else {
                return Err(End::Refused(EventFault::NoMemory));
            };
            write_on_read(rt, place, worker, gate, value)
        }
    }
}

/// Does the jobs in order, and says how it came to its end.
pub(crate) fn end_of<R: Wait, T: Clone, P, X: Caller<T, P>, G: Gate>(
    rt: &R,
    place: &P,
    worker: &mut Turns<X>,
    gate: &mut G,
    jobs: &[Job<T>],
) -> End
    requires { IsExactClone T.is_clone }
    ensures goes { X.goes worker.old.caller (400 * length jobs.now) worker.new.caller }
    ensures done { result ≡ End.Done → DoesJobs X.took worker.old.caller jobs.now worker.new.caller }
{
    for one in jobs {
        match do_job(rt, place, worker, gate, one) {
            Ok(()) => {}
            Err(end) => return end,
        }
    }
    End::Done
}
