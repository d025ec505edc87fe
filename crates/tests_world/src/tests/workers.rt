//! Workers round one kept world: what they leave, and how they end.
ghost use Rattle.std.specs.Prelude.{◌≡◌, ◌≤◌, IfOk, vec_len};

use std::alloc::{AllocError, AllocGlobal, Global};
use std::mem;
use std::slice::from_ref;
use std::sync::{Mutex, Wait};
use std::test::Fail;
use txn_history::event::{Call, PlainCall};
use txn_script_lines::record::{Record, RecordCodec, RecordEpoch};
use txn_store::types::layout::PAGE;
use txn_world::world::World;
use txn_world_threads::finish::finish;
use txn_world_threads::gate::{FreeGate, Gate, GateSpent};
use txn_world_threads::jobs::{End, Job};
use txn_world_threads::kept::{Kept, Share};
use txn_world_threads::work::{Worked, work};

pub(crate) type Records = Kept<Record, RecordCodec, RecordEpoch>;

/// A kept world in which nothing has happened, of as many clients as workers, and their shares.
pub(crate) fn kept_by(alloc: Global, workers: u64) -> Result<(Records, Vec<Share>), AllocError>
    requires some { 1 ≤ workers }
    requires few { workers ≤ 64 }
    ensures { IfOk result (λ made. vec_len made.1 ≡ workers) }
{
    let world = World::new(alloc, RecordCodec, RecordEpoch, workers, PAGE)?;
    Kept::new(alloc, world, workers)
}

pub(crate) const ONE: Record = Record {
    epoch: 0,
    payload: 1,
};

pub(crate) const TWO: Record = Record {
    epoch: 0,
    payload: 2,
};

const THREE: Record = Record {
    epoch: 0,
    payload: 3,
};

/// What finishing a kept world with these shares gives.
fn finished(alloc: Global, kept: Records, shares: Vec<Share>) -> Result<String, AllocError> {
    match finish(kept, shares) {
        Ok(counts) => format!(in alloc; "{counts:?}"),
        Err(fault) => format!(in alloc; "{fault:?}"),
    }
}

/// The jobs of a worker alone, and what it leaves: how it ends, how many rows its events made, the entries, and how many
/// events it took.
const JOBS: &[(&[Job<Record>], &str)] = &[
    (
        &[
            Job::Call(Call::Plain(PlainCall::Write(None, ONE))),
            Job::WriteOnRead(TWO),
            // The boundary is 0, so that nothing is fenced and nothing is removed.
            Job::Call(Call::Plain(PlainCall::Delete(1))),
            Job::WriteOnRead(THREE),
        ],
        // A write is six events, a read of what the worker holds six, and a refused delete four. A write makes three rows, and
        // each of the others two.
        "Some(Done), 15 rows, [Record { epoch: 0, payload: 1 }, Record { epoch: 0, payload: 2 }, Record { epoch: 0, payload: 3 }], [34]",
    ),
    (
        &[
            Job::Call(Call::Plain(PlainCall::Write(Some(5), ONE))),
            Job::WriteOnRead(TWO),
        ],
        "Some(Refused(UnknownBase)), 0 rows, [], [0]",
    ),
];

/// A gate that puts another kept world in at the third turn, where it is given one.
#[derive(Drop)]
struct Replacing<'a, R: Wait> {
    rt: &'a R,
    kept: &'a Mutex<Records>,
    other: Option<Records>,
}

impl<R: Wait> Gate for Replacing<'_, R> {
    fn pass(&mut self, _worker: u64, turn: u64) -> Result<(), GateSpent> {
        if turn == 3 {
            if let Some(other) = self.other.take() {
                drop(mem::replace(&mut *self.kept.lock(self.rt), other));
            }
        }
        Ok(())
    }
}

/// How a worker ends that does these jobs, and its share.
fn worked(
    rt: &impl Wait,
    kept: &Mutex<Records>,
    share: Option<Share>,
    other: Option<Records>,
    jobs: &[Job<Record>],
) -> Option<Worked<Share>> {
    let mut gate = Replacing { rt, kept, other };
    Some(work(rt, kept, share?, &mut gate, jobs))
}

/// Puts a share among others, and says how its worker ended.
fn end_of(shares: &mut Vec<Share>, worked: Option<Worked<Share>>) -> Option<End> {
    let Worked { caller, end } = worked?;
    shares.push(caller).is_ok().then_some(end)
}

/// How many rows a kept world has, and its entries.
fn seen(alloc: Global, kept: &Records) -> Result<String, AllocError> {
    let rows = kept.world().trace().len();
    let entries = kept.world().entries(alloc)?;
    format!(in alloc; "{rows} rows, {entries:?}")
}

/// What a worker alone leaves, where another kept world may be put in.
fn left_by(
    rt: &(impl Wait + AllocGlobal),
    jobs: &[Job<Record>],
    other: Option<Records>,
) -> Result<String, AllocError> {
    let (kept, mut shares) = kept_by(rt.alloc(), 1)?;
    let kept = Mutex::new(kept);
    let worked = worked(rt, &kept, shares.pop(), other, jobs);
    let end = end_of(&mut shares, worked);
    let kept = kept.into_inner();
    let seen = seen(rt.alloc(), &kept)?;
    let counts = finished(rt.alloc(), kept, shares)?;
    format!(in rt.alloc(); "{end:?}, {seen}, {counts}")
}

#[test]
fn a_worker_alone_does_its_jobs_in_order(rt: HostRuntime) -> Result<(), Fail> {
    for (jobs, left) in JOBS {
        let text = left_by(&rt, jobs, None)?;
        assert_eq!(rt; text.as_str(), *left);
    }
    Ok(())
}

#[test]
fn a_kept_world_that_was_replaced_has_other_counts(rt: HostRuntime) -> Result<(), Fail> {
    let (other, _shares) = kept_by(rt.alloc(), 1)?;
    let job = Job::WriteOnRead(ONE);
    let text = left_by(&rt, from_ref(&job), Some(other))?;
    let want = "Some(Refused(UnknownNumber)), 0 rows, [], CountsDiffer";
    assert_eq!(rt; text.as_str(), want);
    Ok(())
}

/// A gate that writes a version and advances over the one before, whenever it is asked: who reads there
/// finds what was fenced in the meantime.
#[derive(Drop)]
struct Fencing<'a, R: Wait> {
    rt: &'a R,
    kept: &'a Mutex<Records>,
    share: Option<Share>,
    newest: u64,
}

impl<R: Wait> Gate for Fencing<'_, R> {
    fn pass(&mut self, _worker: u64, _turn: u64) -> Result<(), GateSpent> {
        let share = self.share.take().ok_or(GateSpent)?;
        let base = if self.newest == 0 {
            None
        } else {
            Some(self.newest)
        };
        let value = Record {
            epoch: 0,
            payload: self.newest,
        };
        let write = Job::Call(Call::Plain(PlainCall::Write(base, value)));
        let advance = Job::Call(Call::Plain(PlainCall::Advance(self.newest)));
        let wrote = work(self.rt, self.kept, share, &mut FreeGate, from_ref(&write));
        let worked = work(
            self.rt,
            self.kept,
            wrote.caller,
            &mut FreeGate,
            from_ref(&advance),
        );
        self.share = Some(worked.caller);
        self.newest = self.newest.saturating_add(1);
        Ok(())
    }
}

/// How a read ends that finds what was fenced each time, and how many events its worker took.
fn fenced(rt: &impl Wait, kept: &Mutex<Records>, shares: &mut Vec<Share>) -> Option<(End, u64)> {
    let mut gate = Fencing {
        rt,
        kept,
        share: shares.pop(),
        newest: 0,
    };
    let read = Job::Call(Call::Plain(PlainCall::Read));
    let worked = work(rt, kept, shares.pop()?, &mut gate, from_ref(&read));
    Some((worked.end, worked.caller.count()))
}

/// The same, in a world of its own.
fn fenced_alone(rt: &(impl Wait + AllocGlobal)) -> Result<Option<(End, u64)>, AllocError> {
    let (kept, mut shares) = kept_by(rt.alloc(), 2)?;
    Ok(fenced(rt, &Mutex::new(kept), &mut shares))
}

#[test]
fn a_call_without_an_end_spends_its_limit(rt: HostRuntime) -> Result<(), Fail> {
    assert_eq!(rt; fenced_alone(&rt)?, Some((End::LimitSpent, 200)));
    Ok(())
}
