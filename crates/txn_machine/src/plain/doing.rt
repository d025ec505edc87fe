//! The operations of plain calls, as states of `txn_steps::boundary` and `txn_steps`.
ghost use Rattle.std.specs.Prelude.{◌≡◌, false, None, Some, IfOk, IfSome};
ghost use Rattle.txn_steps.specs.boundary.Steps.{turned_by_number};
ghost use Rattle.txn_store.specs.types.Clones.{IsExactClone};
ghost use Rattle.txn_history.specs.Names.{world_names, world_boundary};
ghost use Rattle.txn_machine.specs.plain.Doing.{is_write, started, write_answer, read_answer, value_answer, ids_answer, done_answer, refusal_of_number, first_of, ids_of, IsTold, ReadsBack, FitsWord};

use std::alloc::{AllocError, Global};
use std::mem;
use txn_history::event::{PlainAnswer, PlainCall};
use txn_history::ids::Ids;
use txn_steps::boundary::advance::AdvanceOp;
use txn_steps::boundary::ask::Ask;
use txn_steps::boundary::caches::Caches;
use txn_steps::boundary::check::CheckOp;
use txn_steps::boundary::turned::Turned;
use txn_steps::delete::DeleteOp;
use txn_steps::listing::ListOp;
use txn_steps::read::ReadOp;
use txn_steps::seen::{ReadSeenOp, ReadUncheckedOp};
use txn_steps::versions::Versions;
use txn_steps::write::{WriteOp, WriteUncheckedOp};
use txn_store::request::Reply;
use txn_store::types::codec::ObjectCodec;
use txn_store::types::id::MonotonicId;
use txn_store::types::layout::Layout;
use txn_store::types::room::push_within;
use txn_store::types::step_error::StepError;

/// What an operation does next.
#[derive(Drop)]
pub enum PlainDoing<T> {
    Write(WriteOp),
    WriteUnchecked(WriteUncheckedOp),
    Read(ReadOp<T>),
    ReadUnchecked(ReadUncheckedOp),
    ReadSeen(ReadSeenOp<T>),
    ListIds(ListOp),
    Delete(DeleteOp),
    Check(CheckOp),
    Advance(AdvanceOp),
    /// It was answered, or given up.
    Ended,
}

/// An operation of a client.
#[derive(Drop)]
pub struct PlainOperation<T> {
    pub client: u64,
    pub doing: PlainDoing<T>,
}

/// How a call starts: what its operation does, and the number of its refusal where it has one at once. The bytes of a write are
/// made here, before anything is asked of the store.
///
/// # Errors
///
/// Want of memory alone, which changes nothing.
pub fn start<T: Drop, C: ObjectCodec<T>>(
    alloc: Global,
    layout: &Layout<C>,
    call: &PlainCall<T>,
) -> Result<(PlainDoing<T>, Option<u8>), AllocError>
    requires names { layout.now.names ≡ world_names }
    requires boundary { layout.now.boundary ≡ world_boundary }
    ensures started { IfOk result (λ start. (start.0, refusal_of_number start.1) ≡ started layout.now.page (C.encoded layout.now.codec) call.now) }
    ensures reads_back { IfOk result (λ _. ReadsBack (C.encoded layout.now.codec) (C.decoded layout.now.codec) call.now) }
    ensures word { IfOk result (λ _. FitsWord call.now) }
{
    match call {
        PlainCall::Write(base, value) => {
            match WriteOp::start(alloc, layout, base.map(MonotonicId::new), value) {
                Ok(op) => Ok((PlainDoing::Write(op), None)),
                Err(error) if error.number() == 10 => Ok((PlainDoing::Ended, Some(10))),
                Err(_) => Err(AllocError),
            }
        }
        PlainCall::WriteUnchecked(base, value) => {
            match WriteUncheckedOp::start(alloc, layout, base.map(MonotonicId::new), value) {
                Ok(op) => Ok((PlainDoing::WriteUnchecked(op), None)),
                Err(error) if error.number() == 10 => Ok((PlainDoing::Ended, Some(10))),
                Err(_) => Err(AllocError),
            }
        }
        _ => Ok((start_other(alloc, layout, call)?, None)),
    }
}

/// How a call that writes no value starts. The only error is want of memory.
fn start_other<T: Drop, C: ObjectCodec<T>>(
    alloc: Global,
    layout: &Layout<C>,
    call: &PlainCall<T>,
) -> Result<PlainDoing<T>, AllocError>
    requires names { layout.now.names ≡ world_names }
    requires boundary { layout.now.boundary ≡ world_boundary }
    requires own { is_write call.now ≡ false }
    ensures started { IfOk result (λ doing. (doing, None) ≡ started layout.now.page (C.encoded layout.now.codec) call.now) }
    ensures word { IfOk result (λ _. FitsWord call.now) }
{
    Ok(match call {
        PlainCall::Write(..) | PlainCall::WriteUnchecked(..) => unreachable!(),
        PlainCall::Read => PlainDoing::Read(ReadOp::start(layout)?),
        PlainCall::ReadUnchecked(id) => {
            PlainDoing::ReadUnchecked(ReadUncheckedOp::start(alloc, layout, MonotonicId::new(*id))?)
        }
        PlainCall::ReadSeen(id) => PlainDoing::ReadSeen(ReadSeenOp::start(MonotonicId::new(*id))),
        PlainCall::ListIds(from, to) => {
            PlainDoing::ListIds(ListOp::start(alloc, layout, *from, *to)?)
        }
        PlainCall::Delete(id) => {
            PlainDoing::Delete(DeleteOp::start(alloc, layout, MonotonicId::new(*id))?)
        }
        PlainCall::Check(id) => PlainDoing::Check(CheckOp::start(layout, MonotonicId::new(*id))?),
        PlainCall::Advance(id) => PlainDoing::Advance(AdvanceOp::start(MonotonicId::new(*id))),
    })
}

/// An answer, once for the trace and once to be told.
type Twice<T> = Option<(PlainAnswer<T>, PlainAnswer<T>)>;

/// A refusal.
fn refused<T>(number: u8) -> Twice<T>
    ensures { result ≡ Some (PlainAnswer.Refused number, PlainAnswer.Refused number) }
{
    Some((PlainAnswer::Refused(number), PlainAnswer::Refused(number)))
}

impl<T: Drop> PlainDoing<T> {
    ghost use Rattle.std.specs.Prelude.{◌≡◌};
    ghost use Rattle.txn_machine.specs.plain.Doing.{asked, asks_as, first_of, next_of};

    /// What it asks for: a store call, or a look at its client's caches, and nothing where it has ended. It takes no
    /// memory.
    pub fn ask(&self) -> Option<Ask<'_>>
        ensures { asks_as result ≡ asked self.now }
    {
        match self {
            PlainDoing::Write(op) => Some(op.ask()),
            PlainDoing::WriteUnchecked(op) => Some(op.ask()),
            PlainDoing::Read(op) => Some(op.ask()),
            PlainDoing::ReadUnchecked(op) => Some(op.ask()),
            PlainDoing::ReadSeen(op) => Some(op.ask()),
            PlainDoing::ListIds(op) => Some(op.ask()),
            PlainDoing::Delete(op) => Some(op.ask()),
            PlainDoing::Check(op) => Some(op.ask()),
            PlainDoing::Advance(op) => Some(op.ask()),
            PlainDoing::Ended => None,
        }
    }

    /// An answer ends the operation.
    #[inline(always)]
    fn end_where(&mut self, answers: Twice<T>) -> Twice<T>
        ensures next { (self.new, first_of result) ≡ next_of self.old (first_of answers) }
        ensures answers { result ≡ answers }
    {
        let pair = answers?;
        // By a call: in place, the proof would follow each state that may be dropped here.
        drop(mem::replace(self, PlainDoing::Ended));
        Some(pair)
    }
}

impl<T: Clone> PlainDoing<T> {
    ghost use Rattle.std.specs.Prelude.{◌≡◌, IfSome};
    ghost use Rattle.txn_store.specs.types.Clones.{IsExactClone};
    ghost use Rattle.txn_history.specs.Names.{world_names, world_boundary};
    ghost use Rattle.txn_machine.specs.plain.Doing.{plain_caches_after, first_of, InRange, IsReply, Turns};

    /// Takes the store's reply to what it asks, or none for a look, and leaves its client's caches as its step says. An
    /// answer ends the operation, and comes twice: once for the trace, and once to be told. Where a growth is refused the
    /// answer is the refusal 9.
    pub fn take<C: ObjectCodec<T>>(
        &mut self,
        alloc: Global,
        layout: &Layout<C>,
        caches: &mut Caches,
        reply: Option<Reply>,
    ) -> Option<(PlainAnswer<T>, PlainAnswer<T>)>
        requires exact { IsExactClone T.is_clone }
        requires names { layout.now.names ≡ world_names }
        requires boundary { layout.now.boundary ≡ world_boundary }
        requires asked { IsReply self.old reply }
        requires range { InRange self.old }
        ensures turned { Turns layout.now.page (C.decoded layout.now.codec) self.old caches.old reply self.new (first_of result) }
        ensures caches { caches.new ≡ plain_caches_after self.old caches.old (first_of result) }
        ensures twice { IfSome result (λ pair. pair.1 ≡ pair.0) }
    {
        match self {
            PlainDoing::Write(op) => {
                let answers = written(op.take(caches, reply));
                self.end_where(answers)
            }
            PlainDoing::WriteUnchecked(op) => {
                let answers = written(op.take(&mut caches.latest, reply));
                self.end_where(answers)
            }
            PlainDoing::Read(op) => {
                let answers = read(op.take(alloc, layout, caches, reply));
                self.end_where(answers)
            }
            PlainDoing::ReadUnchecked(op) => {
                let answers = valued(op.take(alloc, layout, reply));
                self.end_where(answers)
            }
            PlainDoing::ReadSeen(op) => {
                let answers = valued(op.take(alloc, layout, &mut caches.latest, reply));
                self.end_where(answers)
            }
            PlainDoing::ListIds(op) => {
                let answers = listed(alloc, op.take(alloc, layout, reply));
                self.end_where(answers)
            }
            PlainDoing::Delete(op) => {
                let answers = done(op.take(caches, reply));
                self.end_where(answers)
            }
            PlainDoing::Check(op) => {
                let answers = done(op.take(caches, reply));
                self.end_where(answers)
            }
            PlainDoing::Advance(op) => {
                let answers = done(op.take(alloc, layout, caches, reply));
                self.end_where(answers)
            }
            PlainDoing::Ended => unreachable!(),
        }
    }
}

/// The answer of a check, an advance or a delete.
fn done<T>(turned: Turned<Result<(), StepError>>) -> Twice<T>
    ensures first { first_of result ≡ done_answer (turned_by_number turned) }
    ensures twice { IfSome result (λ pair. pair.1 ≡ pair.0) }
{
    match turned {
        Turned::Goes => None,
        Turned::Done(Ok(())) => Some((PlainAnswer::Done, PlainAnswer::Done)),
        Turned::Done(Err(error)) => refused(error.number()),
    }
}

/// The answer of a write.
fn written<T>(turned: Turned<Result<MonotonicId, StepError>>) -> Twice<T>
    ensures first { first_of result ≡ write_answer (turned_by_number turned) }
    ensures twice { IfSome result (λ pair. pair.1 ≡ pair.0) }
{
    match turned {
        Turned::Goes => None,
        Turned::Done(Ok(id)) => Some((PlainAnswer::Wrote(id.id()), PlainAnswer::Wrote(id.id()))),
        Turned::Done(Err(error)) => refused(error.number()),
    }
}

/// The answer of a read, whose value is cloned to be told.
fn read<T: Clone>(turned: Turned<Result<Option<(MonotonicId, T)>, StepError>>) -> Twice<T>
    requires { IsExactClone T.is_clone }
    ensures first { IsTold (read_answer (turned_by_number turned)) (first_of result) }
    ensures twice { IfSome result (λ pair. pair.1 ≡ pair.0) }
{
    match turned {
        Turned::Goes => None,
        Turned::Done(Ok(None)) => Some((PlainAnswer::Read(None), PlainAnswer::Read(None))),
        Turned::Done(Ok(Some((id, value)))) => match value.clone() {
            Ok(copy) => Some((
                PlainAnswer::Read(Some((id.id(), value))),
                PlainAnswer::Read(Some((id.id(), copy))),
            )),
            Err(_) => refused(9),
        },
        Turned::Done(Err(error)) => refused(error.number()),
    }
}

/// The answer of a read of one id, whose value is cloned to be told.
fn valued<T: Clone>(turned: Turned<Result<Option<T>, StepError>>) -> Twice<T>
    requires { IsExactClone T.is_clone }
    ensures first { IsTold (value_answer (turned_by_number turned)) (first_of result) }
    ensures twice { IfSome result (λ pair. pair.1 ≡ pair.0) }
{
    match turned {
        Turned::Goes => None,
        Turned::Done(Ok(None)) => Some((PlainAnswer::Value(None), PlainAnswer::Value(None))),
        Turned::Done(Ok(Some(value))) => match value.clone() {
            Ok(copy) => Some((
                PlainAnswer::Value(Some(value)),
                PlainAnswer::Value(Some(copy)),
            )),
            Err(_) => refused(9),
        },
        Turned::Done(Err(error)) => refused(error.number()),
    }
}

/// The ids of listed versions. The only error is want of memory.
fn ids_found(alloc: Global, found: &Versions) -> Result<Ids, AllocError>
    ensures { IfOk result (λ ids. ids ≡ ids_of found.now) }
{
    let listed = found.as_slice();
    let mut ids = Vec::with_capacity(alloc, listed.len())?;
    for version in listed {
        push_within(&mut ids, version.id.id());
    }
    Ok(Ids::from_vec(ids))
}

/// The answer of a listing, whose ids are copied to be told.
fn listed<T>(alloc: Global, turned: Turned<Result<Versions, StepError>>) -> Twice<T>
    ensures first { IsTold (ids_answer (turned_by_number turned)) (first_of result) }
    ensures twice { IfSome result (λ pair. pair.1 ≡ pair.0) }
{
    match turned {
        Turned::Goes => None,
        Turned::Done(Ok(found)) => match ids_twice(alloc, &found) {
            Ok((ids, copy)) => Some((PlainAnswer::Ids(ids), PlainAnswer::Ids(copy))),
            Err(_) => refused(9),
        },
        Turned::Done(Err(error)) => refused(error.number()),
    }
}

/// The ids of listed versions, twice. The only error is want of memory.
fn ids_twice(alloc: Global, found: &Versions) -> Result<(Ids, Ids), AllocError>
    ensures { IfOk result (λ pair. (pair.0 ≡ ids_of found.now) × (pair.1 ≡ pair.0)) }
{
    let ids = ids_found(alloc, found)?;
    let copy = ids.try_clone()?;
    Ok((ids, copy))
}
