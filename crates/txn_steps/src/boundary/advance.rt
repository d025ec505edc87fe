//! An advance of the boundary, as a state.
ghost use Rattle.std.specs.Prelude.{◌≡◌, IfOk, None, Some, Ok, Err, unwrap_or, false};
ghost use Rattle.txn_steps.specs.boundary.Steps.{turned_by_number, lacks_memory, error_in, TellsErrorOf};
ghost use Rattle.txn_steps.specs.boundary.Asking.{asks, reply_told, unless_lacking};
ghost use Rattle.txn_steps.specs.boundary.Boundaries.{greater_known};
ghost use Rattle.txn_steps.specs.boundary.BoundaryAdvances.{putting, reading, raise_known, advance_looked, put_answered, advance_after, is_reading, advance_kept, boundary_advance_turned, boundary_advance_cached, IsBoundaryAdvanceReply};

use crate::boundary::ask::Ask;
use crate::boundary::boundary_read::{BoundaryRead, Known};
use crate::boundary::caches::{CachedBoundary, Caches, keep_greater};
use crate::boundary::turned::{self, Turned, goes_as, taken};
use std::alloc::{AllocError, Global};
use txn_store::path::Path;
use txn_store::request::{Reply, Request};
use txn_store::store::{PutMode, StoreError, Token};
use txn_store::types::boundary::boundary_bytes;
use txn_store::types::id::MonotonicId;
use txn_store::types::layout::Layout;
use txn_store::types::step_error::StepError;

/// A raise of the boundary to a target.
#[derive(Drop)]
pub enum BoundaryAdvance {
    /// To this target, it looks for the cached boundary.
    Looks(MonotonicId),
    /// It reads the boundary. After a put that came too late it then looks again.
    Reads(MonotonicId, bool, BoundaryRead),
    /// It asks for the put of the target.
    Puts(MonotonicId, Request),
    /// The target is written under this token, and it looks to cache it.
    Keeps(MonotonicId, Token),
}

type Step = turned::Step<BoundaryAdvance, ()>;

/// The put of the target. A file that is known is replaced only where its token is still the same, and
/// a missing one is created.
fn put(
    alloc: Global,
    path: &Path,
    target: MonotonicId,
    token: Option<Token>,
) -> Result<BoundaryAdvance, AllocError>
    ensures { IfOk result (λ op. op ≡ putting path.now target token) }
{
    let mode = match token {
        Some(token) => PutMode::Update(token),
        None => PutMode::Create,
    };
    let path = path.try_clone()?;
    let bytes = boundary_bytes(alloc, target.id())?;
    Ok(BoundaryAdvance::Puts(target, Request::Put { path, bytes, mode }))
}

/// It reads the boundary.
fn read(path: &Path, target: MonotonicId, again: bool) -> Result<BoundaryAdvance, AllocError>
    ensures { IfOk result (λ op. op ≡ reading path.now target again) }
{
    Ok(BoundaryAdvance::Reads(target, again, BoundaryRead::start(path)?))
}

/// With this boundary known.
fn raise(
    alloc: Global,
    path: &Path,
    target: MonotonicId,
    known: Known,
    op: &BoundaryAdvance,
) -> Step
    ensures turned { (unwrap_or result.0 op.now, turned_by_number result.1) ≡ unless_lacking (lacks_memory (turned_by_number result.1)) op.now (raise_known path.now op.now target known) }
    ensures store_error { TellsErrorOf None result.1 }
{
    if known.0 < target.id() {
        goes_as(put(alloc, path, target, known.1))
    } else {
        (None, Turned::Done(Ok(())))
    }
}

/// After the first look.
fn after_look(
    alloc: Global,
    path: &Path,
    target: MonotonicId,
    cached: &Option<CachedBoundary>,
    op: &BoundaryAdvance,
) -> Step
    ensures turned { (unwrap_or result.0 op.now, turned_by_number result.1) ≡ unless_lacking (lacks_memory (turned_by_number result.1)) op.now (advance_looked path.now op.now target cached.now) }
    ensures store_error { TellsErrorOf None result.1 }
{
    match cached {
        Some(known) => raise(alloc, path, target, (known.number, Some(known.token)), op),
        None => goes_as(read(path, target, false)),
    }
}

/// After the put.
fn after_put(
    path: &Path,
    target: MonotonicId,
    answer: Result<Token, StoreError>,
    op: &BoundaryAdvance,
) -> Step
    ensures turned { (unwrap_or result.0 op.now, turned_by_number result.1) ≡ unless_lacking (lacks_memory (turned_by_number result.1)) op.now (put_answered path.now op.now target answer) }
    ensures store_error { TellsErrorOf (error_in answer) result.1 }
{
    match answer {
        Ok(token) => (Some(BoundaryAdvance::Keeps(target, token)), Turned::Goes),
        // Another advance came first.
        Err(StoreError::AlreadyExists | StoreError::Precondition) => {
            goes_as(read(path, target, true))
        }
        Err(error) => (None, Turned::Done(Err(error.into()))),
    }
}

/// Caches what it wrote. It takes no memory.
fn after_keep(
    target: MonotonicId,
    token: Token,
    cached: &mut Option<CachedBoundary>,
    op: &BoundaryAdvance,
) -> Step
    ensures turned { (unwrap_or result.0 op.now, turned_by_number result.1) ≡ advance_kept op.now }
    ensures cached { cached.new ≡ Some (greater_known cached.old (record { number = target; token = token })) }
    ensures store_error { TellsErrorOf None result.1 }
{
    let number = target.id();
    let _kept = keep_greater(cached, CachedBoundary { number, token });
    (None, Turned::Done(Ok(())))
}

/// What it does next, but for its read of the boundary.
fn beside(
    alloc: Global,
    path: &Path,
    cached: &mut Option<CachedBoundary>,
    reply: Option<Reply>,
    op: &BoundaryAdvance,
) -> Step
    requires asked { IsBoundaryAdvanceReply op.now reply }
    requires own { is_reading op.now ≡ false }
    ensures turned { (unwrap_or result.0 op.now, turned_by_number result.1) ≡ unless_lacking (lacks_memory (turned_by_number result.1)) op.now (boundary_advance_turned path.now op.now cached.old reply) }
    ensures cached { cached.new ≡ boundary_advance_cached op.now cached.old }
    ensures store_error { TellsErrorOf (reply_told reply) result.1 }
{
    match op {
        BoundaryAdvance::Looks(target) => after_look(alloc, path, *target, cached, op),
        BoundaryAdvance::Puts(target, _) => match &reply {
            Some(Reply::Put(answer)) => after_put(path, *target, *answer, op),
            _ => unreachable!(),
        },
        BoundaryAdvance::Keeps(target, token) => after_keep(*target, *token, cached, op),
        BoundaryAdvance::Reads(..) => unreachable!(),
    }
}

impl BoundaryAdvance {
    ghost use Rattle.txn_steps.specs.boundary.BoundaryAdvances.{boundary_advance_asked, asks_put};

    /// An advance to this target, which begins with a look. It takes no memory.
    pub fn start(target: MonotonicId) -> BoundaryAdvance
        ensures { result ≡ BoundaryAdvance.Looks target }
    {
        BoundaryAdvance::Looks(target)
    }

    /// What it asks for. It takes no memory.
    pub fn ask(&self) -> Ask<'_>
        ensures { asks result ≡ boundary_advance_asked self.now }
    {
        match self {
            BoundaryAdvance::Reads(_, _, read) => read.ask(),
            BoundaryAdvance::Puts(_, request) => Ask::Store(request),
            _ => Ask::Look,
        }
    }

    /// Takes the store's reply to what it asks, or none for a look. It is done where the known boundary is at or above the
    /// target, and where its put was taken and the boundary is cached, unless a greater one is. Where another advance came
    /// first it reads the boundary and looks again.
    ///
    /// # Errors
    ///
    /// `InvalidObjectState` for a boundary file that says no number, and for one that did not change where none is cached;
    /// `NoMemory` where a growth was refused, which leaves what was; any other error of the store as it becomes. Each ends it.
    pub fn take(
        &mut self,
        alloc: Global,
        path: &Path,
        cached: &mut Option<CachedBoundary>,
        reply: Option<Reply>,
    ) -> Turned<Result<(), StepError>>
        requires { IsBoundaryAdvanceReply self.old reply }
        ensures turned { (self.new, turned_by_number result) ≡ unless_lacking (lacks_memory (turned_by_number result)) self.old (boundary_advance_turned path.now self.old cached.old reply) }
        ensures cached { cached.new ≡ boundary_advance_cached self.old cached.old }
        ensures store_error { TellsErrorOf (reply_told reply) result }
    {
        match self {
            BoundaryAdvance::Reads(target, again, read) => {
                let target = *target;
                let again = *again;
                let told = read.take(cached, reply);
                self.after_read(alloc, path, target, again, told)
            }
            _ => {
                let step = beside(alloc, path, cached, reply, self);
                taken(self, step)
            }
        }
    }

    /// With what its read of the boundary says.
    fn after_read(
        &mut self,
        alloc: Global,
        path: &Path,
        target: MonotonicId,
        again: bool,
        told: Turned<Result<Known, StepError>>,
    ) -> Turned<Result<(), StepError>>
        ensures turned { (self.new, turned_by_number result) ≡ unless_lacking (lacks_memory (turned_by_number result)) self.old (advance_after path.now self.old target again (turned_by_number told)) }
        ensures goes { turned_by_number told ≡ Turned.Goes → turned_by_number result ≡ Turned.Goes }
        ensures store_error { (error : _) → TellsErrorOf error told → TellsErrorOf error result }
    {
        let known = match told {
            Turned::Goes => return Turned::Goes,
            Turned::Done(Ok(known)) => known,
            Turned::Done(Err(error)) => return Turned::Done(Err(error)),
        };
        if again {
            *self = BoundaryAdvance::Looks(target);
            return Turned::Goes;
        }
        let step = raise(alloc, path, target, known, self);
        taken(self, step)
    }
}

/// An advance of the boundary to its target, which then drops the cached versions at or below it.
#[derive(Drop)]
pub enum AdvanceOp {
    /// It raises the boundary to this target.
    Raises(MonotonicId, BoundaryAdvance),
    /// The boundary has reached this target, and it looks to drop the cached versions at or below it.
    Drops(MonotonicId),
}

impl AdvanceOp {
    ghost use Rattle.txn_steps.specs.boundary.Advances.{advance_started, advance_asked, advance_turned, advance_caches, IsAdvanceReply};

    /// An advance to this target, which begins with a look. It takes no memory.
    pub fn start(target: MonotonicId) -> AdvanceOp
        ensures { result ≡ advance_started target }
    {
        AdvanceOp::Raises(target, BoundaryAdvance::start(target))
    }

    /// What it asks for. It takes no memory.
    pub fn ask(&self) -> Ask<'_>
        ensures { asks result ≡ advance_asked self.now }
    {
        match self {
            AdvanceOp::Raises(_, raise) => raise.ask(),
            AdvanceOp::Drops(_) => Ask::Look,
        }
    }

    /// Takes the store's reply to what it asks, or none for a look. It is done once the boundary has reached the target and the
    /// cached versions at or below that are dropped.
    ///
    /// # Errors
    ///
    /// `InvalidObjectState` for a boundary file that says no number, and for one that did not change where none is cached;
    /// `NoMemory` where a growth was refused, which leaves what was; any other error of the store as it becomes. Each ends it.
    pub fn take<C>(
        &mut self,
        alloc: Global,
        layout: &Layout<C>,
        caches: &mut Caches,
        reply: Option<Reply>,
    ) -> Turned<Result<(), StepError>>
        requires { IsAdvanceReply self.old reply }
        ensures turned { (self.new, turned_by_number result) ≡ unless_lacking (lacks_memory (turned_by_number result)) self.old (advance_turned layout.now.boundary self.old caches.old reply) }
        ensures caches { caches.new ≡ advance_caches self.old caches.old }
        ensures store_error { TellsErrorOf (reply_told reply) result }
    {
        match self {
            AdvanceOp::Raises(target, raise) => {
                match raise.take(alloc, &layout.boundary, &mut caches.boundary, reply) {
                    Turned::Done(Ok(())) => {
                        *self = AdvanceOp::Drops(*target);
                        Turned::Goes
                    }
                    told => told,
                }
            }
            AdvanceOp::Drops(target) => {
                caches.latest.forget_through(*target);
                Turned::Done(Ok(()))
            }
        }
    }
}
