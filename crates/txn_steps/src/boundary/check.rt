//! The check of an id against the boundary, as a state.
ghost use Rattle.std.specs.Prelude.{◌≡◌, Ok};
ghost use Rattle.txn_steps.specs.boundary.Steps.{by_number, turned_by_number, TellsErrorOf};
ghost use Rattle.txn_steps.specs.boundary.Asking.{asks, reply_told};
ghost use Rattle.txn_steps.specs.boundary.Boundaries.{refused_by, decided};

use crate::boundary::ask::Ask;
use crate::boundary::boundary_read::{BoundaryRead, Known};
use crate::boundary::caches::{CachedBoundary, Caches, token_of};
use crate::boundary::turned::Turned;
use std::alloc::AllocError;
use txn_store::path::Path;
use txn_store::request::{Reply, Request};
use txn_store::types::id::MonotonicId;
use txn_store::types::layout::Layout;
use txn_store::types::step_error::{ErrorKind, StepError};

/// Where a check of the boundary is.
#[derive(Clone, Copy, Debug, PartialEq, Eq)]
pub enum BoundaryStep {
    /// It looks whether the cached boundary refuses the id.
    Looks,
    /// It reads the boundary.
    Reads,
}

/// What the boundary says of an id: the cached one where that refuses it, else the one that is read.
#[derive(Drop)]
pub struct BoundaryCheck {
    /// The id.
    pub id: MonotonicId,
    /// Where it is.
    pub step: BoundaryStep,
    /// Its read of the boundary, which is made with the check, so that nothing grows after it.
    pub read: BoundaryRead,
}

/// What a boundary says of an id.
fn decide(id: MonotonicId, known: Known) -> Result<(), StepError>
    ensures { by_number result ≡ decided id (Ok known) }
{
    if known.0 < id.id() {
        Ok(())
    } else {
        Err(ErrorKind::ObjectVersionExists.into())
    }
}

/// Whether the cached boundary is at or above the id.
fn is_refused(id: MonotonicId, cached: &Option<CachedBoundary>) -> bool
    ensures { result ≡ refused_by id cached.now }
{
    match cached {
        Some(known) => id.id() <= known.number,
        None => false,
    }
}

impl BoundaryCheck {
    ghost use Rattle.std.specs.Prelude.{IfOk};
    ghost use Rattle.txn_steps.specs.boundary.BoundaryReads.{boundary_getting};
    ghost use Rattle.txn_steps.specs.boundary.BoundaryChecks.{reads_by, boundary_check_started, boundary_check_asked, boundary_check_turned, boundary_check_cached, IsBoundaryCheckReply};

    /// A check of this id against the boundary file of this path, which begins with a look.
    ///
    /// # Errors
    ///
    /// Want of memory alone, which changes nothing.
    pub fn start(path: &Path, id: MonotonicId) -> Result<BoundaryCheck, AllocError>
        ensures { IfOk result (λ op. op ≡ boundary_check_started path.now id) }
    {
        Ok(BoundaryCheck {
            id,
            step: BoundaryStep::Looks,
            read: BoundaryRead::start(path)?,
        })
    }

    /// The same check where its looks are made, and this boundary is cached, which does not refuse the id: it asks for the
    /// file.
    ///
    /// # Errors
    ///
    /// Want of memory alone, which changes nothing.
    pub fn asking(
        path: &Path,
        id: MonotonicId,
        cached: &Option<CachedBoundary>,
    ) -> Result<BoundaryCheck, AllocError>
        ensures { IfOk result (λ op. op ≡ reads_by (boundary_check_started path.now id) (boundary_getting (BoundaryRead.Looks path.now) cached.now)) }
    {
        Ok(BoundaryCheck {
            id,
            step: BoundaryStep::Reads,
            read: BoundaryRead::Gets(Request::Get {
                path: path.try_clone()?,
                if_none_match: token_of(cached),
            }),
        })
    }

    /// What it asks for. It takes no memory.
    pub fn ask(&self) -> Ask<'_>
        ensures { asks result ≡ boundary_check_asked self.now }
    {
        match self.step {
            BoundaryStep::Looks => Ask::Look,
            BoundaryStep::Reads => self.read.ask(),
        }
    }

    /// Takes the store's reply to what it asks, or none for a look. It takes no memory.
    ///
    /// # Errors
    ///
    /// `ObjectVersionExists` for an id at or below the cached boundary, or else the one that is read; the read's own error.
    /// Each ends it.
    pub fn take(
        &mut self,
        cached: &mut Option<CachedBoundary>,
        reply: Option<Reply>,
    ) -> Turned<Result<(), StepError>>
        requires { IsBoundaryCheckReply self.old reply }
        ensures turned { (self.new, turned_by_number result) ≡ boundary_check_turned self.old cached.old reply }
        ensures cached { cached.new ≡ boundary_check_cached self.old cached.old }
        ensures store_error { TellsErrorOf (reply_told reply) result }
    {
        match self.step {
            BoundaryStep::Looks => {
                if is_refused(self.id, cached) {
                    Turned::Done(Err(ErrorKind::ObjectVersionExists.into()))
                } else {
                    self.step = BoundaryStep::Reads;
                    Turned::Goes
                }
            }
            BoundaryStep::Reads => match self.read.take(cached, reply) {
                Turned::Goes => Turned::Goes,
                Turned::Done(Ok(known)) => Turned::Done(decide(self.id, known)),
                Turned::Done(Err(error)) => Turned::Done(Err(error)),
            },
        }
    }
}

/// A check, which drops the cached versions at or below an id that it refuses. It has at most one call of the store and
/// four looks. Once it is made it takes no memory.
#[derive(Drop)]
pub enum CheckOp {
    /// It asks what the boundary says.
    Checks(BoundaryCheck),
    /// This id is refused, and it looks to drop the cached versions at or below it.
    Drops(MonotonicId),
}

impl CheckOp {
    ghost use Rattle.std.specs.Prelude.{IfOk};
    ghost use Rattle.txn_steps.specs.boundary.Checks.{check_started, check_of_read, check_asked, check_turned, check_caches, IsCheckReply};

    /// A check of this id, which begins with a look.
    ///
    /// # Errors
    ///
    /// Want of memory alone, which changes nothing.
    pub fn start<C>(layout: &Layout<C>, id: MonotonicId) -> Result<CheckOp, AllocError>
        ensures { IfOk result (λ op. op ≡ check_started layout.now.boundary id) }
    {
        Ok(CheckOp::Checks(BoundaryCheck::start(&layout.boundary, id)?))
    }

    /// A check of this id, whose read of the boundary was made before. It takes no memory.
    pub fn of_read(id: MonotonicId, read: BoundaryRead) -> CheckOp
        ensures { result ≡ check_of_read id read }
    {
        let step = BoundaryStep::Looks;
        CheckOp::Checks(BoundaryCheck { id, step, read })
    }

    /// What it asks for. It takes no memory.
    pub fn ask(&self) -> Ask<'_>
        ensures { asks result ≡ check_asked self.now }
    {
        match self {
            CheckOp::Checks(check) => check.ask(),
            CheckOp::Drops(_) => Ask::Look,
        }
    }

    /// Takes the store's reply to what it asks, or none for a look. It is done well where the boundary is below the id. It
    /// takes no memory.
    ///
    /// # Errors
    ///
    /// `ObjectVersionExists` for an id that the boundary has reached, once the cached versions at or below it are dropped;
    /// `InvalidObjectState` for a boundary file that says no number, and for one that did not change where none is cached; any
    /// other error of the store as it becomes. Each ends it.
    pub fn take(
        &mut self,
        caches: &mut Caches,
        reply: Option<Reply>,
    ) -> Turned<Result<(), StepError>>
        requires { IsCheckReply self.old reply }
        ensures turned { (self.new, turned_by_number result) ≡ check_turned self.old caches.old reply }
        ensures caches { caches.new ≡ check_caches self.old caches.old }
        ensures store_error { TellsErrorOf (reply_told reply) result }
    {
        match self {
            CheckOp::Checks(check) => {
                let id = check.id;
                match check.take(&mut caches.boundary, reply) {
                    Turned::Done(Err(error)) if error.is_sequenced_write_conflict() => {
                        *self = CheckOp::Drops(id);
                        Turned::Goes
                    }
                    told => told,
                }
            }
            CheckOp::Drops(id) => {
                caches.latest.forget_through(*id);
                Turned::Done(Err(ErrorKind::ObjectVersionExists.into()))
            }
        }
    }
}
