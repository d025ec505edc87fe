//! A read of the boundary, which is a part of other operations.
ghost use Rattle.std.specs.Prelude.{◌≡◌, unwrap_or};
ghost use Rattle.txn_steps.specs.boundary.Steps.{turned_by_number, error_in, TellsErrorOf};
ghost use Rattle.txn_steps.specs.boundary.BoundaryReads.{boundary_getting, boundary_got, boundary_held, held_cached, IsLooking};

use crate::boundary::ask::Ask;
use crate::boundary::caches::{CachedBoundary, keep_greater, token_of};
use crate::boundary::turned::{self, Turned, taken};
use std::alloc::AllocError;
use std::mem;
use txn_store::path::Path;
use txn_store::request::{Reply, Request};
use txn_store::store::{Got, StoreError, Token};
use txn_store::types::boundary::read_boundary;
use txn_store::types::step_error::{ErrorKind, StepError};

/// A boundary that is known, with the token of its file where there is one.
pub type Known = (u64, Option<Token>);

/// A read of the boundary, which asks for the file only where it changed since it was cached. It has at most one call of
/// the store and two looks. Once it is made it takes no memory.
#[derive(Drop)]
pub enum BoundaryRead {
    /// It looks for the token that is known. It will ask for the file of this path.
    Looks(Path),
    /// It asks for the file.
    Gets(Request),
    /// It read this, or none where the file is as it was known, and looks to cache it.
    Holds(Option<CachedBoundary>),
}

type Step = turned::Step<BoundaryRead, Known>;

/// After the get.
fn after_get(answer: Result<Got, StoreError>, op: &BoundaryRead) -> Step
    ensures turned { (unwrap_or result.0 op.now, turned_by_number result.1) ≡ boundary_got op.now answer }
    ensures store_error { TellsErrorOf (error_in answer) result.1 }
{
    match answer {
        Ok(got) => match read_boundary(&got.bytes) {
            Some(number) => {
                let token = got.token;
                let known = CachedBoundary { number, token };
                (Some(BoundaryRead::Holds(Some(known))), Turned::Goes)
            }
            None => (
                None,
                Turned::Done(Err(ErrorKind::InvalidObjectState.into())),
            ),
        },
        Err(StoreError::NotFound) => (None, Turned::Done(Ok((0, None)))),
        Err(StoreError::NotModified) => (Some(BoundaryRead::Holds(None)), Turned::Goes),
        Err(error) => (None, Turned::Done(Err(error.into()))),
    }
}

/// Caches what it read.
fn after_read(
    known: Option<CachedBoundary>,
    cached: &mut Option<CachedBoundary>,
    op: &BoundaryRead,
) -> Step
    ensures turned { (unwrap_or result.0 op.now, turned_by_number result.1) ≡ boundary_held op.now known cached.old }
    ensures cached { cached.new ≡ held_cached known cached.old }
    ensures store_error { TellsErrorOf None result.1 }
{
    match known {
        Some(known) => {
            let kept = keep_greater(cached, known);
            (None, Turned::Done(Ok((kept.number, Some(kept.token)))))
        }
        None => {
            let kept = *cached;
            match kept {
                Some(kept) => (None, Turned::Done(Ok((kept.number, Some(kept.token))))),
                None => (
                    None,
                    Turned::Done(Err(ErrorKind::InvalidObjectState.into())),
                ),
            }
        }
    }
}

impl BoundaryRead {
    ghost use Rattle.std.specs.Prelude.{IfOk};
    ghost use Rattle.txn_steps.specs.boundary.BoundaryReads.{boundary_read_asked, boundary_turned, boundary_cached, IsBoundaryReply};
    ghost use Rattle.txn_steps.specs.boundary.Asking.{asks, reply_told};

    /// A read of the boundary file of this path, which begins with a look.
    ///
    /// # Errors
    ///
    /// Want of memory alone, which changes nothing.
    pub fn start(path: &Path) -> Result<BoundaryRead, AllocError>
        ensures { IfOk result (λ op. op ≡ BoundaryRead.Looks path.now) }
    {
        Ok(BoundaryRead::Looks(path.try_clone()?))
    }

    /// What it asks for. It takes no memory.
    pub fn ask(&self) -> Ask<'_>
        ensures { asks result ≡ boundary_read_asked self.now }
    {
        match self {
            BoundaryRead::Gets(request) => Ask::Store(request),
            _ => Ask::Look,
        }
    }

    /// After the first look it asks for the file, unless that is as it is known.
    fn get(&mut self, cached: &Option<CachedBoundary>)
        requires { IsLooking self.old }
        ensures { self.new ≡ boundary_getting self.old cached.now }
    {
        let BoundaryRead::Looks(path) = mem::replace(self, BoundaryRead::Holds(None)) else {
            unreachable!()
        };
        let if_none_match = token_of(cached);
        *self = BoundaryRead::Gets(Request::Get {
            path,
            if_none_match,
        });
    }

    /// Takes the store's reply to its get, or none for a look. A missing file is boundary 0, with no look. What was read is
    /// cached where no greater boundary is, and the cached one is its result. It takes no memory.
    ///
    /// # Errors
    ///
    /// `InvalidObjectState` for bytes that say no boundary, and for a file that did not change where none is cached; any other
    /// error of the store as it becomes. Each ends it, and leaves what is cached.
    pub fn take(
        &mut self,
        cached: &mut Option<CachedBoundary>,
        reply: Option<Reply>,
    ) -> Turned<Result<Known, StepError>>
        requires { IsBoundaryReply self.old reply }
        ensures turned { (self.new, turned_by_number result) ≡ boundary_turned self.old cached.old reply }
        ensures cached { cached.new ≡ boundary_cached self.old cached.old }
        ensures store_error { TellsErrorOf (reply_told reply) result }
    {
        if let BoundaryRead::Looks(_) = self {
            self.get(cached);
            return Turned::Goes;
        }
        let step = match (&*self, reply) {
            (BoundaryRead::Gets(_), Some(Reply::Get(answer))) => after_get(answer, self),
            (BoundaryRead::Holds(known), None) => after_read(*known, cached, self),
            _ => unreachable!(),
        };
        taken(self, step)
    }
}
