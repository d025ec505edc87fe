//! Reads of one id, as states.
ghost use Rattle.std.specs.Prelude.{◌≡◌, IfOk, None, Some, Err, unwrap_or};
ghost use Rattle.txn_steps.specs.boundary.Steps.{turned_by_number, lacks_memory, error_in, TellsErrorOf};
ghost use Rattle.txn_steps.specs.boundary.Asking.{asks, reply_told, unless_lacking, IsGot};
ghost use Rattle.txn_steps.specs.boundary.Windows.{held};
ghost use Rattle.txn_steps.specs.Requests.{version_got};
ghost use Rattle.txn_steps.specs.SeenSteps.{or_lacks_memory, unchecked_turned, seen_looked, seen_got, seen_kept, IsKeeping};

use crate::boundary::ask::Ask;
use crate::boundary::caches::Cached;
use crate::boundary::turned::{self, Turned, goes_as, taken};
use crate::boundary::window::Window;
use crate::requests::get_request;
use std::alloc::{AllocError, Global};
use std::mem;
use txn_store::request::{Reply, Request};
use txn_store::store::{Got, StoreError};
use txn_store::types::codec::ObjectCodec;
use txn_store::types::id::MonotonicId;
use txn_store::types::layout::Layout;
use txn_store::types::step_error::StepError;

/// What a read of one id answers: its value, or that there is none.
pub type ValueAnswer<T> = Result<Option<T>, StepError>;

/// An unchecked read of one id: a get of its version.
#[derive(Drop)]
pub struct ReadUncheckedOp {
    /// The get that it asks for.
    pub request: Request,
}

impl ReadUncheckedOp {
    /// A read of the version of this id.
    ///
    /// # Errors
    ///
    /// Want of memory alone, which changes nothing.
    pub fn start<C>(alloc: Global, layout: &Layout<C>, id: MonotonicId) -> Result<Self, AllocError>
        ensures { IfOk result (λ op. op ≡ record { request = version_got layout.now.names id }) }
    {
        let request = get_request(alloc, &layout.names, id)?;
        Ok(ReadUncheckedOp { request })
    }

    /// What it asks for. It takes no memory.
    pub fn ask(&self) -> Ask<'_>
        ensures { asks result ≡ Some self.now.request }
    {
        Ask::Store(&self.request)
    }

    /// Takes the store's reply to its get, and is done: with none where the version is missing, else with its value. Bytes
    /// that the codec refuses are `CallbackError`, a growth that is refused is `NoMemory`, and any other error of the
    /// store is as it becomes.
    pub fn take<T, C: ObjectCodec<T>>(
        &self,
        alloc: Global,
        layout: &Layout<C>,
        reply: Option<Reply>,
    ) -> Turned<ValueAnswer<T>>
        requires { IsGot reply }
        ensures turned { turned_by_number result ≡ or_lacks_memory (lacks_memory (turned_by_number result)) (unchecked_turned (C.decoded layout.now.codec) reply) }
        ensures store_error { TellsErrorOf (reply_told reply) result }
    {
        match reply {
            Some(Reply::Get(Ok(got))) => match layout.codec.decode(alloc, &got.bytes) {
                Ok(value) => Turned::Done(Ok(Some(value))),
                Err(fault) => Turned::Done(Err(StepError::of_fault(alloc, fault))),
            },
            Some(Reply::Get(Err(StoreError::NotFound))) => Turned::Done(Ok(None)),
            Some(Reply::Get(Err(error))) => Turned::Done(Err(error.into())),
            _ => unreachable!(),
        }
    }
}

/// A read of one id that was perhaps seen: the cached version of the id, else a get, whose version is cached. It has at
/// most one call of the store and two looks.
#[derive(Drop)]
pub enum ReadSeenOp<T> {
    /// It looks for the cached version of this id.
    Looks(MonotonicId),
    /// It asks for the version of this id.
    Gets(MonotonicId, Request),
    /// It holds this version, decoded, and looks to cache it.
    Keeps(Cached, T),
    /// It has answered a version that it kept.
    Ended,
}

type Step<T> = turned::Step<ReadSeenOp<T>, Option<T>>;

/// It asks for the version of this id.
fn get<T, C>(
    alloc: Global,
    layout: &Layout<C>,
    id: MonotonicId,
) -> Result<ReadSeenOp<T>, AllocError>
    ensures { IfOk result (λ op. op ≡ ReadSeenOp.Gets id (version_got layout.now.names id)) }
{
    Ok(ReadSeenOp::Gets(id, get_request(alloc, &layout.names, id)?))
}

/// After the first look.
fn after_look<T, C: ObjectCodec<T>>(
    alloc: Global,
    layout: &Layout<C>,
    id: MonotonicId,
    latest: &Window,
    op: &ReadSeenOp<T>,
) -> Step<T>
    ensures turned { (unwrap_or result.0 op.now, turned_by_number result.1) ≡ unless_lacking (lacks_memory (turned_by_number result.1)) op.now (seen_looked layout.now.names (C.decoded layout.now.codec) op.now id (held id latest.now)) }
    ensures store_error { TellsErrorOf None result.1 }
{
    match latest.get(id) {
        None => goes_as(get(alloc, layout, id)),
        Some(cached) => match layout.codec.decode(alloc, &cached.bytes) {
            Ok(value) => (None, Turned::Done(Ok(Some(value)))),
            Err(fault) => (None, Turned::Done(Err(StepError::of_fault(alloc, fault)))),
        },
    }
}

/// After the get.
fn after_get<T: Drop, C: ObjectCodec<T>>(
    alloc: Global,
    layout: &Layout<C>,
    id: MonotonicId,
    answer: Result<Got, StoreError>,
    op: &ReadSeenOp<T>,
) -> Step<T>
    ensures turned { (unwrap_or result.0 op.now, turned_by_number result.1) ≡ unless_lacking (lacks_memory (turned_by_number result.1)) op.now (seen_got layout.now.names (C.decoded layout.now.codec) op.now id answer) }
    ensures store_error { TellsErrorOf (error_in answer) result.1 }
{
    match answer {
        Ok(got) => {
            let bytes = got.bytes;
            match layout.codec.decode(alloc, &bytes) {
                Ok(value) => (
                    Some(ReadSeenOp::Keeps(Cached { id, bytes }, value)),
                    Turned::Goes,
                ),
                Err(fault) => (None, Turned::Done(Err(StepError::of_fault(alloc, fault)))),
            }
        }
        Err(StoreError::NotFound) => (None, Turned::Done(Ok(None))),
        Err(error) => (None, Turned::Done(Err(error.into()))),
    }
}

impl<T: Drop> ReadSeenOp<T> {
    ghost use Rattle.txn_steps.specs.SeenSteps.{seen_asked, seen_turned, seen_latest, IsSeenReply};

    /// A read of the version of this id, which begins with a look. It takes no memory.
    pub fn start(id: MonotonicId) -> ReadSeenOp<T>
        ensures { result ≡ ReadSeenOp.Looks id }
    {
        ReadSeenOp::Looks(id)
    }

    /// What it asks for. It takes no memory.
    pub fn ask(&self) -> Ask<'_>
        ensures { asks result ≡ seen_asked self.now }
    {
        match self {
            ReadSeenOp::Gets(_, request) => Ask::Store(request),
            _ => Ask::Look,
        }
    }

    /// Caches the version that it holds and answers its value. It takes no memory.
    fn keep(&mut self, latest: &mut Window) -> Turned<ValueAnswer<T>>
        requires { IsKeeping self.old }
        ensures turned { (self.new, turned_by_number result) ≡ seen_kept self.old }
        ensures latest { latest.new ≡ seen_latest self.old latest.old }
        ensures store_error { TellsErrorOf None result }
    {
        let ReadSeenOp::Keeps(version, value) = mem::replace(self, ReadSeenOp::Ended) else {
            unreachable!()
        };
        latest.keep(version);
        Turned::Done(Ok(Some(value)))
    }

    /// Takes the store's reply to its get, or none for a look. It answers the value of the cached version of its id, or of
    /// the one that it gets, which it caches, or none where that is missing. Bytes that the codec refuses are
    /// `CallbackError`, and are not cached; a growth that is refused is `NoMemory`, and leaves what was; any other error
    /// of the store is as it becomes.
    pub fn take<C: ObjectCodec<T>>(
        &mut self,
        alloc: Global,
        layout: &Layout<C>,
        latest: &mut Window,
        reply: Option<Reply>,
    ) -> Turned<ValueAnswer<T>>
        requires { IsSeenReply self.old reply }
        ensures turned { (self.new, turned_by_number result) ≡ unless_lacking (lacks_memory (turned_by_number result)) self.old (seen_turned layout.now.names (C.decoded layout.now.codec) self.old latest.old reply) }
        ensures latest { latest.new ≡ seen_latest self.old latest.old }
        ensures store_error { TellsErrorOf (reply_told reply) result }
    {
        if let ReadSeenOp::Keeps(_, _) = self {
            return self.keep(latest);
        }
        let step = match (&*self, reply) {
            (ReadSeenOp::Looks(id), None) => after_look(alloc, layout, *id, latest, self),
            (ReadSeenOp::Gets(id, _), Some(Reply::Get(answer))) => {
                after_get(alloc, layout, *id, answer, self)
            }
            _ => unreachable!(),
        };
        taken(self, step)
    }
}
