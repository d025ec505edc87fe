//! What comes into the world, and what it says of it.
//!
//! A view is a client's copy of a version: the version's id and its value. A claim makes it a holder, which has an epoch
//! of its own. Clients, operations and views are numbered from 1. A call that uses a view is refused its begin
//! where the view is not there, has ended, is another client's, or is of the other kind
//! (`EventFault::UnknownNumber`), and where an operation uses it already (`EventFault::ViewBusy`).
ghost use Rattle.std.specs.Prelude.{◌≡◌, IfOk};
ghost use Rattle.txn_store.specs.types.Clones.{IsExactClone};

use crate::ids::Ids;
use std::alloc::AllocError;
use std::ops::Bound;

/// What a client asks for without a view.
#[derive(Debug, Drop, PartialEq, Eq)]
pub enum PlainCall<T> {
    /// Writes the value directly on the version of this id, or as the first version where there is
    /// no id. Answered [`PlainAnswer::Wrote`].
    Write(Option<u64>, T),
    /// The same, without the check that the new version is above the boundary.
    WriteUnchecked(Option<u64>, T),
    /// Reads the newest version. Answered [`PlainAnswer::Read`].
    Read,
    /// Reads the version of this id. Answered [`PlainAnswer::Value`].
    ReadUnchecked(u64),
    /// The same, from the client's cache where it is there; else what is found is cached.
    ReadSeen(u64),
    /// Lists the ids within the bounds. Answered [`PlainAnswer::Ids`].
    ListIds(Bound<u64>, Bound<u64>),
    /// Removes the version of this id, which is at or below the boundary. Answered [`PlainAnswer::Done`].
    Delete(u64),
    /// Checks that the id is above the boundary. Answered [`PlainAnswer::Done`].
    Check(u64),
    /// Raises the boundary to this id, which is 0 or below an id that some call answered. Answered
    /// [`PlainAnswer::Done`].
    Advance(u64),
}

impl<T: Clone> PlainCall<T> {
    /// A copy.
    ///
    /// # Errors
    ///
    /// Want of memory alone, which changes nothing.
    pub fn try_clone(&self) -> Result<PlainCall<T>, AllocError>
        requires { IsExactClone T.is_clone }
        ensures { IfOk result (λ copy. copy ≡ self.now) }
    {
        Ok(match self {
            PlainCall::Write(base, value) => PlainCall::Write(*base, value.clone()?),
            PlainCall::WriteUnchecked(base, value) => PlainCall::WriteUnchecked(
                *base,
                value.clone()?,
            ),
            PlainCall::Read => PlainCall::Read,
            PlainCall::ReadUnchecked(id) => PlainCall::ReadUnchecked(*id),
            PlainCall::ReadSeen(id) => PlainCall::ReadSeen(*id),
            PlainCall::ListIds(from, to) => PlainCall::ListIds(*from, *to),
            PlainCall::Delete(id) => PlainCall::Delete(*id),
            PlainCall::Check(id) => PlainCall::Check(*id),
            PlainCall::Advance(id) => PlainCall::Advance(*id),
        })
    }
}

/// What a client asks for on a view. Each call is refused with 2, where its store call failed, and with 9, for want of
/// memory; one that writes also with 2, where the store has no token left.
#[derive(Debug, Drop, PartialEq, Eq)]
pub enum ViewCall<T> {
    /// Writes the value as the first version. Answered [`Answer::View`] of a new view; refused with 5, where there is a
    /// version already.
    Init(T),
    /// Reads the newest version. Answered [`Answer::View`] of a new view; refused with 4, where there is none.
    Load,
    /// Reads the newest version into the view of this number. Answered [`Answer::View`].
    Refresh(u64),
    /// Writes the value directly on the version of the view of this number. Its epoch is at least that of the view's
    /// version, else the begin is refused. Answered [`Answer::View`]; refused with 5, where there is a newer version,
    /// and with 10, where no id is left.
    Update(u64, T),
    /// Writes the newest version's value once more, with its epoch one higher, and makes the view of this number a holder
    /// of that epoch. Answered [`Answer::Held`]; refused with 10, where no epoch or no id is left. A claim that is
    /// not held ends its view.
    Claim(u64),
    /// The same with this epoch, its second number. Refused with 6, where a version has an epoch of at least this, and
    /// with 10, where no id is left.
    ClaimAt(u64, u64),
    /// Reads the newest version, which has the holder's epoch, into the holder's view of this number. Answered
    /// [`Answer::View`]; refused with 6, where a version has a greater epoch.
    HolderRefresh(u64),
    /// Writes the value, which has the holder's epoch, directly on the version of the holder's view of this number. Answered
    /// [`Answer::View`]; refused with 5, where there is a newer version, with 6, where a version has a greater epoch,
    /// with 7, where the value has another epoch than the holder, and with 10, where no id is left.
    HolderUpdate(u64, T),
}

impl<T: Clone> ViewCall<T> {
    /// A copy.
    ///
    /// # Errors
    ///
    /// Want of memory alone, which changes nothing.
    pub fn try_clone(&self) -> Result<ViewCall<T>, AllocError>
        requires { IsExactClone T.is_clone }
        ensures { IfOk result (λ copy. copy ≡ self.now) }
    {
        Ok(match self {
            ViewCall::Init(value) => ViewCall::Init(value.clone()?),
            ViewCall::Load => ViewCall::Load,
            ViewCall::Refresh(view) => ViewCall::Refresh(*view),
            ViewCall::Update(view, value) => ViewCall::Update(*view, value.clone()?),
            ViewCall::Claim(view) => ViewCall::Claim(*view),
            ViewCall::ClaimAt(view, epoch) => ViewCall::ClaimAt(*view, *epoch),
            ViewCall::HolderRefresh(view) => ViewCall::HolderRefresh(*view),
            ViewCall::HolderUpdate(view, value) => ViewCall::HolderUpdate(*view, value.clone()?),
        })
    }
}

/// How a plain call ends, and how any call is refused.
#[derive(Debug, Drop)]
pub enum PlainAnswer<T> {
    /// The value is the version of this id; of an unchecked write, it created the name of this id.
    Wrote(u64),
    /// The id and the value of the newest version, or that there is none.
    Read(Option<(u64, T)>),
    /// The value of a version, or that there is none.
    Value(Option<T>),
    /// Ids, ascending.
    Ids(Ids),
    /// The check, the advance or the delete is done.
    Done,
    /// Refused, for the reason of this number.
    Refused(u8),
}

/// What a client asks for.
#[derive(Debug, Drop, PartialEq, Eq)]
pub enum Call<T> {
    /// A call without a view.
    Plain(PlainCall<T>),
    /// A call that makes a view, or uses one.
    View(ViewCall<T>),
}

impl<T: Clone> Call<T> {
    /// A copy.
    ///
    /// # Errors
    ///
    /// Want of memory alone, which changes nothing.
    pub fn try_clone(&self) -> Result<Call<T>, AllocError>
        requires { IsExactClone T.is_clone }
        ensures { IfOk result (λ copy. copy ≡ self.now) }
    {
        Ok(match self {
            Call::Plain(call) => Call::Plain(call.try_clone()?),
            Call::View(call) => Call::View(call.try_clone()?),
        })
    }
}

/// How a call ends.
#[derive(Debug, Drop)]
pub enum Answer<T> {
    /// What a call without a view answers, and the refusal of any call.
    Plain(PlainAnswer<T>),
    /// The view of this number is at the version of this id, with this value.
    View(u64, u64, T),
    /// The view of this number is at the version of this id, with this value, as the holder of this epoch.
    Held(u64, u64, T, u64),
}

/// How a store call fails.
#[derive(Clone, Copy, Debug, PartialEq, Eq)]
pub enum Failure {
    /// Without its effect.
    Before,
    /// After its effect.
    After,
    /// A put or a delete becomes loose; anything else is without effect.
    Loose,
}

/// One step of a world whose clients make calls of this type. Clients, operations and loose requests are
/// numbered from 1.
#[derive(Debug, Drop, PartialEq, Eq)]
pub enum EventOf<C> {
    /// The client begins the call. It becomes the operation of the next number.
    Begin(u64, C),
    /// The operation looks at its client's caches.
    Look(u64),
    /// The store serves what the operation asks for, and the operation takes the reply.
    Serve(u64),
    /// The operation is told that its store call failed.
    Fail(u64, Failure),
    /// The operation ends without an answer. A put or a delete that it asked for becomes loose.
    GiveUp(u64),
    /// A loose request reaches the store. It may do so again later.
    Land(u64),
    /// The client gives up all its operations and loses its caches, and its views end where it has any.
    Crash(u64),
}

/// One step of a world whose clients make [`Call`]s.
pub type Event<T> = EventOf<Call<T>>;

impl<T: Clone> EventOf<Call<T>> {
    /// A copy.
    ///
    /// # Errors
    ///
    /// Want of memory alone, which changes nothing.
    pub fn try_clone(&self) -> Result<Event<T>, AllocError>
        requires { IsExactClone T.is_clone }
        ensures { IfOk result (λ copy. copy ≡ self.now) }
    {
        Ok(match self {
            Event::Begin(client, call) => Event::Begin(*client, call.try_clone()?),
            Event::Look(op) => Event::Look(*op),
            Event::Serve(op) => Event::Serve(*op),
            Event::Fail(op, failure) => Event::Fail(*op, *failure),
            Event::GiveUp(op) => Event::GiveUp(*op),
            Event::Land(k) => Event::Land(*k),
            Event::Crash(client) => Event::Crash(*client),
        })
    }
}

/// What a taken event tells, where answers are of this type.
#[derive(Debug, Drop)]
pub enum ToldOf<A> {
    /// The operation of this number began.
    Began(u64),
    /// The operation goes on.
    Went(u64),
    /// The operation was answered, and has ended.
    Answered(u64, A),
    /// The operation was given up, and has ended.
    GaveUp(u64),
    /// The loose request of this number reached the store, and whether it changed the store.
    Landed(u64, bool),
    /// The client crashed.
    Crashed(u64),
}

/// What a taken event of [`Call`]s tells.
pub type Told<T> = ToldOf<Answer<T>>;

/// Why an event is refused. A refused event changes nothing.
#[derive(Clone, Copy, Debug, PartialEq, Eq)]
pub enum EventFault {
    /// A client, an operation, a loose request or a view that is not there; an operation or a view that has ended; a view
    /// that is another client's, or is a holder's where the call is not, or is no holder's where the call is.
    UnknownNumber = 1,
    /// The operation asks for something else.
    NotAsked = 2,
    /// A base that no call answered.
    UnknownBase = 3,
    /// A boundary to advance to that is neither 0 nor below an id that some call answered.
    BoundaryTooHigh = 4,
    /// A value whose epoch is below that of its base's entry.
    EpochLowered = 5,
    /// A view that an operation uses already.
    ViewBusy = 6,
    /// A growth was refused before the event took effect.
    NoMemory = 7,
}

impl EventFault {
    ghost use Rattle.std.specs.Prelude.{◌≡◌};
    ghost use Rattle.txn_history.specs.Allowed.{fault_number};

    /// The number that names the fault, 1 to 7.
    pub fn number(&self) -> u8
        ensures { result ≡ fault_number self.now }
    {
        *self as u8
    }
}
