//! What an object asks of a client of its store, and what a program asks of it without an object.
ghost use Rattle.std.specs.Prelude.{◌≡◌, ◌<◌, ℕ, List, Result, Ok};
ghost use Rattle.txn_history.specs.declared.event.Call.TheVariants as calls;
ghost use Rattle.txn_store.specs.types.Clones.{IsExactClone};
ghost use Rattle.txnobj.specs.Answers.{view_in, held_in};
ghost use Rattle.txnobj.specs.Errors.{IsRefusal};
ghost use Rattle.txnobj.specs.Calls.{IsErrorOf, Ends};
ghost use Rattle.txnobj.specs.Collecting.{end_of, below, DeletesBelow};

use crate::answers::{
    Held, Viewed, done_in, held_in, ids_in, read_in, value_in, view_in, wrote_in,
};
use crate::clients::stop::Stop;
use crate::error::Error;
use anyhow::anyhow;
use std::ops::Bound;
use txn_history::event::{Answer, Call, PlainAnswer, PlainCall, ViewCall};
use txn_history::ids::Ids;
use txn_store::types::id::MonotonicId;

/// A client of one object's store.
///
/// Clauses see which of the client's calls a call here made, and how it was answered. What a call asks of the store, and
/// what it leaves there, the client's call says.
pub trait TransactionalStorageProtocol<T: Clone> {
    ghost use Rattle.std.specs.Prelude.{ℕ, Option, Result, None, Some, ◌≡◌, IfOk, IfErr};
    ghost use Rattle.std.specs.declared.ops.Bound.TheVariants.{Unbounded};
    ghost use Rattle.txn_store.specs.types.Clones.{IsExactClone};
    ghost use Rattle.txn_history.specs.declared.event.PlainCall.TheVariants as plain_calls;
    ghost use Rattle.txn_history.specs.declared.event.Call.TheVariants as calls;
    ghost use Rattle.txn_history.specs.declared.event.Call.{Call};
    ghost use Rattle.txn_history.specs.declared.event.Answer.{Answer};
    ghost use Rattle.txnobj.specs.declared.clients.stop.Stop.{Stop};
    ghost use Rattle.txnobj.specs.Answers.{read_in, wrote_in, value_in, ids_in, done_in};
    ghost use Rattle.txnobj.specs.Calls.{Ends};
    ghost use Rattle.txnobj.specs.Collecting.{Collects};

    /// Why a store call failed.
    type Fault: Drop;

    /// It made this call, which was answered so.
    ghost made: { Self → Call T → Answer T → Self → Type 0 };

    /// This call of it has no answer, for this reason.
    ghost stopped: { Self → Call T → Stop → Self → Type 0 };

    /// An error that says that its store failed tells this fault.
    ghost tells: { Self → Option Self.Fault → Type 0 };

    /// How often an update or a claim is tried.
    ghost most: { Self → ℕ };

    /// It let the view of this number go, and nothing else happened.
    ghost lets_go: { Self → ℕ → Self → Type 0 };

    /// Lets a view go, where it has one of this number. It is no call.
    fn end_view(&mut self, view: u64)
        ensures { lets_go self.old view self.new };

    /// Makes a call.
    ///
    /// # Errors
    ///
    /// A call that the client does not permit, which makes none of the store; one that is not answered within its looks and
    /// store calls, whose write may still reach the store; a failure of the recorder and want of memory, after which the client
    /// makes no further call; and a client that has ended so before.
    fn call(&mut self, call: Call<T>) -> Result<Answer<T>, Stop>
        requires { IsExactClone T.is_clone }
        ensures ok { IfOk result (λ answer. made self.old call answer self.new) }
        ensures err { IfErr result (λ stop. stopped self.old call stop self.new) };

    /// Why the last store call failed, where it did, and memory is there for a copy.
    fn fault(&self) -> Option<Self::Fault>
        ensures { tells self.now result };

    /// How often an update or a claim is tried.
    fn attempts(&self) -> u64
        ensures { result ≡ most self.now };

    /// Writes the value directly on the version of this id, or as the first version where there is no id: its id.
    ///
    /// # Errors
    ///
    /// - `ObjectVersionExists` where a newer version stands, or the boundary has reached the id. No version is lost.
    /// - `IdExhausted` where the base is the greatest id, and `NotPermitted` for a base that no call of this client answered,
    ///   or an epoch below that of the base. Nothing is written.
    /// - `InvalidObjectState` where the boundary file says no number, `ObjectStoreError` with the store's fault,
    ///   `TurnsExhausted`, `Unrecorded` and `NoMemory`. The value may have been written, or may be yet.
    /// - The client's end before, which makes no store call.
    final fn write(
        &mut self,
        base: Option<MonotonicId>,
        value: T,
    ) -> Result<MonotonicId, Error<Self::Fault>>
        requires { IsExactClone T.is_clone }
        ensures { Ends made stopped tells wrote_in (calls.Plain (plain_calls.Write base value)) self.old result self.new }
    {
        let answer = self.call(Call::Plain(PlainCall::Write(number_of(base), value)))?;
        match wrote_in(answer) {
            Ok(id) => Ok(id),
            Err(answer) => Err(refusal(self, answer)),
        }
    }

    /// The newest version and its value, or nothing where there is none.
    ///
    /// # Errors
    ///
    /// `CallbackError` where the codec refuses the bytes of the version; `InvalidObjectState` where the boundary file says no
    /// number; `ObjectStoreError` with the store's fault; `TurnsExhausted`, `Unrecorded`, `NoMemory`, and the client's end
    /// before. The store is as it was.
    final fn try_read_latest(&mut self) -> Result<Option<(MonotonicId, T)>, Error<Self::Fault>>
        requires { IsExactClone T.is_clone }
        ensures { Ends made stopped tells read_in (calls.Plain plain_calls.Read) self.old result self.new }
    {
        let answer = self.call(Call::Plain(PlainCall::Read))?;
        match read_in(answer) {
            Ok(found) => Ok(found),
            Err(answer) => Err(refusal(self, answer)),
        }
    }

    /// The value of the version of this id, or nothing where there is none. The boundary is not asked.
    ///
    /// # Errors
    ///
    /// `CallbackError` where the codec refuses the bytes of the version; `ObjectStoreError` with the store's fault;
    /// `TurnsExhausted`, `Unrecorded`, `NoMemory`, and the client's end before. The store is as it was.
    final fn try_read_unchecked(&mut self, id: MonotonicId) -> Result<Option<T>, Error<Self::Fault>>
        requires { IsExactClone T.is_clone }
        ensures { Ends made stopped tells value_in (calls.Plain (plain_calls.ReadUnchecked id)) self.old result self.new }
    {
        let answer = self.call(Call::Plain(PlainCall::ReadUnchecked(id.id())))?;
        match value_in(answer) {
            Ok(value) => Ok(value),
            Err(answer) => Err(refusal(self, answer)),
        }
    }

    /// The ids of the stored versions within the bounds, ascending.
    ///
    /// # Errors
    ///
    /// `ObjectStoreError` with the store's fault; `TurnsExhausted`, `Unrecorded`, `NoMemory`, and the client's end before. The
    /// store is as it was.
    final fn list(&mut self, from: Bound<u64>, to: Bound<u64>) -> Result<Ids, Error<Self::Fault>>
        requires { IsExactClone T.is_clone }
        ensures { Ends made stopped tells ids_in (calls.Plain (plain_calls.ListIds from to)) self.old result self.new }
    {
        let answer = self.call(Call::Plain(PlainCall::ListIds(from, to)))?;
        match ids_in(answer) {
            Ok(ids) => Ok(ids),
            Err(answer) => Err(refusal(self, answer)),
        }
    }

    /// Raises the boundary to this id, and leaves it where it is at or above that.
    ///
    /// # Errors
    ///
    /// - `NotPermitted` where no call of this client answered an id above it. No store call is made.
    /// - `InvalidObjectState` where the boundary file says no number, `ObjectStoreError` with the store's fault,
    ///   `TurnsExhausted`, `Unrecorded` and `NoMemory`. The boundary is as it was or raised, or may be raised yet.
    /// - The client's end before, which makes no store call.
    final fn advance(&mut self, id: MonotonicId) -> Result<(), Error<Self::Fault>>
        requires { IsExactClone T.is_clone }
        ensures { Ends made stopped tells done_in (calls.Plain (plain_calls.Advance id)) self.old result self.new }
    {
        let answer = self.call(Call::Plain(PlainCall::Advance(id.id())))?;
        match done_in(answer) {
            Ok(()) => Ok(()),
            Err(answer) => Err(refusal(self, answer)),
        }
    }

    /// Removes the version of this id, at or below the boundary.
    ///
    /// # Errors
    ///
    /// - `InvalidObjectState` for an id above the boundary, and where the boundary file says no number. Nothing is removed.
    /// - `ObjectStoreError` with the store's fault, `TurnsExhausted`, `Unrecorded` and `NoMemory`. The version may be removed,
    ///   or may be yet.
    /// - The client's end before, which makes no store call.
    final fn delete(&mut self, id: MonotonicId) -> Result<(), Error<Self::Fault>>
        requires { IsExactClone T.is_clone }
        ensures { Ends made stopped tells done_in (calls.Plain (plain_calls.Delete id)) self.old result self.new }
    {
        let answer = self.call(Call::Plain(PlainCall::Delete(id.id())))?;
        match done_in(answer) {
            Ok(()) => Ok(()),
            Err(answer) => Err(refusal(self, answer)),
        }
    }

    /// Raises the boundary to straight below this id, or below the newest version where that is lower, and removes the stored
    /// versions at or below it: how many it removed. It never removes the newest version.
    ///
    /// # Errors
    ///
    /// Those of a read, an advance, a listing and a delete. The boundary may be raised then, and some of those versions may be
    /// removed.
    final fn collect_below(&mut self, id: MonotonicId) -> Result<u64, Error<Self::Fault>>
        requires { IsExactClone T.is_clone }
        ensures { Collects made stopped tells id self.old result self.new }
    {
        let found = self.try_read_latest()?;
        let Some(end) = end_of(id, found) else {
            return Ok(0);
        };
        if end <= 1 {
            return Ok(0);
        }
        let boundary = end - 1;
        self.advance(MonotonicId::new(boundary))?;
        let ids = self.list(Bound::Unbounded, Bound::Included(boundary))?;
        delete_below(self, end, ids.as_slice())
    }
}

/// The number of an id.
fn number_of(id: Option<MonotonicId>) -> Option<u64>
    ensures { result ≡ id }
{
    match id {
        Some(id) => Some(id.id()),
        None => None,
    }
}

/// The error of a refusal.
fn refused<T: Clone, P: TransactionalStorageProtocol<T>>(
    protocol: &P,
    number: u8,
) -> Error<P::Fault>
    ensures { IsRefusal (P.tells protocol.now) number result }
{
    match number {
        2 => Error::ObjectStoreError(protocol.fault()),
        4 => Error::LatestRecordMissing,
        5 => Error::ObjectVersionExists,
        6 => Error::Fenced,
        8 => Error::CallbackError(anyhow!("the codec refuses the bytes of a version")),
        9 => Error::NoMemory,
        10 => Error::IdExhausted,
        11 => Error::TurnsExhausted,
        _ => Error::InvalidObjectState,
    }
}

/// The error of an answer that does not give what its call is for.
fn refusal<T: Clone, P: TransactionalStorageProtocol<T>>(
    protocol: &P,
    answer: Answer<T>,
) -> Error<P::Fault>
    ensures { IsErrorOf (P.tells protocol.now) answer result }
{
    match answer {
        Answer::Plain(PlainAnswer::Refused(number)) => refused(protocol, number),
        _ => Error::InvalidObjectState,
    }
}

/// Makes a call that gives a view.
pub(crate) fn viewed<T: Clone, P: TransactionalStorageProtocol<T>>(
    protocol: &mut P,
    call: ViewCall<T>,
) -> Result<Viewed<T>, Error<P::Fault>>
    requires { IsExactClone T.is_clone }
    ensures { Ends P.made P.stopped P.tells view_in (calls.View call) protocol.old result protocol.new }
{
    let answer = protocol.call(Call::View(call))?;
    match view_in(answer) {
        Ok(viewed) => Ok(viewed),
        Err(answer) => Err(refusal(protocol, answer)),
    }
}

/// Makes a call that gives a holder's view.
pub(crate) fn held<T: Clone, P: TransactionalStorageProtocol<T>>(
    protocol: &mut P,
    call: ViewCall<T>,
) -> Result<Held<T>, Error<P::Fault>>
    requires { IsExactClone T.is_clone }
    ensures { Ends P.made P.stopped P.tells held_in (calls.View call) protocol.old result protocol.new }
{
    let answer = protocol.call(Call::View(call))?;
    match held_in(answer) {
        Ok(held) => Ok(held),
        Err(answer) => Err(refusal(protocol, answer)),
    }
}

/// What is collected is below this end: below this version, and below the newest, where there is one.
fn end_of<T: Drop>(id: MonotonicId, found: Option<(MonotonicId, T)>) -> Option<u64>
    ensures { result ≡ end_of id found }
{
    match found {
        Some((newest, value)) => {
            drop(value);
            Some(id.id().min(newest.id()))
        }
        None => None,
    }
}

/// Removes those of these versions that are below this one: how many these are.
fn delete_below<T: Clone, P: TransactionalStorageProtocol<T>>(
    protocol: &mut P,
    end: u64,
    ids: &[u64],
) -> Result<u64, Error<P::Fault>>
    requires { IsExactClone T.is_clone }
    ensures { DeletesBelow P.made P.stopped P.tells end ids.now protocol.old result protocol.new }
{
    let mut removed: u64 = 0;
    for i in 0..ids.len() {
        let id = ids[i];
        if id < end {
            protocol.delete(MonotonicId::new(id))?;
            removed += 1;
        }
    }
    Ok(removed)
}
