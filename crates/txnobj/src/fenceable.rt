//! The fenced holder: an object whose versions have the holder's epoch.
ghost use Rattle.std.specs.Prelude.{◌≡◌, ◌↔◌, None, Some, true, IfOk, IsTrue, MatchBool};
ghost use Rattle.txn_store.specs.types.Clones.{IsExactClone};
ghost use Rattle.txnobj.specs.Objects.{update_of, Updates};
ghost use Rattle.txnobj.specs.Claims.{claim_of, InTime, Late, LoadsView, Claims, ClaimEnds};

use crate::answers::Held;
use crate::error::Error;
use crate::object::TransactionalObject;
use crate::protocol::{TransactionalStorageProtocol, held, viewed};
use crate::simple::SimpleTransactionalObject;
use slatedb_txn_obj::clock::{Deadline, SystemClock};
use std::alloc::AllocError;
use txn_history::event::ViewCall;
use txn_store::types::dirty::DirtyObject;
use txn_store::types::id::MonotonicId;
use txn_store::types::invariant::Invariant;

/// An object that its holder has claimed: the epoch of each version that it writes is its own, and a greater one shuts it out.
#[derive(Debug, Drop)]
pub struct FenceableTransactionalObject<T, I> {
    delegate: SimpleTransactionalObject<T, I>,
    local_epoch: u64,
}

impl<T: Clone, I: Drop> FenceableTransactionalObject<T, I> {
    /// Claims the object: its newest version is written once more straight on itself, with the next epoch in it, and the holder
    /// is at that. The invariants are not tested, since the epoch alone changes. The clock is read at the start and before each
    /// attempt; the timeout is in milliseconds. A claim that was not answered within its looks and store calls is tried again,
    /// on the newest version.
    ///
    /// # Errors
    ///
    /// `ObjectUpdateTimeout` where the clock reads the start plus the timeout or later; `TurnsExhausted` where no attempt was
    /// answered; `IdExhausted` where the epoch or the id is the greatest; `InvalidObjectState` where the boundary file says no
    /// number; `CallbackError` where the codec refuses the bytes of the newest version; `ObjectStoreError` with the store's
    /// fault; `Unrecorded`, `NoMemory`, and the client's end before. After each the delegate is gone, and the client keeps no
    /// view of it; a version that was to be written may stand.
    pub fn init<P: TransactionalStorageProtocol<T>, K: SystemClock>(
        delegate: SimpleTransactionalObject<T, I>,
        protocol: &mut P,
        object_update_timeout: u64,
        system_clock: &mut K,
    ) -> Result<FenceableTransactionalObject<T, I>, Error<P::Fault>>
        requires { IsExactClone T.is_clone }
        ensures { ClaimEnds P.made P.stopped P.tells P.lets_go None object_update_timeout (P.most protocol.old) delegate protocol.old (K.readings system_clock.old) result protocol.new (K.readings system_clock.new) }
    {
        let view = delegate.view;
        let held = claim(view, protocol, object_update_timeout, system_clock, None)?;
        Ok(holder(delegate, held))
    }

    /// The same with this epoch in place of the next one.
    ///
    /// # Errors
    ///
    /// `Fenced` where the newest version has an epoch of at least this: that attempt writes nothing. The others are those of
    /// `init`, and leave the same.
    pub fn init_with_epoch<P: TransactionalStorageProtocol<T>, K: SystemClock>(
        delegate: SimpleTransactionalObject<T, I>,
        protocol: &mut P,
        object_update_timeout: u64,
        system_clock: &mut K,
        epoch: u64,
    ) -> Result<FenceableTransactionalObject<T, I>, Error<P::Fault>>
        requires { IsExactClone T.is_clone }
        ensures { ClaimEnds P.made P.stopped P.tells P.lets_go (Some epoch) object_update_timeout (P.most protocol.old) delegate protocol.old (K.readings system_clock.old) result protocol.new (K.readings system_clock.new) }
    {
        let view = delegate.view;
        let held = claim(
            view,
            protocol,
            object_update_timeout,
            system_clock,
            Some(epoch),
        )?;
        Ok(holder(delegate, held))
    }

    /// Gives the object up: the client lets its view go. Its epoch stands until a greater one is claimed.
    pub fn close<P: TransactionalStorageProtocol<T>>(self, protocol: &mut P)
    where
        T: Drop,
        I: Drop,
        ensures { P.lets_go protocol.old self.delegate.view protocol.new }
    {
        self.delegate.close(protocol);
    }

    /// The epoch of its claim.
    pub fn local_epoch(&self) -> u64
        ensures { result ≡ self.now.local_epoch }
    {
        self.local_epoch
    }

    /// The id of the version that it is at.
    pub fn id(&self) -> MonotonicId
        ensures { result ≡ self.now.delegate.id }
    {
        self.delegate.id()
    }

    /// The value of that version.
    pub fn object(&self) -> &T
        ensures { result.now ≡ self.now.delegate.object }
    {
        self.delegate.object()
    }

    /// A candidate for the next version: a copy of the value, with the id.
    ///
    /// # Errors
    ///
    /// Want of memory alone, which changes nothing.
    pub fn prepare_dirty(&self) -> Result<DirtyObject<T, MonotonicId>, AllocError>
        requires { IsExactClone T.is_clone }
        ensures { IfOk result (λ dirty. (dirty.id ≡ self.now.delegate.id) × (dirty.value ≡ self.now.delegate.object)) }
    {
        self.delegate.prepare_dirty()
    }
}

/// The claim of a view, at an epoch where one is asked for.
fn claim_call<T>(view: u64, asked: Option<u64>) -> ViewCall<T>
    ensures { result ≡ claim_of view asked }
{
    match asked {
        None => ViewCall::Claim(view),
        Some(epoch) => ViewCall::ClaimAt(view, epoch),
    }
}

/// The holder of what a claim gave.
fn holder<T: Drop, I>(
    delegate: SimpleTransactionalObject<T, I>,
    held: Held<T>,
) -> FenceableTransactionalObject<T, I>
    ensures { result ≡ record { delegate = record delegate { view = held.view; id = held.id; object = held.value }; local_epoch = held.epoch } }
{
    FenceableTransactionalObject {
        delegate: SimpleTransactionalObject {
            view: held.view,
            id: held.id,
            object: held.value,
            invariants: delegate.invariants,
        },
        local_epoch: held.epoch,
    }
}

/// Claims a view, and where that is not answered within its looks and store calls the newest version in another. A claim ends
/// the view that it is of, and one that is not made lets it go.
fn claim<T: Clone, P: TransactionalStorageProtocol<T>, K: SystemClock>(
    view: u64,
    protocol: &mut P,
    timeout: u64,
    clock: &mut K,
    asked: Option<u64>,
) -> Result<Held<T>, Error<P::Fault>>
    requires { IsExactClone T.is_clone }
    ensures { Claims P.made P.stopped P.tells P.lets_go asked timeout (P.most protocol.old) view protocol.old (K.readings clock.old) result protocol.new (K.readings clock.new) }
{
    let deadline = Deadline::starting(clock, timeout);
    let mut view = view;
    for _attempt in 0..protocol.attempts() {
        if !is_in_time(&deadline, clock) {
            protocol.end_view(view);
            return Err(Error::ObjectUpdateTimeout { timeout });
        }
        match held(protocol, claim_call(view, asked)) {
            Err(error) if is_spent(&error) => {}
            Err(error) => return Err(error),
            Ok(held) => return Ok(held),
        }
        view = newest_view(protocol)?;
    }
    protocol.end_view(view);
    Err(Error::TurnsExhausted)
}

/// Whether an error says that a call was not answered within its steps.
fn is_spent<F>(error: &Error<F>) -> bool
    ensures { IsTrue result ↔ (error.now ≡ Error.TurnsExhausted) }
{
    matches!(error, Error::TurnsExhausted)
}

/// Whether a deadline is not reached yet. It reads the clock.
fn is_in_time<K: SystemClock>(deadline: &Deadline, clock: &mut K) -> bool
    ensures { MatchBool result (InTime deadline.now.start deadline.now.timeout (K.readings clock.old) (K.readings clock.new)) (Late deadline.now.start deadline.now.timeout (K.readings clock.old) (K.readings clock.new)) }
{
    match deadline.check(clock) {
        Ok(()) => true,
        Err(error) => {
            drop(error);
            false
        }
    }
}

/// A new view, of the newest version.
fn newest_view<T: Clone, P: TransactionalStorageProtocol<T>>(
    protocol: &mut P,
) -> Result<u64, Error<P::Fault>>
    requires { IsExactClone T.is_clone }
    ensures { LoadsView P.made P.stopped P.tells protocol.old result protocol.new }
{
    Ok(viewed(protocol, ViewCall::Load)?.view)
}

impl<T: Clone, I: Invariant<T> + Drop, P: TransactionalStorageProtocol<T>> TransactionalObject<T, P>
    for FenceableTransactionalObject<T, I> {
    ghost use Rattle.std.specs.Prelude.{◌≡◌, true};
    ghost use Rattle.txnobj.specs.Objects.{refresh_of, update_of, Refreshes, Updates};

    ghost refreshes = { λ old before result new after. Refreshes P.made P.stopped P.tells (refresh_of true) old.delegate before result new.delegate after × (new.local_epoch ≡ old.local_epoch) };

    ghost updates = { λ old before dirty result new after. Updates I.holds I.fails P.made P.stopped P.tells (update_of true) old.delegate before dirty result new.delegate after × (new.local_epoch ≡ old.local_epoch) };

    /// Where a version has a greater epoch than the holder's it is `Fenced`.
    fn refresh(&mut self, protocol: &mut P) -> Result<(), Error<P::Fault>> {
        self.delegate.refresh_as(protocol, true)
    }

    /// Where a version has a greater epoch than the holder's it is `Fenced`. A candidate with another epoch than the holder's
    /// is `InvalidObjectState`.
    fn update(
        &mut self,
        protocol: &mut P,
        dirty: DirtyObject<T, MonotonicId>,
    ) -> Result<(), Error<P::Fault>>
        requires { IsExactClone T.is_clone }
        ensures { Updates I.holds I.fails P.made P.stopped P.tells (update_of true) self.old.delegate protocol.old dirty result self.new.delegate protocol.new × (self.new.local_epoch ≡ self.old.local_epoch) }
    {
        self.delegate.update_as(protocol, true, dirty)
    }
}
