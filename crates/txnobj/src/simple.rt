//! The simple object: a version of a value, with invariants on what may follow it.
ghost use Rattle.std.specs.Prelude.{◌≡◌, [], false, Some, Ok, Err, IfOk, OnErr, Result};
ghost use Rattle.txn_store.specs.types.Clones.{IsExactClone};
ghost use Rattle.txn_history.specs.declared.event.ViewCall.TheVariants as view_calls;
ghost use Rattle.txnobj.specs.Objects.{refresh_of, update_of, Begins, TriesToLoad, Refreshes, Updates};

use crate::answers::Viewed;
use crate::error::Error;
use crate::object::TransactionalObject;
use crate::protocol::{TransactionalStorageProtocol, viewed};
use slatedb_txn_obj::simple::test_all;
use std::alloc::{AllocError, Global};
use txn_history::event::ViewCall;
use txn_store::types::dirty::DirtyObject;
use txn_store::types::id::MonotonicId;
use txn_store::types::invariant::Invariant;

/// A version of a value, in a view of a client, with the invariants that each update keeps. Each call is lent the client that
/// it was made by.
#[derive(Debug, Drop)]
pub struct SimpleTransactionalObject<T, I> {
    pub(crate) view: u64,
    pub(crate) id: u64,
    pub(crate) object: T,
    pub(crate) invariants: Vec<I>,
}

/// An object as a call gave it.
fn object_of<T, I>(alloc: Global, viewed: Viewed<T>) -> SimpleTransactionalObject<T, I>
    ensures { (result.view ≡ viewed.view) × (result.id ≡ viewed.id) × (result.object ≡ viewed.value) × (result.invariants.items ≡ []) }
{
    SimpleTransactionalObject {
        view: viewed.view,
        id: viewed.id,
        object: viewed.value,
        invariants: Vec::new(alloc),
    }
}

impl<T: Clone, I> SimpleTransactionalObject<T, I> {
    /// Writes the first version, and is at it, without invariants.
    ///
    /// # Errors
    ///
    /// `ObjectVersionExists` where one is stored, or the boundary has reached it; those of a write. After `ObjectStoreError`,
    /// `TurnsExhausted`, `Unrecorded` and `NoMemory` the version may have been written, or may be yet.
    pub fn init<P: TransactionalStorageProtocol<T>>(
        alloc: Global,
        protocol: &mut P,
        value: T,
    ) -> Result<SimpleTransactionalObject<T, I>, Error<P::Fault>>
        requires { IsExactClone T.is_clone }
        ensures { Begins P.made P.stopped P.tells (view_calls.Init value) protocol.old result protocol.new }
    {
        let viewed = viewed(protocol, ViewCall::Init(value))?;
        Ok(object_of(alloc, viewed))
    }

    /// Reads the newest version and is at it, without invariants.
    ///
    /// # Errors
    ///
    /// `LatestRecordMissing` where none is stored, and those of a read. The store is as it was.
    pub fn load<P: TransactionalStorageProtocol<T>>(
        alloc: Global,
        protocol: &mut P,
    ) -> Result<SimpleTransactionalObject<T, I>, Error<P::Fault>>
        requires { IsExactClone T.is_clone }
        ensures { Begins P.made P.stopped P.tells view_calls.Load protocol.old result protocol.new }
    {
        let viewed = viewed(protocol, ViewCall::Load)?;
        Ok(object_of(alloc, viewed))
    }

    /// The same, or nothing where none is stored.
    ///
    /// # Errors
    ///
    /// Those of a read. The store is as it was.
    pub fn try_load<P: TransactionalStorageProtocol<T>>(
        alloc: Global,
        protocol: &mut P,
    ) -> Result<Option<SimpleTransactionalObject<T, I>>, Error<P::Fault>>
        requires { IsExactClone T.is_clone }
        ensures { TriesToLoad P.made P.stopped P.tells protocol.old result protocol.new }
    {
        match SimpleTransactionalObject::load(alloc, protocol) {
            Ok(object) => Ok(Some(object)),
            Err(Error::LatestRecordMissing) => Ok(None),
            Err(error) => Err(error),
        }
    }

    /// The same with these invariants, in place of those that it had. It takes no memory.
    pub fn with_invariants(mut self, invariants: Vec<I>) -> SimpleTransactionalObject<T, I>
    where
        I: Drop,
        ensures { result ≡ record self { invariants = invariants } }
    {
        self.invariants = invariants;
        self
    }

    /// Gives the object up: the client lets its view go, and keeps nothing of it. One that is dropped in another way stays in the
    /// memory of its client as long as that lives.
    pub fn close<P: TransactionalStorageProtocol<T>>(self, protocol: &mut P)
    where
        T: Drop,
        I: Drop,
        ensures { P.lets_go protocol.old self.view protocol.new }
    {
        protocol.end_view(self.view);
    }

    /// The id of the version that it is at.
    pub fn id(&self) -> MonotonicId
        ensures { result ≡ self.now.id }
    {
        MonotonicId::new(self.id)
    }

    /// The value of that version.
    pub fn object(&self) -> &T
        ensures { result.now ≡ self.now.object }
    {
        &self.object
    }

    /// A candidate for the next version: a copy of the value, with the id.
    ///
    /// # Errors
    ///
    /// Want of memory alone, which changes nothing.
    pub fn prepare_dirty(&self) -> Result<DirtyObject<T, MonotonicId>, AllocError>
        requires { IsExactClone T.is_clone }
        ensures { IfOk result (λ dirty. (dirty.id ≡ self.now.id) × (dirty.value ≡ self.now.object)) }
    {
        let value = self.object.clone()?;
        Ok(DirtyObject {
            id: self.id(),
            value,
        })
    }

    /// Moves to what a call gave.
    fn move_to(&mut self, viewed: Viewed<T>)
        ensures { self.new ≡ record self.old { view = viewed.view; id = viewed.id; object = viewed.value } }
    {
        let Viewed { view, id, value } = viewed;
        self.view = view;
        self.id = id;
        self.object = value;
    }

    /// Moves to the newest version, as a holder or not.
    pub(crate) fn refresh_as<P: TransactionalStorageProtocol<T>>(
        &mut self,
        protocol: &mut P,
        holds: bool,
    ) -> Result<(), Error<P::Fault>>
        requires { IsExactClone T.is_clone }
        ensures { Refreshes P.made P.stopped P.tells (refresh_of holds) self.old protocol.old result self.new protocol.new }
    {
        let viewed = viewed(protocol, refresh_call(holds, self.view))?;
        self.move_to(viewed);
        Ok(())
    }
}

/// The refresh of a view, by its holder or not.
fn refresh_call<T>(holds: bool, view: u64) -> ViewCall<T>
    ensures { result ≡ refresh_of holds view }
{
    if holds {
        ViewCall::HolderRefresh(view)
    } else {
        ViewCall::Refresh(view)
    }
}

/// The update of a view, by its holder or not.
fn update_call<T>(holds: bool, view: u64, value: T) -> ViewCall<T>
    ensures { result ≡ update_of holds view value }
{
    if holds {
        ViewCall::HolderUpdate(view, value)
    } else {
        ViewCall::Update(view, value)
    }
}

impl<T: Clone, I: Invariant<T> + Drop> SimpleTransactionalObject<T, I> {
    /// Writes the candidate directly on the version that it is at, as a holder or not.
    pub(crate) fn update_as<P: TransactionalStorageProtocol<T>>(
        &mut self,
        protocol: &mut P,
        holds: bool,
        dirty: DirtyObject<T, MonotonicId>,
    ) -> Result<(), Error<P::Fault>>
        requires { IsExactClone T.is_clone }
        ensures { Updates I.holds I.fails P.made P.stopped P.tells (update_of holds) self.old protocol.old dirty result self.new protocol.new }
    {
        if !dirty.id.is(self.id) {
            return Err(Error::ObjectVersionExists);
        }
        test_all(self.invariants.as_slice(), &dirty.value, &self.object)?;
        let viewed = viewed(protocol, update_call(holds, self.view, dirty.value))?;
        self.move_to(viewed);
        Ok(())
    }
}

impl<T: Clone, I: Invariant<T> + Drop, P: TransactionalStorageProtocol<T>> TransactionalObject<T, P>
    for SimpleTransactionalObject<T, I> {
    ghost use Rattle.std.specs.Prelude.{false};
    ghost use Rattle.txnobj.specs.Objects.{refresh_of, update_of, Refreshes, Updates};

    ghost refreshes = { λ old before result new after. Refreshes P.made P.stopped P.tells (refresh_of false) old before result new after };

    ghost updates = { λ old before dirty result new after. Updates I.holds I.fails P.made P.stopped P.tells (update_of false) old before dirty result new after };

    fn refresh(&mut self, protocol: &mut P) -> Result<(), Error<P::Fault>> {
        self.refresh_as(protocol, false)
    }

    fn update(
        &mut self,
        protocol: &mut P,
        dirty: DirtyObject<T, MonotonicId>,
    ) -> Result<(), Error<P::Fault>>
        requires { IsExactClone T.is_clone }
        ensures { Updates I.holds I.fails P.made P.stopped P.tells (update_of false) self.old protocol.old dirty result self.new protocol.new }
    {
        self.update_as(protocol, false, dirty)
    }
}
