//! Objects that a client of a store views: what each can do.
ghost use Rattle.std.specs.Fn.{FnReturnsAt};
ghost use Rattle.txn_store.specs.types.Clones.{IsExactClone};
ghost use Rattle.txnobj.specs.Retrying.{Applies};

use crate::error::Error;
use crate::protocol::TransactionalStorageProtocol;
use txn_store::types::callback::CallbackFault;
use txn_store::types::dirty::DirtyObject;
use txn_store::types::id::MonotonicId;

/// What a mutator asks for, of an object.
fn asked<O, D, F: Fn(&O) -> Result<Option<D>, CallbackFault>>(
    mutator: &F,
    object: &O,
) -> Result<Option<D>, CallbackFault>
    requires { F.IsAlwaysCallable mutator.now }
    ensures { FnReturnsAt F.Fn mutator.now object.now result }
{
    mutator(object)
}

/// A version in memory, which is lent the client that it was made by.
pub trait TransactionalObject<T: Clone, P: TransactionalStorageProtocol<T>> {
    ghost use Rattle.std.specs.Prelude.{ℕ, Result};
    ghost use Rattle.std.specs.Fn.{FnReturnsAt};
    ghost use Rattle.txn_store.specs.types.Clones.{IsExactClone};
    ghost use Rattle.txn_store.specs.declared.types.dirty.DirtyObject.{DirtyObject};
    ghost use Rattle.txnobj.specs.declared.error.Error.{Error};
    ghost use Rattle.txnobj.specs.Retrying.{Applies};

    /// What came of a refresh.
    ghost refreshes: { Self → P → Result (Unit {0}) (Error P.Fault) → Self → P → Type 0 };

    /// What came of an update by a candidate.
    ghost updates: { Self → P → DirtyObject T ℕ → Result (Unit {0}) (Error P.Fault) → Self → P → Type 0 };

    /// Moves to the newest version.
    ///
    /// # Errors
    ///
    /// `Fenced` for a holder, where the newest version has a greater epoch; `LatestRecordMissing` where none is stored;
    /// `CallbackError` where the codec refuses the bytes of the version; `InvalidObjectState` where the boundary file says no
    /// number; `ObjectStoreError` with the store's fault; `NotPermitted` for a view that the client let go; `TurnsExhausted`,
    /// `Unrecorded`, `NoMemory`, and the client's end before. After each it is as it was.
    fn refresh(&mut self, protocol: &mut P) -> Result<(), Error<P::Fault>>
        requires { IsExactClone T.is_clone }
        ensures { refreshes self.old protocol.old result self.new protocol.new };

    /// Writes the candidate directly on the version that it is at, and moves to what was written.
    ///
    /// # Errors
    ///
    /// - `ObjectVersionExists` where a newer version stands, or the candidate is of another version: refresh, make another
    ///   candidate, and try again.
    /// - `CallbackError` of an invariant that fails, `Fenced` and `InvalidObjectState` for a holder's candidate of another
    ///   epoch, `IdExhausted`, and `NotPermitted`. Nothing is written.
    /// - `InvalidObjectState` where the boundary file says no number, `ObjectStoreError` with the store's fault,
    ///   `TurnsExhausted`, `Unrecorded` and `NoMemory`. The value may have been written, or may be yet.
    /// - The client's end before, which makes no store call.
    ///
    /// After each it is as it was.
    fn update(
        &mut self,
        protocol: &mut P,
        dirty: DirtyObject<T, MonotonicId>,
    ) -> Result<(), Error<P::Fault>>
        requires { IsExactClone T.is_clone }
        ensures { updates self.old protocol.old dirty result self.new protocol.new };

    /// Asks the mutator for a candidate made of the object, and updates by it. After a conflict it refreshes, and asks once
    /// more, of what the refresh gave, so that no old candidate is tried again. Nothing asked for is Ok.
    ///
    /// # Errors
    ///
    /// `CallbackError` or `NoMemory` by which the mutator refused, which makes no call; `TurnsExhausted` where each attempt was
    /// a conflict; and those of `update` but for a conflict, and those of `refresh`. It is then at the version that it was at,
    /// or at the one that the last refresh read.
    final fn maybe_apply_update<
        F: Fn(&Self) -> Result<Option<DirtyObject<T, MonotonicId>>, CallbackFault>,
    >(&mut self, protocol: &mut P, mutator: &F) -> Result<(), Error<P::Fault>>
        requires exact { IsExactClone T.is_clone }
        requires callable { F.IsAlwaysCallable mutator.now }
        ensures { Applies (λ object answer. FnReturnsAt F.Fn mutator.now object answer) refreshes updates (P.most protocol.old) self.old protocol.old result self.new protocol.new }
    {
        for _attempt in 0..protocol.attempts() {
            let dirty = match asked(mutator, self) {
                Ok(Some(dirty)) => dirty,
                Ok(None) => return Ok(()),
                Err(fault) => return Err(Error::from(fault)),
            };
            match self.update(protocol, dirty) {
                Err(error) if error.is_sequenced_write_conflict() => {
                    self.refresh(protocol)?;
                }
                Err(error) => return Err(error),
                Ok(()) => return Ok(()),
            }
        }
        Err(Error::TurnsExhausted)
    }
}
