//! What has to hold between a new value and the current one.
ghost use Rattle.std.specs.Prelude.{IfErr, OnOk};
ghost use Rattle.txn_store.specs.types.Callbacks.{OnRefusal};

use crate::types::callback::CallbackFault;

/// A condition on a value that is to be written, and the value that it is written on.
pub trait Invariant<T> {
    ghost use Rattle.std.specs.Prelude.{IfErr, OnOk};
    ghost use Rattle.txn_store.specs.types.Callbacks.{OnRefusal};
    ghost use Rattle.txn_store.specs.declared.types.callback.CallbackFault.{CallbackFault};

    /// It holds between a new value and the current one.
    ghost holds: { Self → T → T → Type 0 };

    /// A test of a new value and the current one may fail with this.
    ghost fails: { Self → T → T → CallbackFault → Type 0 };

    /// Ok only where it holds. `Refused` comes only where it does not, and `NoMemory` only where a growth was refused.
    fn test(&self, dirty: &T, current: &T) -> Result<(), CallbackFault>
        ensures ok { OnOk result (holds self.now dirty.now current.now) }
        ensures failed { IfErr result (fails self.now dirty.now current.now) }
        ensures refused { IfErr result (OnRefusal (holds self.now dirty.now current.now → ⊥)) };
}

/// The invariant that always holds.
#[derive(Clone, Copy, Debug)]
pub struct NoInvariant;

impl<T> Invariant<T> for NoInvariant {
    ghost use Rattle.std.specs.Prelude.{IsOk};

    ghost holds = { λ _ _ _. Unit {0} };

    ghost fails = { λ _ _ _ _. ⊥ };

    /// Ok. It takes no memory.
    fn test(&self, _dirty: &T, _current: &T) -> Result<(), CallbackFault>
        ensures { IsOk result }
    {
        Ok(())
    }
}
