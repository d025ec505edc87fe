//! A value as often as an answer needs it.
ghost use Rattle.std.specs.Prelude.{◌≡◌, IfOk};
ghost use Rattle.txn_store.specs.types.Clones.{IsExactClone};

use std::alloc::AllocError;
use std::marker::Model;

/// The same value three times: one for the view, one for the record of the answer, one to be told. So nothing is copied
/// where a call is answered. A clause sees the value.
#[derive(Drop)]
pub struct Copies<T> {
    object: T,
    noted: T,
    told: T,
}

impl<T> Model for Copies<T> {
    ghost use Rattle.std.specs.Prelude.{◌≡◌};

    ghost Value = { T };

    ghost view = { λ s. s.object };

    ghost invariant = { λ s. (s.noted ≡ s.object) × (s.told ≡ s.object) };
}

impl<T: Clone> Copies<T> {
    /// Copies of the value. They ask that a clone is the same value.
    ///
    /// # Errors
    ///
    /// Want of memory alone, which changes nothing.
    pub fn of(value: T) -> Result<Copies<T>, AllocError>
        requires { IsExactClone T.is_clone }
        ensures { IfOk result (λ copies. copies ≡ value) }
    {
        let noted = value.clone()?;
        let told = value.clone()?;
        Ok(Copies {
            object: value,
            noted,
            told,
        })
    }
}

impl<T> Copies<T> {
    /// The value, three times. It takes no memory.
    pub fn into_values(self) -> (T, T, T)
        ensures { result ≡ (self, self, self) }
    {
        (self.object, self.noted, self.told)
    }
}
