//! Lists of ids.
ghost use Rattle.std.specs.Prelude.{◌≡◌, IfOk};

use std::alloc::AllocError;
use std::marker::Model;

/// Ids: in ascending order where a listing answers them, which the type does not ask. A clause sees the list.
#[derive(Debug, Drop)]
pub struct Ids {
    ids: Vec<u64>,
}

impl Model for Ids {
    ghost use Rattle.std.specs.Prelude.{ℕ, List};

    ghost Value = { List ℕ };

    ghost view = { λ a. a.ids.items };
}

impl Ids {
    /// These ids, which are to ascend. It takes no memory.
    pub fn from_vec(ids: Vec<u64>) -> Ids
        ensures { result ≡ ids.items }
    {
        Ids { ids }
    }

    /// The ids, lent.
    pub fn as_slice(&self) -> &[u64]
        ensures { result.now ≡ self.now }
    {
        self.ids.as_slice()
    }

    /// The same ids.
    ///
    /// # Errors
    ///
    /// Want of memory alone, which changes nothing.
    pub fn try_clone(&self) -> Result<Ids, AllocError>
        ensures { IfOk result (λ copy. copy ≡ self.now) }
    {
        Ok(Ids {
            ids: self.ids.clone()?,
        })
    }
}
