//! What happened so far, moment by moment.

ghost use Rattle.std.specs.Prelude.{◌≡◌, ◌+◌, [], ◌∷◌, ◌++◌, length, OnOk, is_ok, if◌then◌else◌};
ghost use Rattle.txn_drawing_moments.specs.Numbers.{IsNumbered, LeavesLast};

use crate::moment::Moment;
use std::alloc::{AllocError, Global};
use std::marker::Model;

/// Moments that are numbered from 1, in their order. Contracts see the list of them.
#[derive(Drop)]
pub struct Moments {
    moments: Vec<Moment>,
}

impl Model for Moments {
    ghost use Rattle.std.specs.Prelude.{List};
    ghost use Rattle.txn_drawing_moments.specs.Numbers.{IsNumbered};
    ghost use Rattle.txn_drawing_moments.specs.declared.moment.Moment.{Moment};

    ghost Value = { List Moment };

    ghost view = { λ it. it.moments.items };

    ghost invariant = { λ it. IsNumbered it.moments.items };
}

impl Moments {
    /// There are none yet.
    pub fn new(alloc: Global) -> Moments
        ensures { result ≡ [] }
    {
        Moments {
            moments: Vec::new(alloc),
        }
    }

    /// The number of the moment that comes next.
    pub fn next(&self) -> u64
        ensures { result ≡ length self.now + 1 }
    {
        self.moments.len() as u64 + 1
    }

    /// Adds the moment that comes next.
    ///
    /// # Errors
    ///
    /// Want of memory alone. The moments are as they were.
    pub fn push(&mut self, moment: Moment) -> Result<(), AllocError>
        requires { moment.number ≡ length self.old + 1 }
        ensures { self.new ≡ (if is_ok result then self.old ++ moment ∷ [] else self.old) }
    {
        self.moments.push(moment)?;
        Ok(())
    }

    /// The last moment leaves one more request in flight, of this number.
    ///
    /// # Errors
    ///
    /// Want of memory alone. The moments are as they were.
    pub fn leave(&mut self, number: u64) -> Result<(), AllocError>
        ensures many { length self.new ≡ length self.old }
        ensures left { OnOk result (LeavesLast self.old self.new number) }
    {
        match self.moments.last_mut() {
            Some(moment) => {
                moment.left.push(number)?;
                Ok(())
            }
            None => Ok(()),
        }
    }

    /// The moments.
    pub fn as_slice(&self) -> &[Moment]
        ensures all { result.now ≡ self.now }
        ensures numbered { IsNumbered result.now }
    {
        self.moments.as_slice()
    }

    /// The moments, to keep.
    pub fn into_vec(self) -> Vec<Moment>
        ensures all { result.items ≡ self }
        ensures numbered { IsNumbered result.items }
    {
        let Moments { moments } = self;
        moments
    }
}
