//! The versions that may have stood while a call was made.

use crate::calls::Asked;
use crate::lives::Lives;
use std::alloc::{AllocError, Global};
use std::collections::BTreeMap;

/// A version that a listing did not tell, and whether it told one above it.
pub type Missing = (u64, bool);

/// The versions that may have stood while a call was made, as calls are gone through in the order in which they were asked. Of
/// each a life began before the call's reply was there, and had not ended when the call was asked. What stood at other times
/// came before or after the call by the times alone.
pub struct Standing {
    /// When each life began at the earliest, and its version.
    begins: Vec<(u64, u64)>,
    /// How many of these have begun.
    begun: usize,
    /// By when each life had ended that is known to have ended, and its version.
    ends: Vec<(u64, u64)>,
    /// How many of these have ended.
    ended: usize,
    /// How many lives of each version may stand.
    lives: BTreeMap<u64, u64>,
}

impl Drop for Standing {
    /// Drops all of it: here, so that no function that owns it has to prove how each part is dropped.
    fn drop(self) {
        let Standing {
            begins: _,
            begun: _,
            ends: _,
            ended: _,
            lives: _,
        } = self;
    }
}

impl Standing {
    /// Before the first call.
    ///
    /// # Errors
    ///
    /// Want of memory alone.
    pub fn new(alloc: Global, lives: &Lives) -> Result<Standing, AllocError> {
        let mut standing = Standing {
            begins: Vec::new(alloc),
            begun: 0,
            ends: Vec::new(alloc),
            ended: 0,
            lives: BTreeMap::new(alloc),
        };
        standing.note(lives)?;
        Ok(standing)
    }

    /// Notes when lives began and ended.
    fn note(&mut self, lives: &Lives) -> Result<(), AllocError> {
        for life in lives.lives.as_slice() {
            self.begins.push((life.from, life.id))?;
            if life.removed_until < u64::MAX {
                self.ends.push((life.removed_until, life.id))?;
            }
        }
        self.begins.sort_unstable();
        self.ends.sort_unstable();
        Ok(())
    }

    /// One more life of a version may stand.
    fn begin(&mut self, id: u64) -> Result<(), AllocError> {
        let lives = self.lives.get(&id).copied().unwrap_or(0);
        self.lives.insert(id, lives.saturating_add(1))?;
        Ok(())
    }

    /// One life fewer.
    fn end(&mut self, id: u64) -> Result<(), AllocError> {
        let lives = self.lives.get(&id).copied().unwrap_or(0);
        if lives > 1 {
            self.lives.insert(id, lives.saturating_sub(1))?;
        } else {
            self.lives.remove(&id);
        }
        Ok(())
    }

    /// Lets lives begin that began up to a time.
    fn begin_until(&mut self, until: u64) -> Result<(), AllocError> {
        for place in self.begun..self.begins.len() {
            match self.begins.get(place).copied() {
                Some((at, id)) if at <= until => self.begin(id)?,
                _ => return Ok(()),
            }
            self.begun = place.saturating_add(1);
        }
        Ok(())
    }

    /// Lets lives end that had ended before a time.
    fn end_before(&mut self, from: u64) -> Result<(), AllocError> {
        for place in self.ended..self.ends.len() {
            match self.ends.get(place).copied() {
                Some((at, id)) if at < from => self.end(id)?,
                _ => return Ok(()),
            }
            self.ended = place.saturating_add(1);
        }
        Ok(())
    }

    /// Goes on to a call.
    ///
    /// # Errors
    ///
    /// Want of memory alone. It may have gone on in part, and is of no more use.
    pub fn move_to(&mut self, call: &Asked<'_>) -> Result<(), AllocError> {
        self.begin_until(call.until)?;
        self.end_before(call.from)
    }

    /// The versions that a listing after a version left out, which told these, ascending, and then said whether more follow.
    ///
    /// # Errors
    ///
    /// Want of memory alone.
    pub fn left_out(
        &self,
        alloc: Global,
        low: u64,
        told: &[u64],
        more: bool,
    ) -> Result<Vec<Missing>, AllocError> {
        let mut missing = Vec::new(alloc);
        let top = told.last().copied().unwrap_or(low);
        for (id, _) in self.lives.range(low.saturating_add(1)..) {
            if more && *id > top {
                return Ok(missing);
            }
            if told.binary_search(id).is_err() {
                missing.push((*id, *id < top))?;
            }
        }
        Ok(missing)
    }
}
