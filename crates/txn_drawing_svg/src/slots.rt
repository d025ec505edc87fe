//! Lanes that are taken and become free again.

use std::alloc::{AllocError, Global};

/// Lanes side by side, each free or taken by somebody's number.
#[derive(Drop)]
pub struct Slots {
    taken: Vec<Option<u64>>,
}

impl Slots {
    /// No lane yet.
    pub fn new(alloc: Global) -> Slots {
        Slots {
            taken: Vec::new(alloc),
        }
    }

    /// How many lanes there are.
    pub fn count(&self) -> usize {
        self.taken.len()
    }

    /// Takes the first free lane: its place.
    ///
    /// # Errors
    ///
    /// Want of memory alone. The lanes are as they were.
    pub fn take(&mut self, number: u64) -> Result<usize, AllocError> {
        for place in 0..self.taken.len() {
            if self.taken[place].is_none() {
                self.taken[place] = Some(number);
                return Ok(place);
            }
        }
        self.taken.push(Some(number))?;
        Ok(self.taken.len().saturating_sub(1))
    }

    /// Frees the lane that a number has taken.
    pub fn free(&mut self, number: u64) {
        for slot in self.taken.iter_mut() {
            if *slot == Some(number) {
                *slot = None;
            }
        }
    }
}
