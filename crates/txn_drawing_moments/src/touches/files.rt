//! The files of an object, as far as a drawing knows them.

ghost use Rattle.std.specs.Prelude.{◌≡◌, IfOk, OnOk};
ghost use Rattle.std.specs.Ordering.{nat_cmp};
ghost use Rattle.std.specs.BTreeSet.{contains, IsEmpty};
ghost use Rattle.txn_drawing_moments.specs.touches.Standing.{told_of, IsTouched, Settles, Creates};

use crate::moment::Touch;
use crate::touches::asked::Asked;
use bytes::Bytes;
use std::alloc::{AllocError, Global};
use std::collections::BTreeSet;
use std::ops::Bound;
use std::str;
use txn_store::types::boundary::read_boundary;

/// Which versions stand, and which were ever created.
#[derive(Drop)]
pub struct Files {
    alloc: Global,
    standing: BTreeSet<u64>,
    created: BTreeSet<u64>,
}

/// The number that a text begins with, 0 where it begins with none.
fn epoch_said(text: &str) -> u64 {
    match text.split_once(':') {
        Some((epoch, _)) => read_boundary(epoch.as_bytes()).unwrap_or(0),
        None => 0,
    }
}

/// Bytes as text, of which a drawing shows each character that is none of control.
fn text_of(alloc: Global, bytes: &Bytes) -> Result<String, AllocError> {
    let mut shown = String::new(alloc);
    match str::from_utf8(bytes.as_slice()) {
        Ok(text) => {
            for sign in text.chars() {
                let is_shown = sign >= ' ' && sign != '\u{fffe}' && sign != '\u{ffff}';
                shown.push(if is_shown { sign } else { '?' })?;
            }
        }
        Err(_) => shown.push('?')?,
    }
    Ok(shown)
}

impl Files {
    /// There are none.
    pub fn new(alloc: Global) -> Files
        ensures standing { IsEmpty result.standing }
        ensures created { IsEmpty result.created }
    {
        Files {
            alloc,
            standing: BTreeSet::new(alloc),
            created: BTreeSet::new(alloc),
        }
    }

    /// The versions that a listing tells.
    fn listed(&self, above: u64, most: u64) -> Result<Vec<u64>, AllocError>
        ensures { IfOk result (λ ids. ids.items ≡ told_of above most self.now.standing) }
    {
        let rest = (Bound::Excluded(above), Bound::Unbounded);
        self.standing
            .range(rest)
            .copied()
            .take(most as usize)
            .collect(self.alloc)
    }

    /// What a store call did to the object, or saw of it.
    fn touched(&self, asked: Asked, is_changed: bool) -> Result<Touch, AllocError>
        ensures { IfOk result (λ touch. IsTouched self.now.standing self.now.created asked is_changed touch) }
    {
        Ok(match asked {
            Asked::Nothing => Touch::None,
            Asked::Create { id, value } => {
                let value = text_of(self.alloc, &value)?;
                Touch::Creates {
                    id,
                    epoch: epoch_said(value.as_str()),
                    value,
                    is_made: is_changed,
                    is_again: self.created.contains(&id),
                }
            }
            Asked::Get(id) => Touch::Gets {
                id,
                is_there: self.standing.contains(&id),
            },
            Asked::ReadBoundary => Touch::ReadsBoundary,
            Asked::Raise(to) => Touch::Raises {
                to,
                is_raised: is_changed,
            },
            Asked::List { above, most } => Touch::Lists(self.listed(above, most)?),
            Asked::Remove(id) => Touch::Removes {
                id,
                is_removed: is_changed,
            },
        })
    }

    /// Notes which versions stand after this.
    fn settle(&mut self, touch: &Touch) -> Result<(), AllocError>
        ensures standing { OnOk result (Settles touch.now self.old.standing self.new.standing) }
        ensures created { OnOk result (Creates touch.now self.old.created self.new.created) }
    {
        match touch {
            Touch::Creates {
                id,
                is_made: true,
                ..
            } => {
                self.created.insert(*id)?;
                self.standing.insert(*id)?;
            }
            Touch::Removes {
                id,
                is_removed: true,
            } => {
                self.standing.remove(id);
            }
            _ => {}
        }
        Ok(())
    }

    /// Whether a version stands.
    pub fn has(&self, id: u64) -> bool
        ensures { result ≡ contains nat_cmp self.now.standing id }
    {
        self.standing.contains(&id)
    }

    /// Takes a store call that changed something or did not: what it did to the object, or saw of it. The only error is want of
    /// memory.
    ///
    /// # Errors
    ///
    /// Want of memory alone. A part of it may be noted then.
    pub fn take(&mut self, asked: Asked, is_changed: bool) -> Result<Touch, AllocError>
        ensures told { IfOk result (λ touch. IsTouched self.old.standing self.old.created asked is_changed touch) }
        ensures standing { IfOk result (λ touch. Settles touch self.old.standing self.new.standing) }
        ensures created { IfOk result (λ touch. Creates touch self.old.created self.new.created) }
    {
        let touch = self.touched(asked, is_changed)?;
        self.settle(&touch)?;
        Ok(touch)
    }
}
