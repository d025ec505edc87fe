//! The effects of recorded calls.

use crate::absences::note_ends;
use crate::boundaries::{Boundaries, written};
use crate::bounds::narrow;
use crate::calls::{Asked, calls};
use crate::clock::{Clock, margin_of};
use crate::endings::note_endings;
use crate::hidden::land_hidden;
use crate::landings::{Fate, fates};
use crate::lives::{Lives, lived};
use crate::meetings::note_met;
use crate::removals::{Concern, remove};
use crate::turns::turn_lives;
use std::alloc::{AllocError, Global};
use txn_audit_recordings::row::RecordedRow;

/// What became of the calls of recordings.
pub struct Effects<'a> {
    pub calls: Vec<Asked<'a>>,
    /// What became of each call.
    pub fates: Vec<Fate>,
    pub boundaries: Boundaries,
    pub lives: Lives,
    /// The deletes that were answered and removed nothing.
    pub idle: Vec<Concern>,
}

impl<'a> Drop for Effects<'a> {
    /// Drops all of it: here, so that no crate above has to prove how each part is dropped.
    fn drop(self) {
        let Effects {
            calls: _,
            fates: _,
            boundaries: _,
            lives: _,
            idle: _,
        } = self;
    }
}

/// What became of the calls in these recordings, each a list of rows, whose times are of these clocks, one for each recording;
/// one that has none here is of the clock of all. A call whose reply nobody saw took effect where a reply shows it.
///
/// # Errors
///
/// Want of memory alone, which changes nothing.
pub fn effects_of<'a, T>(
    alloc: Global,
    recordings: &'a [Vec<RecordedRow<T>>],
    clocks: &[Clock],
) -> Result<Effects<'a>, AllocError> {
    let calls = calls(alloc, recordings, clocks)?;
    let mut fates = fates(alloc, calls.as_slice())?;
    let (boundaries, lives, idle) = shown(alloc, calls.as_slice(), margin_of(clocks), &mut fates)?;
    Ok(Effects {
        calls,
        fates,
        boundaries,
        lives,
        idle,
    })
}

/// Notes what the listings show of lives, and by when lives had ended at the earliest and at the latest.
fn see_listings(
    alloc: Global,
    calls: &[Asked<'_>],
    margin: u64,
    lives: &mut Lives,
) -> Result<(), AllocError> {
    narrow(lives);
    note_endings(alloc, calls, lives)?;
    note_ends(alloc, calls, margin, lives)?;
    narrow(lives);
    Ok(())
}

/// Adds the lives that are hidden, and finds what removed each life; the idle deletes. By when lives had ended is noted twice: what the
/// first time shows narrows the listings of the second.
fn gone(
    alloc: Global,
    calls: &[Asked<'_>],
    margin: u64,
    fates: &mut Vec<Fate>,
    lives: &mut Lives,
) -> Result<Vec<Concern>, AllocError> {
    turn_lives(alloc, calls, lives)?;
    see_listings(alloc, calls, margin, lives)?;
    land_hidden(alloc, calls, fates, lives)?;
    turn_lives(alloc, calls, lives)?;
    see_listings(alloc, calls, margin, lives)?;
    note_met(calls, lives);
    note_endings(alloc, calls, lives)?;
    remove(alloc, calls, fates, lives)
}

/// The boundaries, the lives and the idle deletes that these calls show, and what became of each call.
fn shown(
    alloc: Global,
    calls: &[Asked<'_>],
    margin: u64,
    fates: &mut Vec<Fate>,
) -> Result<(Boundaries, Lives, Vec<Concern>), AllocError> {
    let boundaries = written(alloc, calls, fates)?;
    let mut lives = lived(alloc, calls, fates)?;
    let idle = gone(alloc, calls, margin, fates, &mut lives)?;
    Ok((boundaries, lives, idle))
}
