//! What calls show after which a version did not stand, and when a life had so ended.

use crate::calls::{Asked, version_of};
use crate::extents::Extents;
use crate::lives::{Life, Lives};
use crate::removals::Concern;
use std::alloc::{AllocError, Global};
use txn_store::request::{Reply, Request};
use txn_store::store::StoreError;

/// By when a life had ended, and the call that shows it.
#[derive(Clone, Copy)]
pub(crate) struct End {
    pub by: u64,
    pub call: usize,
}

/// The sooner of two ends, where they are known.
pub(crate) fn sooner(one: Option<End>, other: Option<End>) -> Option<End> {
    match (one, other) {
        (Some(one), Some(other)) if one.by <= other.by => Some(one),
        (one, None) => one,
        (_, other) => other,
    }
}

/// The version that a call found missing, or left so.
fn leaves_none(call: &Asked<'_>) -> Option<u64> {
    if let (Request::Get { path, .. }, Some(Reply::Get(Err(StoreError::NotFound)))) = (
        call.request,
        call.reply,
    ) {
        return version_of(path);
    }
    if call.is_answered() {
        call.removes()
    } else {
        None
    }
}

/// The gets that found nothing and the deletes, by their versions.
fn gone(alloc: Global, calls: &[Asked<'_>]) -> Result<Vec<Concern>, AllocError> {
    let mut gone = Vec::new(alloc);
    for place in 0..calls.len() {
        if let Some(id) = leaves_none(&calls[place]) {
            gone.push((id, place))?;
        }
    }
    gone.sort_unstable();
    Ok(gone)
}

/// What calls show after which a version did not stand: the gets that found nothing and the deletes, by versions, and the listings.
#[derive(Drop)]
struct Absences<'a> {
    gone: Vec<Concern>,
    listings: Extents<'a>,
    /// How far apart two moments are, that the one is surely before the other.
    margin: u64,
}

impl Absences<'_> {
    /// The first call that was there of those that were asked after a life had begun, and found or left nothing, where the life was not
    /// seen after it.
    fn gone(&self, calls: &[Asked<'_>], life: &Life, after: u64) -> Option<End> {
        let gone = self.gone.as_slice();
        let mut first = None;
        let start = gone.partition_point(|concern| concern.0 < life.id);
        for place in start..gone.len() {
            let (id, at) = gone[place];
            if id != life.id {
                return first;
            }
            if let Some(call) = calls.get(at) {
                if call.from > after && call.until >= life.last {
                    let end = End {
                        by: call.until,
                        call: at,
                    };
                    first = sooner(first, Some(end));
                }
            }
        }
        first
    }

    /// By when the life at a place had ended at the latest: where a call after its making did not see its version, or removed it. A
    /// listing that tells a later version is after the first making, whenever it was asked.
    fn ended(&self, calls: &[Asked<'_>], lives: &Lives, place: usize) -> Option<End> {
        let life = lives.lives.get(place).copied()?;
        let made = life.until.saturating_add(self.margin);
        let after = if lives.is_first(place) {
            None
        } else {
            Some(made)
        };
        sooner(
            self.gone(calls, &life, made),
            self.listings.missed(&life, after),
        )
    }
}

/// Notes by when each life had ended, as calls show. Moments that are a margin apart are surely one before the other.
pub(crate) fn note_ends(
    alloc: Global,
    calls: &[Asked<'_>],
    margin: u64,
    lives: &mut Lives,
) -> Result<(), AllocError> {
    let absences = Absences {
        gone: gone(alloc, calls)?,
        listings: Extents::new(alloc, calls, lives)?,
        margin,
    };
    absences.listings.note_seen(lives);
    for place in 0..lives.lives.len() {
        if let Some(end) = absences.ended(calls, lives, place) {
            lives.ended(place, end);
        }
    }
    Ok(())
}
