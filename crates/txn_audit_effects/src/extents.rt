//! Listings: between which times each took effect, and the versions that it missed.

use crate::absences::{End, sooner};
use crate::calls::{Asked, version_of};
use crate::lives::{Life, Lives};
use crate::standing::{Missing, Standing};
use std::alloc::{AllocError, Global};
use txn_store::page::Page;

/// A listing: between which times it took effect, two versions between which it told all that stood, and its page.
#[derive(Clone, Copy)]
struct Extent<'a> {
    from: u64,
    until: u64,
    low: u64,
    top: u64,
    page: &'a Page,
    /// Its place among the calls.
    call: usize,
}

impl<'a> Extent<'a> {
    /// That of a call, where it lists.
    fn of(call: &Asked<'a>, place: usize, lives: &Lives) -> Option<Extent<'a>> {
        let (low, page) = call.lists()?;
        let top = match page.metas.as_slice().last() {
            Some(meta) => version_of(&meta.location).unwrap_or(low),
            None => low,
        };
        let (from, until) = lives.told(page, top, call.from, call.until);
        Some(Extent {
            from,
            until,
            low,
            top,
            page,
            call: place,
        })
    }

    /// The times that the lives of a version leave it that it missed, where that is one gap alone: behind one of them that was removed,
    /// and before the next, or before the first, unless the version was made before.
    fn beside(self, lives: &Lives, missing: Missing) -> Extent<'a> {
        let (id, was_made) = missing;
        let (start, end) = lives.of(id);
        let mut gap: Option<(u64, u64)> = None;
        for next in start..end.saturating_add(1) {
            if next > start || !was_made {
                let (from, until) = lives.gap(next, id);
                if from <= self.until && self.from <= until {
                    if gap.is_some() {
                        return self;
                    }
                    gap = Some((from, until));
                }
            }
        }
        let (from, until) = gap.unwrap_or((0, u64::MAX));
        Extent {
            from: self.from.max(from),
            until: self.until.min(until),
            ..self
        }
    }

    /// The times that all versions leave it that it missed.
    fn narrowed(self, lives: &Lives, missing: &[Missing]) -> Extent<'a> {
        let mut narrow = self;
        for it in missing {
            narrow = narrow.beside(lives, *it);
        }
        narrow
    }

    /// Notes that it saw the lives that it told, once all of them had been made.
    fn note_seen(&self, lives: &mut Lives) {
        let from = self.from.min(self.until);
        for meta in self.page.metas.as_slice() {
            if let Some(id) = version_of(&meta.location) {
                lives.seen_by_token(id, meta.token.number(), from, self.until);
            }
        }
    }

    /// Whether it told a version.
    fn tells(&self, id: u64) -> bool {
        let metas = self.page.metas.as_slice();
        let place = metas.partition_point(|meta| version_of(&meta.location).is_some_and(|told| told
            < id));
        match metas.get(place) {
            Some(meta) => version_of(&meta.location) == Some(id),
            None => false,
        }
    }

    /// Whether it missed the version of a life, which it reached over, and was asked after a time. Where the life was seen after that,
    /// one of both was told wrongly.
    fn missed(&self, life: &Life, after: Option<u64>) -> bool {
        let late = match after {
            Some(after) => self.from > after,
            None => true,
        };
        let reaches = self.low < life.id && life.id < self.top;
        late && reaches && self.until >= life.last && !self.tells(life.id)
    }
}

/// The versions that a page told.
pub fn told_in(alloc: Global, page: &Page) -> Result<Vec<u64>, AllocError> {
    let mut told = Vec::new(alloc);
    for meta in page.metas.as_slice() {
        if let Some(id) = version_of(&meta.location) {
            told.push(id)?;
        }
    }
    Ok(told)
}

/// Adds the listings, each with when it was asked.
fn add_listings(calls: &[Asked<'_>], asked: &mut Vec<(u64, usize)>) -> Result<(), AllocError> {
    for place in 0..calls.len() {
        if calls[place].lists().is_some() {
            asked.push((calls[place].from, place))?;
        }
    }
    Ok(())
}

/// The listings, in the order in which they were asked: each with when it was.
///
/// # Errors
///
/// Want of memory alone.
pub fn listings_asked(alloc: Global, calls: &[Asked<'_>]) -> Result<Vec<(u64, usize)>, AllocError> {
    let mut asked = Vec::new(alloc);
    add_listings(calls, &mut asked)?;
    asked.sort_unstable();
    Ok(asked)
}

/// Adds a listing. Twice: what the first round narrows can leave one gap alone of a version that was passed already.
fn add_extent<'a>(
    alloc: Global,
    lives: &Lives,
    standing: &Standing,
    extent: Extent<'a>,
    extents: &mut Vec<Extent<'a>>,
) -> Result<(), AllocError> {
    let told = told_in(alloc, extent.page)?;
    let missing = standing.left_out(alloc, extent.low, told.as_slice(), extent.page.more)?;
    let once = extent.narrowed(lives, missing.as_slice());
    extents.push(once.narrowed(lives, missing.as_slice()))?;
    Ok(())
}

/// Adds these listings.
fn add_extents<'a>(
    alloc: Global,
    calls: &[Asked<'a>],
    lives: &Lives,
    asked: &[(u64, usize)],
    extents: &mut Vec<Extent<'a>>,
) -> Result<(), AllocError> {
    let mut standing = Standing::new(alloc, lives)?;
    for (_, place) in asked {
        if let Some(call) = calls.get(*place) {
            standing.move_to(call)?;
            if let Some(extent) = Extent::of(call, *place, lives) {
                add_extent(alloc, lives, &standing, extent, extents)?;
            }
        }
    }
    Ok(())
}

/// Adds of each of these and those before it the latest time.
fn add_latest(extents: &[Extent<'_>], latest: &mut Vec<u64>) -> Result<(), AllocError> {
    let mut last = 0u64;
    for extent in extents {
        last = last.max(extent.until);
        latest.push(last)?;
    }
    Ok(())
}

/// The listings, by the earliest times at which they took effect.
#[derive(Drop)]
pub(crate) struct Extents<'a> {
    extents: Vec<Extent<'a>>,
    /// Of each and those before it the latest time.
    latest: Vec<u64>,
}

impl<'a> Extents<'a> {
    /// Those of all calls.
    ///
    /// # Errors
    ///
    /// Want of memory alone.
    pub fn new(
        alloc: Global,
        calls: &[Asked<'a>],
        lives: &Lives,
    ) -> Result<Extents<'a>, AllocError> {
        let mut extents = Vec::new(alloc);
        let asked = listings_asked(alloc, calls)?;
        add_extents(alloc, calls, lives, asked.as_slice(), &mut extents)?;
        extents.sort_by_key(|extent| extent.from)?;
        let mut latest = Vec::with_capacity(alloc, extents.len())?;
        add_latest(extents.as_slice(), &mut latest)?;
        Ok(Extents { extents, latest })
    }

    /// Notes by when each life was seen last, and made, as the listings show.
    pub fn note_seen(&self, lives: &mut Lives) {
        for extent in &self.extents {
            extent.note_seen(lives);
        }
    }

    /// The listing that was there first of those that missed the version of a life, and that were asked after a time, where one is
    /// named; and by when it was there. What it missed had ended, where it was made by that time.
    pub fn missed(&self, life: &Life, after: Option<u64>) -> Option<End> {
        let extents = self.extents.as_slice();
        let mut first: Option<End> = None;
        let start = self
            .latest
            .as_slice()
            .partition_point(|until| *until < life.from);
        for place in start..extents.len() {
            let extent = extents[place];
            if first.is_some_and(|end| end.by <= extent.from) {
                return first;
            }
            if extent.missed(life, after) {
                let end = End {
                    by: extent.until,
                    call: extent.call,
                };
                first = sooner(first, Some(end));
            }
        }
        first
    }
}
