//! Which delete removed which life of a version.

use crate::absences::{End, sooner};
use crate::bounds::{follow, narrow};
use crate::calls::Asked;
use crate::landings::{Fate, fate_of, land};
use crate::lives::{Life, Lives};
use std::alloc::{AllocError, Global};

/// A version, and a call that is about it.
pub type Concern = (u64, usize);

/// A delete: its version, when its reply was there, when it was asked, and its place among the calls.
pub(crate) type Delete = (u64, u64, u64, usize);

/// The deletes, by versions, then by when their replies were there, then by when they were asked.
pub(crate) fn all_deletes(alloc: Global, calls: &[Asked<'_>]) -> Result<Vec<Delete>, AllocError> {
    let mut deletes = Vec::new(alloc);
    for place in 0..calls.len() {
        let call = &calls[place];
        if let Some(id) = call.removes() {
            deletes.push((id, call.until, call.from, place))?;
        }
    }
    deletes.sort_unstable();
    Ok(deletes)
}

/// A life, by when it had ended, where that is known, and the call that shows it.
#[derive(Clone, Copy)]
struct Ended<'x, 'a> {
    life: Life,
    end: Option<End>,
    shown: Option<&'x Asked<'a>>,
}

impl<'x, 'a> Ended<'x, 'a> {
    /// The life at a place: it had ended where a call shows it, or where its version was made again.
    fn at(calls: &'x [Asked<'a>], lives: &Lives, place: usize) -> Option<Ended<'x, 'a>> {
        let life = lives.lives.get(place).copied()?;
        let by = life.removed_until;
        let missed = life.missed_by.map(|call| End { by, call });
        let again = lives.at(place.saturating_add(1), life.id).map(|next| End {
            by: next.until,
            call: next.made_by,
        });
        let end = sooner(again, missed);
        let shown = match end {
            Some(end) => calls.get(end.call),
            None => None,
        };
        Some(Ended { life, end, shown })
    }

    /// Whether a delete may have removed it: none that its client asked for after it had the reply that shows the end.
    fn may_end_by(&self, delete: &Asked<'_>) -> bool {
        let early = match self.end {
            Some(end) => delete.from <= end.by,
            None => true,
        };
        let behind = match self.shown {
            Some(call) => {
                let is_own = call.recording == delete.recording;
                is_own && call.is_answered() && call.row < delete.row
            }
            None => false,
        };
        delete.until >= self.life.from && delete.until >= self.life.removed_from && early && !behind
    }
}

/// What is known of all deletes.
#[derive(Drop)]
struct Deletes {
    all: Vec<Delete>,
    /// Whether a call removed some life already.
    taken: Vec<bool>,
}

impl Deletes {
    fn is_taken(&self, call: usize) -> bool {
        match self.taken.get(call) {
            Some(taken) => *taken,
            None => true,
        }
    }

    /// The first delete with this fate that may have removed a life.
    fn first(
        &self,
        calls: &[Asked<'_>],
        fates: &[Fate],
        fate: Fate,
        ended: &Ended<'_, '_>,
    ) -> Option<usize> {
        let all = self.all.as_slice();
        let start = all.partition_point(|delete| delete.0 < ended.life.id);
        for place in start..all.len() {
            let (id, _, _, at) = all[place];
            if id != ended.life.id {
                return None;
            }
            if let Some(call) = calls.get(at) {
                let free = !self.is_taken(at) && fate_of(fates, at) == fate;
                if free && ended.may_end_by(call) {
                    return Some(at);
                }
            }
        }
        None
    }

    /// The delete that removed a life: one whose reply was seen, or, where the life ended, another.
    fn remover(&self, calls: &[Asked<'_>], fates: &[Fate], ended: &Ended<'_, '_>) -> Option<usize> {
        match self.first(calls, fates, Fate::Answered, ended) {
            Some(place) => Some(place),
            None => {
                if ended.end.is_none() {
                    return None;
                }
                self.first(calls, fates, Fate::Unknown, ended)
            }
        }
    }

    /// Finds what removed the life at a place.
    fn end_life(
        &mut self,
        calls: &[Asked<'_>],
        fates: &mut Vec<Fate>,
        lives: &mut Lives,
        place: usize,
    ) {
        follow(lives, place);
        let Some(ended) = Ended::at(calls, lives, place) else {
            return;
        };
        let Some(at) = self.remover(calls, fates.as_slice(), &ended) else {
            return;
        };
        if let Some(taken) = self.taken.get_mut(at) {
            *taken = true;
        }
        if fate_of(fates.as_slice(), at) == Fate::Unknown {
            land(fates, at, None);
        }
        if let Some(call) = calls.get(at) {
            lives.end(place, at, call);
        }
    }

    /// The deletes that were answered and removed nothing.
    fn idle(&self, alloc: Global, fates: &[Fate]) -> Result<Vec<Concern>, AllocError> {
        let mut idle = Vec::new(alloc);
        for (id, _, _, place) in self.all.as_slice() {
            if fate_of(fates, *place) == Fate::Answered && !self.is_taken(*place) {
                idle.push((*id, *place))?;
            }
        }
        Ok(idle)
    }
}

/// Finds what removed each life, and tells the deletes that removed nothing.
pub(crate) fn remove(
    alloc: Global,
    calls: &[Asked<'_>],
    fates: &mut Vec<Fate>,
    lives: &mut Lives,
) -> Result<Vec<Concern>, AllocError> {
    let mut deletes = Deletes {
        all: all_deletes(alloc, calls)?,
        taken: vec![in alloc; false; calls.len()]?,
    };
    for place in 0..lives.lives.len() {
        deletes.end_life(calls, fates, lives, place);
    }
    narrow(lives);
    deletes.idle(alloc, fates.as_slice())
}
