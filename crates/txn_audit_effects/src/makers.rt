//! Creates of versions whose reply nobody saw, and what shows that one of them took effect.

use crate::boundaries::was_refused;
use crate::calls::{Asked, version_of};
use crate::landings::{Fate, has_place};
use crate::sights::Seen;
use std::alloc::{AllocError, Global};
use txn_store::store::StoreError;

/// The version that a call was to create, and that stood already.
pub(crate) fn taken_for(call: &Asked<'_>) -> Option<u64> {
    if was_refused(call, StoreError::AlreadyExists) {
        call.creates()
    } else {
        None
    }
}

/// The last version of a page that says that more follow.
pub(crate) fn last_before_more(call: &Asked<'_>) -> Option<u64> {
    let (_, page) = call.lists()?;
    if !page.more {
        return None;
    }
    version_of(&page.metas.as_slice().last()?.location)
}

/// Whether a call may have made what was seen.
fn may_make(call: &Asked<'_>, id: u64, seen: Seen<'_>) -> bool {
    if call.creates() != Some(id) {
        return false;
    }
    match (seen, call.puts()) {
        (Seen::Bytes(seen), Some(put)) => seen == put,
        (Seen::Size(size), Some(put)) => put.len() as u64 == size,
        _ => true,
    }
}

/// A create of a version whose reply nobody saw: its version, when it was asked, and its place among the calls.
pub(crate) type LooseCreate = (u64, u64, usize);

/// All calls, and which of them are creates of versions whose reply nobody saw, by their versions, and then by when they were asked.
#[derive(Clone, Copy)]
pub(crate) struct Loose<'x, 'a> {
    pub calls: &'x [Asked<'a>],
    pub creates: &'x [LooseCreate],
}

impl Loose<'_, '_> {
    /// When a call was asked.
    pub fn asked(&self, place: usize) -> u64 {
        match self.calls.get(place) {
            Some(call) => call.from,
            None => 0,
        }
    }

    /// The create asked first of which nobody knows whether it took effect, and which may have made what was seen by then. One
    /// that was asked later could not have made it where this could not.
    pub fn maker(&self, fates: &[Fate], id: u64, seen: Seen<'_>, until: u64) -> Option<usize> {
        let start = self.creates.partition_point(|create| create.0 < id);
        for at in start..self.creates.len() {
            let (of, from, place) = self.creates[at];
            if of != id || from > until {
                return None;
            }
            let call = self.calls.get(place)?;
            if !has_place(fates, place) && may_make(call, id, seen) {
                return Some(place);
            }
        }
        None
    }

    /// The create asked first of which nobody knows whether it took effect, of a version above one, by a time: its version, and its
    /// place.
    pub fn maker_above(&self, fates: &[Fate], id: u64, until: u64) -> Option<(u64, usize)> {
        let mut first: Option<(u64, u64, usize)> = None;
        let start = self.creates.partition_point(|create| create.0 <= id);
        for at in start..self.creates.len() {
            let (of, from, place) = self.creates[at];
            let is_first = first.is_none_or(|(asked, _, _)| from < asked);
            if is_first && from <= until && !has_place(fates, place) {
                first = Some((from, of, place));
            }
        }
        first.map(|(_, of, place)| (of, place))
    }
}

/// Adds the creates of versions whose reply nobody saw.
fn add_loose(calls: &[Asked<'_>], creates: &mut Vec<LooseCreate>) -> Result<(), AllocError> {
    for place in 0..calls.len() {
        let call = &calls[place];
        if !call.is_answered() {
            if let Some(id) = call.creates() {
                creates.push((id, call.from, place))?;
            }
        }
    }
    Ok(())
}

/// The creates of versions whose reply nobody saw, by their versions, and then by when they were asked.
pub(crate) fn loose_creates(
    alloc: Global,
    calls: &[Asked<'_>],
) -> Result<Vec<LooseCreate>, AllocError> {
    let mut creates = Vec::new(alloc);
    add_loose(calls, &mut creates)?;
    creates.sort_unstable();
    Ok(creates)
}
