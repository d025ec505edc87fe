//! In which order the lives of a version stood.
//!
//! They are side by side by when they stood, as far as that is known. One that nobody saw may have been made long before the reply to its
//! create was there. So where the deletes of the version leave an order no room, two lives beside each other stand the other way round.

use crate::calls::Asked;
use crate::lives::Lives;
use crate::removals::{Delete, all_deletes};
use std::alloc::{AllocError, Global};

/// The first moment at which a delete that is not taken can have removed a life that stood at one time, before its version was made
/// again by another; and the place of the delete.
fn removal(
    deletes: &[Delete],
    taken: &[usize],
    id: u64,
    stood: u64,
    again: u64,
) -> Option<(u64, usize)> {
    let mut first: Option<(u64, usize)> = None;
    let start = deletes.partition_point(|delete| delete.0 < id);
    for place in start..deletes.len() {
        let (of, until, from, _) = deletes[place];
        if of != id {
            return first;
        }
        let at = from.max(stood);
        let fits = at <= until && at <= again && !taken.contains(&place);
        if fits && first.is_none_or(|(best, _)| at < best) {
            first = Some((at, place));
        }
    }
    first
}

/// Whether the lives of a version can have stood in their order, each but the last removed by another delete.
fn can_stand(
    alloc: Global,
    lives: &Lives,
    id: u64,
    deletes: &[Delete],
) -> Result<bool, AllocError> {
    let (start, end) = lives.of(id);
    let mut taken = Vec::new(alloc);
    let mut time = 0u64;
    for place in start..end {
        let (Some(life), Some(next)) = (lives.at(place, id), lives.at(place.saturating_add(1), id))
        else {
            return Ok(true);
        };
        let stood = time.max(life.from).max(life.last);
        let Some((at, delete)) = removal(deletes, taken.as_slice(), id, stood, next.until) else {
            return Ok(false);
        };
        taken.push(delete)?;
        time = at;
    }
    Ok(true)
}

/// Whether the life at a place may come after the next one, which is of its version.
fn may_turn(lives: &Lives, place: usize, id: u64) -> bool {
    match (lives.at(place, id), lives.at(place.saturating_add(1), id)) {
        (Some(life), Some(next)) => next.from <= life.until,
        _ => false,
    }
}

/// Turns two lives of a version, where its deletes leave their order no room, and leave that one.
fn turn(alloc: Global, lives: &mut Lives, id: u64, deletes: &[Delete]) -> Result<(), AllocError> {
    if can_stand(alloc, lives, id, deletes)? {
        return Ok(());
    }
    let (start, end) = lives.of(id);
    for place in start..end {
        if may_turn(lives, place, id) {
            lives.swap(place);
            if can_stand(alloc, lives, id, deletes)? {
                return Ok(());
            }
            lives.swap(place);
        }
    }
    Ok(())
}

/// Has the lives of each version stand in an order that its deletes leave room.
pub(crate) fn turn_lives(
    alloc: Global,
    calls: &[Asked<'_>],
    lives: &mut Lives,
) -> Result<(), AllocError> {
    let deletes = all_deletes(alloc, calls)?;
    for place in 0..lives.lives.len() {
        if let Some(id) = lives.id_at(place) {
            if lives.is_first(place) && lives.at(place.saturating_add(1), id).is_some() {
                turn(alloc, lives, id, deletes.as_slice())?;
            }
        }
    }
    lives.index()
}
