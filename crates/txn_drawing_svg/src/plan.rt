//! What a picture has to have room for.

use crate::slots::Slots;
use std::alloc::{AllocError, Global};
use std::collections::BTreeSet;
use txn_drawing_moments::axis::{are_timed, span};
use txn_drawing_moments::moment::{Kind, Moment, Touch};
use txn_drawing_moments::part::Part;

/// What a picture has to have room for, and what of a later moment it has to know before.
#[derive(Drop)]
pub struct Plan {
    /// How many moments have a row.
    pub rows: usize,
    /// Of each client, how many of its calls run at once.
    pub lanes: Vec<usize>,
    /// How many requests are in flight at once.
    pub flights: usize,
    /// Of each request in flight, the number of the moment in which it lands for the last time.
    pub lands: Vec<Option<u64>>,
    /// How many versions are created, and the greatest of them.
    pub versions: usize,
    pub newest: u64,
    /// The last boundary.
    pub boundary: u64,
    /// How many events there are.
    pub events: usize,
    /// Whether they have times, and from the first of these to the last.
    pub is_timed: bool,
    pub span: Option<u64>,
    /// Whether calls came before each other in a circle.
    pub has_circle: bool,
}

/// Whether a moment has a row that shows something: each but a look that goes on.
pub fn is_shown(moment: &Moment) -> bool {
    moment.kind != Kind::Looks || moment.answer.is_some()
}

/// Whether a moment ends its operation.
pub fn is_end(moment: &Moment) -> bool {
    moment.answer.is_some() || moment.kind == Kind::GivesUp
}

/// Whether a moment's client is no more from here on.
pub fn is_last(moment: &Moment) -> bool {
    matches!(moment.kind, Kind::Crashes | Kind::Killed)
}

/// Of each request in flight, when it lands for the last time.
fn landings(alloc: Global, moments: &[Moment]) -> Result<Vec<Option<u64>>, AllocError> {
    let mut lands: Vec<Option<u64>> = Vec::new(alloc);
    for moment in moments {
        for _ in 0..moment.left.len() {
            lands.push(None)?;
        }
        if let Kind::Lands(k) = moment.kind {
            let place = k.saturating_sub(1) as usize;
            if place < lands.len() {
                lands[place] = Some(moment.number);
            }
        }
    }
    Ok(lands)
}

/// Whether the request of a number lands for the last time in this moment.
pub fn lands_last(lands: &[Option<u64>], k: u64, number: u64) -> bool {
    lands.get(k.saturating_sub(1) as usize) == Some(&Some(number))
}

/// How many requests are in flight at once.
fn flights(alloc: Global, moments: &[Moment], lands: &[Option<u64>]) -> Result<usize, AllocError> {
    let mut slots = Slots::new(alloc);
    for moment in moments {
        if let Kind::Lands(k) = moment.kind {
            if lands_last(lands, k, moment.number) {
                slots.free(k);
            }
        }
        for k in &moment.left {
            let _ = slots.take(*k)?;
        }
    }
    Ok(slots.count())
}

/// How many calls of a client run at once.
fn lanes_of(alloc: Global, moments: &[Moment], client: u64) -> Result<usize, AllocError> {
    let mut most: usize = 1;
    let mut slots = Slots::new(alloc);
    for moment in moments {
        if moment.client == client {
            if is_last(moment) {
                slots = Slots::new(alloc);
            }
            if moment.kind == Kind::Begins && !is_end(moment) {
                let lane = slots.take(moment.op)?;
                most = most.max(lane.saturating_add(1));
            } else if is_end(moment) {
                slots.free(moment.op);
            }
        }
    }
    Ok(most)
}

/// How many versions are created, and the greatest.
fn versions(alloc: Global, moments: &[Moment]) -> Result<(usize, u64), AllocError> {
    let mut ids = BTreeSet::new(alloc);
    let mut newest = 0u64;
    for moment in moments {
        if let Touch::Creates {
            id,
            is_made: true,
            ..
        } = &moment.touch
        {
            ids.insert(*id)?;
            newest = newest.max(*id);
        }
    }
    Ok((ids.len(), newest))
}

/// The last boundary that was raised to.
fn last_boundary(moments: &[Moment]) -> u64 {
    let mut boundary = 0u64;
    for moment in moments {
        if let Touch::Raises {
            to,
            is_raised: true,
        } = &moment.touch
        {
            boundary = *to;
        }
    }
    boundary
}

/// Whether a moment came before another one of a circle.
fn is_of_circle(moment: &Moment) -> bool {
    match moment.ring {
        Some(ring) => ring.before.is_some(),
        None => false,
    }
}

impl Plan {
    /// What a picture of a part has to have room for, which so many clients have.
    ///
    /// # Errors
    ///
    /// Want of memory alone.
    pub fn of(alloc: Global, clients: u64, part: Part<'_>) -> Result<Plan, AllocError> {
        let moments = part.moments;
        let shown = part.shown();
        let mut lanes = Vec::new(alloc);
        for index in 0..clients {
            lanes.push(lanes_of(alloc, moments, index + 1)?)?;
        }
        let lands = landings(alloc, moments)?;
        let (count, newest) = versions(alloc, moments)?;
        Ok(Plan {
            rows: shown.iter().filter(|moment| is_shown(moment)).count(),
            lanes,
            flights: flights(alloc, moments, lands.as_slice())?,
            lands,
            versions: count,
            newest,
            boundary: last_boundary(moments),
            events: shown.len(),
            is_timed: are_timed(moments),
            span: span(moments),
            has_circle: shown.iter().any(is_of_circle),
        })
    }
}
