//! Between which times each life was made and removed, by the lives beside it.
//!
//! The lives of a version follow each other, and the first making of a version follows that of the version before it.

use crate::lives::{Life, Lives};

/// The greater of a time and another, where that is known.
fn at_least(time: u64, other: Option<u64>) -> u64 {
    match other {
        Some(other) => time.max(other),
        None => time,
    }
}

/// When a life began at the earliest, by the one before it: of its version after the end of that, else after the first making of the
/// version before it.
fn earliest(id: u64, last: Option<Life>, first: Option<Life>) -> Option<u64> {
    let last = last?;
    if last.id == id {
        Some(last.removed_from)
    } else {
        Some(first?.from)
    }
}

/// A life that began no earlier than those before it allow, and ended no earlier than it was seen.
fn no_earlier(life: Life, last: Option<Life>, first: Option<Life>) -> Life {
    let from = at_least(life.from, earliest(life.id, last, first)).min(life.until);
    Life {
        from,
        removed_from: life.removed_from.max(from).max(life.last),
        ..life
    }
}

/// A life that was made and ended no later than the one behind it allows, which is of its version, and, where it is the first
/// of its version, than the first making of the version after it.
fn no_later(life: Life, next: Option<Life>, above: Option<u64>) -> Life {
    let again = match next {
        Some(next) => next.until,
        None => u64::MAX,
    };
    let removed_until = life.removed_until.min(again).max(life.removed_from);
    let until = life.until.min(removed_until).min(above.unwrap_or(u64::MAX));
    Life {
        until: until.max(life.from),
        removed_until,
        ..life
    }
}

/// Has the life at a place begin no earlier than the one before it of its version allows.
pub(crate) fn follow(lives: &mut Lives, place: usize) {
    let Some(id) = lives.id_at(place) else {
        return;
    };
    let Some(before) = place.checked_sub(1) else {
        return;
    };
    let last = lives.at(before, id);
    if let Some(life) = lives.lives.get_mut(place) {
        *life = no_earlier(*life, last, None);
    }
}

/// Goes up the lives.
fn rise(lives: &mut Lives) {
    let mut first: Option<Life> = None;
    let mut last: Option<Life> = None;
    for place in 0..lives.lives.len() {
        if let Some(life) = lives.lives.get_mut(place) {
            *life = no_earlier(*life, last, first);
            if last.is_none_or(|last| last.id != life.id) {
                first = Some(*life);
            }
            last = Some(*life);
        }
    }
}

/// Goes down the lives.
fn fall(lives: &mut Lives) {
    let mut above: Option<u64> = None;
    let count = lives.lives.len();
    for behind in 0..count {
        let place = count - 1 - behind;
        let Some(id) = lives.id_at(place) else {
            return;
        };
        let next = lives.at(place.saturating_add(1), id);
        let is_first = lives.is_first(place);
        if let Some(life) = lives.lives.get_mut(place) {
            *life = no_later(*life, next, if is_first { above } else { None });
            if is_first {
                above = Some(life.until);
            }
        }
    }
}

/// Narrows the times of all lives.
pub(crate) fn narrow(lives: &mut Lives) {
    fall(lives);
    rise(lives);
}
