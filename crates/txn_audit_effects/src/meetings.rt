//! Which life a create met that was refused.

use crate::calls::Asked;
use crate::lives::Lives;
use crate::makers::taken_for;

/// The place of the life of a version that a call met, where it can have met one alone.
fn met(call: &Asked<'_>, id: u64, lives: &Lives) -> Option<usize> {
    let (start, end) = lives.of(id);
    let mut found = None;
    for place in start..end {
        let life = lives.at(place, id);
        if life.is_some_and(|life| life.may_stand(call.from, call.until)) {
            if found.is_some() {
                return None;
            }
            found = Some(place);
        }
    }
    found
}

/// Notes that a create which was refused saw the life of its version that it can have met, where that is one alone.
pub(crate) fn note_met(calls: &[Asked<'_>], lives: &mut Lives) {
    for call in calls {
        if let Some(id) = taken_for(call) {
            if let Some(place) = met(call, id, lives) {
                lives.seen(place, call.from, call.until);
            }
        }
    }
}
