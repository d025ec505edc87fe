//! When each life was removed at the earliest, by the deletes of its version.

use crate::calls::Asked;
use crate::lives::Lives;
use crate::removals::{Delete, all_deletes};
use std::alloc::{AllocError, Global};

/// The deletes by their versions, and of each when the first was asked of those of its version whose replies were there no sooner.
#[derive(Drop)]
struct Endings {
    deletes: Vec<Delete>,
    asked: Vec<u64>,
}

/// Of each delete when the first was asked of those of its version whose replies were there no sooner.
fn first_asked(alloc: Global, deletes: &[Delete]) -> Result<Vec<u64>, AllocError> {
    let mut asked = vec![in alloc; u64::MAX; deletes.len()]?;
    let mut last: Option<(u64, u64)> = None;
    let count = deletes.len();
    for behind in 0..count {
        let place = count - 1 - behind;
        let (id, _, from, _) = deletes[place];
        let first = match last {
            Some((version, first)) if version == id => first.min(from),
            _ => from,
        };
        last = Some((id, first));
        if let Some(it) = asked.get_mut(place) {
            *it = first;
        }
    }
    Ok(asked)
}

impl Endings {
    /// When a version was removed at the earliest that stood at a time: the greatest time where no delete can have done so.
    fn earliest(&self, id: u64, stood: u64) -> u64 {
        let place = self
            .deletes
            .as_slice()
            .partition_point(|delete| (delete.0, delete.1) < (id, stood));
        match (self.deletes.get(place), self.asked.get(place)) {
            (Some(delete), Some(asked)) if delete.0 == id => *asked,
            _ => u64::MAX,
        }
    }
}

/// Notes when each life was removed at the earliest, if it was: no earlier than a delete was asked whose reply was there after it had
/// been seen.
pub(crate) fn note_endings(
    alloc: Global,
    calls: &[Asked<'_>],
    lives: &mut Lives,
) -> Result<(), AllocError> {
    let deletes = all_deletes(alloc, calls)?;
    let asked = first_asked(alloc, deletes.as_slice())?;
    let endings = Endings { deletes, asked };
    for place in 0..lives.lives.len() {
        if let Some(life) = lives.lives.get_mut(place) {
            let earliest = endings.earliest(life.id, life.last.max(life.from));
            life.removed_from = life.removed_from.max(earliest);
        }
    }
    Ok(())
}
