//! Creates whose reply nobody saw, and of which nothing tells but that a version stood: a create that was refused, or a page that says
//! that more follow.

use crate::calls::Asked;
use crate::landings::{Fate, land};
use crate::lives::{Lives, Made};
use crate::makers::{Loose, last_before_more, loose_creates, taken_for};
use crate::sights::Seen;
use std::alloc::{AllocError, Global};
use std::collections::BTreeMap;
use std::mem;

/// What is known of the lives, and what was found to have been made beside them.
struct Hidden<'x> {
    lives: &'x Lives,
    /// When the first was asked that made a version beside them, by versions.
    begun: BTreeMap<u64, u64>,
    made: Vec<Made>,
}

impl Drop for Hidden<'_> {
    /// Drops all of it: here, so that no function that owns it has to prove how each part is dropped.
    fn drop(self) {
        let Hidden {
            lives: _,
            begun: _,
            made: _,
        } = self;
    }
}

impl Hidden<'_> {
    /// Whether a version that is known may have stood when a call met it.
    fn stood(&self, call: &Asked<'_>, id: u64) -> bool {
        if self
            .begun
            .get(&id)
            .is_some_and(|begun| *begun <= call.until)
        {
            return true;
        }
        let (start, end) = self.lives.of(id);
        for place in start..end {
            let life = self.lives.at(place, id);
            if life.is_some_and(|life| life.may_stand(call.from, call.until)) {
                return true;
            }
        }
        false
    }

    /// Whether a version above one had begun by a time.
    fn is_above(&self, id: u64, until: u64) -> bool {
        if self.lives.above(id).is_some_and(|life| life.from <= until) {
            return true;
        }
        match self.begun.range(id.saturating_add(1)..).next() {
            Some((above, begun)) => *above > id && *begun <= until,
            None => false,
        }
    }

    /// Adds what a loose create made.
    fn add(&mut self, fates: &mut Vec<Fate>, made: Made, from: u64) -> Result<(), AllocError> {
        let begun = self.begun.get(&made.id).copied().unwrap_or(from);
        self.begun.insert(made.id, begun.min(from))?;
        self.made.push(made)?;
        land(fates, made.place, None);
        Ok(())
    }

    /// A version that stood in the way of a create, and that no call is known to have made by then, a loose one made.
    fn land_taken(
        &mut self,
        loose: Loose<'_, '_>,
        fates: &mut Vec<Fate>,
        call: &Asked<'_>,
    ) -> Result<(), AllocError> {
        let Some(id) = taken_for(call) else {
            return Ok(());
        };
        if self.stood(call, id) {
            return Ok(());
        }
        let Some(place) = loose.maker(fates.as_slice(), id, Seen::Stood, call.until) else {
            return Ok(());
        };
        let made = Made {
            id,
            token: None,
            place,
            at: call.from,
            until: call.until,
        };
        self.add(fates, made, loose.asked(place))
    }

    /// A page says that more follow, and no version above its last one is known to have begun by then: a loose create made one.
    fn land_behind(
        &mut self,
        loose: Loose<'_, '_>,
        fates: &mut Vec<Fate>,
        call: &Asked<'_>,
    ) -> Result<(), AllocError> {
        let Some(last) = last_before_more(call) else {
            return Ok(());
        };
        if self.is_above(last, call.until) {
            return Ok(());
        }
        let Some((id, place)) = loose.maker_above(fates.as_slice(), last, call.until) else {
            return Ok(());
        };
        let made = Made {
            id,
            token: None,
            place,
            at: 0,
            until: call.until,
        };
        self.add(fates, made, loose.asked(place))
    }

    /// Goes through all calls.
    fn land_all(&mut self, loose: Loose<'_, '_>, fates: &mut Vec<Fate>) -> Result<(), AllocError> {
        for call in loose.calls {
            self.land_taken(loose, fates, call)?;
        }
        for call in loose.calls {
            self.land_behind(loose, fates, call)?;
        }
        Ok(())
    }
}

/// What loose creates made beside these lives.
fn made_beside<'x>(
    alloc: Global,
    calls: &[Asked<'_>],
    fates: &mut Vec<Fate>,
    lives: &'x Lives,
) -> Result<Vec<Made>, AllocError> {
    let creates = loose_creates(alloc, calls)?;
    let loose = Loose {
        calls,
        creates: creates.as_slice(),
    };
    let mut hidden = Hidden {
        lives,
        begun: BTreeMap::new(alloc),
        made: Vec::new(alloc),
    };
    hidden.land_all(loose, fates)?;
    Ok(mem::replace(&mut hidden.made, Vec::new(alloc)))
}

/// Adds the lives that loose creates made of which nothing tells but that a version stood.
pub(crate) fn land_hidden(
    alloc: Global,
    calls: &[Asked<'_>],
    fates: &mut Vec<Fate>,
    lives: &mut Lives,
) -> Result<(), AllocError> {
    let made = made_beside(alloc, calls, fates, lives)?;
    for it in made.as_slice() {
        lives.add(calls, *it)?;
    }
    lives.arrange()
}
