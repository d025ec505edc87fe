//! The lives of versions: each from the put that makes it to the delete that removes it.

use crate::absences::End;
use crate::calls::{Asked, version_of};
use crate::landings::{Fate, land};
use crate::makers::{Loose, loose_creates};
use crate::sights::{Sight, first_sights, sights};
use std::alloc::{AllocError, Global};
use std::collections::HashMap;
use txn_store::page::Page;

/// One life of a version.
#[derive(Clone, Copy)]
pub struct Life {
    pub id: u64,
    /// The token of its put, where one is known.
    pub token: Option<u64>,
    /// The call that makes it, and between which times it was made: no earlier than that was asked, and no later than its reply was
    /// there, or that of a call that saw it.
    pub made_by: usize,
    pub from: u64,
    pub until: u64,
    /// When the last call was asked that saw it; of a listing, when all that it told was made, where that is later.
    pub last: u64,
    /// The call that removes it, if one does, and between which times it was removed, where it was: no earlier than a call saw it,
    /// and no later than one shows that it had ended, which is the greatest time where none does.
    pub removed_by: Option<usize>,
    pub removed_from: u64,
    pub removed_until: u64,
    /// The call that shows by when it had ended, if one does.
    pub missed_by: Option<usize>,
}

impl Life {
    /// A time at which it stood, as far as is known: when the last call was asked that saw it, or when it was made at the latest. A
    /// create that was asked first may come after another's life, where its client was held up.
    fn stood(&self) -> u64 {
        self.last.max(self.until)
    }

    /// Whether it may have stood between two times.
    pub fn may_stand(&self, from: u64, until: u64) -> bool {
        self.from <= until && from <= self.removed_until
    }

    /// Notes that a call saw it, by when that was asked and when its reply was there.
    fn seen(&mut self, at: u64, until: u64) {
        self.last = self.last.max(at);
        self.until = self.until.min(until);
    }
}

/// All lives, those of one version side by side, in the order in which they stood.
pub struct Lives {
    pub lives: Vec<Life>,
    /// Which life of a version has a token.
    pub of_token: HashMap<(u64, u64), usize>,
}

impl Drop for Lives {
    /// Drops both: here, so that no function that owns them, and no crate above, has to prove how each is dropped.
    fn drop(self) {
        let Lives {
            lives: _,
            of_token: _,
        } = self;
    }
}

/// A life that is to be added.
#[derive(Clone, Copy)]
pub(crate) struct Made {
    pub id: u64,
    /// The token of its put, where one is known.
    pub token: Option<u64>,
    /// The call that makes it.
    pub place: usize,
    /// When a call was asked that saw it, and when its reply was there, by which it was made: 0 and the greatest time where none did.
    pub at: u64,
    pub until: u64,
}

impl Made {
    /// What a call was told to have made.
    fn told(place: usize, id: u64, token: u64) -> Made {
        Made {
            id,
            token: Some(token),
            place,
            at: 0,
            until: u64::MAX,
        }
    }

    /// What was seen.
    fn seen(place: usize, sight: &Sight<'_>) -> Made {
        Made {
            id: sight.id,
            token: Some(sight.token),
            place,
            at: sight.at,
            until: sight.until,
        }
    }
}

impl Lives {
    /// No lives.
    fn none(alloc: Global) -> Lives {
        Lives {
            lives: Vec::new(alloc),
            of_token: HashMap::new(alloc),
        }
    }

    /// Adds a life that a call makes.
    pub(crate) fn add(&mut self, calls: &[Asked<'_>], made: Made) -> Result<(), AllocError> {
        let Some(call) = calls.get(made.place) else {
            return Ok(());
        };
        if let Some(token) = made.token {
            let place = self.lives.len();
            self.of_token.insert((made.id, token), place)?;
        }
        self.lives.push(Life {
            id: made.id,
            token: made.token,
            made_by: made.place,
            from: call.from,
            until: call.until.min(made.until),
            last: made.at,
            removed_by: None,
            removed_from: made.at,
            removed_until: u64::MAX,
            missed_by: None,
        })?;
        Ok(())
    }

    /// What these saw, and no call was told to have made, loose ones made: of each version and token once.
    fn land_seen(
        &mut self,
        loose: Loose<'_, '_>,
        fates: &mut Vec<Fate>,
        unmade: &[Sight<'_>],
    ) -> Result<(), AllocError> {
        for sight in unmade {
            let maker = loose.maker(fates.as_slice(), sight.id, sight.seen, sight.until);
            if let Some(place) = maker {
                land(fates, place, Some(sight.token));
                self.add(loose.calls, Made::seen(place, sight))?;
            }
        }
        Ok(())
    }

    /// Puts the lives of one version side by side, and finds them by their tokens again.
    pub(crate) fn arrange(&mut self) -> Result<(), AllocError> {
        self.lives
            .sort_by_key(|life| (life.id, life.stood(), life.token.unwrap_or(0)))?;
        self.index()
    }

    /// Turns the lives at a place and behind it.
    pub(crate) fn swap(&mut self, place: usize) {
        let behind = place.saturating_add(1);
        let (Some(life), Some(next)) = (
            self.lives.get(place).copied(),
            self.lives.get(behind).copied(),
        ) else {
            return;
        };
        if let Some(it) = self.lives.get_mut(place) {
            *it = next;
        }
        if let Some(it) = self.lives.get_mut(behind) {
            *it = life;
        }
    }

    /// Finds the lives by their tokens where they stand.
    pub(crate) fn index(&mut self) -> Result<(), AllocError> {
        for place in 0..self.lives.len() {
            let life = self.lives[place];
            if let Some(token) = life.token {
                self.of_token.insert((life.id, token), place)?;
            }
        }
        Ok(())
    }

    /// Notes that a call saw the life at a place, by when that was asked and when its reply was there.
    pub(crate) fn seen(&mut self, place: usize, at: u64, until: u64) {
        if let Some(life) = self.lives.get_mut(place) {
            life.seen(at, until);
        }
    }

    /// Notes that a call saw the life of a version that has a token, by when that was asked and when its reply was there.
    pub(crate) fn seen_by_token(&mut self, id: u64, token: u64, at: u64, until: u64) {
        if let Some(place) = self.of_token.get(&(id, token)).copied() {
            self.seen(place, at, until);
        }
    }

    /// Notes when each life was seen last.
    fn note_sights(&mut self, sights: &[Sight<'_>]) {
        for sight in sights {
            self.seen_by_token(sight.id, sight.token, sight.at, sight.until);
        }
    }

    /// Adds the lives that a call was told to have made.
    fn add_made(&mut self, calls: &[Asked<'_>]) -> Result<(), AllocError> {
        for place in 0..calls.len() {
            if let (Some(id), Some(token)) = (calls[place].creates(), calls[place].given()) {
                self.add(calls, Made::told(place, id, token))?;
            }
        }
        Ok(())
    }

    /// Adds the lives that loose calls made, by what all calls saw, and notes when each life was seen last.
    fn land_loose(
        &mut self,
        alloc: Global,
        calls: &[Asked<'_>],
        fates: &mut Vec<Fate>,
        sights: &[Sight<'_>],
    ) -> Result<(), AllocError> {
        let creates = loose_creates(alloc, calls)?;
        let loose = Loose {
            calls,
            creates: creates.as_slice(),
        };
        let unmade = first_sights(alloc, sights, &self.of_token)?;
        let landed = self.land_seen(loose, fates, unmade.as_slice());
        self.note_sights(sights);
        landed
    }

    /// Adds all lives.
    fn find(
        &mut self,
        alloc: Global,
        calls: &[Asked<'_>],
        fates: &mut Vec<Fate>,
    ) -> Result<(), AllocError> {
        self.add_made(calls)?;
        let sights = sights(alloc, calls)?;
        self.land_loose(alloc, calls, fates, sights.as_slice())?;
        self.arrange()
    }

    /// Notes by when the life at a place had ended, where nothing shows that it had so before.
    pub(crate) fn ended(&mut self, place: usize, end: End) {
        if let Some(life) = self.lives.get_mut(place) {
            if end.by <= life.removed_until {
                life.removed_until = end.by;
                life.missed_by = Some(end.call);
            }
        }
    }

    /// Notes that a call removes the life at a place.
    pub(crate) fn end(&mut self, place: usize, at: usize, call: &Asked<'_>) {
        if let Some(life) = self.lives.get_mut(place) {
            life.removed_by = Some(at);
            life.removed_from = call.from.max(life.last).max(life.from);
            life.removed_until = call.until.min(life.removed_until);
        }
    }

    /// Where the lives of a version begin, and where they end.
    pub fn of(&self, id: u64) -> (usize, usize) {
        let lives = self.lives.as_slice();
        (
            lives.partition_point(|life| life.id < id),
            lives.partition_point(|life| life.id <= id),
        )
    }

    /// The life of a version that has a token.
    pub fn with_token(&self, id: u64, token: u64) -> Option<Life> {
        let place = self.of_token.get(&(id, token)).copied()?;
        self.lives.get(place).copied()
    }

    /// Between which times a page was told, of those between two: when all that it tells stood, and after the next version was made for
    /// the first time behind the last one that it reached, or before that, as it says that more follow or none: the newest version
    /// stands.
    pub fn told(&self, page: &Page, top: u64, from: u64, until: u64) -> (u64, u64) {
        let mut narrow = (from, until);
        for meta in page.metas.as_slice() {
            if let Some(id) = version_of(&meta.location) {
                if let Some(life) = self.with_token(id, meta.token.number()) {
                    narrow = (narrow.0.max(life.from), narrow.1.min(life.removed_until));
                }
            }
        }
        match self.above(top) {
            Some(above) if page.more => (narrow.0.max(above.from), narrow.1),
            Some(above) => (narrow.0, narrow.1.min(above.until)),
            None => narrow,
        }
    }

    /// Between which times a version did not stand, as far as is known, before the life at a place, or behind its last one: from the
    /// removal of the life before that on, until that is made.
    pub(crate) fn gap(&self, next: usize, id: u64) -> (u64, u64) {
        let removed = match next.checked_sub(1) {
            Some(before) => self.at(before, id),
            None => None,
        };
        let from = match removed {
            Some(life) => life.removed_from,
            None => 0,
        };
        let until = match self.at(next, id) {
            Some(life) => life.until,
            None => u64::MAX,
        };
        (from, until)
    }

    /// The first life of the first version above one.
    pub fn above(&self, id: u64) -> Option<Life> {
        let lives = self.lives.as_slice();
        let place = lives.partition_point(|life| life.id <= id);
        lives.get(place).copied()
    }

    /// The version of the life at a place.
    pub(crate) fn id_at(&self, place: usize) -> Option<u64> {
        match self.lives.get(place) {
            Some(life) => Some(life.id),
            None => None,
        }
    }

    /// Whether the life at a place is the first of its version.
    pub(crate) fn is_first(&self, place: usize) -> bool {
        place == 0 || self.id_at(place.saturating_sub(1)) != self.id_at(place)
    }

    /// The life at a place, where it is of this version.
    pub fn at(&self, place: usize, id: u64) -> Option<Life> {
        let life = self.lives.get(place).copied()?;
        if life.id == id { Some(life) } else { None }
    }
}

/// The lives of all versions, but for what removes them. What nobody is told to have made, and was seen, a loose call made.
pub(crate) fn lived(
    alloc: Global,
    calls: &[Asked<'_>],
    fates: &mut Vec<Fate>,
) -> Result<Lives, AllocError> {
    let mut lives = Lives::none(alloc);
    match lives.find(alloc, calls, fates) {
        Ok(()) => Ok(lives),
        Err(error) => Err(error),
    }
}
