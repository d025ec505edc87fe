//! The versions, each a line from its create to its removal, and the boundary.

use crate::places::Places;
use crate::shapes::{At, Box, across, begin_group, colour, end_group, line, rectangle};
use crate::xml::Xml;
use std::alloc::{AllocError, Global};
use std::collections::{BTreeMap, BTreeSet};
use std::mem;

/// A version.
#[derive(Drop)]
pub struct Version {
    pub id: u64,
    pub epoch: u64,
    pub client: u64,
    pub value: String,
    /// Whether it was removed.
    pub is_gone: bool,
    /// Whether its name was created again.
    is_again: bool,
    /// From where on its line is not drawn yet, where it stands.
    from: Option<u64>,
}

/// The versions and the boundary.
#[derive(Drop)]
pub struct Versions {
    alloc: Global,
    pub versions: Vec<Version>,
    /// The place of each version in the list, and the places of those whose lines are drawn on.
    places: BTreeMap<u64, usize>,
    shown: BTreeSet<usize>,
    /// The version that stands first.
    pub low: u64,
    pub boundary: u64,
    /// From where on the line of the boundary is not drawn yet.
    since: u64,
    /// What is drawn of the ground, and of the lines.
    pub grounds: Xml,
    pub drawn: Xml,
}

impl Versions {
    /// There is none from here on.
    pub fn new(alloc: Global, top: u64) -> Versions {
        Versions {
            alloc,
            versions: Vec::new(alloc),
            places: BTreeMap::new(alloc),
            shown: BTreeSet::new(alloc),
            low: 1,
            boundary: 0,
            since: top,
            grounds: Xml::new(alloc),
            drawn: Xml::new(alloc),
        }
    }

    /// The picture begins at this height: of what was drawn before, nothing stands but what goes on.
    pub fn begin_at(&mut self, top: u64) {
        self.since = top;
        self.grounds.clear();
        self.drawn.clear();
        for version in self.versions.iter_mut() {
            if version.from.is_some() {
                version.from = Some(top);
            }
        }
    }

    /// The place of a version in the list.
    fn place_of(&self, id: u64) -> Option<usize> {
        self.places.get(&id).copied()
    }

    /// The epoch of a version, where it was ever created.
    pub fn epoch_of(&self, id: u64) -> Option<u64> {
        match self.place_of(id) {
            Some(place) => match self.versions.get(place) {
                Some(version) => Some(version.epoch),
                None => None,
            },
            None => None,
        }
    }

    /// Draws the line of a version up to here.
    fn draw(&mut self, places: &Places, place: usize, y: u64) -> Result<(), AllocError> {
        let Some(version) = self.versions.get(place) else {
            return Ok(());
        };
        let Some(from) = version.from else {
            return Ok(());
        };
        if version.id < self.low {
            return Ok(());
        }
        let x = places.version(version.id, self.low);
        let k = colour(version.epoch);
        let class = if version.is_again {
            format!(in self.alloc; "s{k} w15 dot")?
        } else {
            format!(in self.alloc; "s{k} lf")?
        };
        let id = version.id;
        let value = version.value.as_str();
        let client = version.client;
        let tip = format!(in self.alloc; "version {id}: {value}, written by client {client}")?;
        begin_group(&mut self.drawn, tip.as_str())?;
        line(
            self.alloc,
            &mut self.drawn,
            class.as_str(),
            At { x, y: from },
            At { x, y },
        )?;
        end_group(&mut self.drawn)
    }

    /// A version is created here.
    ///
    /// # Errors
    ///
    /// Want of memory alone. A part of what it draws may stand then.
    pub fn create(
        &mut self,
        id: u64,
        epoch: u64,
        client: u64,
        value: &str,
        y: u64,
    ) -> Result<(), AllocError> {
        match self.place_of(id) {
            Some(place) => {
                if place < self.versions.len() {
                    self.versions[place].is_again = true;
                    self.versions[place].from = Some(y);
                }
                self.shown.insert(place)?;
                Ok(())
            }
            None => {
                let value = String::from_str(self.alloc, value)?;
                let place = self.versions.len();
                self.versions.push(Version {
                    id,
                    epoch,
                    client,
                    value,
                    is_gone: false,
                    is_again: false,
                    from: Some(y),
                })?;
                self.places.insert(id, place)?;
                self.shown.insert(place)?;
                Ok(())
            }
        }
    }

    /// A version is removed here.
    ///
    /// # Errors
    ///
    /// Want of memory alone. A part of what it draws may stand then.
    pub fn remove(&mut self, places: &Places, id: u64, y: u64) -> Result<(), AllocError> {
        let Some(place) = self.place_of(id) else {
            return Ok(());
        };
        self.draw(places, place, y)?;
        if place < self.versions.len() {
            self.versions[place].from = None;
            self.versions[place].is_gone = true;
        }
        self.shown.remove(&place);
        Ok(())
    }

    /// Draws the line of a version that is shown up to here. It is drawn on, unless it stands left of what has room.
    fn draw_on(&mut self, places: &Places, place: usize, y: u64) -> Result<(), AllocError> {
        self.draw(places, place, y)?;
        if place < self.versions.len() && self.versions[place].id >= self.low {
            self.versions[place].from = Some(y);
            self.shown.insert(place)?;
        }
        Ok(())
    }

    /// Draws the lines of all versions that are shown, and of the boundary, up to here.
    ///
    /// # Errors
    ///
    /// Want of memory alone. A part of what it draws may stand then.
    pub fn draw_all(&mut self, places: &Places, y: u64) -> Result<(), AllocError> {
        let shown = mem::replace(&mut self.shown, BTreeSet::new(self.alloc));
        for place in &shown {
            self.draw_on(places, *place, y)?;
        }
        self.draw_boundary(places, y)
    }

    /// Draws the line of the boundary up to here, and the ground left of it.
    fn draw_boundary(&mut self, places: &Places, y: u64) -> Result<(), AllocError> {
        let x = places.boundary(self.boundary, self.low);
        let left = places.store.saturating_sub(6);
        let ground = Box {
            x: left,
            y: self.since,
            width: x.saturating_sub(left),
            height: y.saturating_sub(self.since),
        };
        rectangle(self.alloc, &mut self.grounds, "bd", ground, 0)?;
        let from = At { x, y: self.since };
        line(
            self.alloc,
            &mut self.drawn,
            "ax w15 dash",
            from,
            At { x, y },
        )?;
        self.since = y;
        Ok(())
    }

    /// The boundary is raised here.
    ///
    /// # Errors
    ///
    /// Want of memory alone. A part of what it draws may stand then.
    pub fn raise(&mut self, places: &Places, to: u64, y: u64) -> Result<(), AllocError> {
        self.draw_boundary(places, y)?;
        self.boundary = to;
        Ok(())
    }

    /// Whether a version that is created has no place to the right.
    pub fn is_beyond(&self, places: &Places, id: u64) -> bool {
        id.saturating_sub(self.low) >= places.most
    }

    /// The versions begin anew from the left with the one before this.
    ///
    /// # Errors
    ///
    /// Want of memory alone. A part of what it draws may stand then.
    pub fn scroll(&mut self, places: &Places, id: u64, y: u64) -> Result<(), AllocError> {
        self.draw_all(places, y)?;
        self.low = id.saturating_sub(1).max(1);
        let low = self.low;
        let tip = format!(in self.alloc; "from here on version {low} stands first")?;
        begin_group(&mut self.grounds, tip.as_str())?;
        let end = places.width.saturating_sub(30);
        let left = places.store.saturating_sub(6);
        across(self.alloc, &mut self.grounds, "hl w1 dot", left, end, y)?;
        end_group(&mut self.grounds)
    }
}
