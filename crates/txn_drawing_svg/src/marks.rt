//! The marks of store calls: what each did to the versions and to the boundary, or saw of them.

use crate::legend::{AGAIN, BOUNDARY, CREATE, GET, LISTED, MISSING, RAISED, REMOVED, TAKEN};
use crate::places::{Places, digits};
use crate::shapes::{
    At, BRACKET, Box, CROSS, DIAMOND, POINT, across, circle, colour, rectangle, shape, text,
};
use crate::versions::Versions;
use crate::xml::Xml;
use std::alloc::{AllocError, Global};
use txn_drawing_moments::moment::Touch;
use txn_drawing_moments::words::cut;

/// The row of a store call: where its mark begins and how high it stands, and whether it comes from a request in flight.
#[derive(Clone, Copy)]
pub struct Row {
    pub from: u64,
    pub y: u64,
    pub is_landing: bool,
    pub client: u64,
}

/// The marks of store calls.
#[derive(Drop)]
pub struct Marks {
    alloc: Global,
    /// Which marks there are, as bits.
    pub used: u64,
    /// Where the last number of a version stands.
    last_number: u64,
    pub drawn: Xml,
}

/// Half the width of a version's box.
fn half_box(id: u64) -> u64 {
    match digits(id) {
        1 | 2 => 9,
        count => (count.saturating_mul(33) / 10).saturating_add(3),
    }
}

/// Half the height of a version's box, in rows of this height.
fn half_height(pitch: u64) -> u64 {
    match pitch {
        0..=5 => 1,
        6..=12 => 4,
        _ => 7,
    }
}

/// Where what a store call reached stands: of a listing the last version.
pub fn target_of(places: &Places, versions: &Versions, touch: &Touch) -> Option<u64> {
    let low = versions.low;
    match touch {
        Touch::None => None,
        Touch::Creates { id, .. } | Touch::Gets { id, .. } | Touch::Removes { id, .. } => Some(
            places.version(*id, low),
        ),
        Touch::Lists(ids) => {
            let mut last = places.boundary(0, low);
            for id in ids {
                last = last.max(places.version(*id, low));
            }
            Some(last)
        }
        Touch::ReadsBoundary => Some(places.boundary(versions.boundary, low)),
        Touch::Raises { to, is_raised } => {
            let boundary = if *is_raised { *to } else { versions.boundary };
            Some(places.boundary(boundary, low))
        }
    }
}

impl Marks {
    /// There is none.
    pub fn new(alloc: Global) -> Marks {
        Marks {
            alloc,
            used: 0,
            last_number: 0,
            drawn: Xml::new(alloc),
        }
    }

    /// Nothing that was drawn up to here stands.
    pub fn clear(&mut self) {
        self.used = 0;
        self.last_number = 0;
        self.drawn.clear();
    }

    /// A write that was refused: it reached this place.
    fn refused(&mut self, row: Row, x: u64) -> Result<(), AllocError> {
        self.used |= TAKEN;
        let class = if row.is_landing { "ns w1 dot" } else { "ns w1" };
        let at = At { x, y: row.y };
        across(self.alloc, &mut self.drawn, class, row.from, x, row.y)?;
        circle(self.alloc, &mut self.drawn, "bs", at, 55)?;
        shape(self.alloc, &mut self.drawn, "ns w2", at, CROSS)
    }

    /// The dot on the version that a create writes on.
    fn base(
        &mut self,
        places: &Places,
        versions: &Versions,
        id: u64,
        y: u64,
    ) -> Result<(), AllocError> {
        let before = id.saturating_sub(1);
        if before < versions.low || places.pitch < 12 {
            return Ok(());
        }
        let class = match versions.epoch_of(before) {
            Some(epoch) => {
                let k = colour(epoch);
                format!(in self.alloc; "f{k}")?
            }
            None => format!(in self.alloc; "hf")?,
        };
        let at = At {
            x: places.version(before, versions.low),
            y,
        };
        circle(self.alloc, &mut self.drawn, class.as_str(), at, 25)
    }

    /// Whether the number of a version has room at this height.
    fn has_room(&mut self, pitch: u64, y: u64) -> bool {
        let has_room = pitch > 5 || y >= self.last_number.saturating_add(10);
        if has_room {
            self.last_number = y;
        }
        has_room
    }

    /// The box of a version, with its number.
    fn version_box(
        &mut self,
        places: &Places,
        at: At,
        id: u64,
        k: u64,
        is_again: bool,
    ) -> Result<(), AllocError> {
        let half = half_box(id);
        let height = half_height(places.pitch);
        let class = if is_again {
            format!(in self.alloc; "bs s{k} w15 dot")?
        } else {
            format!(in self.alloc; "f{k}")?
        };
        let area = Box {
            x: at.x.saturating_sub(half),
            y: at.y.saturating_sub(height),
            width: half.saturating_mul(2),
            height: height.saturating_mul(2),
        };
        rectangle(self.alloc, &mut self.drawn, class.as_str(), area, 3)?;
        if !self.has_room(places.pitch, at.y) {
            return Ok(());
        }
        let number = format!(in self.alloc; "{id}")?;
        let class = if is_again { "v" } else { "v on" };
        let below = At {
            x: at.x,
            y: at.y.saturating_add(4),
        };
        text(self.alloc, &mut self.drawn, class, below, number.as_str())
    }

    /// The value of a version that is created, at the right of its box.
    fn value(
        &mut self,
        places: &Places,
        at: At,
        id: u64,
        k: u64,
        value: &str,
    ) -> Result<(), AllocError> {
        if places.pitch < 12 {
            return Ok(());
        }
        let x = at.x.saturating_add(half_box(id)).saturating_add(4);
        let room = places
            .width
            .saturating_sub(x)
            .saturating_sub(2)
            .saturating_mul(10)
            / 57;
        let value = cut(self.alloc, value, room as usize)?;
        let class = format!(in self.alloc; "a f{k} b halo")?;
        let right = At {
            x,
            y: at.y.saturating_add(3),
        };
        text(
            self.alloc,
            &mut self.drawn,
            class.as_str(),
            right,
            value.as_str(),
        )
    }

    /// A version is created, or created again.
    fn create(
        &mut self,
        places: &Places,
        versions: &mut Versions,
        row: Row,
        id: u64,
        value: &str,
        epoch: u64,
    ) -> Result<(), AllocError> {
        let epoch_before = versions.epoch_of(id);
        let is_again = epoch_before.is_some();
        self.used |= if is_again { AGAIN } else { CREATE };
        let k = colour(epoch);
        let x = places.version(id, versions.low);
        let at = At { x, y: row.y };
        let class = format!(in self.alloc; "s{k} w15")?;
        let tip = x.saturating_sub(half_box(id));
        across(
            self.alloc,
            &mut self.drawn,
            class.as_str(),
            row.from,
            tip,
            row.y,
        )?;
        self.base(places, versions, id, row.y)?;
        let class = format!(in self.alloc; "f{k}")?;
        shape(
            self.alloc,
            &mut self.drawn,
            class.as_str(),
            At { x: tip, y: row.y },
            POINT,
        )?;
        self.version_box(places, at, id, k, is_again)?;
        self.value(places, at, id, k, value)?;
        versions.create(id, epoch, row.client, value, row.y)
    }

    /// A version is read, or is missing.
    fn get(
        &mut self,
        places: &Places,
        versions: &Versions,
        row: Row,
        id: u64,
        is_there: bool,
    ) -> Result<(), AllocError> {
        let at = At {
            x: places.version(id, versions.low),
            y: row.y,
        };
        across(self.alloc, &mut self.drawn, "hl rd", row.from, at.x, row.y)?;
        if !is_there {
            self.used |= MISSING;
            return circle(self.alloc, &mut self.drawn, "bs ax w1", at, 33);
        }
        self.used |= GET;
        let k = colour(versions.epoch_of(id).unwrap_or(0));
        let class = format!(in self.alloc; "f{k}")?;
        circle(self.alloc, &mut self.drawn, class.as_str(), at, 38)
    }

    /// Versions are listed.
    fn list(
        &mut self,
        places: &Places,
        versions: &Versions,
        row: Row,
        ids: &[u64],
    ) -> Result<(), AllocError> {
        self.used |= LISTED;
        let first = places.boundary(0, versions.low);
        let mut last = first;
        for id in ids {
            last = last.max(places.version(*id, versions.low));
        }
        across(self.alloc, &mut self.drawn, "hl rd", row.from, last, row.y)?;
        if ids.is_empty() {
            let at = At { x: first, y: row.y };
            circle(self.alloc, &mut self.drawn, "bs ax w1", at, 33)?;
        }
        for id in ids {
            let at = At {
                x: places.version(*id, versions.low),
                y: row.y,
            };
            let k = colour(versions.epoch_of(*id).unwrap_or(0));
            let class = format!(in self.alloc; "s{k} w15")?;
            shape(self.alloc, &mut self.drawn, class.as_str(), at, BRACKET)?;
        }
        Ok(())
    }

    /// The boundary is read: it was this.
    fn read_boundary(
        &mut self,
        places: &Places,
        versions: &Versions,
        row: Row,
    ) -> Result<(), AllocError> {
        self.used |= BOUNDARY;
        let at = At {
            x: places.boundary(versions.boundary, versions.low),
            y: row.y,
        };
        across(self.alloc, &mut self.drawn, "hl rd", row.from, at.x, row.y)?;
        shape(self.alloc, &mut self.drawn, "bs ax w1", at, DIAMOND)
    }

    /// The boundary is raised.
    fn raise(
        &mut self,
        places: &Places,
        versions: &mut Versions,
        row: Row,
        to: u64,
    ) -> Result<(), AllocError> {
        self.used |= RAISED;
        let old = places.boundary(versions.boundary, versions.low);
        let new = places.boundary(to, versions.low);
        across(self.alloc, &mut self.drawn, "ik w15", row.from, old, row.y)?;
        across(self.alloc, &mut self.drawn, "ik w2", old, new, row.y)?;
        shape(
            self.alloc,
            &mut self.drawn,
            "if",
            At { x: new, y: row.y },
            POINT,
        )?;
        if places.pitch > 12 {
            let words = format!(in self.alloc; "boundary {to}")?;
            let at = At {
                x: new.saturating_add(6),
                y: row.y.saturating_add(4),
            };
            text(self.alloc, &mut self.drawn, "a b halo", at, words.as_str())?;
        }
        versions.raise(places, to, row.y)
    }

    /// A version is removed, or the removal of one changed nothing.
    fn remove(
        &mut self,
        places: &Places,
        versions: &mut Versions,
        row: Row,
        id: u64,
        is_removed: bool,
    ) -> Result<(), AllocError> {
        let x = places.version(id, versions.low);
        if !is_removed {
            return self.refused(row, x);
        }
        self.used |= REMOVED;
        let at = At { x, y: row.y };
        let tip = x.saturating_sub(4);
        across(self.alloc, &mut self.drawn, "ik w15", row.from, tip, row.y)?;
        shape(
            self.alloc,
            &mut self.drawn,
            "if",
            At { x: tip, y: row.y },
            POINT,
        )?;
        shape(self.alloc, &mut self.drawn, "ik w2", at, CROSS)?;
        versions.remove(places, id, row.y)
    }

    /// Draws what a store call did or saw.
    ///
    /// # Errors
    ///
    /// Want of memory alone. A part of what it draws may stand then.
    pub fn touch(
        &mut self,
        places: &Places,
        versions: &mut Versions,
        row: Row,
        touch: &Touch,
    ) -> Result<(), AllocError> {
        match touch {
            Touch::None => Ok(()),
            Touch::Creates {
                id,
                value,
                epoch,
                is_made,
                ..
            } => {
                if *is_made {
                    self.create(places, versions, row, *id, value.as_str(), *epoch)
                } else {
                    let x = places.version(*id, versions.low);
                    self.refused(row, x)
                }
            }
            Touch::Gets { id, is_there } => self.get(places, versions, row, *id, *is_there),
            Touch::Lists(ids) => self.list(places, versions, row, ids.as_slice()),
            Touch::ReadsBoundary => self.read_boundary(places, versions, row),
            Touch::Raises { to, is_raised } => {
                if *is_raised {
                    self.raise(places, versions, row, *to)
                } else {
                    let x = places.boundary(versions.boundary, versions.low);
                    self.refused(row, x)
                }
            }
            Touch::Removes { id, is_removed } => {
                self.remove(places, versions, row, *id, *is_removed)
            }
        }
    }
}
