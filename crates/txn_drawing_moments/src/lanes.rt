//! A run as text: the lanes of its clients, what was called and answered, and the versions as a staircase.
//!
//! Time runs down. A client's lane has `┳` where a call begins, `┃` while it runs, `┻` where it is answered (`╺` both), `●` where
//! the store serves a call, `╳` where the client crashes, and `┆` once a greater epoch than it holds has come in. On the right a
//! version is `■` where it is created, `□` where its name is created again, `●` where it is seen, `○` where it is missing, `×`
//! where it is removed, `⊓` where it is listed, and `✗` where a write was refused; the boundary is `◇` where it is read and `◆`
//! where it is raised. `─` is a write and `·` a read.

use crate::axis::{Axis, are_timed};
use crate::cells::Cells;
use crate::holds::{Hold, Holds, fence_words};
use crate::moment::{Kind, Moment, Touch};
use crate::part::Part;
use crate::times::duration;
use crate::words::{answer_words, cut, event_words};
use std::alloc::{AllocError, Global};
use std::collections::BTreeSet;

/// How wide a line is, where there are not too many clients for it.
const WIDTH: usize = 100;

/// From so many clients on a lane has one place, and not two.
const MANY: usize = 17;

/// The places for what stands beside a moment.
const BESIDE: usize = 8;

/// Where the first lane stands.
const FIRST_LANE: usize = 9;

/// The places for words.
const WORDS: usize = 36;

/// The places of a version.
const VERSION: usize = 3;

/// What is kept free behind the versions.
const BEHIND: usize = 6;

/// Where things stand in a line.
#[derive(Clone, Copy)]
struct Places {
    /// From one lane to the next.
    step: usize,
    words: usize,
    versions: usize,
    /// How many versions have a place, but for the last.
    most: usize,
    width: usize,
}

impl Places {
    fn of(clients: usize) -> Places {
        let step = if clients < MANY { 2 } else { 1 };
        let words = FIRST_LANE
            .saturating_add(clients.saturating_mul(step))
            .saturating_add(1);
        let versions = words.saturating_add(WORDS);
        let most = (WIDTH.saturating_sub(versions.saturating_add(BEHIND)) / VERSION).max(3);
        let end = versions
            .saturating_add(most.saturating_mul(VERSION))
            .saturating_add(BEHIND);
        Places {
            step,
            words,
            versions,
            most,
            width: WIDTH.max(end),
        }
    }

    fn lane(&self, client: u64) -> usize {
        let before = client.saturating_sub(1) as usize;
        FIRST_LANE.saturating_add(before.saturating_mul(self.step))
    }

    /// The column of a version, where this one stands first.
    fn column(&self, low: u64, id: u64) -> usize {
        let place = (id.saturating_sub(low) as usize).min(self.most);
        self.versions.saturating_add(place.saturating_mul(VERSION))
    }
}

/// A run that is drawn, line by line.
#[derive(Drop)]
struct Lanes {
    alloc: Global,
    places: Places,
    axis: Axis,
    cells: Cells,
    text: String,
    /// The version that stands first.
    low: u64,
    boundary: u64,
    /// Of each client, how many operations run.
    running: Vec<u64>,
    holds: Holds,
    standing: BTreeSet<u64>,
}

/// Joins words, two blanks between.
fn join(said: &mut String, words: &str) -> Result<(), AllocError> {
    if !said.as_str().is_empty() {
        said.push_str("  ")?;
    }
    said.push_str(words)
}

/// What is said of a moment.
fn said_of(alloc: Global, moment: &Moment) -> Result<String, AllocError> {
    let mut said = match moment.kind {
        Kind::Lands(k) => format!(in alloc; "⇢ {k} lands")?,
        _ => event_words(alloc, moment)?,
    };
    if let Some(ring) = moment.ring {
        let number = ring.number;
        let words = format!(in alloc; "({number})")?;
        join(&mut said, words.as_str())?;
    }
    if let Some(answer) = &moment.answer {
        let words = answer_words(alloc, answer)?;
        join(&mut said, words.as_str())?;
    }
    for k in &moment.left {
        let words = format!(in alloc; "⇢ in flight {k}")?;
        join(&mut said, words.as_str())?;
    }
    Ok(said)
}

impl Lanes {
    fn new(alloc: Global, clients: usize, moments: &[Moment]) -> Result<Lanes, AllocError> {
        let places = Places::of(clients);
        let mut running = Vec::new(alloc);
        running.resize(clients, 0)?;
        Ok(Lanes {
            alloc,
            places,
            axis: Axis::of(alloc, moments)?,
            cells: Cells::new(alloc, places.width)?,
            text: String::new(alloc),
            low: 1,
            boundary: 0,
            running,
            holds: Holds::new(alloc, clients)?,
            standing: BTreeSet::new(alloc),
        })
    }

    /// The column of a version.
    fn column(&self, id: u64) -> usize {
        self.places.column(self.low, id)
    }

    /// Ends a line.
    fn print(&mut self) -> Result<(), AllocError> {
        let line = self.cells.text(self.alloc)?;
        self.text.push_str(line.as_str())?;
        self.text.push('\n')?;
        self.cells.clear();
        Ok(())
    }

    fn head(&mut self, is_timed: bool) -> Result<(), AllocError> {
        self.cells
            .put_text(2, if is_timed { "time" } else { "event" });
        for index in 0..self.running.len() {
            let client = index as u64 + 1;
            let digit = b'0' + (client % 10) as u8;
            self.cells.put(self.places.lane(client), char::from(digit));
        }
        self.cells.put_text(self.places.words, "what");
        self.cells.put_text(self.places.versions, "versions");
        self.print()
    }

    /// A line across, from the first lane on.
    fn rule(&mut self, words: &str, sign: char, width: usize) -> Result<(), AllocError> {
        let words = format!(in self.alloc; " {words} ")?;
        self.cells.fill(8, 10, sign, 0);
        self.cells.put_text(10, words.as_str());
        let end = words.as_str().chars().count().saturating_add(10);
        self.cells.fill(end, width, sign, 0);
        self.print()
    }

    /// Makes room for a version that is created, to the right of which there is none: the versions begin anew with the one before.
    fn scroll(&mut self, moment: &Moment) -> Result<(), AllocError> {
        let Touch::Creates {
            id,
            is_made: true,
            ..
        } = &moment.touch
        else {
            return Ok(());
        };
        if id.saturating_sub(self.low) < self.places.most as u64 {
            return Ok(());
        }
        self.low = id.saturating_sub(1);
        let low = self.low;
        let words = format!(in self.alloc; "versions from {low} on")?;
        let width = self.places.versions;
        self.rule(words.as_str(), '┄', width)
    }

    /// Whether operations of a client run, and what its lane shows beside.
    fn lane_sign(&self, index: usize) -> char {
        match self.running.get(index) {
            Some(count) if *count > 0 => '┃',
            _ => match self.holds.of(index) {
                Hold::ShutOut(_) => '┆',
                _ => '│',
            },
        }
    }

    /// Draws what stands before the moment.
    fn ground(&mut self) {
        for index in 0..self.running.len() {
            let at = self.places.lane(index as u64 + 1);
            let sign = self.lane_sign(index);
            self.cells.put(at, sign);
        }
        let places = self.places;
        let low = self.low;
        let last = low.saturating_add(places.most as u64);
        for id in self.standing.range(low..=last) {
            self.cells.put(places.column(low, *id), '│');
        }
    }

    /// Counts an operation more of a client that runs, or one less.
    fn count(&mut self, client: u64, begins: bool) {
        let index = client.saturating_sub(1) as usize;
        if client != 0 && index < self.running.len() {
            let count = self.running[index];
            self.running[index] = if begins {
                count.saturating_add(1)
            } else {
                count.saturating_sub(1)
            };
        }
    }

    /// The sign of a moment in its client's lane, where it has one.
    fn mark(&mut self, moment: &Moment) -> Option<char> {
        let ends = moment.answer.is_some();
        match moment.kind {
            Kind::Begins if ends => Some('╺'),
            Kind::Begins => {
                self.count(moment.client, true);
                Some('┳')
            }
            Kind::Crashes | Kind::Killed => {
                let index = moment.client.saturating_sub(1) as usize;
                if index < self.running.len() {
                    self.running[index] = 0;
                }
                Some('╳')
            }
            Kind::GivesUp => {
                self.count(moment.client, false);
                Some('┻')
            }
            Kind::Lands(_) | Kind::Refused => None,
            _ if ends => {
                self.count(moment.client, false);
                Some('┻')
            }
            Kind::Serves => Some('●'),
            _ => None,
        }
    }

    /// Draws a write to a place, from a place on.
    fn write(&mut self, from: usize, at: usize, sign: char, words: &str) {
        let words_at = self.places.words;
        self.cells.fill(from, at, '─', words_at);
        self.cells.put(at, sign);
        self.cells.put_text(at.saturating_add(1), words);
    }

    /// Draws a read of a place.
    fn read(&mut self, from: usize, at: usize, sign: char, words: &str) {
        self.cells.fill(from, at, '·', 0);
        self.cells.put(at, sign);
        self.cells.put_text(at.saturating_add(1), words);
    }

    /// Draws what a create came to.
    fn create(
        &mut self,
        from: usize,
        id: u64,
        value: &str,
        is_made: bool,
        is_again: bool,
    ) -> Result<(), AllocError> {
        let at = self.column(id);
        if !is_made {
            let words = format!(in self.alloc; "{id}")?;
            self.write(from, at, '✗', words.as_str());
            return Ok(());
        }
        let words = format!(in self.alloc; "{id} {value}")?;
        self.write(from, at, if is_again { '□' } else { '■' }, words.as_str());
        self.standing.insert(id)?;
        Ok(())
    }

    /// Draws what a removal came to.
    fn remove(&mut self, from: usize, id: u64, is_removed: bool) -> Result<(), AllocError> {
        let at = self.column(id);
        let words = format!(in self.alloc; "{id}")?;
        self.write(from, at, if is_removed { '×' } else { '✗' }, words.as_str());
        if is_removed {
            self.standing.remove(&id);
        }
        Ok(())
    }

    /// Draws what a raise of the boundary came to.
    fn raise(&mut self, from: usize, to: u64, is_raised: bool) -> Result<(), AllocError> {
        let at = self.column(to).saturating_add(1);
        if is_raised {
            self.boundary = to;
            let words = format!(in self.alloc; " boundary {to}")?;
            self.write(from, at, '◆', words.as_str());
        } else {
            self.write(from, at, '✗', "");
        }
        Ok(())
    }

    /// Draws a read of the boundary.
    fn read_boundary(&mut self, from: usize) {
        let at = if self.boundary == 0 {
            self.places.versions.saturating_sub(2)
        } else {
            self.column(self.boundary).saturating_add(1)
        };
        self.read(from, at, '◇', "");
    }

    /// Draws a listing.
    fn list(&mut self, from: usize, ids: &[u64]) {
        let versions = self.places.versions;
        self.cells.fill(from, versions, '·', 0);
        for id in ids {
            let at = self.column(*id);
            self.cells.put(at, '⊓');
        }
    }

    /// Draws what a moment did to the store, from a place on.
    fn touch(&mut self, touch: &Touch, from: usize) -> Result<(), AllocError> {
        match touch {
            Touch::None => Ok(()),
            Touch::Creates {
                id,
                value,
                is_made,
                is_again,
                ..
            } => self.create(from, *id, value.as_str(), *is_made, *is_again),
            Touch::Gets { id, is_there } => {
                let words = format!(in self.alloc; "{id}")?;
                let sign = if *is_there { '●' } else { '○' };
                let at = self.column(*id);
                self.read(from, at, sign, words.as_str());
                Ok(())
            }
            Touch::Lists(ids) => {
                self.list(from, ids.as_slice());
                Ok(())
            }
            Touch::ReadsBoundary => {
                self.read_boundary(from);
                Ok(())
            }
            Touch::Raises { to, is_raised } => self.raise(from, *to, *is_raised),
            Touch::Removes { id, is_removed } => self.remove(from, *id, *is_removed),
        }
    }

    /// Draws a line across where a greater epoch comes in.
    fn fence(&mut self, moment: &Moment) -> Result<(), AllocError> {
        let Some(epoch) = self.holds.comes_in(moment) else {
            return Ok(());
        };
        let is_claim = self.holds.is_claim(moment);
        let out = self.holds.shut_out(self.alloc, epoch)?;
        let words = fence_words(self.alloc, moment.client, is_claim, epoch, out.as_slice())?;
        let sign = if out.is_empty() { '─' } else { '╪' };
        let width = self.places.width;
        self.rule(words.as_str(), sign, width)
    }

    /// Draws a line across where nothing happened for long before a moment.
    fn pause(&mut self, moment: &Moment) -> Result<(), AllocError> {
        let Some(long) = self.axis.pause_before(moment) else {
            return Ok(());
        };
        let long = duration(self.alloc, long)?;
        let words = format!(in self.alloc; "{long} later")?;
        let width = self.places.width;
        self.rule(words.as_str(), '┄', width)
    }

    /// What stands beside a moment.
    fn label(&mut self, moment: &Moment) -> Result<(), AllocError> {
        let label = self.axis.label(moment)?;
        let label = cut(self.alloc, label.as_str(), BESIDE)?;
        let count = label.as_str().chars().count();
        self.cells.put_text(
            BESIDE.saturating_sub(1).saturating_sub(count),
            label.as_str(),
        );
        Ok(())
    }

    /// Draws a moment.
    fn moment(&mut self, moment: &Moment) -> Result<(), AllocError> {
        if moment.kind == Kind::Looks && moment.answer.is_none() {
            return Ok(());
        }
        self.pause(moment)?;
        self.scroll(moment)?;
        self.label(moment)?;
        self.ground();
        let lane = self.places.lane(moment.client);
        if let Some(sign) = self.mark(moment) {
            self.cells.put(lane, sign);
        }
        let said = said_of(self.alloc, moment)?;
        let room = WORDS.saturating_sub(1);
        let said = cut(self.alloc, said.as_str(), room)?;
        let count = said.as_str().chars().count();
        let from = match moment.kind {
            Kind::Lands(_) => self.places.words.saturating_add(count),
            _ => lane,
        };
        self.touch(&moment.touch, from.saturating_add(1))?;
        if count > 0 {
            let words = self.places.words;
            self.cells.put_text(words, said.as_str());
            self.cells.put(words.saturating_add(count), ' ');
        }
        self.print()?;
        self.holds.note(moment)?;
        self.fence(moment)
    }
}

/// What happened to so many clients as text, line by line: a part of it, whose times are of all.
///
/// # Errors
///
/// Want of memory alone.
pub fn drawn(alloc: Global, clients: u64, part: Part<'_>) -> Result<String, AllocError> {
    let mut lanes = Lanes::new(alloc, clients as usize, part.moments)?;
    lanes.head(are_timed(part.moments))?;
    for (place, moment) in part.moments.iter().enumerate() {
        if place == part.before && place > 0 {
            lanes.text.clear();
            lanes.head(are_timed(part.moments))?;
        }
        lanes.moment(moment)?;
    }
    let Lanes { text, .. } = lanes;
    Ok(text)
}
