//! Where things stand in a picture, in pixels.

use crate::plan::Plan;
use std::alloc::{AllocError, Global};

/// Where the first column begins; left of it stand the numbers of the events.
const FIRST: u64 = 58;

/// Up to so many clients have a column with text.
const WIDE: usize = 4;

/// The most versions side by side.
const MOST: u64 = 12;

/// How wide the lane of a circle's calls is.
const CIRCLE: u64 = 64;

/// The places of the text of all clients, where they have no columns with text.
const TEXT: u64 = 34;

/// A client's column.
#[derive(Clone, Copy)]
pub struct Column {
    pub left: u64,
    pub width: u64,
    /// Where its text begins, and how many characters have room.
    pub text: u64,
    pub room: usize,
    /// From one of its bars to the next, and where the first stands.
    pub step: u64,
    pub bar: u64,
}

/// Where things stand.
#[derive(Drop)]
pub struct Places {
    pub columns: Vec<Column>,
    /// Whether each column has text of its own.
    pub is_wide: bool,
    /// Whether times stand beside the rows, and no numbers.
    pub is_timed: bool,
    /// How high a row is.
    pub pitch: u64,
    /// Where the lanes of requests in flight begin.
    pub flight: u64,
    pub has_flights: bool,
    /// Where the numbers of a circle's calls stand, where there is one.
    pub circle: Option<u64>,
    /// Where the versions begin, from one to the next, and how many have a place.
    pub store: u64,
    pub step: u64,
    pub most: u64,
    pub width: u64,
}

/// So many characters of 11 pixels' height, in pixels.
pub fn pixels(characters: usize) -> u64 {
    (characters as u64).saturating_mul(66) / 10
}

/// How many characters of 11 pixels' height have room.
fn characters(pixels: u64) -> usize {
    (pixels.saturating_mul(10) / 66) as usize
}

/// How wide a column with text is, by the count of clients.
fn wide(clients: usize) -> u64 {
    match clients {
        1 => 300,
        2 => 284,
        3 => 240,
        _ => 206,
    }
}

/// A column with text, whose client has so many calls at once.
fn wide_column(left: u64, width: u64, lanes: u64) -> Column {
    let more = lanes.saturating_sub(1).saturating_mul(12);
    Column {
        left,
        width: width.saturating_sub(8),
        text: left.saturating_add(24).saturating_add(more),
        room: characters(width.saturating_sub(34).saturating_sub(more)),
        step: 12,
        bar: left.saturating_add(12),
    }
}

/// A column without text, of one of so many clients.
fn narrow_column(left: u64, clients: usize, lanes: u64) -> Column {
    let width = if clients <= 16 {
        lanes.saturating_mul(11).saturating_add(14).max(20)
    } else {
        13
    };
    Column {
        left,
        width: width.saturating_sub(3),
        text: 0,
        room: TEXT as usize,
        step: if clients <= 16 { 11 } else { 0 },
        bar: left.saturating_add(if clients <= 16 { 10 } else { 6 }),
    }
}

/// The columns of clients, and where they end.
fn columns(alloc: Global, lanes: &[usize]) -> Result<(Vec<Column>, u64), AllocError> {
    let mut columns = Vec::new(alloc);
    let mut left = FIRST;
    let clients = lanes.len();
    for count in lanes {
        let column = if clients <= WIDE {
            wide_column(left, wide(clients), *count as u64)
        } else {
            narrow_column(left, clients, *count as u64)
        };
        left = left
            .saturating_add(column.width)
            .saturating_add(if clients <= WIDE { 8 } else { 3 });
        columns.push(column)?;
    }
    Ok((columns, left))
}

/// Where the text of all clients begins, if they have one for all.
fn share_text(columns: &mut Vec<Column>, text: u64) {
    for column in columns.iter_mut() {
        column.text = text;
    }
}

/// How high a row is, where there are so many.
fn pitch_of(rows: usize) -> u64 {
    match rows {
        0..=260 => 15,
        261..=700 => 9,
        _ => 3,
    }
}

/// How many digits a number has.
pub fn digits(number: u64) -> u64 {
    let mut digits = 1u64;
    let mut left = number / 10;
    for _ in 0..20 {
        if left > 0 {
            digits = digits.saturating_add(1);
            left /= 10;
        }
    }
    digits
}

/// From one version to the next, where so many have a place and this is the greatest.
fn version_step(most: u64, newest: u64) -> u64 {
    let step = match most {
        0..=6 => 38,
        7..=9 => 31,
        _ => 26,
    };
    digits(newest)
        .saturating_mul(7)
        .saturating_add(10)
        .max(step)
}

impl Places {
    /// Where things stand in a picture that has room for this.
    ///
    /// # Errors
    ///
    /// Want of memory alone.
    pub fn of(alloc: Global, plan: &Plan) -> Result<Places, AllocError> {
        let (mut columns, end) = columns(alloc, plan.lanes.as_slice())?;
        let is_wide = columns.len() <= WIDE;
        let mut flight = end;
        if !is_wide {
            share_text(&mut columns, end.saturating_add(8));
            flight = end.saturating_add(pixels(TEXT as usize)).saturating_add(14);
        }
        let flights = match plan.flights as u64 {
            0 => 0,
            count => count.saturating_mul(13).saturating_add(26).max(62),
        };
        let behind = flight.saturating_add(flights);
        let circle = if plan.has_circle { CIRCLE } else { 0 };
        let store = behind.saturating_add(circle).saturating_add(12);
        let most = (plan.versions as u64).saturating_add(1).clamp(4, MOST);
        let step = version_step(most, plan.newest);
        let end = store
            .saturating_add(most.saturating_mul(step))
            .saturating_add(54);
        Ok(Places {
            columns,
            is_wide,
            is_timed: plan.is_timed,
            pitch: pitch_of(plan.rows),
            flight,
            has_flights: flights > 0,
            circle: plan.has_circle.then_some(behind.saturating_add(34)),
            store,
            step,
            most,
            width: end.max(700).max(store.saturating_add(200)),
        })
    }

    /// The column of a client, that of the first where it has none.
    pub fn column(&self, client: u64) -> Column {
        let index = client.saturating_sub(1) as usize;
        match self.columns.get(index) {
            Some(column) => *column,
            None => Column {
                left: FIRST,
                width: 0,
                text: FIRST,
                room: TEXT as usize,
                step: 0,
                bar: FIRST,
            },
        }
    }

    /// Where a bar stands in a client's column.
    pub fn bar(&self, client: u64, lane: usize) -> u64 {
        let column = self.column(client);
        column
            .bar
            .saturating_add((lane as u64).saturating_mul(column.step))
    }

    /// Where a version stands, where those from `low` on have a place: at the edge where it is below.
    pub fn version(&self, id: u64, low: u64) -> u64 {
        if id < low {
            return self.store.saturating_add(2);
        }
        let place = id.saturating_sub(low).min(self.most);
        self.store
            .saturating_add(20)
            .saturating_add(place.saturating_mul(self.step))
    }

    /// Where a boundary stands: behind the version of its number.
    pub fn boundary(&self, boundary: u64, low: u64) -> u64 {
        let behind = boundary.saturating_add(1).max(low);
        let place = behind.saturating_sub(low).min(self.most.saturating_add(1));
        self.store
            .saturating_add(20)
            .saturating_add(place.saturating_mul(self.step))
            .saturating_sub(self.step / 2)
    }

    /// Where a lane of a request in flight stands.
    pub fn in_flight(&self, lane: usize) -> u64 {
        self.flight
            .saturating_add(12)
            .saturating_add((lane as u64).saturating_mul(13))
    }
}
