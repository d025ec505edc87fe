//! The head of a picture: what it is of, and the names of its columns.

use crate::places::Places;
use crate::plan::Plan;
use crate::shapes::{At, text};
use crate::xml::Xml;
use std::alloc::{AllocError, Global};
use txn_drawing_moments::times::duration;
use txn_drawing_moments::words::cut;

/// What a picture says of itself.
#[derive(Clone, Copy)]
pub struct Title<'a> {
    /// What it is of.
    pub title: &'a str,
    /// A line below it, "" for none.
    pub comment: &'a str,
    /// Lines below that, the first in bold.
    pub said: &'a [String],
    /// Whether these refuse what is drawn: its versions are no history then.
    pub is_refused: bool,
}

impl Title<'_> {
    /// How many lines stand below the title.
    fn lines(&self) -> usize {
        if self.comment.is_empty() {
            self.said.len()
        } else {
            self.said.len().saturating_add(1)
        }
    }

    /// How high the head of a picture is with it.
    pub fn height(&self) -> u64 {
        (self.lines() as u64).saturating_mul(17).saturating_add(106)
    }
}

/// A number of things.
fn counted(alloc: Global, count: u64, one: &str, more: &str) -> Result<String, AllocError> {
    if count == 1 {
        format!(in alloc; "1 {one}")
    } else {
        format!(in alloc; "{count} {more}")
    }
}

/// What there is of each, in a line.
///
/// # Errors
///
/// Want of memory alone.
pub fn counts(alloc: Global, plan: &Plan) -> Result<String, AllocError> {
    let clients = counted(alloc, plan.lanes.len() as u64, "client", "clients")?;
    let events = counted(alloc, plan.events as u64, "event", "events")?;
    let versions = counted(alloc, plan.versions as u64, "version", "versions")?;
    let boundary = plan.boundary;
    let mut all = format!(in alloc; "{clients} · {events} · {versions} · boundary {boundary}")?;
    if let Some(span) = plan.span {
        all.push_str(" · ")?;
        all.push_str(duration(alloc, span)?.as_str())?;
    }
    Ok(all)
}

/// Adds a line below the title, as much of it as there is room for: where the next one stands.
fn add_line(
    alloc: Global,
    xml: &mut Xml,
    class: &str,
    at: At,
    line: &str,
    room: usize,
) -> Result<At, AllocError> {
    let line = cut(alloc, line, room)?;
    text(alloc, xml, class, at, line.as_str())?;
    Ok(At {
        x: at.x,
        y: at.y.saturating_add(17),
    })
}

/// Adds the title, the counts and the lines below.
///
/// # Errors
///
/// Want of memory alone. A part of what it draws may stand then.
pub fn add_title(
    alloc: Global,
    xml: &mut Xml,
    title: Title<'_>,
    counts: &str,
    width: u64,
) -> Result<(), AllocError> {
    let room = (width.saturating_sub(28).saturating_mul(10) / 64) as usize;
    text(alloc, xml, "h", At { x: 14, y: 30 }, title.title)?;
    text(alloc, xml, "st mu", At { x: 14, y: 49 }, counts)?;
    let mut at = At { x: 14, y: 70 };
    if !title.comment.is_empty() {
        at = add_line(alloc, xml, "st", at, title.comment, room)?;
    }
    for (place, line) in title.said.iter().enumerate() {
        let class = if place == 0 { "st b" } else { "st" };
        at = add_line(alloc, xml, class, at, line.as_str(), room)?;
    }
    Ok(())
}

/// Adds the names of the columns at a height, in this class.
///
/// # Errors
///
/// Want of memory alone. A part of what it draws may stand then.
pub fn add_names(
    alloc: Global,
    xml: &mut Xml,
    places: &Places,
    class: &str,
    y: u64,
) -> Result<(), AllocError> {
    for (index, column) in places.columns.iter().enumerate() {
        let client = (index as u64).saturating_add(1);
        let name = if places.is_wide {
            format!(in alloc; "client {client}")?
        } else {
            format!(in alloc; "{client}")?
        };
        let x = column.left.saturating_add(4);
        text(alloc, xml, class, At { x, y }, name.as_str())?;
    }
    let beside = if places.is_timed { "time" } else { "event" };
    text(alloc, xml, "a r mu", At { x: 50, y }, beside)?;
    if let Some(x) = places.circle {
        text(alloc, xml, "a m no", At { x, y }, "no order")?;
    }
    if places.has_flights {
        let x = places.flight.saturating_add(2);
        text(alloc, xml, "a mu", At { x, y }, "in flight")?;
    }
    let x = places.store.saturating_sub(4);
    text(alloc, xml, class, At { x, y }, "the versions in the store")
}
