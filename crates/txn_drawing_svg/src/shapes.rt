//! The shapes of a picture.

use crate::xml::Xml;
use std::alloc::{AllocError, Global};

/// A place in a picture, in pixels.
#[derive(Clone, Copy)]
pub struct At {
    pub x: u64,
    pub y: u64,
}

/// A rectangle.
#[derive(Clone, Copy)]
pub struct Box {
    pub x: u64,
    pub y: u64,
    pub width: u64,
    pub height: u64,
}

/// The colour of an epoch: 0 for the epoch 0, and three in turn.
pub fn colour(epoch: u64) -> u64 {
    match epoch {
        0 => 0,
        epoch => epoch.saturating_sub(1) % 3 + 1,
    }
}

/// A line from one place to another.
///
/// # Errors
///
/// Want of memory alone. A part of what it draws may stand then.
pub fn line(alloc: Global, xml: &mut Xml, class: &str, from: At, to: At) -> Result<(), AllocError> {
    let (x, y) = (from.x, from.y);
    let (right, below) = (to.x, to.y);
    let mark = format!(in alloc; "<path class='{class}' d='M{x} {y}L{right} {below}'/>\n")?;
    xml.push_markup(mark.as_str())
}

/// A line across to a place.
///
/// # Errors
///
/// Want of memory alone. A part of what it draws may stand then.
pub fn across(
    alloc: Global,
    xml: &mut Xml,
    class: &str,
    from: u64,
    to: u64,
    y: u64,
) -> Result<(), AllocError> {
    line(alloc, xml, class, At { x: from, y }, At { x: to, y })
}

/// A rectangle with round corners of this radius.
///
/// # Errors
///
/// Want of memory alone. A part of what it draws may stand then.
pub fn rectangle(
    alloc: Global,
    xml: &mut Xml,
    class: &str,
    at: Box,
    round: u64,
) -> Result<(), AllocError> {
    let Box {
        x,
        y,
        width,
        height,
    } = at;
    let mark = format!(in alloc;
        "<rect class='{class}' x='{x}' y='{y}' width='{width}' height='{height}' rx='{round}'/>\n"
    )?;
    xml.push_markup(mark.as_str())
}

/// A circle; its radius is in tenths of a pixel.
///
/// # Errors
///
/// Want of memory alone. A part of what it draws may stand then.
pub fn circle(
    alloc: Global,
    xml: &mut Xml,
    class: &str,
    at: At,
    tenths: u64,
) -> Result<(), AllocError> {
    let At { x, y } = at;
    let (whole, rest) = (tenths / 10, tenths % 10);
    let mark = format!(in alloc;
        "<circle class='{class}' cx='{x}' cy='{y}' r='{whole}.{rest}'/>\n"
    )?;
    xml.push_markup(mark.as_str())
}

/// A shape whose path begins at a place.
///
/// # Errors
///
/// Want of memory alone. A part of what it draws may stand then.
pub fn shape(
    alloc: Global,
    xml: &mut Xml,
    class: &str,
    at: At,
    path: &str,
) -> Result<(), AllocError> {
    let At { x, y } = at;
    let mark = format!(in alloc; "<path class='{class}' d='M{x} {y}{path}'/>\n")?;
    xml.push_markup(mark.as_str())
}

/// A cross.
pub const CROSS: &str = "m-4 -4l8 8m0 -8l-8 8";

/// The point of an arrow that ends here.
pub const POINT: &str = "l-7 -3.5v7z";

/// The sign of a boundary that is read.
pub const DIAMOND: &str = "m0 -4l4 4l-4 4l-4 -4z";

/// The sign of a version that is listed.
pub const BRACKET: &str = "m-4 2v-4h8v4";

/// A stop across a line that ends.
pub const STOP: &str = "m0 -4v8";

/// A text.
///
/// # Errors
///
/// Want of memory alone. A part of what it draws may stand then.
pub fn text(
    alloc: Global,
    xml: &mut Xml,
    class: &str,
    at: At,
    words: &str,
) -> Result<(), AllocError> {
    let At { x, y } = at;
    let mark = format!(in alloc; "<text class='{class}' x='{x}' y='{y}'>")?;
    xml.push_markup(mark.as_str())?;
    xml.push_text(words)?;
    xml.push_markup("</text>\n")
}

/// Begins a group that says this where a pointer rests on it.
///
/// # Errors
///
/// Want of memory alone. A part of what it draws may stand then.
pub fn begin_group(xml: &mut Xml, tip: &str) -> Result<(), AllocError> {
    xml.push_markup("<g><title>")?;
    xml.push_text(tip)?;
    xml.push_markup("</title>")
}

/// Ends a group.
///
/// # Errors
///
/// Want of memory alone. A part of what it draws may stand then.
pub fn end_group(xml: &mut Xml) -> Result<(), AllocError> {
    xml.push_markup("</g>\n")
}
