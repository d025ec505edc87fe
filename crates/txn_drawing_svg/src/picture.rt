//! What happened, as one picture in SVG.
//!
//! Time runs down, one row a moment. The clients stand left, each in its column, and the versions right, each a line from its
//! create to its removal. Colour is the epoch, and red a refusal or a failure.

ghost use Rattle.std.specs.Prelude.{◌≡◌, ◌++◌, ℕ, List, IfOk};
ghost use Rattle.txn_drawing_svg.specs.Escaped.{escaped_lines};

use crate::foot::{history, lines_in};
use crate::head::{Title, add_names, add_title, counts};
use crate::legend::legend;
use crate::places::Places;
use crate::plan::Plan;
use crate::rows::Rows;
use crate::shapes::across;
use crate::style::{DARK, FORMS, HATCHING, LIGHT};
use crate::xml::Xml;
use std::alloc::{AllocError, Global};
use txn_drawing_moments::axis::Axis;
use txn_drawing_moments::part::Part;

/// Begins a picture of this size, with its title, and what is told of it.
fn begin(
    alloc: Global,
    xml: &mut Xml,
    width: u64,
    height: u64,
    title: &str,
    counts: &str,
    told: &Xml,
) -> Result<(), AllocError> {
    let size = format!(in alloc;
        "<svg xmlns='http://www.w3.org/2000/svg' viewBox='0 0 {width} {height}' width='{width}' height='{height}' role='img' aria-labelledby='t d'>\n"
    )?;
    xml.push_markup(size.as_str())?;
    xml.push_markup("<title id='t'>")?;
    xml.push_text(title)?;
    xml.push_markup("</title>\n<desc id='d'>")?;
    xml.push_text(counts)?;
    xml.push_markup("; ")?;
    xml.push_part(told)?;
    xml.push_markup("</desc>\n<style>")?;
    xml.push_markup(FORMS)?;
    xml.push_markup(LIGHT)?;
    xml.push_markup("@media screen and (prefers-color-scheme:dark){")?;
    xml.push_markup(DARK)?;
    xml.push_markup("}</style>\n<defs>")?;
    xml.push_markup(HATCHING)?;
    xml.push_markup("</defs>\n")?;
    let ground = format!(in alloc; "<rect class='bg' width='{width}' height='{height}'/>\n")?;
    xml.push_markup(ground.as_str())
}

/// Where the rows of a picture begin and end, and how high it is.
#[derive(Clone, Copy)]
struct Size {
    top: u64,
    bottom: u64,
    height: u64,
}

/// What stands above the lines at the foot, and what below them.
#[derive(Drop)]
struct Frame {
    above: Xml,
    below: Xml,
}

/// Adds what stands above the lines at the foot.
fn add_above(
    alloc: Global,
    xml: &mut Xml,
    title: Title<'_>,
    rows: &Rows<'_>,
    size: Size,
) -> Result<(), AllocError> {
    let places = rows.places;
    let counts = counts(alloc, rows.plan)?;
    let (words, told) = (counts.as_str(), &rows.columns.told);
    begin(
        alloc,
        xml,
        places.width,
        size.height,
        title.title,
        words,
        told,
    )?;
    rows.add_to(xml, size.top, size.bottom)?;
    add_title(alloc, xml, title, words, places.width)?;
    add_names(alloc, xml, places, "cl", size.top.saturating_sub(30))?;
    let foot = size.bottom.saturating_add(34);
    history(alloc, xml, places, &rows.versions, foot, title.is_refused)?;
    let rule = foot.saturating_add(42);
    across(
        alloc,
        xml,
        "hl w1",
        14,
        places.width.saturating_sub(14),
        rule,
    )?;
    let lines = foot.saturating_add(60);
    let begin = format!(in alloc; "<text class='mu' x='14' y='{lines}'><tspan>")?;
    xml.push_markup(begin.as_str())
}

/// Adds what stands below the lines at the foot, from a height on: the height of its end.
fn add_below(alloc: Global, xml: &mut Xml, rows: &Rows<'_>, top: u64) -> Result<u64, AllocError> {
    xml.push_markup("</tspan></text>\n")?;
    let end = legend(alloc, xml, rows.marks.used, top, rows.places.width)?;
    xml.push_markup("</svg>\n")?;
    Ok(end)
}

/// Draws the moments of a part, from a height on.
fn draw(rows: &mut Rows<'_>, part: Part<'_>, top: u64) -> Result<(), AllocError> {
    for (place, moment) in part.moments.iter().enumerate() {
        if place == part.before {
            rows.begin_at(top);
        }
        rows.moment(moment)?;
    }
    Ok(())
}

/// Draws the moments of a part, and adds what stands above and below so many lines at the foot.
fn fill(
    alloc: Global,
    title: Title<'_>,
    rows: &mut Rows<'_>,
    part: Part<'_>,
    lines: u64,
    frame: &mut Frame,
) -> Result<(), AllocError> {
    let top = title.height();
    draw(rows, part, top)?;
    let bottom = rows.finish()?;
    let below = lines
        .saturating_mul(14)
        .saturating_add(bottom)
        .saturating_add(104);
    let height = add_below(alloc, &mut frame.below, rows, below)?;
    let size = Size {
        top,
        bottom,
        height,
    };
    add_above(alloc, &mut frame.above, title, rows, size)
}

/// Draws all but the lines at the foot, which are so many.
fn framed(
    alloc: Global,
    title: Title<'_>,
    clients: u64,
    part: Part<'_>,
    lines: u64,
    frame: &mut Frame,
) -> Result<(), AllocError> {
    let plan = Plan::of(alloc, clients, part)?;
    let places = Places::of(alloc, &plan)?;
    let axis = Axis::of(alloc, part.moments)?;
    let mut rows = Rows::new(alloc, &plan, &places, title.height(), axis)?;
    fill(alloc, title, &mut rows, part, lines, frame)
}

/// What happened to so many clients, a part of it, as a picture with these lines at its foot.
///
/// # Errors
///
/// Want of memory alone.
pub fn drawn(
    alloc: Global,
    title: Title<'_>,
    clients: u64,
    part: Part<'_>,
    lines: &[u8],
) -> Result<Vec<u8>, AllocError>
    ensures foot { IfOk result (λ bytes. (above below : List ℕ) × (bytes.items ≡ above ++ (escaped_lines lines.now ++ below))) }
{
    let mut frame = Frame {
        above: Xml::new(alloc),
        below: Xml::new(alloc),
    };
    framed(alloc, title, clients, part, lines_in(lines), &mut frame)?;
    let Frame { mut above, below } = frame;
    above.push_lines(lines)?;
    above.push_part(&below)?;
    drop(below);
    Ok(above.into_bytes())
}
