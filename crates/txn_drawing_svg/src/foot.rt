//! The foot of a picture: the history under the lines of its versions, and the end lines.

use crate::places::Places;
use crate::shapes::{At, Box, across, begin_group, colour, end_group, rectangle, text};
use crate::versions::{Version, Versions};
use crate::xml::Xml;
use std::alloc::{AllocError, Global};

/// The value of an entry under its number, where it has room, and who wrote it.
fn under_entry(
    alloc: Global,
    xml: &mut Xml,
    step: u64,
    version: &Version,
    at: At,
) -> Result<(), AllocError> {
    let wide = (version.value.as_str().chars().count() as u64).saturating_mul(57) / 10;
    let client = version.client;
    let writer = format!(in alloc; "c{client}")?;
    if wide <= step.saturating_add(2) {
        let under = At {
            x: at.x,
            y: at.y.saturating_add(19),
        };
        text(alloc, xml, "a m", under, version.value.as_str())?;
    }
    let under = At {
        x: at.x,
        y: at.y.saturating_add(30),
    };
    text(alloc, xml, "a m mu", under, writer.as_str())
}

/// An entry of the history: its number, whose box is dashed where it was removed.
fn entry(
    alloc: Global,
    xml: &mut Xml,
    step: u64,
    version: &Version,
    at: At,
) -> Result<(), AllocError> {
    let k = colour(version.epoch);
    let id = version.id;
    let value = version.value.as_str();
    let number = format!(in alloc; "{id}")?;
    let half = (number.as_str().len() as u64).saturating_mul(33) / 10;
    let half = half.saturating_add(3).max(9);
    let class = if version.is_gone {
        format!(in alloc; "bs s{k} w1 dash")?
    } else {
        format!(in alloc; "f{k}")?
    };
    let tip = format!(in alloc; "entry {id}: {value}")?;
    begin_group(xml, tip.as_str())?;
    let area = Box {
        x: at.x.saturating_sub(half),
        y: at.y.saturating_sub(7),
        width: half.saturating_mul(2),
        height: 14,
    };
    rectangle(alloc, xml, class.as_str(), area, 3)?;
    let words = At {
        x: at.x,
        y: at.y.saturating_add(4),
    };
    let class = if version.is_gone { "v" } else { "v on" };
    text(alloc, xml, class, words, number.as_str())?;
    under_entry(alloc, xml, step, version, at)?;
    end_group(xml)
}

/// Says at a height what the versions are.
fn name_of(alloc: Global, xml: &mut Xml, left: At, is_refused: bool) -> Result<(), AllocError> {
    if !is_refused {
        return text(alloc, xml, "st b r", left, "the history");
    }
    text(alloc, xml, "st b r no", left, "no history")?;
    let below = At {
        x: left.x,
        y: left.y.saturating_add(15),
    };
    text(alloc, xml, "leg mu r", below, "versions as told")
}

/// Draws the history at a height, or that there is none: the entries whose lines end above it.
///
/// # Errors
///
/// Want of memory alone. A part of what it draws may stand then.
pub fn history(
    alloc: Global,
    xml: &mut Xml,
    places: &Places,
    versions: &Versions,
    y: u64,
    is_refused: bool,
) -> Result<(), AllocError> {
    let left = At {
        x: places.store.saturating_sub(14),
        y: y.saturating_add(4),
    };
    name_of(alloc, xml, left, is_refused)?;
    for version in &versions.versions {
        if version.id >= versions.low {
            let x = places.version(version.id, versions.low);
            if version.id > versions.low {
                let from = x.saturating_sub(places.step).saturating_add(9);
                across(alloc, xml, "ax w1", from, x.saturating_sub(9), y)?;
            }
            entry(alloc, xml, places.step, version, At { x, y })?;
        }
    }
    Ok(())
}

/// How many lines these are.
pub fn lines_in(lines: &[u8]) -> u64 {
    let mut count = 0u64;
    for byte in lines {
        if *byte == b'\n' {
            count = count.saturating_add(1);
        }
    }
    count
}
