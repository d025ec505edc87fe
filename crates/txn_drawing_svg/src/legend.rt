//! The legend: the marks that a picture has.

ghost use Rattle.std.specs.Prelude.{◌≤◌};

use crate::shapes::{At, text};
use crate::xml::Xml;
use std::alloc::{AllocError, Global};

/// The marks that stand in a legend, as bits.
pub const CREATE: u64 = 1;

pub const TAKEN: u64 = 2;

pub const GET: u64 = 4;

pub const MISSING: u64 = 8;

pub const LISTED: u64 = 16;

pub const BOUNDARY: u64 = 32;

pub const RAISED: u64 = 64;

pub const REMOVED: u64 = 128;

pub const AGAIN: u64 = 256;

pub const HOLDS: u64 = 512;

pub const FENCE: u64 = 1024;

pub const SHUT_OUT: u64 = 2048;

pub const FAILED: u64 = 4096;

pub const FLIGHT: u64 = 8192;

pub const CRASHED: u64 = 16384;

pub const FAULT: u64 = 32768;

pub const REFUSED: u64 = 65536;

pub const RINGED: u64 = 131_072;

pub const CIRCLE: u64 = 262_144;

pub const BY_REPLIES: u64 = 524_288;

pub const BY_TIME: u64 = 1_048_576;

pub const PAUSE: u64 = 2_097_152;

/// How a mark is drawn, with its place at the middle of its left side, and what it means.
struct Sample {
    mark: u64,
    drawn: &'static str,
    words: &'static str,
}

/// The bar of a call, which each picture has.
const CALL: Sample = Sample {
    mark: 0,
    drawn: "<rect class='bar' x='10' y='-8' width='8' height='16' rx='3'/><circle class='if' cx='14' cy='0' r='2'/>",
    words: "a call; each dot is a store call",
};

/// The samples of the marks, in the order of a legend.
const SAMPLES: [Sample; 23] = [
    Sample {
        mark: CREATE,
        drawn: "<path class='s0 w15' d='M0 0H16'/><path class='f0' d='M17 0l-7 -3.5v7z'/><rect class='f0' x='17' y='-7' width='18' height='14' rx='3'/><text class='v on' x='26' y='4'>2</text>",
        words: "create: a new version, on the dot",
    },
    Sample {
        mark: TAKEN,
        drawn: "<path class='ns w1' d='M0 0H24'/><path class='ns w2' d='M24 -4l8 8m0 -8l-8 8'/>",
        words: "refused: it changed nothing",
    },
    Sample {
        mark: GET,
        drawn: "<path class='hl rd' d='M0 0H28'/><circle class='f0' cx='28' cy='0' r='3.8'/>",
        words: "get: this version was seen",
    },
    Sample {
        mark: MISSING,
        drawn: "<path class='hl rd' d='M0 0H28'/><circle class='bs ax w1' cx='28' cy='0' r='3.3'/>",
        words: "get: no such version",
    },
    Sample {
        mark: LISTED,
        drawn: "<path class='hl rd' d='M0 0H30'/><path class='s0 w15' d='M14 2v-4h8v4M26 2v-4h8v4'/>",
        words: "listing: these versions were told",
    },
    Sample {
        mark: BOUNDARY,
        drawn: "<path class='hl rd' d='M0 0H24'/><path class='bs ax w1' d='M28 -4l4 4l-4 4l-4 -4z'/>",
        words: "get of the boundary",
    },
    Sample {
        mark: RAISED,
        drawn: "<path class='ik w15' d='M0 0H14'/><path class='ik w2' d='M14 0H28'/><path class='if' d='M32 0l-7 -3.5v7z'/>",
        words: "the boundary is raised",
    },
    Sample {
        mark: RAISED,
        drawn: "<path class='ax w15 dash' d='M14 -8V8'/>",
        words: "the boundary; left of it may be removed",
    },
    Sample {
        mark: REMOVED,
        drawn: "<path class='ik w15' d='M0 0H24'/><path class='ik w2' d='M24 -4l8 8m0 -8l-8 8'/>",
        words: "a version is removed",
    },
    Sample {
        mark: AGAIN,
        drawn: "<rect class='bs s0 w15 dot' x='14' y='-7' width='18' height='14' rx='3'/>",
        words: "created again: no entry",
    },
    Sample {
        mark: HOLDS,
        drawn: "<rect class='t1' x='0' y='-7' width='34' height='14'/><rect class='f1' x='0' y='-7' width='3' height='14'/>",
        words: "the client holds this epoch",
    },
    Sample {
        mark: FENCE,
        drawn: "<path class='s2 w15' d='M0 0H34'/><path class='s2 post' d='M0 0H34'/>",
        words: "fence: a greater epoch came in",
    },
    Sample {
        mark: SHUT_OUT,
        drawn: "<rect fill='url(#x1)' x='0' y='-7' width='34' height='14'/>",
        words: "shut out, whether it knows or not",
    },
    Sample {
        mark: FAILED,
        drawn: "<path class='ns w2' d='M10 -4l8 8m0 -8l-8 8'/>",
        words: "a store call failed",
    },
    Sample {
        mark: FLIGHT,
        drawn: "<path class='ns w15 dot' d='M0 -5H14V6'/><path class='ns w1' d='M14 6H32'/>",
        words: "on its way, lands later",
    },
    Sample {
        mark: CRASHED,
        drawn: "<circle class='bs ns w1' cx='14' cy='0' r='6'/><path class='ns w2' d='M11 -3l6 6m0 -6l-6 6'/>",
        words: "a crash, or a kill",
    },
    Sample {
        mark: FAULT,
        drawn: "<text class='no' x='8' y='4'>⊘</text>",
        words: "a refused event: it changed nothing",
    },
    Sample {
        mark: REFUSED,
        drawn: "<rect class='bar' x='10' y='-8' width='8' height='16' rx='3'/><path class='ns w2' d='M9 8h10'/><text class='no' x='24' y='4'>✗</text>",
        words: "answered with a refusal",
    },
    Sample {
        mark: RINGED,
        drawn: "<rect class='o ns w2' x='6' y='-8' width='18' height='16' rx='8'/>",
        words: "what the audit refused",
    },
    Sample {
        mark: CIRCLE,
        drawn: "<rect class='o ns w2' x='6' y='-8' width='18' height='16' rx='8'/>",
        words: "no order: an arrow up goes back in time",
    },
    Sample {
        mark: BY_REPLIES,
        drawn: "<path class='ns w2' d='M2 0H25'/><path class='no' d='M32 0l-10 -4v8z'/>",
        words: "came before, by replies",
    },
    Sample {
        mark: BY_TIME,
        drawn: "<path class='ns w15 dash' d='M2 0H25'/><path class='no' d='M32 0l-10 -4v8z'/>",
        words: "came before, by time",
    },
    Sample {
        mark: PAUSE,
        drawn: "<path class='ax w1 dot' d='M0 0H34'/>",
        words: "a pause, not to scale",
    },
];

/// How high a line of a legend is.
const LINE: u64 = 21;

/// How many stand in a line of a picture of this width.
fn in_line(width: u64) -> u64
    ensures { 2 ≤ result }
{
    if width < 780 { 2 } else { 3 }
}

/// Adds a sample as the one of this number.
fn add_sample(
    alloc: Global,
    xml: &mut Xml,
    sample: &Sample,
    number: u64,
    top: u64,
    width: u64,
) -> Result<(), AllocError> {
    let most = in_line(width);
    let across = (width.saturating_sub(28) / most).saturating_mul(number % most);
    let x = across.saturating_add(14);
    let y = (number / most).saturating_mul(LINE).saturating_add(top);
    let begin = format!(in alloc; "<g transform='translate({x} {y})'>")?;
    xml.push_markup(begin.as_str())?;
    xml.push_markup(sample.drawn)?;
    text(alloc, xml, "leg mu", At { x: 44, y: 4 }, sample.words)?;
    xml.push_markup("</g>\n")
}

/// Adds the legend of these marks, from a height on: the height of its end.
///
/// # Errors
///
/// Want of memory alone. A part of what it draws may stand then.
pub fn legend(
    alloc: Global,
    xml: &mut Xml,
    used: u64,
    top: u64,
    width: u64,
) -> Result<u64, AllocError> {
    add_sample(alloc, xml, &CALL, 0, top, width)?;
    let mut count = 1u64;
    for sample in &SAMPLES {
        if used & sample.mark != 0 {
            add_sample(alloc, xml, sample, count, top, width)?;
            count = count.saturating_add(1);
        }
    }
    let most = in_line(width);
    let lines = count.saturating_add(most - 1) / most;
    Ok(lines.saturating_mul(LINE).saturating_add(top))
}
