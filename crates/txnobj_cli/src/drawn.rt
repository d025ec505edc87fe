//! Recordings, drawn in the order of an audit, with what that says.

use crate::audit::{are_added, audited, clocks_of, ended};
use crate::ending::{Halt, NOT_ONE_HISTORY};
use std::alloc::{AllocError, Global};
use std::io::Write;
use txn_audit::recordings::audit::OneHistory;
use txn_audit::recordings::refusal::Refusal;
use txn_audit_effects::clock::Clock;
use txn_audit_order::order::{CallPlace, OrderFault, Placed, order};
use txn_audit_recordings::recordings::Recordings;
use txn_drawing_moments::lanes;
use txn_drawing_moments::moment::Moment;
use txn_drawing_moments::part::{Part, calls_in, part_of};
use txn_drawing_recordings::moments::moments_of;
use txn_drawing_recordings::rings::Ringed;
use txn_drawing_recordings::times::by_time;
use txn_drawing_svg::head::Title;
use txn_drawing_svg::picture;
use txn_script_lines::values::entry::{Entry, EntryCodec, EntryEpoch};
use txnobj_words::options::Drawing;

/// The most store calls and answers of a drawing.
const MOST: usize = 4000;

/// What is said where a part has more.
const TOO_MANY: &str = "too many events for one drawing: --from N and --calls N draw a part";

/// What is said of a part that is not there.
const NO_PART: &str =
    "there is no such part: store calls are counted from 1, and there are fewer, or none is to be drawn";

/// What a picture is of.
const TITLE: &str = "Recordings of clients that share one object";

/// What is said of files without a recording.
const NO_RECORDING: &str = "not one history: there is no recording";

/// What an audit says: in lines, of which calls it speaks, and whether it refuses them.
#[derive(Drop)]
struct Verdict {
    lines: Vec<String>,
    calls: Vec<Ringed>,
    is_refused: bool,
}

/// Recordings as they are drawn.
#[derive(Drop)]
struct Drawn {
    clients: u64,
    moments: Vec<Moment>,
    /// From which store call on, and how many at most.
    from: u64,
    calls: u64,
    /// What the audit says, whether it refuses the recordings, and which one each client is of.
    said: Vec<String>,
    is_refused: bool,
    clients_said: Vec<String>,
}

/// What is said of recordings that are one history.
fn agreed(
    alloc: Global,
    found: &OneHistory<Entry, EntryCodec, EntryEpoch>,
) -> Result<Verdict, AllocError> {
    let ended = ended(alloc, found)?;
    let mut lines = Vec::new(alloc);
    lines.push(format!(in alloc; "{ended}")?)?;
    Ok(Verdict {
        lines,
        calls: Vec::new(alloc),
        is_refused: false,
    })
}

/// The calls that a refusal speaks of.
fn calls_of(alloc: Global, refusal: &Refusal) -> Result<Vec<Ringed>, AllocError> {
    let mut calls = Vec::new(alloc);
    match refusal {
        Refusal::Row(at, _) | Refusal::Dishonest(at, _, _) | Refusal::OutOfTime(at, _) => {
            calls.push(Ringed {
                call: *at,
                before: None,
            })?;
        }
        Refusal::Circle(links) => {
            for link in links.as_slice() {
                calls.push(Ringed {
                    call: link.call,
                    before: Some(link.reason),
                })?;
            }
        }
        _ => {}
    }
    Ok(calls)
}

/// Where the row of a recording stands, in words.
fn place_words(
    alloc: Global,
    files: &[&str],
    recordings: &Recordings<Entry>,
    number: u64,
    at: CallPlace,
) -> Result<String, AllocError> {
    let client = at.recording.saturating_add(1);
    let Some(begin) = recordings.begins.get(at.recording) else {
        return format!(in alloc; "({number}) client {client}");
    };
    let line = begin.at.line.saturating_add(at.row);
    match files.get(begin.at.file) {
        Some(file) => format!(in alloc; "({number}) client {client}: {file}, line {line}"),
        None => format!(in alloc; "({number}) client {client}: line {line}"),
    }
}

/// Why a call of a refusal came before the next one, in words: where it is of a circle.
fn reason_words(alloc: Global, refusal: &Refusal, place: usize) -> Result<String, AllocError> {
    let Refusal::Circle(links) = refusal else {
        return Ok(String::new(alloc));
    };
    let Some(link) = links.get(place) else {
        return Ok(String::new(alloc));
    };
    let behind = place.saturating_add(1);
    let next = if behind < links.len() {
        (behind as u64).saturating_add(1)
    } else {
        1
    };
    let reason = link.reason;
    format!(in alloc; ", before ({next}) {reason}")
}

/// What is said of recordings that are not one history: the refusal, and where the calls stand that it speaks of.
fn refused(
    alloc: Global,
    files: &[&str],
    recordings: &Recordings<Entry>,
    refusal: &Refusal,
) -> Result<Verdict, AllocError> {
    let calls = calls_of(alloc, refusal)?;
    let mut lines = Vec::new(alloc);
    lines.push(format!(in alloc; "not one history: {refusal}")?)?;
    for (place, ringed) in calls.iter().enumerate() {
        let number = (place as u64).saturating_add(1);
        let mut words = place_words(alloc, files, recordings, number, ringed.call)?;
        let reason = reason_words(alloc, refusal, place)?;
        words.push_str(reason.as_str())?;
        lines.push(words)?;
    }
    Ok(Verdict {
        lines,
        calls,
        is_refused: true,
    })
}

/// What an audit says of recordings whose times are of these clocks.
fn verdict_of(
    alloc: Global,
    files: &[&str],
    recordings: &mut Recordings<Entry>,
    clocks: &[Clock],
) -> Result<Verdict, Halt> {
    match audited(alloc, EntryCodec, EntryEpoch, &mut recordings.rows, clocks) {
        Ok(found) => Ok(agreed(alloc, &found)?),
        Err(Refusal::NoMemory) => Err(Halt::NoMemory),
        Err(refusal) => Ok(refused(alloc, files, recordings, &refusal)?),
    }
}

/// The order of the audit, or of the times where it finds none.
fn order_of(
    alloc: Global,
    recordings: &Recordings<Entry>,
    clocks: &[Clock],
) -> Result<Vec<Placed>, AllocError> {
    match order(alloc, recordings.rows.as_slice(), clocks) {
        Ok(order) => Ok(order),
        Err(OrderFault::NoMemory) => Err(AllocError),
        Err(OrderFault::Circle(links)) => {
            drop(links);
            by_time(alloc, recordings.rows.as_slice(), clocks)
        }
    }
}

/// Which recording each client is of, in lines.
fn clients_of(
    alloc: Global,
    files: &[&str],
    recordings: &Recordings<Entry>,
) -> Result<Vec<String>, AllocError> {
    let mut lines = Vec::new(alloc);
    for (place, begin) in recordings.begins.iter().enumerate() {
        let client = (place as u64).saturating_add(1);
        let line = begin.at.line;
        if let Some(file) = files.get(begin.at.file) {
            lines.push(format!(in alloc; "client {client}: {file}, from line {line} on")?)?;
        }
    }
    Ok(lines)
}

/// What happened in recordings, as an audit orders it, and what that says of them.
fn told_of(
    alloc: Global,
    files: &[&str],
    recordings: &mut Recordings<Entry>,
    drawing: &Drawing<'_>,
) -> Result<Drawn, Halt> {
    let clocks = clocks_of(alloc, recordings, drawing.clock_error)?;
    let clocks = clocks.as_slice();
    let Verdict {
        lines,
        calls,
        is_refused,
    } = verdict_of(alloc, files, recordings, clocks)?;
    let order = order_of(alloc, recordings, clocks)?;
    let rows = recordings.rows.as_slice();
    let moments = moments_of(alloc, rows, clocks, order.as_slice(), calls.as_slice())?;
    Ok(Drawn {
        clients: recordings.rows.len() as u64,
        moments,
        from: drawing.from.unwrap_or(1),
        calls: drawing.calls.unwrap_or(u64::MAX),
        said: lines,
        is_refused,
        clients_said: clients_of(alloc, files, recordings)?,
    })
}

/// Reads recordings, audits them, and says what happened in them: nothing where a line is not taken, which is told.
fn drawing_of(rt: &HostRuntime, drawing: &Drawing<'_>) -> Result<Option<Drawn>, Halt> {
    let files = drawing.diaries.as_slice();
    let mut recordings = Recordings::<Entry>::new(rt.alloc());
    if !are_added(rt, files, &mut recordings)? {
        return Ok(None);
    }
    if recordings.begins.is_empty() {
        rt.println(NO_RECORDING)?;
        return Ok(None);
    }
    Ok(Some(told_of(rt.alloc(), files, &mut recordings, drawing)?))
}

impl Drawn {
    /// The part that is drawn.
    fn part(&self) -> Result<Part<'_>, Halt> {
        let moments = self.moments.as_slice();
        let part = match part_of(moments, self.from, self.calls) {
            Some(part) => part,
            None if self.is_whole() => Part::whole(moments),
            None => return Err(Halt::Words(NO_PART)),
        };
        if part.shown().len() > MOST {
            return Err(Halt::Words(TOO_MANY));
        }
        Ok(part)
    }

    /// Whether all is to be drawn.
    fn is_whole(&self) -> bool {
        self.from == 1 && self.calls == u64::MAX
    }

    /// Which store calls a part has, of how many.
    fn counted(&self, alloc: Global, part: Part<'_>) -> Result<String, AllocError> {
        let from = self.from;
        let last = calls_in(part.moments);
        let all = calls_in(self.moments.as_slice());
        format!(in alloc; "store calls {from} to {last} of {all}")
    }

    /// What a picture is of.
    fn title(&self, alloc: Global, part: Part<'_>) -> Result<String, AllocError> {
        if self.is_whole() {
            return String::from_str(alloc, TITLE);
        }
        let counted = self.counted(alloc, part)?;
        format!(in alloc; "Part of the recordings of clients that share one object: {counted}")
    }
}

/// Draws recordings as text, in the order of an audit: the status. What the audit says stands at the foot.
///
/// # Errors
///
/// A file that cannot be opened, the system's error, after which a part may be printed, want of memory, and words: a part that is not
/// there, or that has more than 4,000 events. Nothing is printed then.
pub fn trace(rt: &HostRuntime, drawing: &Drawing<'_>) -> Result<u8, Halt> {
    let Some(drawn) = drawing_of(rt, drawing)? else {
        return Ok(NOT_ONE_HISTORY);
    };
    let part = drawn.part()?;
    let text = lanes::drawn(rt.alloc(), drawn.clients, part)?;
    rt.println(text.as_str())?;
    if !drawn.is_whole() {
        let counted = drawn.counted(rt.alloc(), part)?;
        println!(rt; "part of the recordings: {counted}")?;
    }
    for line in &drawn.said {
        rt.println(line.as_str())?;
    }
    for line in &drawn.clients_said {
        rt.println(line.as_str())?;
    }
    Ok(0)
}

/// Adds lines, each with its line feed.
fn add_lines(lines: &[String], text: &mut Vec<u8>) -> Result<(), AllocError> {
    for line in lines {
        text.extend_from_slice(line.as_str().as_bytes())?;
        text.push(b'\n')?;
    }
    Ok(())
}

/// Draws recordings as one picture in SVG, in the order of an audit: the status. What the audit says stands below the title.
///
/// # Errors
///
/// As of a trace.
pub fn picture(rt: &HostRuntime, drawing: &Drawing<'_>) -> Result<u8, Halt> {
    let Some(drawn) = drawing_of(rt, drawing)? else {
        return Ok(NOT_ONE_HISTORY);
    };
    let alloc = rt.alloc();
    let part = drawn.part()?;
    let words = drawn.title(alloc, part)?;
    let title = Title {
        title: words.as_str(),
        comment: "",
        said: drawn.said.as_slice(),
        is_refused: drawn.is_refused,
    };
    let mut foot: Vec<u8> = Vec::new(alloc);
    add_lines(drawn.said.as_slice(), &mut foot)?;
    add_lines(drawn.clients_said.as_slice(), &mut foot)?;
    let picture = picture::drawn(alloc, title, drawn.clients, part, foot.as_slice())?;
    let out = &mut rt.stdout();
    out.write_all(picture.as_slice())?;
    Ok(0)
}
