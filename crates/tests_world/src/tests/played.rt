//! Transcripts: what clients do, line by line as in a script, each with what it is told after `=>`, or with what is asked for
//! below it, two spaces in. A line may have several events, with commas between: each but the last is told that its operation
//! goes on.
ghost use Rattle.std.specs.Prelude.{◌≤◌, vec_len};

use crate::tests::workers::{Records, kept_by};
use crate::tests::{refused, schedules, worlds};
use std::alloc::{AllocError, Global};
use std::test::Fail;
use txn_history::event::{Call, Event};
use txn_history::trace::Row;
use txn_history::view::View;
use txn_script_lines::line::Line;
use txn_script_lines::printed::{BoundaryLine, EntryLine, IdsLine, ViewLine};
use txn_script_lines::record::Record;
use txn_script_lines::text_form::TextForm;
use txn_store::request::Request;
use txn_world_threads::kept::Share;

/// The last word of a transcript that goes no further, since an operation was answered 9 and left what it may.
const LACKED: &str = "lacked";

/// What stands between two events of a line.
const NEXT: &str = ", ";

/// The event of a part of a line, without what stands before the next one.
fn event_in(part: &str) -> &str {
    match part.strip_suffix(NEXT) {
        Some(event) => event,
        None => part,
    }
}

/// What an event says, or the next event of the operation that is to run.
fn event_of(
    alloc: Global,
    kept: &Records,
    event: &str,
) -> Result<Option<Event<Record>>, AllocError> {
    let line: Option<Line<Call<Record>>> = TextForm::read_text(alloc, event)?;
    Ok(match line {
        Some(Line::Event(event)) => Some(event),
        Some(Line::Run(op)) => Some(kept.world().next_event(op)),
        _ => None,
    })
}

/// What is told of an event.
fn told(
    alloc: Global,
    kept: &mut Records,
    share: &mut Share,
    event: &str,
) -> Result<String, AllocError> {
    let Some(event) = event_of(alloc, kept, event)? else {
        return format!(in alloc; "no event");
    };
    match kept.take(share, event) {
        Ok(told) => format!(in alloc; "{told:?}"),
        Err(fault) => format!(in alloc; "{fault:?}"),
    }
}

/// Whether an event was told that its operation goes on.
fn went_on(event: &str, told: &str) -> bool {
    match (event.split_once(' '), told.strip_prefix("Went(")) {
        (Some((_kind, op)), Some(rest)) => rest.strip_suffix(")").is_some_and(|went| went == op),
        _ => false,
    }
}

/// Whether an event that was told this is taken again: it was refused for want of memory, or its operation is to run on.
fn is_taken_again(event: &str, told: &str) -> bool {
    told == "NoMemory" || (event.starts_with("run ") && went_on(event, told))
}

/// A view: its id, its value, and the epoch of a holder.
type Seen = (u64, Record, Option<u64>);

/// How many requests changed the store, and the views 1 and 2.
type Left = (usize, Option<Seen>, Option<Seen>);

fn seen(view: Option<&View<Record>>) -> Option<Seen> {
    match view {
        Some(view) => Some((view.id, view.object, view.epoch)),
        None => None,
    }
}

/// What events left. It takes no memory.
fn left(kept: &Records) -> Left {
    let world = kept.world();
    let mut effects = 0usize;
    for row in world.trace() {
        if let Row::Effect(..) = row {
            effects = effects.saturating_add(1);
        }
    }
    (effects, seen(world.view(1)), seen(world.view(2)))
}

/// Whether an operation that is answered 9 may leave this, where it found that before: a claim has ended its view.
fn may_leave(claims: bool, before: Left, after: Left) -> bool {
    if !claims {
        return before == after;
    }
    let ends_first = after.1.is_none() && after.2 == before.2;
    let ends_second = after.2.is_none() && after.1 == before.1;
    after.0 == before.0 && (ends_first || ends_second)
}

/// Adds what an event is told last, and says whether its operation was not answered 9. Where the last begin was a claim, it is
/// the operation of the event.
fn take_event(
    alloc: Global,
    kept: &mut Records,
    share: &mut Share,
    claims: bool,
    part: &str,
    text: &mut String,
) -> Result<bool, AllocError> {
    let event = event_in(part);
    let mut before = left(kept);
    let mut last = told(alloc, kept, share, event)?;
    for _turn in 1..64 {
        if !is_taken_again(event, last.as_str()) {
            break;
        }
        before = left(kept);
        last = told(alloc, kept, share, event)?;
    }
    if !last.as_str().ends_with("Refused(9)))") {
        add_told(alloc, text, part, last.as_str())?;
        return Ok(true);
    }
    if may_leave(claims, before, left(kept)) {
        text.push_str(LACKED)?;
    }
    Ok(false)
}

/// Adds an event and what it is told, which is left out where that is that it goes on and another event of its line follows.
fn add_told(alloc: Global, text: &mut String, part: &str, told: &str) -> Result<(), AllocError> {
    let event = event_in(part);
    if event.len() < part.len() && went_on(event, told) {
        return text.push_str(part);
    }
    let line = format!(in alloc; "{event} => {told}\n")?;
    text.push_str(line.as_str())
}

/// Adds a line of what was asked for.
fn add(alloc: Global, text: &mut String, what: &str) -> Result<(), AllocError> {
    let line = format!(in alloc; "  {what}\n")?;
    text.push_str(line.as_str())
}

/// Adds the end lines of the views of a world. There is none before the first or after the last.
fn add_views(alloc: Global, kept: &Records, text: &mut String) -> Result<(), AllocError> {
    let world = kept.world();
    for number in 0..world.views().saturating_add(2) {
        if let Some(view) = world.view(number) {
            let line = ViewLine { number, view };
            let line = format!(in alloc; "{line}")?;
            add(alloc, text, line.as_str())?;
        }
    }
    Ok(())
}

/// Adds the lines of the entries of a world.
fn add_entries(alloc: Global, kept: &Records, text: &mut String) -> Result<(), AllocError> {
    for (index, value) in kept.world().entries(alloc)?.iter().enumerate() {
        let number = index + 1;
        let line = EntryLine { number, value };
        let line = format!(in alloc; "{line}")?;
        add(alloc, text, line.as_str())?;
    }
    Ok(())
}

/// Adds the end lines of a world.
fn add_end(alloc: Global, kept: &Records, text: &mut String) -> Result<(), AllocError> {
    add_entries(alloc, kept, text)?;
    let boundary = BoundaryLine(kept.world().boundary());
    let erased = IdsLine::Erased(kept.world().erased(alloc)?);
    let lines = format!(in alloc; "{boundary}\n  {erased}")?;
    add(alloc, text, lines.as_str())?;
    add_views(alloc, kept, text)
}

/// A row as text.
fn row_text(alloc: Global, row: &Row<Record>) -> Result<String, AllocError> {
    match row {
        Row::Effect(op, Request::Put { path, bytes, mode }) => {
            format!(in alloc; "{op} puts {path} {mode:?} {bytes:?}")
        }
        Row::Effect(op, Request::Delete { path }) => format!(in alloc; "{op} removes {path}"),
        Row::Effect(op, _) => format!(in alloc; "{op} changes nothing"),
        Row::Begun(op, call) => format!(in alloc; "{op} begins {call:?}"),
        Row::Answered(op, answer) => format!(in alloc; "{op} is answered {answer:?}"),
    }
}

/// Adds the rows of a world, or those alone of requests that changed the store.
fn add_rows(alloc: Global, kept: &Records, all: bool, text: &mut String) -> Result<(), AllocError> {
    for row in kept.world().trace() {
        if all || matches!(row, Row::Effect(..)) {
            let row = row_text(alloc, row)?;
            add(alloc, text, row.as_str())?;
        }
    }
    Ok(())
}

/// Adds how many rows a world has, of which operations a store call failed, and what the share counted of the journal.
fn add_state(
    alloc: Global,
    kept: &Records,
    share: &Share,
    text: &mut String,
) -> Result<(), AllocError> {
    let rows = kept.world().trace().len();
    let failed = kept.world().failed();
    let (worker, count) = (share.worker(), share.count());
    let state = format!(in alloc; "{rows} rows, failed {failed:?}, worker {worker} took {count}")?;
    add(alloc, text, state.as_str())
}

/// Adds the rows of the journal: who took which event.
fn add_journal(alloc: Global, kept: &Records, text: &mut String) -> Result<(), AllocError> {
    for row in kept.journal() {
        let (worker, event) = (row.worker, &row.event);
        let line = format!(in alloc; "{worker} {event:?}")?;
        add(alloc, text, line.as_str())?;
    }
    Ok(())
}

/// Adds how many clients and views a world has, and which of views 0 to 3 are busy.
fn add_busy(alloc: Global, kept: &Records, text: &mut String) -> Result<(), AllocError> {
    let world = kept.world();
    let (clients, views) = (world.clients(), world.views());
    let busy = [
        world.is_busy(0),
        world.is_busy(1),
        world.is_busy(2),
        world.is_busy(3),
    ];
    let busy = format!(in alloc; "{clients} clients, {views} views, busy {busy:?}")?;
    add(alloc, text, busy.as_str())
}

/// Adds what is asked for, below its line.
fn answer(
    alloc: Global,
    kept: &Records,
    share: &Share,
    asked: &str,
    text: &mut String,
) -> Result<(), AllocError> {
    match asked {
        "? end" => add_end(alloc, kept, text),
        "? views" => add_views(alloc, kept, text),
        "? rows" => add_rows(alloc, kept, true, text),
        "? effects" => add_rows(alloc, kept, false, text),
        "? journal" => add_journal(alloc, kept, text),
        "? state" => add_state(alloc, kept, share, text),
        "? busy" => add_busy(alloc, kept, text),
        _ => Ok(()),
    }
}

/// The words of a line, without what they are told.
fn words_of(line: &str) -> &str {
    match line.split_once(" => ") {
        Some((words, _told)) => words,
        None => line,
    }
}

/// Does what the lines of a transcript say, and adds each with what comes of it.
fn play(
    alloc: Global,
    kept: &mut Records,
    share: &mut Share,
    transcript: &str,
    text: &mut String,
) -> Result<(), AllocError> {
    let mut claims = false;
    for line in transcript.lines() {
        if line.starts_with(' ') {
            continue;
        }
        if line.starts_with('#') || line.starts_with('?') {
            text.push_str(line)?;
            text.push('\n')?;
            answer(alloc, kept, share, line, text)?;
            continue;
        }
        for part in words_of(line).split_inclusive(NEXT) {
            if part.starts_with("begin ") {
                claims = part.contains(" claim");
            }
            if !take_event(alloc, kept, share, claims, part, text)? {
                return Ok(());
            }
        }
    }
    Ok(())
}

/// A transcript, whose events the first of these workers takes.
fn played_by(
    alloc: Global,
    kept: &mut Records,
    shares: &mut Vec<Share>,
    transcript: &str,
) -> Result<String, AllocError>
    requires { 1 ≤ vec_len shares.old }
{
    let mut text = String::new(alloc);
    play(alloc, kept, &mut shares[0], transcript, &mut text)?;
    Ok(text)
}

/// A transcript as three clients make it, whose events the first of three workers takes.
pub(crate) fn played(alloc: Global, transcript: &str) -> Result<String, AllocError> {
    let (mut kept, mut shares) = kept_by(alloc, 3)?;
    played_by(alloc, &mut kept, &mut shares, transcript)
}

/// Whether a transcript came as it stands, or some growth was refused on the way and nothing else came.
pub(crate) fn is_right(played: Result<String, AllocError>, transcript: &str) -> bool {
    let Ok(text) = played else {
        return true;
    };
    match text.as_str().strip_suffix(LACKED) {
        Some(before) => transcript.starts_with(before),
        None => text.as_str() == transcript,
    }
}

/// Adds each transcript that comes otherwise than it stands, as it comes.
fn add_others(alloc: Global, transcripts: &[&str], text: &mut String) -> Result<(), AllocError> {
    for transcript in transcripts {
        let came = played(alloc, transcript)?;
        if came.as_str() != *transcript {
            text.push_str(came.as_str())?;
        }
    }
    Ok(())
}

/// All that come otherwise.
fn others(alloc: Global) -> Result<String, AllocError> {
    let mut others = String::new(alloc);
    for transcripts in [
        worlds::TRANSCRIPTS,
        schedules::TRANSCRIPTS,
        refused::TRANSCRIPTS,
    ] {
        add_others(alloc, transcripts, &mut others)?;
    }
    Ok(others)
}

#[test]
fn transcripts_come_as_they_stand(rt: HostRuntime) -> Result<(), Fail> {
    assert_eq!(rt; others(rt.alloc())?.as_str(), "");
    Ok(())
}
