//! The audit of recordings, from their files.
ghost use Rattle.std.specs.Prelude.{◌≡◌, IfOk, OnOk, length, map};
ghost use Rattle.txn_audit.specs.HistoryEnds.{HistoriesEndAt};
ghost use Rattle.txn_diary.specs.Diaries.{as_diary};
ghost use Rattle.txn_script_lines.specs.declared.values.entry.Entry.{Entry};
ghost use Rattle.txn_audit_recordings.specs.Tokens.{RenamesTokens};
ghost use Rattle.txn_audit.specs.recordings.OneHistory.{IsOneHistoryOf};
ghost use Rattle.txn_store.specs.types.Clones.{IsExactClone};

use crate::ending::{Halt, NOT_ONE_HISTORY};
use std::alloc::{AllocError, Global};
use std::fmt;
use txn_audit::ending::{HistoryEnd, end_of_history};
use txn_audit::recordings::audit::{OneHistory, audit_recordings};
use txn_audit::recordings::fates::undecided;
use txn_audit::recordings::refusal::Refusal;
use txn_audit_effects::clock::Clock;
use txn_audit_order::order::CallPlace;
use txn_audit_recordings::recordings::Recordings;
use txn_audit_recordings::row::RecordedRow;
use txn_audit_recordings::source::Source;
use txn_audit_recordings::texts::{text_in, whole_lines};
use txn_audit_recordings::tokens::rename_tokens;
use txn_client_journals::audited::Logged;
use txn_client_journals::fault::AuditFault;
use txn_script_lines::text_form::LineValue;
use txn_script_lines::values::entry::{Entry, EntryCodec, EntryEpoch};
use txn_store::types::codec::ObjectCodec;
use txn_store::types::epoch::EpochField;
use txnobj_folder::error::bytes_in;
use txnobj_words::audited::{Ended, Undecided};
use txnobj_words::lines::print_line;

/// The nanoseconds of a millisecond.
const MILLISECOND: u64 = 1_000_000;

/// What is said of a line that is not taken since it is no text.
const NO_TEXT: &str = "it is no text";

/// A clock by its place: the first is right, and each other may be off by so many milliseconds.
fn clock_at(clocks: &[Source], place: usize, error: u64) -> Clock {
    let ahead = match clocks.get(place) {
        Some(source) => source.ahead,
        None => 0,
    };
    let error = match place {
        0 => 0,
        _ => error.saturating_mul(MILLISECOND),
    };
    Clock {
        number: place,
        ahead,
        error,
    }
}

/// The clock of each recording, where each clock but the first may be off by so many milliseconds.
pub(crate) fn clocks_of(
    alloc: Global,
    recordings: &Recordings<Entry>,
    error: u64,
) -> Result<Vec<Clock>, AllocError> {
    let mut clocks = Vec::with_capacity(alloc, recordings.begins.len())?;
    for begin in recordings.begins.as_slice() {
        clocks.push(clock_at(recordings.clocks.as_slice(), begin.clock, error))?;
    }
    Ok(clocks)
}

/// Says which line is not taken, and what is wrong with it: not all are taken.
fn not_all<D: fmt::Display + Drop>(
    rt: &HostRuntime,
    file: &str,
    line: usize,
    wrong: D,
) -> Result<bool, Halt> {
    println!(rt; "not one history: {file}, line {line}: {wrong}")?;
    Ok(false)
}

/// Adds the recordings of these files. Whether all lines are taken: the first that is not is told.
pub(crate) fn are_added(
    rt: &HostRuntime,
    files: &[&str],
    recordings: &mut Recordings<Entry>,
) -> Result<bool, Halt> {
    for (place, file) in files.iter().enumerate() {
        if !is_added(rt, place, file, recordings)? {
            return Ok(false);
        }
    }
    Ok(true)
}

/// Adds the recordings of a file. Whether all its lines are taken: the first that is not is told. What follows the last line
/// feed was cut off as its client was killed.
fn is_added(
    rt: &HostRuntime,
    place: usize,
    file: &str,
    recordings: &mut Recordings<Entry>,
) -> Result<bool, Halt> {
    let mut bytes = bytes_in(rt, file)?;
    bytes.truncate(whole_lines(bytes.as_slice()));
    let text = match text_in(bytes.as_slice()) {
        Ok(text) => text,
        Err(line) => return not_all(rt, file, line, NO_TEXT),
    };
    match recordings.add_file(rt.alloc(), place, text)? {
        None => Ok(true),
        Some((line, wrong)) => not_all(rt, file, line, wrong),
    }
}

/// Reads recordings and says whether they are one history, where each clock but the first may be off by so many milliseconds:
/// the status. Files without a recording are none.
///
/// # Errors
///
/// A file that cannot be opened, the system's error, and want of memory. Nothing is said of the recordings then.
pub fn audit(rt: &HostRuntime, files: &[&str], clock_error: u64) -> Result<u8, Halt> {
    let mut recordings = Recordings::<Entry>::new(rt.alloc());
    if !are_added(rt, files, &mut recordings)? {
        return Ok(NOT_ONE_HISTORY);
    }
    if recordings.begins.is_empty() {
        rt.println("not one history: there is no recording")?;
        return Ok(NOT_ONE_HISTORY);
    }
    held(rt, files, &mut recordings, clock_error)
}

/// Says by how much the clocks of recordings may be off, where they have several.
fn say_clocks(
    rt: &HostRuntime,
    recordings: &Recordings<Entry>,
    clock_error: u64,
) -> Result<(), Halt> {
    let clocks = recordings.clocks.len();
    if clocks > 1 {
        println!(rt;
            "(the times are of {clocks} clocks, each taken as at most {clock_error} milliseconds from the first: --clock-error N says otherwise)"
        )?;
    }
    Ok(())
}

/// Says why recordings are not one history.
fn not_one_history(
    rt: &HostRuntime,
    files: &[&str],
    recordings: &Recordings<Entry>,
    refusal: &Refusal,
) -> Result<u8, Halt> {
    println!(rt; "not one history: {refusal}")?;
    say_rows(rt, files, recordings, refusal)?;
    rt.println(
        "(an audit wants a recording of each client that wrote, from the first version on)",
    )?;
    Ok(NOT_ONE_HISTORY)
}

/// Renames the tokens of recordings, whose times are of these clocks, so that those of two files differ, and holds the recordings
/// against each other under these. A token says which put of its file was the last one, and no call compares it with one of
/// another file, so the recordings say the same under both. The errors are those of `audit_recordings`.
pub(crate) fn audited<
    T: Clone + LineValue,
    C: ObjectCodec<T> + Copy + Drop,
    E: EpochField<T> + Copy,
>(
    alloc: Global,
    codec: C,
    epochs: E,
    recordings: &mut Vec<Vec<RecordedRow<T>>>,
    clocks: &[Clock],
) -> Result<OneHistory<T, C, E>, Refusal>
    requires exact { IsExactClone T.is_clone }
    ensures renamed { OnOk result (RenamesTokens (map (λ rows. rows.items) recordings.old.items) (map (λ rows. rows.items) recordings.new.items)) }
    ensures one_history { IfOk result (λ found. IsOneHistoryOf T.text (C.encoded codec) (C.decoded codec) (E.epoch_of epochs) (E.with_epoch epochs) (map (λ rows. rows.items) recordings.new.items) clocks.now found.log (map as_diary found.diaries.items)) }
{
    rename_tokens(alloc, recordings)?;
    audit_recordings(alloc, codec, epochs, recordings.as_slice(), clocks)
}

/// Says whether recordings, whose times are of these clocks, are one history.
fn judged(
    rt: &HostRuntime,
    files: &[&str],
    recordings: &mut Recordings<Entry>,
    clocks: &[Clock],
) -> Result<u8, Halt> {
    let alloc = rt.alloc();
    match audited(alloc, EntryCodec, EntryEpoch, &mut recordings.rows, clocks) {
        Ok(found) => one_history(rt, recordings.rows.as_slice(), &found),
        Err(Refusal::NoMemory) => Err(Halt::NoMemory),
        Err(refusal) => not_one_history(rt, files, recordings, &refusal),
    }
}

/// Holds the recordings against each other.
fn held(
    rt: &HostRuntime,
    files: &[&str],
    recordings: &mut Recordings<Entry>,
    clock_error: u64,
) -> Result<u8, Halt> {
    let clocks = clocks_of(rt.alloc(), recordings, clock_error)?;
    let status = judged(rt, files, recordings, clocks.as_slice())?;
    say_clocks(rt, recordings, clock_error)?;
    Ok(status)
}

/// Whether recordings are of one client.
fn are_twins(one: &[RecordedRow<Entry>], other: &[RecordedRow<Entry>]) -> bool {
    match (one.first(), other.first()) {
        (Some(RecordedRow::Client(client, _)), Some(RecordedRow::Client(number, _))) => client
            == number,
        _ => false,
    }
}

/// Whether several of these recordings are of the client of one.
fn has_twin(rows: &[Vec<RecordedRow<Entry>>], one: &[RecordedRow<Entry>]) -> bool {
    let mut of_client: usize = 0;
    for other in rows {
        if are_twins(one, other.as_slice()) {
            of_client = of_client.saturating_add(1);
        }
    }
    of_client > 1
}

/// Says where a row of a recording stands.
fn say_row(
    rt: &HostRuntime,
    files: &[&str],
    recordings: &Recordings<Entry>,
    at: CallPlace,
) -> Result<(), Halt> {
    let Some(begin) = recordings.begins.get(at.recording) else {
        return Ok(());
    };
    if let Some(file) = files.get(begin.at.file) {
        let line = begin.at.line.saturating_add(at.row);
        println!(rt; "at {file}, line {line}")?;
    }
    Ok(())
}

/// Says where the first rows stand of recordings that are of one client.
fn say_twins(rt: &HostRuntime, files: &[&str], recordings: &Recordings<Entry>) -> Result<(), Halt> {
    for (recording, rows) in recordings.rows.iter().enumerate() {
        if has_twin(recordings.rows.as_slice(), rows.as_slice()) {
            say_row(rt, files, recordings, CallPlace { recording, row: 0 })?;
        }
    }
    Ok(())
}

/// Says where the rows stand that a refusal is of.
fn say_rows(
    rt: &HostRuntime,
    files: &[&str],
    recordings: &Recordings<Entry>,
    refusal: &Refusal,
) -> Result<(), Halt> {
    match refusal {
        Refusal::Row(at, _) | Refusal::Dishonest(at, _, _) | Refusal::OutOfTime(at, _) => {
            say_row(rt, files, recordings, *at)
        }
        Refusal::Circle(links) => {
            for link in links.as_slice() {
                say_row(rt, files, recordings, link.call)?;
            }
            Ok(())
        }
        Refusal::Differs(AuditFault::ClientTwice) => say_twins(rt, files, recordings),
        _ => Ok(()),
    }
}

/// Says how many puts have no reply and may decide how the history ends, where there are any.
fn say_undecided(rt: &HostRuntime, rows: &[Vec<RecordedRow<Entry>>]) -> Result<(), Halt> {
    let undecided = undecided(rt.alloc(), rows)?;
    if undecided > 0 {
        print_line(rt.alloc(), &mut rt.stdout(), Undecided(undecided))?;
    }
    Ok(())
}

/// How the history ends that recordings are, and what they have. The only error is want of memory.
pub(crate) fn ended(
    alloc: Global,
    found: &OneHistory<Entry, EntryCodec, EntryEpoch>,
) -> Result<Ended, AllocError>
    ensures ends { IfOk result (λ ended. HistoriesEndAt Entry found.now.log ended.entries ended.boundary) }
    ensures clients { IfOk result (λ ended. ended.clients ≡ length found.now.diaries.items) }
    ensures calls { IfOk result (λ ended. ended.calls ≡ length found.now.log) }
{
    let HistoryEnd { entries, boundary } = end_of_history::<Entry, _>(alloc, &found.log)?;
    Ok(Ended {
        entries,
        boundary,
        clients: found.diaries.len(),
        calls: found.log.log().len(),
    })
}

/// Says that these recordings are one history, and how it ends.
fn one_history(
    rt: &HostRuntime,
    rows: &[Vec<RecordedRow<Entry>>],
    found: &OneHistory<Entry, EntryCodec, EntryEpoch>,
) -> Result<u8, Halt> {
    let ended = ended(rt.alloc(), found)?;
    print_line(rt.alloc(), &mut rt.stdout(), ended)?;
    say_undecided(rt, rows)?;
    Ok(0)
}
