//! Examinations of folders.

use crate::tests::failing::{Failing, never_failing};
use crate::tests::scenes::verdict;
use crate::tests::steps::folder_of;
use crate::tests::watched::Log;
use std::alloc::AllocError;
use std::cell::Cell;
use std::io::ErrorKind;
use std::test::Fail;
use std::{fs, io};
use txn_folder_files::beside::examine_beside;
use txn_folder_files::doctor::{Report, examine};

const SERVES: &str = "keeps a file and its time to the nanosecond: yes
links a file to a second name: yes
refuses a link to a taken name: yes
renames a file over another: yes
locks a file against a second open: yes
syncs files and folders: yes
removes files: yes
it serves, and 0 names are left";

const UNSYNCED: &str = "keeps a file and its time to the nanosecond: yes
links a file to a second name: yes
refuses a link to a taken name: yes
renames a file over another: yes
locks a file against a second open: yes
syncs files and folders: this file system has no sync of folders: names last as it lets them
removes files: yes
it serves, and 0 names are left";

const BESIDE: &str = "both are mounts of one folder: yes
the other finds a new name that was missing before: yes
the other reads what was renamed over an old file: yes
the other reads it beside an open old file: yes
the other lists a new name: yes
the other lists a removed name no more: yes
the other misses a removed name beside its open file, and finds it made again: yes
the other is refused a lock that is held, and gets it then: yes
the first finds a new name that was missing before: yes
the first reads what was renamed over an old file: yes
the first reads it beside an open old file: yes
the first lists a new name: yes
the first lists a removed name no more: yes
the first misses a removed name beside its open file, and finds it made again: yes
the first is refused a lock that is held, and gets it then: yes
nothing is left: yes
serves: true, and 0 names are left";

const APART: &str = "both are mounts of one folder: no: the old was seen for 5.000 s and longer
the other finds a new name that was missing before: no: not tried
the other reads what was renamed over an old file: no: not tried
the other reads it beside an open old file: no: not tried
the other lists a new name: no: not tried
the other lists a removed name no more: no: not tried
the other misses a removed name beside its open file, and finds it made again: no: not tried
the other is refused a lock that is held, and gets it then: no: not tried
the first finds a new name that was missing before: no: not tried
the first reads what was renamed over an old file: no: not tried
the first reads it beside an open old file: no: not tried
the first lists a new name: no: not tried
the first lists a removed name no more: no: not tried
the first misses a removed name beside its open file, and finds it made again: no: not tried
the first is refused a lock that is held, and gets it then: no: not tried
nothing is left: yes
serves: false, and 0 names are left";

/// The call of the system that links a file.
const LINKS: u64 = 2;

/// The call of the system that opens the folder, to sync it.
const OPENS_FOLDER: u64 = 14;

/// No call of the system.
const NONE: u64 = u64::MAX;

/// How many names a folder has, none where it is missing.
fn count(rt: &HostRuntime, folder: &str) -> usize {
    match fs::read_dir(rt, folder) {
        Ok(names) => names.count(),
        Err(_) => 0,
    }
}

/// Writes which check fails first.
fn write_verdict(rt: &HostRuntime, report: &Report, text: &mut String) -> Result<(), AllocError> {
    let Some(check) = report.first_failed() else {
        return text.push_str("it serves");
    };
    let words = format!(in rt.alloc(); "first fails: {check}")?;
    text.push_str(words.as_str())
}

/// Writes a report, and which check fails first.
fn write_report(rt: &HostRuntime, report: &Report, text: &mut String) -> Result<(), AllocError> {
    let lines = format!(in rt.alloc(); "{report}")?;
    text.push_str(lines.as_str())?;
    write_verdict(rt, report, text)
}

/// Writes what is reported of a folder where this call of the system fails so, and which check fails first.
fn examined(
    rt: &HostRuntime,
    folder: &str,
    nth: u64,
    kind: ErrorKind,
    text: &mut String,
) -> Result<(), AllocError> {
    let left = Cell::new(nth);
    let log = Log::new(rt.alloc(), folder);
    let failing = Failing {
        kind,
        ..never_failing(rt, &left, &log)
    };
    let report = examine(&failing, rt.alloc(), folder)?;
    write_report(rt, &report, text)
}

/// Writes how many names are left in a folder.
fn write_left(rt: &HostRuntime, folder: &str, text: &mut String) -> Result<(), AllocError> {
    let names = count(rt, folder);
    let words = format!(in rt.alloc(); ", and {names} names are left")?;
    text.push_str(words.as_str())
}

/// The last line of a text.
fn last_line(text: &str) -> &str {
    match text.rsplit_once('\n') {
        Some((_, last)) => last,
        None => text,
    }
}

/// Writes what is reported of a folder where this call of the system fails so, unless that is what is wanted, whole or its last
/// line.
fn try_folder(
    rt: &HostRuntime,
    folder: &str,
    nth: u64,
    kind: ErrorKind,
    wanted: &str,
    wrong: &mut String,
) -> Result<(), AllocError> {
    let mut text = String::new(rt.alloc());
    examined(rt, folder, nth, kind, &mut text)?;
    write_left(rt, folder, &mut text)?;
    let text = text.as_str();
    if text != wanted && last_line(text) != wanted {
        wrong.push_str(text)?;
    }
    Ok(())
}

/// The same of a folder of its own.
fn try_alone(
    rt: &HostRuntime,
    nth: u64,
    kind: ErrorKind,
    wanted: &str,
    wrong: &mut String,
) -> io::Result<()> {
    let root = folder_of(rt, "doctor")?;
    fs::create_dir(rt, root.as_str())?;
    let tried = try_folder(rt, root.as_str(), nth, kind, wanted, wrong);
    fs::remove_dir_all(rt, root.as_str())?;
    Ok(tried?)
}

/// Examines a folder that serves, one in which linking fails, one that is missing, and one that is not synced, where the file
/// system says that it has no such syncs, and where it does not.
fn try_folders(rt: &HostRuntime, wrong: &mut String) -> io::Result<()> {
    let kind = ErrorKind::Other;
    try_alone(rt, NONE, kind, SERVES, wrong)?;
    let links = "first fails: links a file to a second name, and 0 names are left";
    try_alone(rt, LINKS, kind, links, wrong)?;
    let keeps = "first fails: keeps a file and its time to the nanosecond, and 0 names are left";
    try_folder(rt, "no such folder", NONE, kind, keeps, wrong)?;
    try_alone(rt, OPENS_FOLDER, ErrorKind::Unsupported, UNSYNCED, wrong)?;
    let syncs = "first fails: syncs files and folders, and 0 names are left";
    try_alone(rt, OPENS_FOLDER, kind, syncs, wrong)
}

#[test]
fn folders_are_examined(rt: HostRuntime) -> Result<(), Fail> {
    let mut wrong = String::new(rt.alloc());
    let done = try_folders(&rt, &mut wrong);
    verdict(done, wrong.as_str())
}

/// Writes what two folders show of each other's changes, as mounts of one folder. The clock's pauses take no time.
fn write_beside(
    rt: &HostRuntime,
    first: &str,
    other: &str,
    text: &mut String,
) -> Result<(), AllocError> {
    let left = Cell::new(NONE);
    let log = Log::new(rt.alloc(), first);
    let report = examine_beside(&never_failing(rt, &left, &log), rt.alloc(), first, other)?;
    let lines = format!(in rt.alloc(); "{report}serves: {}", report.serves())?;
    text.push_str(lines.as_str())?;
    write_left(rt, first, text)
}

/// The same, unless that is what is wanted.
fn try_beside(
    rt: &HostRuntime,
    first: &str,
    other: &str,
    wanted: &str,
    wrong: &mut String,
) -> Result<(), AllocError> {
    let mut text = String::new(rt.alloc());
    write_beside(rt, first, other, &mut text)?;
    if text.as_str() != wanted {
        wrong.push_str(text.as_str())?;
    }
    Ok(())
}

/// Examines a folder beside itself, and beside another one.
fn try_mounts(rt: &HostRuntime, wrong: &mut String) -> io::Result<()> {
    let first = folder_of(rt, "beside")?;
    let other = folder_of(rt, "apart")?;
    fs::create_dir(rt, first.as_str())?;
    fs::create_dir(rt, other.as_str())?;
    try_beside(rt, first.as_str(), first.as_str(), BESIDE, wrong)?;
    try_beside(rt, first.as_str(), other.as_str(), APART, wrong)?;
    fs::remove_dir(rt, other.as_str())?;
    fs::remove_dir(rt, first.as_str())
}

#[test]
fn mounts_are_examined(rt: HostRuntime) -> Result<(), Fail> {
    let mut wrong = String::new(rt.alloc());
    let done = try_mounts(&rt, &mut wrong);
    verdict(done, wrong.as_str())
}
