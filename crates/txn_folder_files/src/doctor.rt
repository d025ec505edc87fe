//! Whether a folder of a file system serves: what the store asks of it, each tried once.
ghost use Rattle.std.specs.Prelude.{◌≡◌};
ghost use Rattle.std.specs.Option.{option_copied};
ghost use Rattle.txn_folder_files.specs.Findings.{first_failed, fault_in};

use crate::fault::{Doing, Fault, Halt, at_error};
use crate::lock::{LockFile, Sharing, open_lock};
use crate::name::unlink;
use crate::publish::{is_same_file, stands, synced};
use crate::written::{Writing, number_now, write_new};
use std::alloc::{AllocError, Global};
use std::fs::OpenFile;
use std::io::{ErrorKind, Read};
use std::rt::{Clock, Files};
use std::{fmt, fs, io};

/// What the store asks of a folder.
#[derive(Clone, Copy)]
pub enum Check {
    /// A new file is written, with a time to the nanosecond that is kept, and read back.
    Keeps,
    /// It gets a second name, by a hard link.
    Links,
    /// A link to a taken name is refused, and leaves what stands there.
    RefusesTakenNames,
    /// A file is renamed over another.
    Replaces,
    /// Of two opens of a file only one can lock it alone, and both can lock it with others.
    Locks,
    /// A file and the names in the folder are made to last.
    Syncs,
    /// Files are removed.
    Removes,
}

impl fmt::Display for Check {
    fn fmt<W: fmt::Write>(&self, f: &mut fmt::Formatter<W>) -> fmt::Result {
        f.write_str(match self {
            Check::Keeps => "keeps a file and its time to the nanosecond",
            Check::Links => "links a file to a second name",
            Check::RefusesTakenNames => "refuses a link to a taken name",
            Check::Replaces => "renames a file over another",
            Check::Locks => "locks a file against a second open",
            Check::Syncs => "syncs files and folders",
            Check::Removes => "removes files",
        })
    }
}

/// What is said of a check that passed.
const YES: &str = "yes";

/// What is said of the syncs where the file system has none of folders.
const NO_FOLDER_SYNC: &str = "this file system has no sync of folders: names last as it lets them";

/// How each check went: the fault of what the folder does not do.
#[derive(Clone, Copy)]
pub struct Report {
    pub keeps: Option<Fault>,
    pub links: Option<Fault>,
    pub refuses_taken_names: Option<Fault>,
    pub replaces: Option<Fault>,
    pub locks: Option<Fault>,
    pub syncs: Option<Fault>,
    /// Whether the file system syncs folders: where it does not, and says so, that is no fault, but names last as it lets them.
    pub syncs_folders: bool,
    pub removes: Option<Fault>,
}

/// The line of a check: its fault, and what is said where there is none.
#[derive(Clone, Copy)]
struct Line<'a>(Check, &'a Option<Fault>, &'static str);

impl fmt::Display for Line<'_> {
    fn fmt<W: fmt::Write>(&self, f: &mut fmt::Formatter<W>) -> fmt::Result {
        let (check, passed) = (self.0, self.2);
        match self.1 {
            None => writeln!(f, "{check}: {passed}"),
            Some(fault) => writeln!(f, "{check}: no: {fault}"),
        }
    }
}

/// A line for each check, in the order of the fields.
impl fmt::Display for Report {
    fn fmt<W: fmt::Write>(&self, f: &mut fmt::Formatter<W>) -> fmt::Result {
        let lines = [
            Line(Check::Keeps, &self.keeps, YES),
            Line(Check::Links, &self.links, YES),
            Line(Check::RefusesTakenNames, &self.refuses_taken_names, YES),
            Line(Check::Replaces, &self.replaces, YES),
            Line(Check::Locks, &self.locks, YES),
            Line(Check::Syncs, &self.syncs, self.said_of_syncs()),
            Line(Check::Removes, &self.removes, YES),
        ];
        for line in lines {
            write!(f, "{line}")?;
        }
        Ok(())
    }
}

impl Report {
    /// What is said of the syncs where they have no fault.
    fn said_of_syncs(&self) -> &'static str {
        if self.syncs_folders {
            YES
        } else {
            NO_FOLDER_SYNC
        }
    }

    /// The fault of a check.
    pub fn fault_of(&self, check: Check) -> Option<&Fault>
        ensures { option_copied result ≡ fault_in check self.now }
    {
        match check {
            Check::Keeps => self.keeps.as_ref(),
            Check::Links => self.links.as_ref(),
            Check::RefusesTakenNames => self.refuses_taken_names.as_ref(),
            Check::Replaces => self.replaces.as_ref(),
            Check::Locks => self.locks.as_ref(),
            Check::Syncs => self.syncs.as_ref(),
            Check::Removes => self.removes.as_ref(),
        }
    }

    /// The first of the checks, in the order of the fields, that the folder does not pass. None where it serves.
    pub fn first_failed(&self) -> Option<Check>
        ensures { result ≡ first_failed self.now }
    {
        if self.keeps.is_some() {
            Some(Check::Keeps)
        } else if self.links.is_some() {
            Some(Check::Links)
        } else if self.refuses_taken_names.is_some() {
            Some(Check::RefusesTakenNames)
        } else if self.replaces.is_some() {
            Some(Check::Replaces)
        } else if self.locks.is_some() {
            Some(Check::Locks)
        } else if self.syncs.is_some() {
            Some(Check::Syncs)
        } else if self.removes.is_some() {
            Some(Check::Removes)
        } else {
            None
        }
    }
}

/// The files of an examination.
#[derive(Drop)]
struct Trial {
    first: String,
    second: String,
    other: String,
    number: u64,
}

/// Tries what the store asks of a folder that is there, with three files of its own, which it removes.
///
/// # Errors
///
/// Want of memory for their names, before anything is made. In a check it is a fault like any other, which the report tells.
pub fn examine<R: Files + Clock + Alloc<A = Global>>(
    rt: &R,
    alloc: Global,
    folder: &str,
) -> Result<Report, AllocError>
where
    R::File: LockFile,
{
    let trial = trial_in(rt, alloc, folder)?;
    let keeps = fault_of(keeps(rt, &trial));
    let links = fault_of(links(rt, &trial));
    let refuses_taken_names = fault_of(refuses_taken_names(rt, &trial));
    let replaces = fault_of(replaces(rt, &trial));
    let locks = fault_of(locks(rt, &trial));
    let synced = syncs(rt, &trial, folder);
    let removes = fault_of(removes(rt, &trial));
    Ok(Report {
        keeps,
        links,
        refuses_taken_names,
        replaces,
        locks,
        syncs_folders: matches!(synced, Ok(true)),
        syncs: fault_of(synced),
        removes,
    })
}

/// The name of a file of an examination.
fn name_in(alloc: Global, folder: &str, of: &str, number: u64) -> Result<String, AllocError> {
    format!(in alloc; "{folder}/doctor-{of}#{number:020}")
}

fn trial_in<R: Clock>(rt: &R, alloc: Global, folder: &str) -> Result<Trial, AllocError> {
    // Where the clock fails, the check of the time is of 1970.
    let number = number_now(rt).unwrap_or(1);
    Ok(Trial {
        first: name_in(alloc, folder, "first", number)?,
        second: name_in(alloc, folder, "second", number)?,
        other: name_in(alloc, folder, "other", number)?,
        number,
    })
}

fn fault_of<T: Drop>(done: Result<T, Halt>) -> Option<Fault> {
    match done {
        Ok(_) => None,
        Err(halt) => Some(fault_at(halt)),
    }
}

/// The fault of a halt: want of memory is one too.
pub(crate) fn fault_at(halt: Halt) -> Fault {
    match halt {
        Halt::Fault(fault) => fault,
        Halt::NoMemory => Fault::of(Doing::Looking, io::Error::from(ErrorKind::OutOfMemory)),
    }
}

fn at(doing: Doing) -> Halt {
    Halt::Fault(Fault::at(doing))
}

/// Writes a new file, which has to be there then, and reads its time back where that is asked.
pub(crate) fn write<R: Files + Alloc<A = Global>>(
    rt: &R,
    name: &str,
    number: u64,
    bytes: &[u8],
    reads_back: bool,
) -> Result<(), Halt> {
    let name = String::from_str(rt.alloc(), name)?;
    let how = Writing {
        syncs: false,
        reads_back,
    };
    match write_new(rt, name, number, bytes, how)? {
        Some(_) => Ok(()),
        None => Err(taken()),
    }
}

/// The halt of a file whose name something has.
fn taken() -> Halt {
    let error = io::Error::from(ErrorKind::AlreadyExists);
    Halt::Fault(Fault::of(Doing::WritingTemporary, error))
}

/// Reads a file back, which has to say these bytes.
fn read_back<R: Files + Alloc<A = Global>>(rt: &R, name: &str, bytes: &[u8]) -> Result<(), Halt> {
    let mut read = Vec::new(rt.alloc());
    let done = match fs::open(rt, name) {
        Ok(mut file) => file.read_to_end(&mut read),
        Err(error) => Err(error),
    };
    match done {
        Ok(_) if read.as_slice() == bytes => Ok(()),
        Ok(_) => Err(at(Doing::ReadingBack)),
        Err(error) => Err(at_error(Doing::Reading, error)),
    }
}

fn keeps<R: Files + Alloc<A = Global>>(rt: &R, trial: &Trial) -> Result<(), Halt> {
    let first = trial.first.as_str();
    write(rt, first, trial.number, b"first", true)?;
    read_back(rt, first, b"first")
}

fn links<R: Files>(rt: &R, trial: &Trial) -> Result<(), Halt> {
    let (first, second) = (trial.first.as_str(), trial.second.as_str());
    match fs::hard_link(rt, first, second) {
        Ok(()) if is_same_file(rt, first, second) => Ok(()),
        Ok(()) => Err(at(Doing::Linking)),
        Err(error) => Err(at_error(Doing::Linking, error)),
    }
}

fn refuses_taken_names<R: Files + Alloc<A = Global>>(rt: &R, trial: &Trial) -> Result<(), Halt> {
    let (other, second) = (trial.other.as_str(), trial.second.as_str());
    write(rt, other, trial.number, b"other", true)?;
    match fs::hard_link(rt, other, second) {
        Ok(()) => Err(at(Doing::LinkingTwice)),
        Err(error) if error.kind() != ErrorKind::AlreadyExists => {
            Err(at_error(Doing::Linking, error))
        }
        Err(_) if is_same_file(rt, trial.first.as_str(), second) => Ok(()),
        Err(_) => Err(at(Doing::LinkingTwice)),
    }
}

fn replaces<R: Files + Alloc<A = Global>>(rt: &R, trial: &Trial) -> Result<(), Halt> {
    let second = trial.second.as_str();
    match fs::rename(rt, trial.other.as_str(), second) {
        Ok(()) => read_back(rt, second, b"other"),
        Err(error) => Err(at_error(Doing::Replacing, error)),
    }
}

/// Whether a lock is taken now.
pub(crate) fn is_locked<F: LockFile>(file: &F, sharing: Sharing) -> Result<bool, Halt> {
    match file.try_lock_file(sharing) {
        Ok(is_locked) => Ok(is_locked),
        Err(error) => Err(at_error(Doing::Locking, error)),
    }
}

fn locks<R: Files>(rt: &R, trial: &Trial) -> Result<(), Halt>
where
    R::File: LockFile,
{
    locks_between(rt, trial.first.as_str(), trial.first.as_str())
}

/// Whether a lock through one name of a file keeps out one through the other.
pub(crate) fn locks_between<R: Files>(rt: &R, one: &str, other: &str) -> Result<(), Halt>
where
    R::File: LockFile,
{
    let one = open_lock(rt, one)?;
    let other = open_lock(rt, other)?;
    let done = locks_against(&one, &other);
    drop(other);
    drop(one);
    done
}

/// Whether a lock through one open keeps the other out, alone and with others.
fn locks_against<F: LockFile>(one: &F, other: &F) -> Result<(), Halt> {
    if !is_locked(one, Sharing::Alone)? {
        return Err(at(Doing::Locking));
    }
    if is_locked(other, Sharing::Alone)? || is_locked(other, Sharing::WithOthers)? {
        return Err(at(Doing::LockingTwice));
    }
    // A lock with others takes the place of the lock alone.
    if !is_locked(one, Sharing::WithOthers)? || !is_locked(other, Sharing::WithOthers)? {
        return Err(at(Doing::Locking));
    }
    if is_locked(other, Sharing::Alone)? {
        return Err(at(Doing::LockingTwice));
    }
    Ok(())
}

/// Whether folders are synced, as a file has to be.
fn syncs<R: Files>(rt: &R, trial: &Trial, folder: &str) -> Result<bool, Halt> {
    let done = match fs::open(rt, trial.first.as_str()) {
        Ok(file) => file.sync_all(),
        Err(error) => Err(error),
    };
    match done {
        Ok(()) => synced(rt, folder),
        Err(error) => Err(at_error(Doing::SyncingTemporary, error)),
    }
}

/// Removes the three files, whatever came before.
fn removes<R: Files>(rt: &R, trial: &Trial) -> Result<(), Halt> {
    let first = removed(rt, trial.first.as_str());
    let second = removed(rt, trial.second.as_str());
    let other = removed(rt, trial.other.as_str());
    first?;
    second?;
    other
}

fn removed<R: Files>(rt: &R, name: &str) -> Result<(), Halt> {
    unlink(rt, name)?;
    if stands(rt, name)? {
        return Err(at(Doing::Removing));
    }
    Ok(())
}
