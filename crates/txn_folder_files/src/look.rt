//! What a mount is asked of a name, and how it shows what was changed through another one.

use crate::doctor::is_locked;
use crate::fault::{Doing, Halt, at_error};
use crate::lock::{LockFile, Sharing, open_lock};
use crate::sights::Finding;
use crate::written::number_of;
use std::alloc::Global;
use std::io::{ErrorKind, Read};
use std::rt::{Clock, Files};
use std::time::Duration;
use std::{fs, io};

/// For how many seconds a mount is asked for the new.
const PATIENCE: u64 = 5;

/// How often, at most, where the clock does not go on.
const LOOKS: u64 = 1_000;

/// What a mount is asked of a name.
#[derive(Clone, Copy)]
pub(crate) enum Look<'a> {
    /// That it is a folder's.
    Folder,
    /// That it is a file's of this number, which says this.
    File(u64, &'a str),
    /// That nothing has it.
    Missing,
    /// That its folder lists it.
    Listed,
    /// That its folder does not.
    Unlisted,
    /// That it is a file's which can be locked alone.
    Lock,
}

/// What the system says of a name.
#[derive(Clone, Copy)]
struct Seen {
    is_there: bool,
    is_folder: bool,
    /// The number that its time is.
    number: Option<u64>,
}

/// Whether a call that failed so found what is gone: no such name, or a file that is none any more.
fn finds_none(error: &io::Error) -> bool {
    matches!(
        error.kind(),
        ErrorKind::NotFound | ErrorKind::StaleNetworkFileHandle
    )
}

fn look_up<R: Files>(rt: &R, name: &str) -> Result<Seen, Halt> {
    match fs::symlink_metadata(rt, name) {
        Ok(metadata) => Ok(Seen {
            is_there: true,
            is_folder: metadata.is_dir(),
            number: number_of(&metadata),
        }),
        Err(error) if finds_none(&error) => Ok(Seen {
            is_there: false,
            is_folder: false,
            number: None,
        }),
        Err(error) => Err(at_error(Doing::Looking, error)),
    }
}

/// Whether a file says this text, where there is one.
fn says<R: Files + Alloc<A = Global>>(
    rt: &R,
    name: &str,
    text: &str,
) -> Result<Option<bool>, Halt> {
    let mut read = Vec::new(rt.alloc());
    let done = match fs::open(rt, name) {
        Ok(mut file) => file.read_to_end(&mut read),
        Err(error) => Err(error),
    };
    match done {
        Ok(_) => Ok(Some(read.as_slice() == text.as_bytes())),
        Err(error) if finds_none(&error) => Ok(None),
        Err(error) => Err(at_error(Doing::Reading, error)),
    }
}

/// Whether a name shows this file, by its number and by its text, or, where none is given, nothing: to a look and to one who
/// opens it.
fn shows_file<R: Files + Alloc<A = Global>>(
    rt: &R,
    name: &str,
    file: Option<(u64, &str)>,
) -> Result<bool, Halt> {
    let seen = look_up(rt, name)?;
    let text = match file {
        Some((_, text)) => text,
        None => "",
    };
    let says = says(rt, name, text)?;
    Ok(match file {
        Some((number, _)) => says == Some(true) && seen.number == Some(number),
        None => says.is_none() && !seen.is_there,
    })
}

/// Whether a name's folder lists it.
fn lists<R: Files + Alloc<A = Global> + Clone + Drop>(rt: &R, name: &str) -> Result<bool, Halt> {
    let (folder, name) = name.rsplit_once('/').unwrap_or((".", name));
    let entries = match fs::read_dir(rt, folder) {
        Ok(entries) => entries,
        Err(error) => return Err(at_error(Doing::Listing, error)),
    };
    let mut is_listed = false;
    for entry in entries {
        match entry {
            Ok(entry) => is_listed = is_listed || entry.file_name() == name,
            Err(error) => return Err(at_error(Doing::Listing, error)),
        }
    }
    Ok(is_listed)
}

/// Whether a lock is to be had alone.
fn is_free<R: Files>(rt: &R, name: &str) -> Result<bool, Halt>
where
    R::File: LockFile,
{
    let open = open_lock(rt, name)?;
    let is_free = is_locked(&open, Sharing::Alone);
    drop(open);
    is_free
}

/// Opens a file and reads it, where there is one.
pub(crate) fn opened<R: Files + Alloc<A = Global>>(
    rt: &R,
    name: &str,
) -> Result<Option<R::File>, Halt> {
    let mut file = match fs::open(rt, name) {
        Ok(file) => file,
        Err(error) if finds_none(&error) => return Ok(None),
        Err(error) => return Err(at_error(Doing::Reading, error)),
    };
    let mut read = Vec::new(rt.alloc());
    match file.read_to_end(&mut read) {
        Ok(_) => Ok(Some(file)),
        Err(error) => Err(at_error(Doing::Reading, error)),
    }
}

/// The opposite of what a mount shows.
fn not(shows: Result<bool, Halt>) -> Result<bool, Halt> {
    match shows {
        Ok(shows) => Ok(!shows),
        Err(halt) => Err(halt),
    }
}

impl Look<'_> {
    /// Whether a mount shows what it is asked of a name.
    ///
    /// # Errors
    ///
    /// The fault of the step that failed, or `NoMemory`. No file is changed.
    pub fn shows<R: Files + Alloc<A = Global> + Clone + Drop>(
        self,
        rt: &R,
        name: &str,
    ) -> Result<bool, Halt>
    where
        R::File: LockFile,
    {
        match self {
            Look::Folder => Ok(look_up(rt, name)?.is_folder),
            Look::File(number, text) => shows_file(rt, name, Some((number, text))),
            Look::Missing => shows_file(rt, name, None),
            Look::Listed => lists(rt, name),
            Look::Unlisted => not(lists(rt, name)),
            Look::Lock => is_free(rt, name),
        }
    }
}

fn now<R: Clock>(rt: &R) -> Result<Duration, Halt> {
    match rt.monotonic() {
        Ok(now) => Ok(now),
        Err(error) => Err(at_error(Doing::ReadingClock, error)),
    }
}

/// How what a mount is asked of a name shows.
pub(crate) fn found<R: Files + Clock + Alloc<A = Global> + Clone + Drop>(
    rt: &R,
    name: &str,
    look: Look<'_>,
) -> Result<Finding, Halt>
where
    R::File: LockFile,
{
    let began = now(rt)?;
    if look.shows(rt, name)? {
        return Ok(Finding::AtOnce);
    }
    for _ in 0..LOOKS {
        rt.sleep(Duration::from_millis(5));
        let is_new = look.shows(rt, name)?;
        let time = now(rt)?.saturating_sub(began);
        if is_new {
            return Ok(Finding::After(time));
        }
        if PATIENCE <= time.as_secs() {
            break;
        }
    }
    Ok(Finding::NotWithin(Duration::from_secs(PATIENCE)))
}
