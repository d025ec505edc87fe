//! Why a call of the folder failed.
ghost use Rattle.std.specs.Prelude.{◌≡◌, ◌≢◌, Some, None, Decides};
ghost use Rattle.std.specs.IoError.{error_kind};
ghost use Rattle.txn_folder_files.specs.Halts.{LacksFolder};

use std::alloc::AllocError;
use std::error::Error;
use std::io::ErrorKind;
use std::{fmt, io};

/// The step that failed.
#[derive(Clone, Copy, Debug, PartialEq, Eq)]
pub enum Doing {
    /// The clock told no time, or no number above the last one is left.
    ReadingClock,
    /// A folder of the object, or one above it, was to be made.
    MakingFolder,
    /// A new file was to be written under a name of its own.
    WritingTemporary,
    /// A new file's time was to be set.
    SettingTime,
    /// The file system keeps another time than the one that was set.
    KeepingTime,
    /// A new file was to be made to last.
    SyncingTemporary,
    /// A new file was to come to its name, as a hard link.
    Linking,
    /// A new file was to take an old one's place.
    Replacing,
    /// The names in a folder were to be made to last.
    SyncingFolder,
    /// A lock was to be taken.
    Locking,
    /// A name was to be looked up.
    Looking,
    /// A file was to be read.
    Reading,
    /// A folder was to be listed.
    Listing,
    /// A file was to be removed.
    Removing,
    /// Something that is no regular file stands at the name.
    NotRegular,
    /// The path is none of the object's.
    Elsewhere,
    /// The folder changed at each listing.
    Unsettled,
    /// A second link to a taken name was made, where it had to be refused.
    LinkingTwice,
    /// A second open was locked beside the first.
    LockingTwice,
    /// Other bytes were read than were written.
    ReadingBack,
}

impl fmt::Display for Doing {
    fn fmt<W: fmt::Write>(&self, f: &mut fmt::Formatter<W>) -> fmt::Result {
        f.write_str(match self {
            Doing::ReadingClock => "reading the clock",
            Doing::MakingFolder => "making the folder",
            Doing::WritingTemporary => "writing a temporary file",
            Doing::SettingTime => "setting the time of a file",
            Doing::KeepingTime =>
                "the file system does not keep the time of a file to the nanosecond",
            Doing::SyncingTemporary => "syncing a temporary file",
            Doing::Linking => "linking a new file to its name",
            Doing::Replacing => "renaming a new file over an old one",
            Doing::SyncingFolder => "syncing the folder",
            Doing::Locking => "locking",
            Doing::Looking => "looking for a file",
            Doing::Reading => "reading a file",
            Doing::Listing => "listing the folder",
            Doing::Removing => "removing a file",
            Doing::NotRegular => "the name is that of no regular file",
            Doing::Elsewhere => "the path is none of the object's",
            Doing::Unsettled => "the folder changed at each listing",
            Doing::LinkingTwice => "a second link to a taken name is not refused",
            Doing::LockingTwice => "a second open can lock a locked file",
            Doing::ReadingBack => "other bytes are read than were written",
        })
    }
}

impl Error for Doing {}

/// What went wrong: the step, and the system's error where there was one.
#[derive(Clone, Copy, Debug)]
pub struct Fault {
    pub doing: Doing,
    pub error: Option<io::Error>,
}

impl fmt::Display for Fault {
    fn fmt<W: fmt::Write>(&self, f: &mut fmt::Formatter<W>) -> fmt::Result {
        let doing = self.doing;
        match &self.error {
            Some(error) => write!(f, "{doing}: {error}"),
            None => write!(f, "{doing}"),
        }
    }
}

impl Fault {
    /// A fault with the system's error.
    pub fn of(doing: Doing, error: io::Error) -> Fault
        ensures { result ≡ record { doing = doing; error = Some error } }
    {
        Fault {
            doing,
            error: Some(error),
        }
    }

    /// A fault with no error of the system's.
    pub fn at(doing: Doing) -> Fault
        ensures { result ≡ record { doing = doing; error = None } }
    {
        Fault { doing, error: None }
    }
}

/// Why a step did not go on.
#[derive(Clone, Copy)]
pub enum Halt {
    /// A growth was refused, and nothing has changed.
    NoMemory,
    Fault(Fault),
}

impl From<AllocError> for Halt {
    fn from(_e: AllocError) -> Halt {
        Halt::NoMemory
    }
}

impl From<Fault> for Halt {
    fn from(fault: Fault) -> Halt {
        Halt::Fault(fault)
    }
}

/// Whether a step did not go on since the folder of its file is missing.
pub fn lacks_folder<T>(done: &Result<T, Halt>) -> bool
    ensures { Decides result (LacksFolder done.now) }
{
    let Err(Halt::Fault(fault)) = done else {
        return false;
    };
    match &fault.error {
        Some(error) => {
            error.kind() == ErrorKind::NotFound || error.kind() == ErrorKind::NotADirectory
        }
        None => false,
    }
}

/// The halt of a step that changes nothing.
pub fn at_error(doing: Doing, error: io::Error) -> Halt
    ensures memory { error_kind error ≡ ErrorKind.OutOfMemory → result ≡ Halt.NoMemory }
    ensures fault { error_kind error ≢ ErrorKind.OutOfMemory → result ≡ Halt.Fault (record { doing = doing; error = Some error }) }
{
    if error.kind() == ErrorKind::OutOfMemory {
        return Halt::NoMemory;
    }
    Halt::Fault(Fault::of(doing, error))
}
