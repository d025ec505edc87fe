//! How the program ends: why it goes no further, the words for that, and the status.

use std::alloc::{AllocError, AllocFailed};
use std::{fmt, io};
use txn_folder::repair::Kept;
use txn_folder_files::fault::{self, Fault};
use txn_history::event::EventFault;
use txnobj::clients::stop::Stop;
use txnobj::error::Error;
use txnobj_folder::error::OpenError;

/// The status of a fault of the system.
pub const FAULT: u8 = 1;
/// The status of wrong words.
pub const USAGE: u8 = 2;
/// The status of a watch that saw nothing new, and of a folder that does not serve.
pub const NOTHING: u8 = 3;
/// The status of an audit that does not agree.
pub const NOT_ONE_HISTORY: u8 = 4;
/// The status of a repair of an object of which nothing is torn.
const NOTHING_TORN: u8 = 5;
/// The status of a repair that would leave no version at which the object goes on.
const NOT_REPAIRED: u8 = 6;
/// A call's refusal n ends with this and n.
const REFUSED: u8 = 10;
/// A call that the client does not permit, by fault n, ends with this and n.
const NOT_PERMITTED: u8 = 30;

/// Why the program goes no further.
#[derive(Drop)]
pub enum Halt {
    NoMemory,
    /// The system's error.
    Io(io::Error),
    /// The object, or a file, was not opened.
    Open(OpenError),
    /// A row of the recording could not be written.
    Unrecorded(io::Error),
    /// A store call failed.
    Store(Fault),
    /// The same, of a call that a client made for a command, which may have been a write.
    Call(Fault),
    /// A repair removed nothing.
    Kept(Kept),
    /// Words that do not go together.
    Words(&'static str),
    /// A call was refused with this number.
    Refused(u8),
    /// The client does not permit the call.
    NotPermitted(EventFault),
    /// A call took too many steps.
    NoEnd,
}

/// The status of what was not opened.
fn status_of(error: &OpenError) -> u8 {
    match error {
        OpenError::NoMemory | OpenError::File(_, _) | OpenError::System(_) => FAULT,
        _ => USAGE,
    }
}

/// The status of a repair that removed nothing. Where there is no version, and where the boundary says no number, it is that of
/// any other call of such an object.
fn status_of_kept(kept: &Kept) -> u8 {
    match kept {
        Kept::NoVersion => REFUSED + 4,
        Kept::NothingTorn(_) => NOTHING_TORN,
        Kept::NoBoundary => REFUSED + 7,
        Kept::NoValue | Kept::NotAbove { .. } => NOT_REPAIRED,
    }
}

impl Halt {
    /// The status that the program ends with.
    pub fn status(&self) -> u8 {
        match self {
            Halt::NoMemory | Halt::Io(_) | Halt::Unrecorded(_) | Halt::Store(_) | Halt::Call(_) =>
                FAULT,
            Halt::Open(error) => status_of(error),
            Halt::Kept(kept) => status_of_kept(kept),
            Halt::Words(_) => USAGE,
            Halt::Refused(number) => number.saturating_add(REFUSED),
            Halt::NotPermitted(fault) => fault.number().saturating_add(NOT_PERMITTED),
            Halt::NoEnd => REFUSED + 11,
        }
    }
}

/// What a refusal means, and what to do next.
fn meaning(number: u8) -> &'static str {
    match number {
        2 => "the store failed: whether the write took effect is not known; read again",
        4 => "there is no version yet: write the first with `init`",
        5 =>
            "a conflict: the version to be written on is not the newest, or one stands already, or the boundary has reached it; read again, and write with `put`",
        6 =>
            "fenced: the object has a greater epoch, or the one that was to be claimed; whoever is to go on claims anew",
        7 =>
            "not in this state: a delete wants an id at or below the boundary, a put with --epoch one that was claimed; of any other command, gc/NAME.boundary says no number: it is damaged",
        8 =>
            "the bytes of a version are no value of this program: another one wrote it, or it is damaged",
        9 => "no memory",
        10 => "no id or epoch is left: go on under another name",
        _ => "refused",
    }
}

/// Why the client does not permit a call.
pub fn reason(fault: EventFault) -> &'static str {
    match fault {
        EventFault::UnknownNumber => "there is no such view, or it is of the other kind",
        EventFault::NotAsked => "the operation asks for something else",
        EventFault::UnknownBase => "it read no version of this id: read first",
        EventFault::BoundaryTooHigh =>
            "the boundary stays below the newest version that it knows: read first",
        EventFault::EpochLowered =>
            "the value's epoch is below that of the version that it is written on",
        EventFault::ViewBusy => "the view is in use",
        EventFault::NoMemory => "no memory",
    }
}

impl Halt {
    /// The words for it, but for an error of the system's.
    fn words(&self) -> &str {
        match self {
            Halt::NoMemory => "no memory",
            Halt::Open(OpenError::EmptyRoot) => "--root is empty",
            Halt::Open(OpenError::RootIsNoFolder) => "--root is no folder",
            Halt::Kept(Kept::NoVersion) => meaning(4),
            Halt::Kept(Kept::NoBoundary) => meaning(7),
            Halt::Kept(Kept::NoValue) =>
                "no version that stands is a value of this program: there is none to go on at, and none was removed",
            Halt::Words(words) => words,
            Halt::Refused(number) => meaning(*number),
            Halt::NotPermitted(fault) => reason(*fault),
            Halt::NoEnd =>
                "no answer in sight: others write all the time (try again), or the boundary stands at or above the newest version, as where files of several times were put together",
            _ => "",
        }
    }
}

impl fmt::Display for Halt {
    fn fmt<W: fmt::Write>(&self, f: &mut fmt::Formatter<W>) -> fmt::Result {
        match self {
            Halt::Io(error) => write!(f, "{error}"),
            Halt::Open(OpenError::EmptyRoot | OpenError::RootIsNoFolder) => f.write_str(
                self.words(),
            ),
            Halt::Open(error) => write!(f, "{error}"),
            Halt::Unrecorded(error) => write!(
                f,
                "writing the recording: {error}; what was asked for may have taken effect: read again"
            ),
            Halt::Kept(Kept::NothingTorn(newest)) => write!(
                f,
                "nothing is torn: the newest version, {newest}, is a value"
            ),
            Halt::Kept(Kept::NotAbove { newest, boundary }) => write!(
                f,
                "the newest version that is a value, {newest}, is not above the boundary, {boundary}: there is none to go on at, and none was removed"
            ),
            Halt::Store(fault) => write!(f, "{fault}"),
            Halt::Call(fault) => write!(f, "{fault}; a write may have taken effect: read again"),
            halt => f.write_str(halt.words()),
        }
    }
}

impl From<AllocError> for Halt {
    fn from(_e: AllocError) -> Halt {
        Halt::NoMemory
    }
}

impl<T: Drop> From<AllocFailed<T>> for Halt {
    fn from(_e: AllocFailed<T>) -> Halt {
        Halt::NoMemory
    }
}

impl From<io::Error> for Halt {
    fn from(error: io::Error) -> Halt {
        Halt::Io(error)
    }
}

impl From<OpenError> for Halt {
    fn from(error: OpenError) -> Halt {
        Halt::Open(error)
    }
}

/// A refusal, by the number of its kind.
fn refused(error: Error<Fault>) -> Halt {
    let number = error.number();
    drop(error);
    Halt::Refused(number)
}

impl From<Error<Fault>> for Halt {
    fn from(error: Error<Fault>) -> Halt {
        match error {
            Error::ObjectStoreError(Some(fault)) => Halt::Call(fault),
            Error::NotPermitted(fault) => Halt::NotPermitted(fault),
            Error::Unrecorded(error) => Halt::Unrecorded(error),
            Error::TurnsExhausted => Halt::NoEnd,
            Error::Ended => Halt::NoMemory,
            other => refused(other),
        }
    }
}

impl From<fault::Halt> for Halt {
    fn from(halt: fault::Halt) -> Halt {
        match halt {
            fault::Halt::NoMemory => Halt::NoMemory,
            fault::Halt::Fault(fault) => Halt::Store(fault),
        }
    }
}

impl From<Stop> for Halt {
    fn from(stop: Stop) -> Halt {
        match stop {
            Stop::Refused(EventFault::NoMemory) => Halt::NoMemory,
            Stop::Refused(fault) => Halt::NotPermitted(fault),
            Stop::StepsSpent => Halt::NoEnd,
            Stop::Unrecorded(error) => Halt::Unrecorded(error),
            Stop::NoMemory | Stop::Ended => Halt::NoMemory,
        }
    }
}
