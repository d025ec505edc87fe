//! Why an object, or a file beside it, was not opened.

use std::alloc::{AllocError, Global};
use std::io::Read;
use std::{fs, io};
use thiserror::Error;
use txn_store::path::PathFault;

/// Why an object was not opened. None of its files was written; a recording may have been begun.
#[derive(Debug, Drop, Error)]
pub enum OpenError {
    /// A growth was refused.
    #[error("no memory")]
    NoMemory,
    /// The root is an empty text.
    #[error("the root is empty")]
    EmptyRoot,
    /// Nothing has the root's name. It is not made: it may be where a file system was mounted that is gone, and what would be
    /// made there would be another object.
    #[error("no such folder: is it mounted?")]
    MissingRoot,
    /// What has the root's name is no folder.
    #[error("the root is no folder")]
    RootIsNoFolder,
    /// The name or the suffix is none that a file can have on each file system.
    #[error("a name or a suffix has letters, digits, `-`, `_` and `.` alone, and one at least; a suffix has no `.`, and a name is not `.` or `..`")]
    BadName,
    /// The name is `gc`: the folder of all boundaries has it.
    #[error("an object cannot have the name of the folder of all boundaries, gc")]
    NameOfBoundaries,
    /// The name or the suffix is too long for the names of temporary files.
    #[error("a name has at most 225 bytes, and a suffix at most 213")]
    LongName,
    /// The client's number is 0.
    #[error("a client's number is at least 1")]
    NumberZero,
    /// Another process writes the recording.
    #[error("another process writes this recording: give each its own")]
    RecordingInUse,
    /// The system failed at a file, or at the root.
    #[error("{0}: {1}")]
    File(String, io::Error),
    /// The system failed at its clock, or as the recording's first rows were written.
    #[error("{0}")]
    System(io::Error),
}

/// The system's error at a file.
pub(crate) fn at_file(alloc: Global, path: &str, error: io::Error) -> OpenError {
    match String::from_str(alloc, path) {
        Ok(path) => OpenError::File(path, error),
        Err(_) => OpenError::NoMemory,
    }
}

/// What a file holds.
///
/// # Errors
///
/// `File` where the system fails at it; `NoMemory` where a growth was refused.
pub fn bytes_in(rt: &HostRuntime, path: &str) -> Result<Vec<u8>, OpenError> {
    let mut bytes = Vec::new(rt.alloc());
    let mut file = match fs::open(rt, path) {
        Ok(file) => file,
        Err(error) => return Err(at_file(rt.alloc(), path, error)),
    };
    match file.read_to_end(&mut bytes) {
        Ok(_) => Ok(bytes),
        Err(error) => Err(at_file(rt.alloc(), path, error)),
    }
}

impl From<AllocError> for OpenError {
    fn from(_e: AllocError) -> OpenError {
        OpenError::NoMemory
    }
}

impl From<io::Error> for OpenError {
    fn from(error: io::Error) -> OpenError {
        OpenError::System(error)
    }
}

impl From<PathFault> for OpenError {
    fn from(fault: PathFault) -> OpenError {
        match fault {
            PathFault::NoMemory => OpenError::NoMemory,
            PathFault::BadSegment => OpenError::BadName,
        }
    }
}
