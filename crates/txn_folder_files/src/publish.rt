//! How names are looked up and made to last, and how folders are made.

use crate::fault::{Doing, Fault, Halt, at_error, lacks_folder};
use std::fs;
use std::fs::{Metadata, OpenFile};
use std::io::ErrorKind;
use std::os::unix::fs::MetadataExt;
use std::rt::Files;

/// What the system says of the regular file of a name, where there is one. What is no regular file is a fault, and so is a
/// name that cannot be looked up, which is one of this step.
pub(crate) fn metadata_of<R: Files>(
    rt: &R,
    doing: Doing,
    file: &str,
) -> Result<Option<Metadata>, Halt> {
    match fs::symlink_metadata(rt, file) {
        Ok(metadata) if metadata.is_file() => Ok(Some(metadata)),
        Ok(_) => Err(Halt::Fault(Fault::at(Doing::NotRegular))),
        Err(error) if error.kind() == ErrorKind::NotFound => Ok(None),
        Err(error) => Err(at_error(doing, error)),
    }
}

/// Whether anything has this name.
///
/// # Errors
///
/// A fault where what has the name is no regular file, and where the name cannot be looked up. No file is changed.
pub fn stands<R: Files>(rt: &R, file: &str) -> Result<bool, Halt> {
    let metadata = metadata_of(rt, Doing::Looking, file)?;
    Ok(metadata.is_some())
}

/// Whether two names are known to be of one file.
pub(crate) fn is_same_file<R: Files>(rt: &R, one: &str, other: &str) -> bool {
    let (Ok(one), Ok(other)) = (
        fs::symlink_metadata(rt, one),
        fs::symlink_metadata(rt, other),
    ) else {
        return false;
    };
    one.ino() != 0 && one.ino() == other.ino() && one.dev() == other.dev()
}

/// Makes the names in a folder last. Whether the file system did: some sync no folder, and say so.
pub(crate) fn synced<R: Files>(rt: &R, folder: &str) -> Result<bool, Halt> {
    let synced = match fs::open(rt, folder) {
        Ok(file) => file.sync_all(),
        Err(error) => Err(error),
    };
    match synced {
        Ok(()) => Ok(true),
        Err(error)
            if error.kind() == ErrorKind::InvalidInput || error.kind() == ErrorKind::Unsupported =>
            { Ok(false) }
        Err(error) => Err(Halt::Fault(Fault::of(Doing::SyncingFolder, error))),
    }
}

/// Makes the names in a folder last. Where the file system syncs no folder, they last as it lets them.
///
/// # Errors
///
/// A fault of the step `SyncingFolder`. The names stand, and may not last.
pub fn sync_folder<R: Files>(rt: &R, folder: &str) -> Result<(), Halt> {
    synced(rt, folder)?;
    Ok(())
}

/// Makes the names in a folder last, where it is there.
///
/// # Errors
///
/// As of `sync_folder`, but of a folder that is missing.
pub fn sync_if_there<R: Files>(rt: &R, folder: &str) -> Result<(), Halt> {
    let done = sync_folder(rt, folder);
    if lacks_folder(&done) {
        return Ok(());
    }
    done
}

/// Makes a folder where it is missing, in a folder that is there, and lasting where that is asked. One that is missing above it
/// is not made: it may be where a file system was mounted that is gone, and what would be made there would be another object.
///
/// # Errors
///
/// A fault of the step `MakingFolder` or `SyncingFolder`. The folder may have been made.
pub fn make_folder<R: Files>(rt: &R, folder: &str, syncs: bool) -> Result<(), Halt> {
    match fs::metadata(rt, folder) {
        Ok(_) => return Ok(()),
        Err(error) if error.kind() == ErrorKind::NotFound => {}
        Err(error) => return Err(at_error(Doing::MakingFolder, error)),
    }
    match fs::create_dir(rt, folder) {
        Ok(()) if syncs => sync_folder(rt, above(folder)),
        Ok(()) => Ok(()),
        Err(error) => match fs::metadata(rt, folder) {
            Ok(metadata) if metadata.is_dir() => Ok(()),
            _ => Err(Halt::Fault(Fault::of(Doing::MakingFolder, error))),
        },
    }
}

/// The folder that a name stands in.
pub(crate) fn above(folder: &str) -> &str {
    match folder.rsplit_once('/') {
        Some(("", _)) => "/",
        Some((above, _)) => above,
        None => ".",
    }
}
