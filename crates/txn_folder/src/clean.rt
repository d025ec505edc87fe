//! The removal of what processes that died have left.

use crate::folder::{Folder, temporary_of};
use std::alloc::Global;
use std::fs;
use std::fs::DirEntry;
use std::io::ErrorKind;
use std::rt::Files;
use std::time::SystemTime;
use txn_folder_files::fault::{Doing, Fault};

/// Whether a name is a temporary one of a version or of the boundary.
fn is_leftover(folder: &Folder, name: &str) -> bool {
    match temporary_of(name) {
        Some(file) => folder.id_of(file).is_some() || folder.is_boundary(file),
        None => false,
    }
}

/// Removes the object's temporary files in one of its folders that are older than a time, and tells how many.
pub(crate) fn clean_in<R: Files + Alloc<A = Global> + Clone + Drop>(
    rt: &R,
    folder: &Folder,
    place: &str,
    before: SystemTime,
) -> Result<u64, Fault> {
    let mut count = 0u64;
    let entries = match fs::read_dir(rt, place) {
        Ok(entries) => entries,
        Err(error) if error.kind() == ErrorKind::NotFound => return Ok(0),
        Err(error) => return Err(Fault::of(Doing::Listing, error)),
    };
    for entry in entries {
        match entry {
            Ok(entry) => {
                if clean_one(rt, folder, &entry, before)? {
                    count = count.saturating_add(1);
                }
            }
            // A name that is no text is none of the object's.
            Err(error) if error.kind() == ErrorKind::InvalidFilename => {}
            Err(error) => return Err(Fault::of(Doing::Listing, error)),
        }
    }
    Ok(count)
}

/// Removes a file that is left over. Whether it did: one that is gone meanwhile is not counted.
fn clean_one<R: Files + Alloc<A = Global> + Clone + Drop>(
    rt: &R,
    folder: &Folder,
    entry: &DirEntry<R, Global>,
    before: SystemTime,
) -> Result<bool, Fault> {
    if !is_leftover(folder, entry.file_name()) {
        return Ok(false);
    }
    let is_old = match entry.metadata() {
        Ok(metadata) => metadata.is_file()
            && matches!(metadata.modified(), Ok(time) if time < before),
        Err(error) if error.kind() == ErrorKind::NotFound => false,
        Err(error) => return Err(Fault::of(Doing::Looking, error)),
    };
    if !is_old {
        return Ok(false);
    }
    match fs::remove_file(rt, entry.path()) {
        Ok(()) => Ok(true),
        Err(error) if error.kind() == ErrorKind::NotFound => Ok(false),
        Err(error) => Err(Fault::of(Doing::Removing, error)),
    }
}
