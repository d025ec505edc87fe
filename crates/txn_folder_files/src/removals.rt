//! Names that are removed one after another, under one lock.
ghost use Rattle.std.specs.Prelude.{◌≡◌, false, IfOk, map, string_bytes};
ghost use Rattle.txn_folder_files.specs.Names.{lock_name};
ghost use Rattle.txn_folder_files.specs.Removed.{removed, lasting};

use crate::fault::Halt;
use crate::lock::Lock;
use crate::name::unlink;
use crate::publish::{above, sync_folder};
use std::rt::Files;

/// Names that were removed, one after another, under a lock that is held still.
#[derive(Drop)]
pub struct Removals<F: Drop> {
    files: Vec<String>,
    lock: Lock<F>,
    /// Whether the folder of each was synced since.
    lasts: bool,
}

/// Removes these names under a lock, the first first. One that is missing is removed.
///
/// # Errors
///
/// A fault of the step `Removing`, at one of the names: those before it are gone, it may be gone or not, and those behind it
/// stand.
pub fn remove_each<R: Files>(
    rt: &R,
    lock: Lock<R::File>,
    files: Vec<String>,
) -> Result<Removals<R::File>, Halt>
    ensures { IfOk result (λ gone. removed gone ≡ record { files = map string_bytes files.items; lock = lock_name lock; lasts = false }) }
{
    for file in &files {
        unlink(rt, file.as_str())?;
    }
    Ok(Removals {
        files,
        lock,
        lasts: false,
    })
}

impl<F: Drop> Removals<F> {
    /// Makes the removals last: syncs the folder of each name, once for all that follow one another in one folder.
    ///
    /// # Errors
    ///
    /// A fault of the step `SyncingFolder`: the names are gone, which may not last.
    pub fn make_last<R: Files>(mut self, rt: &R) -> Result<Removals<F>, Halt>
        ensures { IfOk result (λ gone. removed gone ≡ lasting (removed self)) }
    {
        sync_folders(rt, self.files.as_slice())?;
        self.lasts = true;
        Ok(self)
    }
}

/// Makes the names in the folders of these files last.
fn sync_folders<R: Files>(rt: &R, files: &[String]) -> Result<(), Halt> {
    let mut last = "";
    for file in files {
        let folder = above(file.as_str());
        if folder != last {
            sync_folder(rt, folder)?;
            last = folder;
        }
    }
    Ok(())
}
