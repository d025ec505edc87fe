//! Scans of the folder of the versions.
ghost use Rattle.std.specs.Prelude.{◌<◌, ℕ, Option, All, Decides, IfOk};
ghost use Rattle.std.specs.List.Sorted.{IsStrictlyIncreasing};
ghost use Rattle.txn_folder_files.specs.Names.{IsHeld};
ghost use Rattle.txn_folder_files.specs.declared.lock.Sharing.TheVariants.{Alone};
ghost use Rattle.txn_folder.specs.Pages.{AscendAbove, IsAbove};
ghost use Rattle.txn_folder.specs.Places.{versions_lock};

use crate::folder::Folder;
use crate::steps::scan::{ScanNext, ScanStep};
use std::alloc::{AllocError, Global};
use std::fs;
use std::io::ErrorKind;
use std::rt::Files;
use txn_folder_files::fault::{Doing, Fault, Halt, at_error};
use txn_folder_files::lock::Lock;

/// How many scans a search makes at most.
pub(crate) const SCANS: u64 = 64;

/// The halt of a search whose scans never told one moment.
pub(crate) fn unsettled() -> Halt {
    Halt::Fault(Fault::at(Doing::Unsettled))
}

/// Whether an id is above one, where that is given.
fn is_above(id: u64, after: Option<u64>) -> bool
    ensures { Decides result (IsAbove after id) }
{
    match after {
        Some(after) => after < id,
        None => true,
    }
}

/// Adds an id that is above one.
fn keep(ids: &mut Vec<u64>, id: u64, after: Option<u64>) -> Result<(), AllocError>
    ensures { All (IsAbove after) ids.old.items → All (IsAbove after) ids.new.items }
{
    if !is_above(id, after) {
        return Ok(());
    }
    ids.push(id)?;
    Ok(())
}

/// The search for the versions in a folder above one, where that is given.
#[derive(Drop)]
pub(crate) struct Search<'r, R> {
    pub rt: &'r R,
    pub folder: &'r Folder,
    pub after: Option<u64>,
}

impl<R: Files + Alloc<A = Global> + Clone + Drop> Search<'_, R> {
    /// The ids of the versions that the folder shows.
    fn shown(&self) -> Result<Vec<u64>, Halt>
        ensures { IfOk result (λ ids. All (IsAbove self.now.after) ids.items) }
    {
        let mut ids = Vec::new(self.rt.alloc());
        let entries = match fs::read_dir(self.rt, self.folder.versions()) {
            Ok(entries) => entries,
            Err(error) if error.kind() == ErrorKind::NotFound => return Ok(ids),
            Err(error) => return Err(at_error(Doing::Listing, error)),
        };
        for entry in entries {
            let id = match entry {
                Ok(entry) => self.folder.id_of(entry.file_name()),
                // A name that is no text is none of the object's.
                Err(error) if error.kind() == ErrorKind::InvalidFilename => None,
                Err(error) => return Err(at_error(Doing::Listing, error)),
            };
            if let Some(id) = id {
                keep(&mut ids, id, self.after)?;
            }
        }
        Ok(ids)
    }

    /// The ids, ascending, of the versions that the folder shows as it is gone through once.
    pub fn scan(&self) -> Result<Vec<u64>, Halt>
        ensures { IfOk result (λ ids. AscendAbove self.now.after ids.items) }
    {
        let mut ids = self.shown()?;
        ids.sort_unstable();
        ids.dedup();
        Ok(ids)
    }
}

/// The ids, ascending, of the versions that stand. Nothing is removed meanwhile: the lock of removals is held.
pub(crate) fn standing<R: Files + Alloc<A = Global> + Clone + Drop>(
    rt: &R,
    folder: &Folder,
    _lock: &Lock<R::File>,
) -> Result<Vec<u64>, Halt>
    requires { IsHeld (versions_lock folder.now) Alone _lock.now }
    ensures { IfOk result (λ ids. IsStrictlyIncreasing ids.items) }
{
    let search = Search {
        rt,
        folder,
        after: None,
    };
    let mut step = ScanStep::Once;
    for _ in 0..SCANS {
        match step.take(None, search.scan()?) {
            ScanNext::Goes(next) => step = next,
            ScanNext::Settles(ids) => return Ok(ids),
        }
    }
    Err(unsettled())
}
