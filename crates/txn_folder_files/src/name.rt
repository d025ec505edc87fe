//! Names that were seen, and made to last. What was seen of a name is a value that only the functions here make: so a name is
//! said to last only where its folder was synced after that.
ghost use Rattle.std.specs.Prelude.{◌≡◌, IfOk, IfSome, string_bytes};
ghost use Rattle.txn_folder_files.specs.Names.{known, seen, lasting};

use crate::fault::{Doing, Fault, Halt};
use crate::publish::{above, metadata_of, sync_folder};
use std::fs;
use std::fs::Metadata;
use std::io::ErrorKind;
use std::rt::Files;

/// A name that was seen to be that of a regular file.
#[derive(Drop)]
pub struct Name {
    file: String,
    /// Whether its folder was synced since.
    lasts: bool,
}

/// A file that was seen at a name, and what the system says of it.
#[derive(Drop)]
pub struct Sight {
    pub name: Name,
    pub metadata: Metadata,
}

/// The regular file of a name, where there is one.
///
/// # Errors
///
/// A fault where what has the name is no regular file, and one of this step where the name cannot be looked up. No file is
/// changed.
pub fn find<R: Files>(rt: &R, doing: Doing, file: String) -> Result<Option<Sight>, Halt>
    ensures { IfOk result (λ told. IfSome told (λ sight. known sight.name ≡ seen (string_bytes file))) }
{
    match metadata_of(rt, doing, file.as_str())? {
        Some(metadata) => Ok(Some(Sight {
            name: Name { file, lasts: false },
            metadata,
        })),
        None => Ok(None),
    }
}

/// Removes a name, under no lock. One that is missing is removed.
pub(crate) fn unlink<R: Files>(rt: &R, file: &str) -> Result<(), Halt> {
    match fs::remove_file(rt, file) {
        Ok(()) => Ok(()),
        Err(error) if error.kind() == ErrorKind::NotFound => Ok(()),
        Err(error) => Err(Halt::Fault(Fault::of(Doing::Removing, error))),
    }
}

impl Name {
    /// The name of the file.
    pub fn file(&self) -> &str
        ensures { result.now ≡ (known self.now).file }
    {
        self.file.as_str()
    }

    /// The name of the file.
    pub fn into_file(self) -> String
        ensures { string_bytes result ≡ (known self).file }
    {
        let Name { file, lasts: _ } = self;
        file
    }

    /// Whether its folder was synced since.
    pub fn lasts(&self) -> bool
        ensures { result ≡ (known self.now).lasts }
    {
        self.lasts
    }

    /// Makes what was seen of it last: syncs its folder. Where the file system syncs no folder, it lasts as that lets it.
    ///
    /// # Errors
    ///
    /// A fault of the step `SyncingFolder`. What was seen stands, and may not last.
    pub fn make_last<R: Files>(mut self, rt: &R) -> Result<Name, Halt>
        ensures { IfOk result (λ name. known name ≡ lasting (known self)) }
    {
        sync_folder(rt, above(self.file.as_str()))?;
        self.lasts = true;
        Ok(self)
    }
}
