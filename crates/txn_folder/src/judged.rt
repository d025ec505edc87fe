//! Versions whose bytes were read, by whether a codec reads them as a value. No other code makes these values: so a version
//! is said to be torn only where its bytes were read and are no value.
ghost use Rattle.std.specs.Prelude.{◌≡◌, IfOk};
ghost use Rattle.txn_folder_files.specs.Names.{known};
ghost use Rattle.txn_folder.specs.Repairs.{IsJudged};
ghost use Rattle.txn_folder.specs.Files.{version_file};

use crate::folder::Folder;
use crate::found::Found;
use std::alloc::Global;
use txn_folder_files::fault::Halt;
use txn_store::types::codec::{CodecFault, ObjectCodec};

/// A version whose bytes were read, and are a value.
#[derive(Clone, Copy)]
pub(crate) struct Whole {
    id: u64,
}

/// A version whose bytes were read, and are no value.
#[derive(Clone, Copy)]
pub(crate) struct Torn {
    id: u64,
}

/// A version whose bytes were read.
#[derive(Clone, Copy)]
pub(crate) enum Judged {
    Whole(Whole),
    Torn(Torn),
}

impl Whole {
    /// Its id.
    pub fn id(self) -> u64
        ensures { result ≡ self.id }
    {
        self.id
    }
}

impl Torn {
    /// Its id.
    pub fn id(self) -> u64
        ensures { result ≡ self.id }
    {
        self.id
    }
}

/// Whether a version, of which this was found, is a value. The only error is want of memory.
pub(crate) fn judge<T: Drop, C: ObjectCodec<T>>(
    alloc: Global,
    codec: &C,
    _folder: &Folder,
    id: u64,
    found: &Found,
) -> Result<Judged, Halt>
    requires { (known found.now.name).file ≡ version_file _folder.now id }
    ensures { IfOk result (IsJudged (C.decoded codec.now found.now.bytes) id) }
{
    match codec.decode(alloc, &found.bytes) {
        Ok(_) => Ok(Judged::Whole(Whole { id })),
        Err(CodecFault::Refused(_)) => Ok(Judged::Torn(Torn { id })),
        Err(CodecFault::NoMemory) => Err(Halt::NoMemory),
    }
}
