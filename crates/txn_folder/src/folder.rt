//! The names of an object's files in a folder.
ghost use Rattle.std.specs.Prelude.{◌≡◌, ◌↔◌, ◌||◌, ℕ, ◌<◌, ◌^◌, List, Some, true, not, IfOk, IsErrOf, Decides, MatchOption, map, string_bytes};
ghost use Rattle.txn_store.specs.Paths.{is_plain};
ghost use Rattle.txn_store.specs.Digits.{padded};
ghost use Rattle.txn_store.specs.VersionName.{is_suffix, version_name};
ghost use Rattle.txn_folder.specs.Files.{versions_folder, gc_folder, boundary_file, boundary_name, version_file, IsTemporaryOf};

use crate::steps::place::Place;
use std::alloc::{AllocError, Global};
use std::marker::Model;
use txn_store::digits::read_digits;
use txn_store::path::{PathFault, is_plain};
use txn_store::version_names::is_suffix;

/// The files of one object below a root: version n is `<root>/<name>/<n in 20 digits>.<suffix>`, and the boundary is
/// `<root>/gc/<name>.boundary`. A name that goes on with a `#` after one of these is a temporary file's or a lock's; no
/// version and no boundary has one. A clause sees the root, the name and the suffix.
pub struct Folder {
    root: String,
    name: String,
    suffix: String,
    versions: String,
    gc: String,
    boundary: String,
}

impl Drop for Folder {
    /// Drops the names: here, so that no crate above has to prove how each is dropped.
    fn drop(self) {
        let Folder {
            root: _,
            name: _,
            suffix: _,
            versions: _,
            gc: _,
            boundary: _,
        } = self;
    }
}

impl Model for Folder {
    ghost use Rattle.std.specs.Prelude.{string_bytes};
    ghost use Rattle.txn_folder.specs.Files.{ObjectFiles, AreKept};

    ghost Value = { ObjectFiles };

    ghost view = { λ f. record { root = string_bytes f.root; name = string_bytes f.name; suffix = string_bytes f.suffix } };

    ghost invariant = { λ f. AreKept (record { root = string_bytes f.root; name = string_bytes f.name; suffix = string_bytes f.suffix }) (string_bytes f.versions) (string_bytes f.gc) (string_bytes f.boundary) };
}

impl Folder {
    ghost use Rattle.txn_folder.specs.Places.{place_file, place_folder};

    /// The files of the object of this name below a root, a folder of the file system. Nothing is made.
    ///
    /// # Errors
    ///
    /// `BadSegment` exactly where the name or the suffix is not as it has to be: a plain segment, and for the suffix one
    /// without a dot. `NoMemory` where a growth was refused.
    pub fn new(alloc: Global, root: &str, name: &str, suffix: &str) -> Result<Folder, PathFault>
        ensures ok { IfOk result (λ folder. folder ≡ record { root = root.now; name = name.now; suffix = suffix.now }) }
        ensures bad_segment { IsErrOf result PathFault.BadSegment ↔ ((not (is_plain name.now) || not (is_suffix suffix.now)) ≡ true) }
    {
        if !is_plain(name) || !is_suffix(suffix) {
            return Err(PathFault::BadSegment);
        }
        Ok(Folder {
            root: String::from_str(alloc, root)?,
            name: String::from_str(alloc, name)?,
            suffix: String::from_str(alloc, suffix)?,
            versions: format!(in alloc; "{root}/{name}")?,
            gc: format!(in alloc; "{root}/gc")?,
            boundary: format!(in alloc; "{root}/gc/{name}.boundary")?,
        })
    }

    /// The folder below which the files lie.
    pub fn root(&self) -> &str
        ensures { result.now ≡ self.now.root }
    {
        self.root.as_str()
    }

    /// The folder of the versions.
    pub fn versions(&self) -> &str
        ensures { result.now ≡ versions_folder self.now }
    {
        self.versions.as_str()
    }

    /// The folder of the boundary.
    pub fn gc(&self) -> &str
        ensures { result.now ≡ gc_folder self.now }
    {
        self.gc.as_str()
    }

    /// The boundary's file.
    pub fn boundary(&self) -> &str
        ensures { result.now ≡ boundary_file self.now }
    {
        self.boundary.as_str()
    }

    /// The file of a version.
    ///
    /// # Errors
    ///
    /// Want of memory alone, which changes nothing.
    pub fn version(&self, alloc: Global, id: u64) -> Result<String, AllocError>
        ensures { IfOk result (λ file. string_bytes file ≡ version_file self.now id) }
    {
        let versions = self.versions.as_str();
        let suffix = self.suffix.as_str();
        let file = format!(in alloc; "{versions}/{id:020}.{suffix}")?;
        Ok(file)
    }

    /// The files of versions, in this order. The only error is want of memory.
    pub(crate) fn files_of(&self, alloc: Global, ids: &[u64]) -> Result<Vec<String>, AllocError>
        ensures { IfOk result (λ files. map string_bytes files.items ≡ map (version_file self.now) ids.now) }
    {
        let mut files = Vec::new(alloc);
        for id in ids {
            files.push(self.version(alloc, *id)?)?;
        }
        Ok(files)
    }

    /// The file at a place. The only error is want of memory.
    pub(crate) fn file_of(&self, alloc: Global, place: Place) -> Result<String, AllocError>
        ensures { IfOk result (λ file. string_bytes file ≡ place_file self.now place) }
    {
        match place {
            Place::Version(id) => self.version(alloc, id),
            Place::Boundary => String::from_str(alloc, self.boundary()),
        }
    }

    /// The folder of the file at a place.
    pub(crate) fn folder_of(&self, place: Place) -> &str
        ensures { result.now ≡ place_folder self.now place }
    {
        match place {
            Place::Version(_) => self.versions(),
            Place::Boundary => self.gc(),
        }
    }

    /// The version whose file has this name in the folder of the versions. It reads exactly what `version` writes there, and
    /// takes no memory.
    pub fn id_of(&self, name: &str) -> Option<u64>
        ensures { (n : ℕ) → n < 2 ^ 64 → (result ≡ Some n) ↔ (name.now ≡ version_name self.now.suffix n) }
    {
        read_twenty(name.strip_suffix(self.suffix.as_str())?.strip_suffix('.')?)
    }

    /// Whether this is the name of the boundary's file in its folder.
    pub fn is_boundary(&self, name: &str) -> bool
        ensures { Decides result (name.now ≡ boundary_name self.now) }
    {
        match name.strip_suffix(".boundary") {
            Some(front) => front == self.name.as_str(),
            None => false,
        }
    }
}

/// The number that exactly 20 decimal digits write, if it is below 2^64.
fn read_twenty(text: &str) -> Option<u64>
    ensures { (n : ℕ) → n < 2 ^ 64 → (result ≡ Some n) ↔ (text.now ≡ padded n) }
{
    if text.len() != 20 {
        return None;
    }
    read_digits(text)
}

/// The name of the file that a temporary name is of: what stands before its `#` and twenty digits.
pub fn temporary_of(name: &str) -> Option<&str>
    ensures { MatchOption result ((file : List ℕ) → ¬ (IsTemporaryOf file name.now)) (λ file. IsTemporaryOf file.now name.now) }
{
    let (file, number) = name.split_once('#')?;
    read_twenty(number)?;
    Some(file)
}
