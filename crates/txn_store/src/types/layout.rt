//! Where the versions of an object lie, and how its values are written.
ghost use Rattle.std.specs.Prelude.{◌≡◌, ◌↔◌, ◌||◌, ◌++◌, ◌∷◌, [], not, true, false, IfOk, IsErrOf};
ghost use Rattle.txn_store.specs.Paths.{is_plain};
ghost use Rattle.txn_store.specs.VersionName.{is_suffix};
ghost use Rattle.txn_store.specs.types.BoundaryText.{boundary_path};

use crate::path::{Path, PathFault};
use crate::version_names::{VersionNames, is_suffix};
use std::alloc::Global;

/// The boundary file of a folder, `<root>/gc/<subdir>.boundary`. `BadSegment` comes only where the
/// folder's name is no plain segment.
fn boundary_path(alloc: Global, root: &Path, subdir: &str) -> Result<Path, PathFault>
    ensures ok { IfOk result (λ path. path ≡ boundary_path root.now subdir.now) }
    ensures bad_segment { IsErrOf result PathFault.BadSegment → is_plain subdir.now ≡ false }
{
    const SUFFIX: &str = ".boundary";
    let mut name = String::with_capacity(alloc, subdir.len().saturating_add(SUFFIX.len()))?;
    name.push_str(subdir)?;
    name.push_str(SUFFIX)?;
    root.join_two("gc", &name)
}

/// How many files a page of a listing has at most, where nothing else is said.
pub const PAGE: u64 = 1000;

/// The names of an object's versions, the path of its boundary file, the codec of its values, and the size of a page
/// of a listing.
#[derive(Drop)]
pub struct Layout<C> {
    /// The names of the versions.
    pub names: VersionNames,
    /// The path of the boundary file.
    pub boundary: Path,
    /// How values are written and read.
    pub codec: C,
    /// How many files a page of a listing has at most. It is at least 1.
    pub page: u64,
}

impl<C: Drop> Layout<C> {
    /// The versions are the files of the folder `subdir` below the root, under this suffix, and the boundary file is
    /// `<root>/gc/<subdir>.boundary`. A page has 1,000 files at most.
    ///
    /// # Errors
    ///
    /// `BadSegment` exactly where the folder's name or the suffix is not as it has to be: a plain segment, and for the suffix
    /// one without a dot. `NoMemory` where a growth was refused.
    pub fn new(
        alloc: Global,
        root: &Path,
        subdir: &str,
        file_suffix: &str,
        codec: C,
    ) -> Result<Layout<C>, PathFault>
        ensures ok { IfOk result (λ layout. layout ≡ record { names = record { dir = root.now ++ subdir.now ∷ []; suffix = file_suffix.now }; boundary = boundary_path root.now subdir.now; codec = codec; page = 1000 }) }
        ensures bad_segment { IsErrOf result PathFault.BadSegment ↔ ((not (is_plain subdir.now) || not (is_suffix file_suffix.now)) ≡ true) }
    {
        // Both names are tested before anything grows.
        if !is_suffix(file_suffix) {
            return Err(PathFault::BadSegment);
        }
        let dir = root.join(subdir)?;
        let names = VersionNames::new(alloc, dir, file_suffix)?;
        let boundary = boundary_path(alloc, root, subdir)?;
        Ok(Layout {
            names,
            boundary,
            codec,
            page: PAGE,
        })
    }
}
