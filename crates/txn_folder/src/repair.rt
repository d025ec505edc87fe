//! The repair of an object whose newest versions were torn, as a cut of power leaves them that were not synced.
ghost use Rattle.std.specs.Prelude.{◌≡◌, Bool};
ghost use Rattle.txn_folder.specs.Files.{ObjectFiles};
ghost use Rattle.txn_folder.specs.Repairs.{goes_on_at, IsRepair, IsRepairedAt, newest_id, torn_ids};

use crate::tear::Tear;
use std::rt::Files;
use txn_folder_files::removals::Removals;

/// Why a repair removed nothing.
#[derive(Clone, Copy)]
pub enum Kept {
    /// No version stands.
    NoVersion,
    /// The newest version, of this id, reads as a value.
    NothingTorn(u64),
    /// No version that stands reads as a value.
    NoValue,
    /// The boundary's file says no number.
    NoBoundary,
    /// The newest version that reads as a value is not above the boundary, as the version has to be at which an object goes on.
    NotAbove { newest: u64, boundary: u64 },
}

/// What a repair did.
#[derive(Drop)]
pub enum Repair {
    /// It removed nothing.
    Kept(Kept),
    /// It removed the versions of these ids, the greatest first, which are those above the newest that reads as a value.
    Removed { newest: u64, removed: Vec<u64> },
}

/// The same, with what is known of the names that were removed.
#[derive(Drop)]
pub(crate) enum Repaired<F: Drop> {
    Kept(Kept),
    Removed {
        newest: u64,
        ids: Vec<u64>,
        removals: Removals<F>,
    },
}

/// The id at which an object goes on once its torn versions are gone, where the boundary says this number, or why they are kept.
pub(crate) fn goes_on_at(tear: &Tear, boundary: Option<u64>) -> Result<u64, Kept>
    ensures { result ≡ goes_on_at (torn_ids tear.now) (newest_id tear.now) boundary }
{
    let Some(newest) = tear.newest else {
        return Err(if tear.torn.is_empty() {
            Kept::NoVersion
        } else {
            Kept::NoValue
        });
    };
    let newest = newest.id();
    if tear.torn.is_empty() {
        return Err(Kept::NothingTorn(newest));
    }
    match boundary {
        None => Err(Kept::NoBoundary),
        Some(boundary) if boundary < newest => Ok(newest),
        Some(boundary) => Err(Kept::NotAbove { newest, boundary }),
    }
}

impl<F: Drop> Repaired<F> {
    /// What is told of it. The lock ends here.
    pub fn told(self) -> Repair
        ensures { (o : ObjectFiles) (syncs : Bool) → IsRepairedAt o syncs self → IsRepair result }
    {
        match self {
            Repaired::Kept(why) => Repair::Kept(why),
            Repaired::Removed {
                newest,
                ids,
                removals: _,
            } => Repair::Removed {
                newest,
                removed: ids,
            },
        }
    }
}
