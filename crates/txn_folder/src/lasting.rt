//! What a process knows to last when the power fails.
ghost use Rattle.std.specs.Prelude.{◌≡◌, true, None};
ghost use Rattle.txn_folder.specs.Lasting.{is_known, known_with};

use crate::folder::Folder;
use crate::steps::place::Place;

/// What a process knows to last: names that stood as it synced their folder. A sync makes all names of a folder last, and
/// versions are made in the order of their ids: so the greatest id tells of all below it.
#[derive(Drop)]
pub(crate) struct Lasting {
    /// The greatest id of a version that lasts.
    versions: Option<u64>,
    /// The number of the boundary that lasts.
    boundary: Option<u64>,
}

impl Lasting {
    ghost use Rattle.txn_folder.specs.Places.{place_file};

    /// Nothing is known.
    pub fn new() -> Lasting
        ensures versions { result.versions ≡ None }
        ensures boundary { result.boundary ≡ None }
    {
        Lasting {
            versions: None,
            boundary: None,
        }
    }

    /// Whether the file of this number at a place is known to last. A boundary that says no number is not.
    pub fn has(&self, place: Place, number: Option<u64>) -> bool
        ensures { result ≡ is_known self.now place number }
    {
        match place {
            Place::Version(id) => match self.versions {
                Some(last) => id <= last,
                None => false,
            },
            Place::Boundary => match (self.boundary, number) {
                (Some(known), Some(number)) => number == known,
                _ => false,
            },
        }
    }

    /// Keeps that the file of this number at a place lasts: its folder was synced since it was put or seen there.
    pub fn add(
        &mut self,
        _folder: &Folder,
        place: Place,
        number: Option<u64>,
        _file: &str,
        _lasts: bool,
    )
        requires file { _file.now ≡ place_file _folder.now place }
        requires lasts { _lasts ≡ true }
        ensures { self.new ≡ known_with place number self.old }
    {
        match place {
            Place::Version(id) => {
                if !self.has(place, number) {
                    self.versions = Some(id);
                }
            }
            Place::Boundary => self.boundary = number,
        }
    }
}
