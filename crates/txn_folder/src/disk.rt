//! The files of an object on a file system, by their places.
ghost use Rattle.std.specs.Prelude.{◌≡◌, ◌<◌, ◌≤◌, ◌++◌, Ok, IfOk, IfSome, if◌then◌else◌, codes, string_bytes};
ghost use Rattle.txn_folder_files.specs.Names.{IsHeld, known, lasting, seen};
ghost use Rattle.txn_folder_files.specs.declared.lock.Sharing.TheVariants.{Alone};
ghost use Rattle.txn_folder.specs.Places.{IsToldAt, place_file, removal_lock, update_lock, versions_lock};
ghost use Rattle.txn_folder_files.specs.Removed.{removed};
ghost use Rattle.txn_folder_files.specs.Removed as gone;
ghost use Rattle.txn_folder.specs.Repairs.{IsDone, IsRepairedAt};

use crate::clean::clean_in;
use crate::folder::Folder;
use crate::found::read_file;
use crate::lasting::Lasting;
use crate::listing::standing;
use crate::numbers::Numbers;
use crate::place::number_in;
use crate::repair::{Kept, Repaired, goes_on_at};
use crate::steps::place::Place;
use crate::tear::tear_in;
use std::alloc::Global;
use std::fs;
use std::io::ErrorKind;
use std::rt::{Clock, Files};
use std::time::SystemTime;
use txn_folder_files::fault::{Doing, Fault, Halt, at_error, lacks_folder};
use txn_folder_files::lock::{Lock, LockFile, Sharing, take_lock};
use txn_folder_files::name::Name;
use txn_folder_files::publish::make_folder;
use txn_folder_files::removals::{Removals, remove_each};
use txn_store::types::codec::ObjectCodec;

/// The files of one object in a folder of a file system.
#[derive(Drop)]
pub(crate) struct Disk<R: Files + Drop> {
    pub rt: R,
    pub folder: Folder,
    pub numbers: Numbers,
    /// Whether what is told lasts when the power fails.
    pub syncs: bool,
    pub lasting: Lasting,
}

impl<R: Files + Drop> Disk<R> {
    pub fn new(rt: R, folder: Folder, syncs: bool) -> Disk<R>
        ensures numbers { result.numbers.last ≡ 0 }
        ensures folder { result.folder ≡ folder }
        ensures syncs { result.syncs ≡ syncs }
    {
        Disk {
            rt,
            folder,
            numbers: Numbers::new(),
            syncs,
            lasting: Lasting::new(),
        }
    }

    /// Makes the file of this number at a place last, where that is asked.
    fn make_last(&mut self, place: Place, number: Option<u64>, name: Name) -> Result<Name, Halt>
        requires { (known name).file ≡ place_file self.old.folder place }
        ensures lasts { IfOk result (λ told. known told ≡ (if self.old.syncs then lasting (known name) else known name)) }
        ensures kept { (self.new.numbers.last ≡ self.old.numbers.last) × (self.new.syncs ≡ self.old.syncs) × (self.new.folder ≡ self.old.folder) }
    {
        if !self.syncs {
            return Ok(name);
        }
        let name = name.make_last(&self.rt)?;
        self.lasting
            .add(&self.folder, place, number, name.file(), name.lasts());
        Ok(name)
    }

    /// Makes the file of this number at a place, which was seen and is to be told, last where that is asked and is not known:
    /// another may have made it, and not have synced its name yet.
    pub fn make_told_last(
        &mut self,
        place: Place,
        number: Option<u64>,
        name: Name,
    ) -> Result<Name, Halt>
        requires { known name ≡ seen (place_file self.old.folder place) }
        ensures told { IfOk result (λ told. IsToldAt self.old.folder self.old.lasting self.old.syncs place number (known told)) }
        ensures kept { (self.new.numbers.last ≡ self.old.numbers.last) × (self.new.syncs ≡ self.old.syncs) × (self.new.folder ≡ self.old.folder) }
    {
        if self.lasting.has(place, number) {
            return Ok(name);
        }
        self.make_last(place, number, name)
    }

    /// Whether the folder of the versions is there.
    pub fn has_versions(&self) -> Result<bool, Halt> {
        match fs::metadata(&self.rt, self.folder.versions()) {
            Ok(_) => Ok(true),
            Err(error) if error.kind() == ErrorKind::NotFound => Ok(false),
            Err(error) => Err(at_error(Doing::Listing, error)),
        }
    }
}

impl<R: Files + Clock + Drop> Disk<R>
where
    R::File: LockFile,
{
    /// The lock of the updates of a file, in a folder that is there.
    fn lock_there(&self, alloc: Global, file: &str) -> Result<Lock<R::File>, Halt>
        ensures { IfOk result (IsHeld (file.now ++ codes "#0") Alone) }
    {
        let name = format!(in alloc; "{file}#0")?;
        take_lock(&self.rt, name, Sharing::Alone)
    }

    /// The lock of the updates of the file at a place, and of the boundary's removal, in a folder that is made where it is
    /// missing.
    pub fn lock(&self, alloc: Global, place: Place, file: &str) -> Result<Lock<R::File>, Halt>
        requires { file.now ≡ place_file self.now.folder place }
        ensures { IfOk result (IsHeld (update_lock self.now.folder place) Alone) }
    {
        let lock = self.lock_there(alloc, file);
        if !lacks_folder(&lock) {
            return lock;
        }
        drop(lock);
        make_folder(&self.rt, self.folder.folder_of(place), self.syncs)?;
        self.lock_there(alloc, file)
    }

    /// The lock that removals of versions take alone, and listings with one another.
    pub fn lock_versions(&self, alloc: Global, sharing: Sharing) -> Result<Lock<R::File>, Halt>
        ensures { IfOk result (IsHeld (versions_lock self.now.folder) sharing) }
    {
        let versions = self.folder.versions();
        let name = format!(in alloc; "{versions}/#0")?;
        take_lock(&self.rt, name, sharing)
    }

    /// The lock of the removal of the file at a place.
    pub fn lock_removal(
        &self,
        alloc: Global,
        place: Place,
        file: &str,
    ) -> Result<Lock<R::File>, Halt>
        requires { file.now ≡ place_file self.now.folder place }
        ensures { IfOk result (IsHeld (removal_lock self.now.folder place) Alone) }
    {
        match place {
            Place::Version(_) => self.lock_versions(alloc, Sharing::Alone),
            Place::Boundary => self.lock(alloc, place, file),
        }
    }
}

impl<R: Files + Clock + Alloc<A = Global> + Clone + Drop> Disk<R>
where
    R::File: LockFile,
{
    /// What the boundary says: 0 where there is none, and nothing where it says no number.
    fn boundary(&self, alloc: Global) -> Result<Option<u64>, Halt> {
        let file = self.folder.file_of(alloc, Place::Boundary)?;
        match read_file(&self.rt, Place::Boundary, file)? {
            Some(found) => Ok(number_in(found.token)),
            None => Ok(Some(0)),
        }
    }

    /// Makes removals last, where that is asked.
    fn sync_removals(&self, removals: Removals<R::File>) -> Result<Removals<R::File>, Halt>
        ensures { IfOk result (λ told. removed told ≡ (if self.now.syncs then gone.lasting (removed removals) else removed removals)) }
    {
        if !self.syncs {
            return Ok(removals);
        }
        removals.make_last(&self.rt)
    }

    /// Removes these torn versions, the first first, under the lock of removals, which is held until that lasts. The object then
    /// goes on at the newest version that is left.
    fn remove_torn(
        &self,
        alloc: Global,
        lock: Lock<R::File>,
        newest: u64,
        ids: Vec<u64>,
    ) -> Result<Repaired<R::File>, Halt>
        requires { IsHeld (versions_lock self.now.folder) Alone lock }
        ensures { IfOk result (IsDone self.now.folder self.now.syncs ids.items (Ok newest)) }
    {
        let files = self.folder.files_of(alloc, &ids)?;
        let removals = self.sync_removals(remove_each(&self.rt, lock, files)?)?;
        Ok(Repaired::Removed {
            newest,
            ids,
            removals,
        })
    }

    /// Removes the versions above the newest that the codec reads as a value, where the object goes on at that one.
    ///
    /// # Errors
    ///
    /// The fault of the step that failed, or `NoMemory`. Only such versions are gone then, the greatest of them.
    pub fn repair<T: Drop, C: ObjectCodec<T>>(
        &self,
        alloc: Global,
        codec: &C,
    ) -> Result<Repaired<R::File>, Halt>
        ensures { IfOk result (IsRepairedAt self.now.folder self.now.syncs) }
    {
        if !self.has_versions()? {
            return Ok(Repaired::Kept(Kept::NoVersion));
        }
        let lock = self.lock_versions(alloc, Sharing::Alone)?;
        let ids = standing(&self.rt, &self.folder, &lock)?;
        let tear = tear_in(&self.rt, codec, &self.folder, &ids)?;
        match goes_on_at(&tear, self.boundary(alloc)?) {
            Err(why) => Ok(Repaired::Kept(why)),
            Ok(newest) => self.remove_torn(alloc, lock, newest, tear.ids(alloc)?),
        }
    }

    /// Removes temporary files that are older than a time, and tells how many.
    ///
    /// # Errors
    ///
    /// The fault of the first step that failed. What was removed before stays removed.
    pub fn clean(&self, before: SystemTime) -> Result<u64, Fault> {
        let versions = clean_in(&self.rt, &self.folder, self.folder.versions(), before)?;
        let gc = clean_in(&self.rt, &self.folder, self.folder.gc(), before)?;
        Ok(versions.saturating_add(gc))
    }
}
