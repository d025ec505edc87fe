//! The store.
ghost use Rattle.std.specs.Prelude.{◌≡◌, ◌≤◌, is_some, false, IfErr, IfOk, OnOk, option_copied, option_map};
ghost use Rattle.txn_store.specs.VersionName.{version_path};
ghost use Rattle.txn_folder.specs.Tokens.{IsAt, IsTokenOf};
ghost use Rattle.txn_folder.specs.Replies.{IsReplyTo, IsHalt, IsPutError, IsGetError, is_failed, has_failed, reply_failed};
ghost use Rattle.txn_folder.specs.Repairs.{IsRepair};
ghost use Rattle.txn_folder.specs.Told.{Tells, IsGotOf, IsListing};
ghost use Rattle.txn_folder.specs.Machines.{IsOfMachine};
ghost use Rattle.txn_store.specs.declared.request.Reply.TheVariants as replies;
ghost use Rattle.txn_store.specs.declared.request.Request.TheVariants as requests;

use crate::disk::Disk;
use crate::folder::Folder;
use crate::place::place_of;
use crate::repair::Repair;
use crate::steps::place::Place;
use bytes::Bytes;
use std::alloc::Global;
use std::rt::{Clock, Files};
use std::time::SystemTime;
use txn_folder_files::fault::{Doing, Fault, Halt};
use txn_folder_files::lock::LockFile;
use txn_store::path::Path;
use txn_store::request::{Reply, Request};
use txn_store::store::{Got, Paged, PutMode, StoreError, Token};
use txn_store::types::codec::ObjectCodec;
use txn_store::version_names::VersionNames;

/// The files of one object in a folder, under the names that requests have for them.
pub struct FolderStore<R: Files + Drop> {
    names: VersionNames,
    boundary: Path,
    disk: Disk<R>,
    fault: Option<Fault>,
}

impl<R: Files + Drop> Drop for FolderStore<R> {
    /// Drops all that the store keeps: here, so that no crate above has to prove how each part is dropped.
    fn drop(self) {
        let FolderStore {
            names: _,
            boundary: _,
            disk: _,
            fault: _,
        } = self;
    }
}

/// The halt of a call whose path is none of the object's.
fn elsewhere() -> Halt {
    Halt::Fault(Fault::at(Doing::Elsewhere))
}

/// The error of a call that did not go on, whose fault is kept.
fn halted(kept: &mut Option<Fault>, halt: Halt) -> StoreError
    ensures halt { IsHalt result }
    ensures fault { is_some kept.new ≡ is_failed result }
{
    match halt {
        Halt::NoMemory => {
            *kept = None;
            StoreError::NoMemory
        }
        Halt::Fault(fault) => {
            *kept = Some(fault);
            StoreError::Failed
        }
    }
}

impl<R: Files + Drop> FolderStore<R> {
    /// What a path names. Any other is a fault.
    fn place(&self, path: &Path) -> Result<Place, Halt>
        ensures { IfOk result (IsAt self.now.names self.now.boundary path.now) }
    {
        match place_of(&self.names, &self.boundary, path) {
            Some(place) => Ok(place),
            None => Err(elsewhere()),
        }
    }

    /// The version that a listing goes on after. It has to be a listing of the versions.
    fn above(&self, prefix: &Path, after: Option<&Path>) -> Result<Option<u64>, Halt>
        ensures prefix { OnOk result (prefix.now ≡ self.now.names.dir) }
        ensures after { IfOk result (λ from. option_copied after.entry ≡ option_map (version_path self.now.names) from) }
    {
        if *prefix != *self.names.dir() {
            return Err(elsewhere());
        }
        let Some(path) = after else {
            return Ok(None);
        };
        match self.names.parse_id(path) {
            Some(id) => Ok(Some(id)),
            None => Err(elsewhere()),
        }
    }
}

impl<R: Files + Clock + Alloc<A = Global> + Clone + Drop> FolderStore<R>
where
    R::File: LockFile,
{
    /// The store of the files in `folder`, for requests that name versions by `names` and the boundary by `boundary`. With
    /// `syncs`, what is told lasts when the power fails; without, a cut can also leave versions that are no value (`repair`).
    pub fn new(
        rt: R,
        folder: Folder,
        names: VersionNames,
        boundary: Path,
        syncs: bool,
    ) -> FolderStore<R>
        ensures fault { is_some result.fault ≡ false }
        ensures names { result.names ≡ names }
        ensures boundary { result.boundary ≡ boundary }
        ensures numbers { result.disk.numbers.last ≡ 0 }
        ensures folder { result.disk.folder ≡ folder }
        ensures syncs { result.disk.syncs ≡ syncs }
    {
        FolderStore {
            names,
            boundary,
            disk: Disk::new(rt, folder, syncs),
            fault: None,
        }
    }

    /// Why the last call was answered `Failed`, where it was.
    pub fn fault(&self) -> Option<&Fault>
        ensures { is_some result ≡ is_some self.now.fault }
    {
        self.fault.as_ref()
    }

    /// Makes the call that a request stands for. The reply is of the request's kind, with an error of such a call: a `Create`
    /// is refused with `AlreadyExists`, an `Update` with `Precondition`, a get answers `NotFound`, or `NotModified` where a
    /// token is known. `NoMemory` leaves the files as they were. `Failed` comes with a `fault()`, and only then is there one:
    /// the call took its whole effect or none.
    ///
    /// A put and a get of the boundary tell the number that its bytes say as its token, a put of a version tells a number
    /// above each that this store gave before, and a listing tells the paths of versions, ascending, above the one that it
    /// goes on after and up to the limit.
    pub fn serve(&mut self, alloc: Global, request: &Request) -> Reply
        ensures kind { IsReplyTo request.now result }
        ensures fault { is_some self.new.fault ≡ reply_failed result }
        ensures machine { IsOfMachine self.old.names self.old.boundary self.old.disk.syncs request.now result }
        ensures tells { Tells self.old.names self.old.boundary self.old.disk.numbers.last self.new.disk.numbers.last request.now result }
        ensures rises { self.old.disk.numbers.last ≤ self.new.disk.numbers.last }
        ensures kept { (self.new.names ≡ self.old.names) × (self.new.boundary ≡ self.old.boundary) × (self.new.disk.folder ≡ self.old.disk.folder) × (self.new.disk.syncs ≡ self.old.disk.syncs) }
    {
        self.fault = None;
        match request {
            Request::Put { path, bytes, mode } => Reply::Put(self.put(alloc, path, bytes, mode)),
            Request::Get {
                path,
                if_none_match,
            } => Reply::Get(self.get(alloc, path, *if_none_match)),
            Request::List {
                prefix,
                after,
                limit,
            } => Reply::List(self.list(alloc, prefix, after.as_ref(), *limit)),
            Request::Delete { path } => Reply::Delete(self.delete(alloc, path)),
        }
    }

    /// Removes the temporary files of this object that are older than `before`, and tells how many: those of processes that
    /// died. A process that is slower than that is told `Failed` of its put, which then had no effect.
    ///
    /// # Errors
    ///
    /// The fault of the first step that failed, where it stops, and which `fault()` does not tell. What it removed before stays
    /// removed.
    pub fn clean(&mut self, before: SystemTime) -> Result<u64, Fault> {
        self.disk.clean(before)
    }

    /// Removes the versions above the newest that the codec reads as a value, the greatest first, where there are such versions
    /// and that one is above the boundary; else it removes nothing, and tells why. It holds the lock of removals alone
    /// meanwhile. An update that was answered with the id of one that it removes is lost, and so is one with a greater id.
    ///
    /// The codec has to be that of the object: what it does not read is taken as torn. Nobody else is to write meanwhile.
    ///
    /// # Errors
    ///
    /// `NoMemory`, which leaves the files as they were; a fault, of a step that failed, which `fault()` does not tell. Of a
    /// fault of the steps `Removing` and `SyncingFolder` the greatest of those versions may be gone, and no others: a further
    /// repair goes on. Any other leaves the files as they were.
    pub fn repair<T: Drop, C: ObjectCodec<T>>(
        &self,
        alloc: Global,
        codec: &C,
    ) -> Result<Repair, Halt>
        ensures { IfOk result IsRepair }
    {
        let repaired = self.disk.repair(alloc, codec)?;
        Ok(repaired.told())
    }

    fn put(
        &mut self,
        alloc: Global,
        path: &Path,
        bytes: &Bytes,
        mode: &PutMode,
    ) -> Result<Token, StoreError>
        requires { is_some self.old.fault ≡ false }
        ensures error { IfErr result (IsPutError mode.now) }
        ensures fault { is_some self.new.fault ≡ has_failed result }
        ensures machine { IsOfMachine self.old.names self.old.boundary self.old.disk.syncs (requests.Put path.now bytes.now mode.now) (replies.Put result) }
        ensures token { IfOk result (IsTokenOf self.old.names self.old.boundary path.now bytes.now self.old.disk.numbers.last self.new.disk.numbers.last) }
        ensures rises { self.old.disk.numbers.last ≤ self.new.disk.numbers.last }
        ensures kept { (self.new.names ≡ self.old.names) × (self.new.boundary ≡ self.old.boundary) × (self.new.disk.folder ≡ self.old.disk.folder) × (self.new.disk.syncs ≡ self.old.disk.syncs) }
    {
        let place = match self.place(path) {
            Ok(place) => place,
            Err(halt) => return Err(halted(&mut self.fault, halt)),
        };
        match mode {
            PutMode::Create => match self.disk.create(alloc, place, bytes.as_slice()) {
                Ok(Some(token)) => Ok(token),
                Ok(None) => Err(StoreError::AlreadyExists),
                Err(halt) => Err(halted(&mut self.fault, halt)),
            },
            PutMode::Update(token) => match self
                .disk
                .update(alloc, place, bytes.as_slice(), *token)
            {
                Ok(Some(token)) => Ok(token),
                Ok(None) => Err(StoreError::Precondition),
                Err(halt) => Err(halted(&mut self.fault, halt)),
            },
            PutMode::Overwrite => match self.disk.overwrite(alloc, place, bytes.as_slice()) {
                Ok(token) => Ok(token),
                Err(halt) => Err(halted(&mut self.fault, halt)),
            },
        }
    }

    fn get(
        &mut self,
        alloc: Global,
        path: &Path,
        if_none_match: Option<Token>,
    ) -> Result<Got, StoreError>
        requires { is_some self.old.fault ≡ false }
        ensures error { IfErr result (IsGetError if_none_match) }
        ensures fault { is_some self.new.fault ≡ has_failed result }
        ensures machine { IsOfMachine self.old.names self.old.boundary self.old.disk.syncs (requests.Get path.now if_none_match) (replies.Get result) }
        ensures token { IfOk result (IsGotOf self.old.names self.old.boundary path.now) }
        ensures given { self.new.disk.numbers.last ≡ self.old.disk.numbers.last }
        ensures kept { (self.new.names ≡ self.old.names) × (self.new.boundary ≡ self.old.boundary) × (self.new.disk.folder ≡ self.old.disk.folder) × (self.new.disk.syncs ≡ self.old.disk.syncs) }
    {
        let place = match self.place(path) {
            Ok(place) => place,
            Err(halt) => return Err(halted(&mut self.fault, halt)),
        };
        match self.disk.read(alloc, place, if_none_match) {
            Ok(told) => told,
            Err(halt) => Err(halted(&mut self.fault, halt)),
        }
    }

    fn delete(&mut self, alloc: Global, path: &Path) -> Result<(), StoreError>
        requires { is_some self.old.fault ≡ false }
        ensures error { IfErr result IsHalt }
        ensures fault { is_some self.new.fault ≡ has_failed result }
        ensures machine { IsOfMachine self.old.names self.old.boundary self.old.disk.syncs (requests.Delete path.now) (replies.Delete result) }
        ensures given { self.new.disk.numbers.last ≡ self.old.disk.numbers.last }
        ensures kept { (self.new.names ≡ self.old.names) × (self.new.boundary ≡ self.old.boundary) × (self.new.disk.folder ≡ self.old.disk.folder) × (self.new.disk.syncs ≡ self.old.disk.syncs) }
    {
        let place = match self.place(path) {
            Ok(place) => place,
            Err(halt) => return Err(halted(&mut self.fault, halt)),
        };
        match self.disk.delete(alloc, place) {
            Ok(()) => Ok(()),
            Err(halt) => Err(halted(&mut self.fault, halt)),
        }
    }

    fn list(&mut self, alloc: Global, prefix: &Path, after: Option<&Path>, limit: u64) -> Paged
        requires { is_some self.old.fault ≡ false }
        ensures error { IfErr result IsHalt }
        ensures fault { is_some self.new.fault ≡ has_failed result }
        ensures machine { IsOfMachine self.old.names self.old.boundary self.old.disk.syncs (requests.List prefix.now (option_copied after.entry) limit) (replies.List result) }
        ensures listing { IfOk result (IsListing self.old.names prefix.now (option_copied after.entry) limit) }
        ensures given { self.new.disk.numbers.last ≡ self.old.disk.numbers.last }
        ensures kept { (self.new.names ≡ self.old.names) × (self.new.boundary ≡ self.old.boundary) × (self.new.disk.folder ≡ self.old.disk.folder) × (self.new.disk.syncs ≡ self.old.disk.syncs) }
    {
        let from = match self.above(prefix, after) {
            Ok(from) => from,
            Err(halt) => return Err(halted(&mut self.fault, halt)),
        };
        match self.disk.list(alloc, &self.names, from, limit) {
            Ok(listed) => Ok(listed.page),
            Err(halt) => Err(halted(&mut self.fault, halt)),
        }
    }
}
