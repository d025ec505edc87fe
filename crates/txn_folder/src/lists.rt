//! Listings, each a loop over its machine: what that asks is asked of the system, and the answer is the machine's.
ghost use Rattle.std.specs.Prelude.{◌≡◌, ◌⊎◌, ℕ, Option, None, IfOk, IfSome};
ghost use Rattle.txn_folder_files.specs.Names.{IsHeld, known, seen};
ghost use Rattle.txn_folder_files.specs.declared.lock.Sharing.TheVariants.{WithOthers};
ghost use Rattle.txn_folder.specs.steps.Listing.{ListSees, list_turned, page_ok};
ghost use Rattle.txn_folder.specs.steps.Paging.{list_verdict};
ghost use Rattle.txn_folder.specs.steps.Runs.{ComesTo};
ghost use Rattle.txn_folder.specs.steps.Steps.{Ends};
ghost use Rattle.txn_folder.specs.Files.{version_file};
ghost use Rattle.txn_folder.specs.Pages.{IsPageAfter};
ghost use Rattle.txn_folder.specs.Places.{versions_lock};
ghost use Rattle.txn_folder.specs.Listings.{IsKnownAfter, IsLastingKept, IsNewest, IsShownAbove, IsToldLast, WasSeen, newest_id, seen_after};

use crate::disk::Disk;
use crate::listing::{SCANS, Search, unsettled};
use crate::steps::list::{ListAnswer, ListAsk, ListEnd, ListNext, ListStep, ListTold};
use crate::steps::place::Place;
use std::alloc::Global;
use std::rt::{Clock, Files};
use txn_folder_files::fault::{Doing, Fault, Halt};
use txn_folder_files::lock::{Lock, LockFile, Sharing};
use txn_folder_files::name::{Name, Sight, find};
use txn_folder_files::written::number_of;
use txn_store::page::Page;
use txn_store::version_names::VersionNames;

/// How many steps a listing takes at most: each version that it tells takes one. Its scans are counted by themselves.
const STEPS: u64 = u64::MAX;

/// The newest version that a listing has seen, and what is known of its name.
#[derive(Drop)]
pub(crate) struct Newest {
    pub id: u64,
    pub name: Name,
}

/// A page of a listing, and the newest version that it tells, where it tells one.
#[derive(Drop)]
pub(crate) struct Listed {
    pub page: Page,
    pub newest: Option<Newest>,
}

/// What a listing has in hand: its lock, how many scans it made, the newest version that it has seen, and why a step failed
/// first.
pub(crate) struct ListHands<F: Drop> {
    lock: Option<Lock<F>>,
    scans: u64,
    newest: Option<Newest>,
    halt: Option<Halt>,
}

impl<F: Drop> Drop for ListHands<F> {
    /// Lets the lock go: here, so that no caller has to prove how each part is dropped.
    fn drop(self) {
        let ListHands {
            lock: _,
            scans: _,
            newest: _,
            halt: _,
        } = self;
    }
}

impl<F: Drop> ListHands<F> {
    /// It has nothing.
    fn new() -> ListHands<F>
        ensures lock { result.lock ≡ None }
        ensures newest { result.newest ≡ None }
    {
        ListHands {
            lock: None,
            scans: 0,
            newest: None,
            halt: None,
        }
    }

    /// The answer to a step that failed.
    fn fails(&mut self, asked: ListAsk, halt: Halt) -> ListAnswer
        ensures answer { result ≡ record { asked = asked; told = ListTold.Error } }
        ensures lock { self.new.lock ≡ self.old.lock }
        ensures newest { self.new.newest ≡ self.old.newest }
    {
        if self.halt.is_none() {
            self.halt = Some(halt);
        }
        ListAnswer {
            asked,
            told: ListTold::Error,
        }
    }

    /// Why a step failed, the first that did; else that no scans told one moment.
    fn halt(&self) -> Halt {
        self.halt.unwrap_or(unsettled())
    }

    /// The newest version that it has seen.
    fn into_newest(self) -> Option<Newest>
        ensures { result ≡ self.newest }
    {
        let ListHands {
            lock: _,
            scans: _,
            newest,
            halt: _,
        } = self;
        newest
    }

    /// `Let`: the lock ends.
    fn let_go(&mut self) -> ListAnswer
        ensures answer { result ≡ record { asked = ListAsk.Let; told = ListTold.Done } }
        ensures lock { self.new.lock ≡ None }
        ensures newest { self.new.newest ≡ self.old.newest }
    {
        self.lock = None;
        ListAnswer {
            asked: ListAsk::Let,
            told: ListTold::Done,
        }
    }
}

/// What is told of a listing that ended so.
fn told<F: Drop>(hands: ListHands<F>, end: ListEnd) -> Result<Listed, Halt>
    ensures page { IfOk result (λ told. list_verdict end ≡ page_ok told.page.metas told.page.more) }
    ensures newest { IfOk result (λ told. told.newest ≡ hands.newest) }
{
    match end {
        ListEnd::Listed(page) => Ok(Listed {
            page,
            newest: hands.into_newest(),
        }),
        ListEnd::Fails => Err(hands.halt()),
    }
}

impl<R: Files + Clock + Alloc<A = Global> + Clone + Drop> Disk<R>
where
    R::File: LockFile,
{
    /// `Folder`: whether the folder of the versions is there.
    fn see_folder(&self, hands: &mut ListHands<R::File>) -> ListAnswer
        ensures asked { result.asked ≡ ListAsk.Folder }
        ensures shown { (result.told ≡ ListTold.Done) ⊎ (result.told ≡ ListTold.Missing) ⊎ (result.told ≡ ListTold.Error) }
        ensures lock { hands.new.lock ≡ hands.old.lock }
        ensures newest { hands.new.newest ≡ hands.old.newest }
    {
        let told = match self.has_versions() {
            Ok(true) => ListTold::Done,
            Ok(false) => ListTold::Missing,
            Err(halt) => return hands.fails(ListAsk::Folder, halt),
        };
        ListAnswer {
            asked: ListAsk::Folder,
            told,
        }
    }

    /// `Share`: the lock of removals, with others.
    fn share(&self, alloc: Global, hands: &mut ListHands<R::File>) -> ListAnswer
        ensures asked { result.asked ≡ ListAsk.Share }
        ensures shown { (result.told ≡ ListTold.Done) ⊎ (result.told ≡ ListTold.Error) }
        ensures lock { IfSome hands.old.lock (IsHeld (versions_lock self.now.folder) WithOthers) → IfSome hands.new.lock (IsHeld (versions_lock self.now.folder) WithOthers) }
        ensures newest { hands.new.newest ≡ hands.old.newest }
    {
        match self.lock_versions(alloc, Sharing::WithOthers) {
            Ok(lock) => {
                hands.lock = Some(lock);
                ListAnswer {
                    asked: ListAsk::Share,
                    told: ListTold::Done,
                }
            }
            Err(halt) => hands.fails(ListAsk::Share, halt),
        }
    }

    /// `Scan`: the versions that the folder shows, under a lock.
    fn scan(&self, hands: &mut ListHands<R::File>, after: Option<u64>) -> ListAnswer
        ensures asked { result.asked ≡ ListAsk.Scan }
        ensures shown { IsShownAbove after result.told }
        ensures lock { hands.new.lock ≡ hands.old.lock }
        ensures newest { hands.new.newest ≡ hands.old.newest }
    {
        if hands.lock.is_none() {
            return hands.fails(ListAsk::Scan, Halt::Fault(Fault::at(Doing::Locking)));
        }
        if hands.scans >= SCANS {
            return hands.fails(ListAsk::Scan, unsettled());
        }
        hands.scans += 1;
        let search = Search {
            rt: &self.rt,
            folder: &self.folder,
            after,
        };
        match search.scan() {
            Ok(ids) => ListAnswer {
                asked: ListAsk::Scan,
                told: ListTold::Shown(ids),
            },
            Err(halt) => hands.fails(ListAsk::Scan, halt),
        }
    }

    /// The regular file of a version, where there is one.
    fn find_version(&self, alloc: Global, id: u64) -> Result<Option<Sight>, Halt>
        ensures { IfOk result (λ told. IfSome told (λ sight. known sight.name ≡ seen (version_file self.now.folder id))) }
    {
        let file = self.folder.version(alloc, id)?;
        find(&self.rt, Doing::Listing, file)
    }

    /// `Look`: the file of a version, its size and its time of change.
    fn look_up(&self, alloc: Global, hands: &mut ListHands<R::File>, id: u64) -> ListAnswer
        ensures asked { result.asked ≡ ListAsk.Look id }
        ensures shown { (after : Option ℕ) → IsShownAbove after result.told }
        ensures lock { hands.new.lock ≡ hands.old.lock }
        ensures newest { newest_id hands.new.newest ≡ seen_after (ListAsk.Look id) result.told (newest_id hands.old.newest) }
        ensures seen { WasSeen self.now.folder hands.new.newest }
    {
        hands.newest = None;
        match self.find_version(alloc, id) {
            Ok(Some(Sight { name, metadata })) => {
                hands.newest = Some(Newest { id, name });
                let time = number_of(&metadata).unwrap_or(0);
                ListAnswer {
                    asked: ListAsk::Look(id),
                    told: ListTold::Holds(metadata.len(), time),
                }
            }
            Ok(None) => ListAnswer {
                asked: ListAsk::Look(id),
                told: ListTold::Missing,
            },
            Err(halt) => hands.fails(ListAsk::Look(id), halt),
        }
    }

    /// `Sync`: the newest version that is told is made to last where that is asked and is not known, and all below it with
    /// that.
    fn sync_told(&mut self, hands: &mut ListHands<R::File>) -> ListAnswer
        requires { WasSeen self.old.folder hands.old.newest }
        ensures asked { result.asked ≡ ListAsk.Sync }
        ensures shown { (after : Option ℕ) → IsShownAbove after result.told }
        ensures lock { hands.new.lock ≡ hands.old.lock }
        ensures newest { newest_id hands.new.newest ≡ seen_after ListAsk.Sync result.told (newest_id hands.old.newest) }
        ensures lasts { IsKnownAfter self.old.folder self.old.lasting self.old.syncs ListAsk.Sync result.told hands.new.newest }
        ensures kept { (self.new.numbers.last ≡ self.old.numbers.last) × (self.new.syncs ≡ self.old.syncs) × (self.new.folder ≡ self.old.folder) }
    {
        let done = ListAnswer {
            asked: ListAsk::Sync,
            told: ListTold::Done,
        };
        let Some(Newest { id, name }) = hands.newest.take() else {
            return done;
        };
        match self.make_told_last(Place::Version(id), None, name) {
            Ok(name) => {
                hands.newest = Some(Newest { id, name });
                done
            }
            Err(halt) => hands.fails(ListAsk::Sync, halt),
        }
    }

    /// Asks the system for what a listing asks for, of the versions above one, where that is given.
    fn ask_of_list(
        &mut self,
        alloc: Global,
        hands: &mut ListHands<R::File>,
        after: Option<u64>,
        ask: ListAsk,
    ) -> ListAnswer
        requires lock { IfSome hands.old.lock (IsHeld (versions_lock self.old.folder) WithOthers) }
        requires seen { WasSeen self.old.folder hands.old.newest }
        ensures asked { result.asked ≡ ask }
        ensures shown { IsShownAbove after result.told }
        ensures newest { newest_id hands.new.newest ≡ seen_after ask result.told (newest_id hands.old.newest) }
        ensures known { IsKnownAfter self.old.folder self.old.lasting self.old.syncs ask result.told hands.new.newest }
        ensures lasting { IsLastingKept ask self.old.lasting self.new.lasting }
        ensures lock { IfSome hands.new.lock (IsHeld (versions_lock self.old.folder) WithOthers) }
        ensures kept { (self.new.numbers.last ≡ self.old.numbers.last) × (self.new.syncs ≡ self.old.syncs) × (self.new.folder ≡ self.old.folder) }
    {
        match ask {
            ListAsk::Folder => self.see_folder(hands),
            ListAsk::Share => self.share(alloc, hands),
            ListAsk::Scan => self.scan(hands, after),
            ListAsk::Look(id) => self.look_up(alloc, hands, id),
            ListAsk::Let => hands.let_go(),
            ListAsk::Sync => self.sync_told(hands),
        }
    }

    /// The first versions above one, up to the limit: the machine of a listing, run to its end.
    ///
    /// # Errors
    ///
    /// The fault of the step that failed, or `NoMemory`. No file is changed.
    pub fn list(
        &mut self,
        alloc: Global,
        names: &VersionNames,
        after: Option<u64>,
        limit: u64,
    ) -> Result<Listed, Halt>
        ensures run { IfOk result (λ told. ComesTo (list_turned names.now after limit) ListSees (Ends (page_ok told.page.metas told.page.more))) }
        ensures page { IfOk result (λ told. IsPageAfter names.now after limit told.page) }
        ensures newest { IfOk result (λ told. IsNewest names.now told.page.metas told.newest) }
        ensures lasts { IfOk result (λ told. IsToldLast self.old.folder self.old.lasting self.old.syncs told.newest) }
        ensures kept { (self.new.numbers.last ≡ self.old.numbers.last) × (self.new.syncs ≡ self.old.syncs) × (self.new.folder ≡ self.old.folder) }
    {
        let mut hands = ListHands::new();
        let mut step = ListStep::Sees;
        for _ in 0..STEPS {
            let answer = self.ask_of_list(alloc, &mut hands, after, step.ask());
            match step.take(alloc, names, after, limit, answer)? {
                ListNext::Goes(next) => step = next,
                ListNext::Ends(end) => return told(hands, end),
            }
        }
        Err(hands.halt())
    }
}
