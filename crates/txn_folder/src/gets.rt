//! Gets and deletes, each a loop over its machine: what that asks is asked of the system, and the answer is the machine's.
ghost use Rattle.std.specs.Prelude.{◌≡◌, ◌⊎◌, ℕ, Option, None, false, IfOk, IfErr, IfSome, string_bytes};
ghost use Rattle.txn_store.specs.declared.request.Reply.TheVariants as replies;
ghost use Rattle.txn_folder_files.specs.Names.{IsHeld};
ghost use Rattle.txn_folder_files.specs.declared.lock.Sharing.TheVariants.{Alone};
ghost use Rattle.txn_folder.specs.steps.Running.{place_as, get_verdict, GotAt, GotEnd};
ghost use Rattle.txn_folder.specs.steps.Runs.{ComesTo};
ghost use Rattle.txn_folder.specs.steps.Steps.{get_turned, delete_turned, delete_ok, Ends, Tells};
ghost use Rattle.txn_folder.specs.steps.Steps as steps;
ghost use Rattle.txn_folder.specs.steps.Tokens.{place_token};
ghost use Rattle.txn_folder.specs.declared.steps.place.Place.TheVariants as places;
ghost use Rattle.txn_folder.specs.Lasting.{is_known};
ghost use Rattle.txn_folder.specs.Places.{place_file, removal_lock};
ghost use Rattle.txn_folder.specs.Calls.{LastsAt, matched};
ghost use Rattle.txn_folder.specs.Replies.{IsGetError, has_failed};
ghost use Rattle.txn_folder.specs.declared.steps.place.Place as spots;

use crate::disk::Disk;
use crate::steps::delete::{DeleteEnd, DeleteNext, DeleteStep};
use crate::steps::get::{GetEnd, GetNext, GetStep};
use crate::steps::place::{Place, number_at};
use bytes::Bytes;
use std::alloc::Global;
use std::io;
use std::io::ErrorKind;
use std::rt::{Clock, Files};
use txn_folder_files::asked::{Answer, Ask};
use txn_folder_files::fault::{Doing, Fault, Halt};
use txn_folder_files::hands::{Hands, look, open, remove, sync_gone};
use txn_folder_files::lock::LockFile;
use txn_store::store::{Got, StoreError, Token};

/// How many steps a get takes at most: a file that is none any more is looked up anew, eight times at least.
const GET_STEPS: u64 = 25;

/// How many steps a delete takes at most.
const DELETE_STEPS: u64 = 5;

/// The halt of a call whose file is none any more at each look, unless a step failed.
fn all_stale() -> Halt {
    let error = io::Error::from(ErrorKind::StaleNetworkFileHandle);
    Halt::Fault(Fault::of(Doing::Reading, error))
}

/// The number of a token that is known. The token 0 matches nothing.
fn matched(known: Option<Token>) -> Option<u64>
    ensures { result ≡ matched known }
{
    match known {
        Some(token) if token.number() != 0 => Some(token.number()),
        _ => None,
    }
}

/// What is told of a get that ended so, once these bytes were read.
fn told<F: Drop>(
    hands: &Hands<F>,
    bytes: Vec<u8>,
    end: GetEnd,
) -> Result<Result<Got, StoreError>, Halt>
    ensures run { IfOk result (λ told. get_verdict bytes.items end ≡ Tells (replies.Get told)) }
    ensures token { (place : spots.Place) (known : Option ℕ) → GotEnd place known bytes.items end → IfOk result (λ told. IfOk told (λ got. GotAt place got.bytes got.token)) }
    ensures error { (place : spots.Place) (known : Option ℕ) → GotEnd place known bytes.items end → IfOk result (λ told. IfErr told (IsGetError known)) }
    ensures failed { IfOk result (λ told. has_failed told ≡ false) }
{
    match end {
        GetEnd::NotFound => Ok(Err(StoreError::NotFound)),
        GetEnd::NotModified => Ok(Err(StoreError::NotModified)),
        GetEnd::Got(token) => match Bytes::from_vec(bytes) {
            Ok(bytes) => Ok(Ok(Got {
                bytes,
                token: Token::new(token),
            })),
            Err(_) => Err(Halt::NoMemory),
        },
        GetEnd::Fails => Err(hands.halt_or(all_stale())),
    }
}

impl<R: Files + Drop> Disk<R> {
    /// Asks the system for what a get asks for of the file at a place, which is read into `bytes`.
    fn ask_of_get(
        &mut self,
        hands: &mut Hands<R::File>,
        place: Place,
        bytes: &mut Vec<u8>,
        ask: Ask,
    ) -> Answer
        requires file { string_bytes hands.old.file ≡ place_file self.old.folder place }
        requires syncs { hands.old.syncs ≡ self.old.syncs }
        ensures asked { result.asked ≡ ask }
        ensures read { (ask ≡ Ask.Read) ⊎ (bytes.new.items ≡ bytes.old.items) }
        ensures lasts { ask ≡ Ask.Sync → LastsAt result.told self.old.syncs (is_known self.old.lasting place (place_token place bytes.old.items None)) hands.new.lasts }
        ensures hands { (string_bytes hands.new.file ≡ string_bytes hands.old.file) × (hands.new.syncs ≡ hands.old.syncs) }
        ensures kept { (self.new.numbers.last ≡ self.old.numbers.last) × (self.new.syncs ≡ self.old.syncs) × (self.new.folder ≡ self.old.folder) }
    {
        match ask {
            Ask::Look => look(&self.rt, hands),
            Ask::Open => open(&self.rt, hands),
            Ask::Read => hands.read(bytes),
            Ask::Sync => {
                let number = number_at(place, bytes.as_slice(), None);
                let is_known = self.lasting.has(place, number);
                self.sync_names(hands, place, bytes.as_slice(), is_known)
            }
            _ => hands.fails(ask, all_stale()),
        }
    }

    /// What the file at a place says, or why that is not told, where a token is known: the machine of a get, run to its end.
    ///
    /// # Errors
    ///
    /// The fault of the step that failed, or `NoMemory`. No file is changed.
    pub fn read(
        &mut self,
        alloc: Global,
        place: Place,
        known: Option<Token>,
    ) -> Result<Result<Got, StoreError>, Halt>
        ensures run { IfOk result (λ told. ComesTo (get_turned (place_as place) (matched known)) steps.Looks (Ends (Tells (replies.Get told)))) }
        ensures token { IfOk result (λ told. IfOk told (λ got. GotAt place got.bytes got.token)) }
        ensures error { IfOk result (λ told. IfErr told (IsGetError known)) }
        ensures failed { IfOk result (λ told. has_failed told ≡ false) }
        ensures kept { (self.new.numbers.last ≡ self.old.numbers.last) × (self.new.syncs ≡ self.old.syncs) × (self.new.folder ≡ self.old.folder) }
    {
        let matching = matched(known);
        let file = self.folder.file_of(alloc, place)?;
        let mut hands = Hands::new(alloc, file, self.syncs);
        let mut bytes = Vec::new(alloc);
        let mut step = GetStep::Looks;
        for _ in 0..GET_STEPS {
            let answer = self.ask_of_get(&mut hands, place, &mut bytes, step.ask());
            match step.take(place, matching, bytes.as_slice(), answer) {
                GetNext::Goes(next) => step = next,
                GetNext::Ends(end) => return told(&hands, bytes, end),
            }
        }
        Err(hands.halt_or(all_stale()))
    }
}

impl<R: Files + Clock + Drop> Disk<R>
where
    R::File: LockFile,
{
    /// `Take`: the lock of the removal of the file at a place.
    fn take_removal_lock(&self, alloc: Global, hands: &mut Hands<R::File>, place: Place) -> Answer
        requires { string_bytes hands.old.file ≡ place_file self.now.folder place }
        ensures asked { result.asked ≡ Ask.Take }
        ensures lock { IfSome hands.old.lock (IsHeld (removal_lock self.now.folder place) Alone) → IfSome hands.new.lock (IsHeld (removal_lock self.now.folder place) Alone) }
        ensures kept { (string_bytes hands.new.file ≡ string_bytes hands.old.file) × (hands.new.syncs ≡ hands.old.syncs) }
    {
        let taken = self.lock_removal(alloc, place, hands.file());
        hands.took(taken)
    }

    /// Asks the system for what a delete asks for of the file at a place.
    fn ask_of_delete(
        &self,
        alloc: Global,
        hands: &mut Hands<R::File>,
        place: Place,
        ask: Ask,
    ) -> Answer
        requires file { string_bytes hands.old.file ≡ place_file self.now.folder place }
        requires lock { IfSome hands.old.lock (IsHeld (removal_lock self.now.folder place) Alone) }
        ensures asked { result.asked ≡ ask }
        ensures lasts { ask ≡ Ask.Sync → LastsAt result.told hands.old.syncs false hands.new.lasts }
        ensures lock { IfSome hands.new.lock (IsHeld (removal_lock self.now.folder place) Alone) }
        ensures hands { (string_bytes hands.new.file ≡ string_bytes hands.old.file) × (hands.new.syncs ≡ hands.old.syncs) }
    {
        match ask {
            Ask::Look => look(&self.rt, hands),
            Ask::Take => self.take_removal_lock(alloc, hands, place),
            Ask::Remove => remove(&self.rt, hands),
            Ask::Sync => sync_gone(&self.rt, hands),
            Ask::Let => hands.let_go(),
            _ => hands.fails(ask, Halt::Fault(Fault::at(Doing::Removing))),
        }
    }

    /// Removes a file: the machine of a delete, run to its end. One that is gone already may be so by another's removal, which
    /// is made to last before it is told. A lock is held until the removal lasts.
    ///
    /// # Errors
    ///
    /// The fault of the step that failed: the file may be removed. `NoMemory`: it is as it was.
    pub fn delete(&self, alloc: Global, place: Place) -> Result<(), Halt>
        ensures { IfOk result (λ _. (id : ℕ) → place ≡ places.Version id → ComesTo delete_turned steps.Peeks (Ends delete_ok)) }
    {
        let file = self.folder.file_of(alloc, place)?;
        let mut hands = Hands::new(alloc, file, self.syncs);
        let mut step = DeleteStep::Peeks;
        for _ in 0..DELETE_STEPS {
            let answer = self.ask_of_delete(alloc, &mut hands, place, step.ask());
            match step.take(answer) {
                DeleteNext::Goes(next) => step = next,
                DeleteNext::Ends(DeleteEnd::Deleted) => return Ok(()),
                DeleteNext::Ends(DeleteEnd::Fails) => break,
            }
        }
        Err(hands.halt_or(Halt::Fault(Fault::at(Doing::Removing))))
    }
}
