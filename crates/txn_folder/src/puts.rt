//! Puts, each a loop over its machine: what that asks is asked of the system, and the answer is the machine's.
ghost use Rattle.std.specs.Prelude.{◌≡◌, ◌≤◌, None, false, IfOk, IfSome, string_bytes};
ghost use Rattle.txn_folder_files.specs.Hands.{IsKept};
ghost use Rattle.txn_folder_files.specs.Names.{IsHeld};
ghost use Rattle.txn_folder_files.specs.declared.lock.Sharing.TheVariants.{Alone};
ghost use Rattle.txn_folder.specs.steps.Running.{place_as, updating_as, update_number};
ghost use Rattle.txn_folder.specs.steps.Runs.{ComesTo};
ghost use Rattle.txn_folder.specs.steps.Steps.{create_turned, update_turned, Ends};
ghost use Rattle.txn_folder.specs.steps.Steps as steps;
ghost use Rattle.txn_folder.specs.declared.steps.place.Place.TheVariants as places;
ghost use Rattle.txn_folder.specs.Places.{place_file, update_lock};
ghost use Rattle.txn_folder.specs.Tokens.{IsTokenAt};
ghost use Rattle.txn_folder.specs.Calls.{IsDrawn, LastsAt, IsToldOf, created, create_start, updated};

use crate::disk::Disk;
use crate::place::shown;
use crate::steps::create::{CreateNext, CreateStep};
use crate::steps::place::{Place, number_at};
use crate::steps::put::PutEnd;
use crate::steps::update::{UpdateNext, UpdateStep};
use std::alloc::Global;
use std::io;
use std::io::ErrorKind;
use std::rt::{Clock, Files};
use txn_folder_files::asked::{Answer, Ask};
use txn_folder_files::fault::{Doing, Fault, Halt};
use txn_folder_files::hands::{Hands, clean, link, look, look_own, make, open, rename, sync};
use txn_folder_files::lock::LockFile;
use txn_folder_files::publish::stands;
use txn_store::store::Token;

/// How many steps a put takes at most: 64 temporary names are tried.
const STEPS: u64 = 150;

/// The halt of a put that tried so many temporary names, unless a step failed.
fn all_taken() -> Halt {
    let error = io::Error::from(ErrorKind::AlreadyExists);
    Halt::Fault(Fault::of(Doing::WritingTemporary, error))
}

/// What is told of a put that ended so.
fn told<F: Drop>(
    hands: &Hands<F>,
    place: Place,
    bytes: &[u8],
    end: PutEnd,
) -> Result<Option<Token>, Halt>
    ensures { IfOk result (IsToldOf place bytes.now end) }
{
    match end {
        PutEnd::Put(number) => Ok(Some(shown(number_at(place, bytes, Some(number))))),
        PutEnd::Refused => Ok(None),
        PutEnd::Fails => Err(hands.halt_or(all_taken())),
    }
}

impl<R: Files + Drop> Disk<R> {
    /// `Sync`: the name of the file at a place, of these bytes, where what is told has to last and is not known to.
    pub fn sync_names(
        &mut self,
        hands: &mut Hands<R::File>,
        place: Place,
        bytes: &[u8],
        is_known: bool,
    ) -> Answer
        requires file { string_bytes hands.old.file ≡ place_file self.old.folder place }
        requires syncs { hands.old.syncs ≡ self.old.syncs }
        ensures asked { result.asked ≡ Ask.Sync }
        ensures lasts { LastsAt result.told self.old.syncs is_known hands.new.lasts }
        ensures hands { IsKept hands.old hands.new }
        ensures kept { (self.new.numbers.last ≡ self.old.numbers.last) × (self.new.syncs ≡ self.old.syncs) × (self.new.folder ≡ self.old.folder) }
    {
        let answer = sync(&self.rt, hands, is_known);
        if hands.lasts() {
            let number = number_at(place, bytes, None);
            self.lasting
                .add(&self.folder, place, number, hands.file(), hands.lasts());
        }
        answer
    }
}

impl<R: Files + Clock + Drop> Disk<R> {
    /// Asks the system for what a put asks for: of the file at a place, and of a new file with these bytes.
    fn ask_of_put(
        &mut self,
        alloc: Global,
        hands: &mut Hands<R::File>,
        place: Place,
        bytes: &[u8],
        ask: Ask,
    ) -> Answer
        requires file { string_bytes hands.old.file ≡ place_file self.old.folder place }
        requires syncs { hands.old.syncs ≡ self.old.syncs }
        ensures asked { result.asked ≡ ask }
        ensures drawn { IsDrawn ask result.told self.old.numbers.last self.new.numbers.last }
        ensures lasts { ask ≡ Ask.Sync → LastsAt result.told self.old.syncs false hands.new.lasts }
        ensures hands { IsKept hands.old hands.new }
        ensures kept { (self.new.syncs ≡ self.old.syncs) × (self.new.folder ≡ self.old.folder) }
    {
        match ask {
            Ask::Draw => {
                let number = self.numbers.next(&self.rt);
                hands.drew(number)
            }
            Ask::Make(number) => {
                make(&self.rt, hands, alloc, self.folder.folder_of(place), number)
            }
            Ask::Write => hands.write(bytes),
            Ask::SetTime(number) => hands.set_time(number, self.numbers.are_untried()),
            Ask::SyncNew => {
                self.numbers.keep();
                hands.sync_new()
            }
            Ask::Link => link(&self.rt, hands),
            Ask::Rename => rename(&self.rt, hands),
            Ask::Clean => clean(&self.rt, hands),
            Ask::LookOwn => look_own(&self.rt, hands),
            Ask::Look => look(&self.rt, hands),
            Ask::Open => open(&self.rt, hands),
            Ask::Sync => self.sync_names(hands, place, bytes, false),
            Ask::Remove | Ask::Read | Ask::Take | Ask::Let => hands.fails(ask, all_taken()),
        }
    }

    /// Makes a file, where none stands, and tells its token: the machine of a create, run to its end. With syncs the name is
    /// looked up first.
    ///
    /// # Errors
    ///
    /// The fault of the step that failed: the file may have been made, and then says these bytes. `NoMemory`: none was made.
    pub fn create(
        &mut self,
        alloc: Global,
        place: Place,
        bytes: &[u8],
    ) -> Result<Option<Token>, Halt>
        ensures token { IfOk result (λ told. IfSome told (IsTokenAt place bytes.now self.old.numbers.last self.new.numbers.last)) }
        ensures run { IfOk result (λ told. ComesTo (create_turned (place_as place) bytes.now) (create_start self.old.syncs) (Ends (created told))) }
        ensures rises { self.old.numbers.last ≤ self.new.numbers.last }
        ensures kept { (self.new.syncs ≡ self.old.syncs) × (self.new.folder ≡ self.old.folder) }
    {
        let file = self.folder.file_of(alloc, place)?;
        let mut hands = Hands::new(alloc, file, self.syncs);
        let mut step = CreateStep::start(self.syncs);
        for _ in 0..STEPS {
            let answer = self.ask_of_put(alloc, &mut hands, place, bytes, step.ask());
            match step.take(answer) {
                CreateNext::Goes(next) => step = next,
                CreateNext::Ends(end) => return told(&hands, place, bytes, end),
            }
        }
        Err(hands.halt_or(all_taken()))
    }
}

impl<R: Files + Clock + Drop> Disk<R>
where
    R::File: LockFile,
{
    /// `Take`: the lock of the updates of the file at a place.
    fn take_lock(&self, alloc: Global, hands: &mut Hands<R::File>, place: Place) -> Answer
        requires { string_bytes hands.old.file ≡ place_file self.now.folder place }
        ensures asked { result.asked ≡ Ask.Take }
        ensures lock { IfSome hands.old.lock (IsHeld (update_lock self.now.folder place) Alone) → IfSome hands.new.lock (IsHeld (update_lock self.now.folder place) Alone) }
        ensures kept { (string_bytes hands.new.file ≡ string_bytes hands.old.file) × (hands.new.syncs ≡ hands.old.syncs) }
    {
        let taken = self.lock(alloc, place, hands.file());
        hands.took(taken)
    }

    /// Asks the system for what a put asks for that replaces a file, which is read into `read`.
    fn ask_of_update(
        &mut self,
        alloc: Global,
        hands: &mut Hands<R::File>,
        place: Place,
        bytes: &[u8],
        read: &mut Vec<u8>,
        ask: Ask,
    ) -> Answer
        requires file { string_bytes hands.old.file ≡ place_file self.old.folder place }
        requires syncs { hands.old.syncs ≡ self.old.syncs }
        requires lock { IfSome hands.old.lock (IsHeld (update_lock self.old.folder place) Alone) }
        ensures asked { result.asked ≡ ask }
        ensures drawn { IsDrawn ask result.told self.old.numbers.last self.new.numbers.last }
        ensures lasts { ask ≡ Ask.Sync → LastsAt result.told self.old.syncs false hands.new.lasts }
        ensures lock { IfSome hands.new.lock (IsHeld (update_lock self.old.folder place) Alone) }
        ensures hands { (string_bytes hands.new.file ≡ string_bytes hands.old.file) × (hands.new.syncs ≡ hands.old.syncs) }
        ensures kept { (self.new.syncs ≡ self.old.syncs) × (self.new.folder ≡ self.old.folder) }
    {
        match ask {
            Ask::Take => self.take_lock(alloc, hands, place),
            Ask::Read => hands.read(read),
            Ask::Let => hands.let_go(),
            _ => self.ask_of_put(alloc, hands, place, bytes, ask),
        }
    }

    /// Runs the machine of an update from a step on, and tells the token of what it put.
    fn replace(
        &mut self,
        alloc: Global,
        hands: &mut Hands<R::File>,
        place: Place,
        bytes: &[u8],
        token: u64,
        start: UpdateStep,
    ) -> Result<Option<Token>, Halt>
        requires file { string_bytes hands.old.file ≡ place_file self.old.folder place }
        requires syncs { hands.old.syncs ≡ self.old.syncs }
        requires lock { IfSome hands.old.lock (IsHeld (update_lock self.old.folder place) Alone) }
        requires start { update_number start ≡ None }
        ensures token { IfOk result (λ told. IfSome told (IsTokenAt place bytes.now self.old.numbers.last self.new.numbers.last)) }
        ensures run { IfOk result (λ told. place ≡ places.Boundary → ComesTo (update_turned bytes.now token) (updating_as 0 bytes.now start) (Ends (updated told))) }
        ensures rises { self.old.numbers.last ≤ self.new.numbers.last }
        ensures kept { (self.new.syncs ≡ self.old.syncs) × (self.new.folder ≡ self.old.folder) }
    {
        let mut read = Vec::new(alloc);
        let mut step = start;
        for _ in 0..STEPS {
            let answer = self.ask_of_update(alloc, hands, place, bytes, &mut read, step.ask());
            match step.take(place, token, read.as_slice(), answer) {
                UpdateNext::Goes(next) => step = next,
                UpdateNext::Ends(end) => return told(hands, place, bytes, end),
            }
        }
        Err(hands.halt_or(all_taken()))
    }

    /// Replaces a file that has this token, and tells the new one: the machine of an update, run to its end.
    ///
    /// # Errors
    ///
    /// The fault of the step that failed: the file is as it was, or says these bytes. `NoMemory`: it is as it was.
    pub fn update(
        &mut self,
        alloc: Global,
        place: Place,
        bytes: &[u8],
        token: Token,
    ) -> Result<Option<Token>, Halt>
        ensures token { IfOk result (λ told. IfSome told (IsTokenAt place bytes.now self.old.numbers.last self.new.numbers.last)) }
        ensures run { IfOk result (λ told. place ≡ places.Boundary → ComesTo (update_turned bytes.now token) steps.Locks (Ends (updated told))) }
        ensures rises { self.old.numbers.last ≤ self.new.numbers.last }
        ensures kept { (self.new.syncs ≡ self.old.syncs) × (self.new.folder ≡ self.old.folder) }
    {
        let file = self.folder.file_of(alloc, place)?;
        let mut hands = Hands::new(alloc, file, self.syncs);
        self.replace(
            alloc,
            &mut hands,
            place,
            bytes,
            token.number(),
            UpdateStep::Locks,
        )
    }

    /// Writes a file whatever stands there, and tells its token: under the lock of its updates the machine of an update is run
    /// from where it has compared.
    ///
    /// # Errors
    ///
    /// The fault of the step that failed: the file is as it was, or says these bytes. `NoMemory`: it is as it was.
    pub fn overwrite(&mut self, alloc: Global, place: Place, bytes: &[u8]) -> Result<Token, Halt>
        ensures token { IfOk result (IsTokenAt place bytes.now self.old.numbers.last self.new.numbers.last) }
        ensures rises { self.old.numbers.last ≤ self.new.numbers.last }
        ensures kept { (self.new.syncs ≡ self.old.syncs) × (self.new.folder ≡ self.old.folder) }
    {
        let file = self.folder.file_of(alloc, place)?;
        let _ = stands(&self.rt, file.as_str())?;
        let lock = self.lock(alloc, place, file.as_str())?;
        let mut hands = Hands::under(alloc, file, self.syncs, lock);
        // From there on nothing is compared, and nothing is refused.
        match self.replace(alloc, &mut hands, place, bytes, 0, UpdateStep::Draws)? {
            Some(token) => Ok(token),
            None => Err(hands.halt_or(all_taken())),
        }
    }
}
