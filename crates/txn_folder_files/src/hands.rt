//! What a call has in hand, and its steps: each asks the system for one thing, and says what it was told.
ghost use Rattle.std.specs.Prelude.{◌≡◌, ◌||◌, true, false, None, Some, MatchResult, IfOk, string_bytes};
ghost use Rattle.txn_folder_files.specs.Hands.{IsKept, Lasts};

use crate::asked::{Answer, Ask, Told};
use crate::fault::{Doing, Fault, Halt, at_error};
use crate::lock::Lock;
use crate::publish::{above, make_folder, metadata_of, sync_folder, sync_if_there};
use crate::written::number_of;
use std::alloc::Global;
use std::fs::{FileTimes, OpenFile, OpenOptions};
use std::io::{ErrorKind, Read, Write};
use std::os::unix::fs::MetadataExt;
use std::rt::Files;
use std::time::{Duration, UNIX_EPOCH};
use std::{fs, io};

/// What a call has in hand: the name of its file, the temporary name of its new one, the files that it has open, its lock,
/// whether the name lasts, and why a step failed first.
pub struct Hands<F: Drop> {
    file: String,
    own: String,
    /// Whether what is told lasts when the power fails.
    syncs: bool,
    made: Option<F>,
    opened: Option<F>,
    lock: Option<Lock<F>>,
    /// Whether its folder was synced since the name was changed or seen.
    lasts: bool,
    halt: Option<Halt>,
}

impl<F: Drop> Drop for Hands<F> {
    /// Closes the files and lets the lock go: here, so that no caller has to prove how each part is dropped.
    fn drop(self) {
        let Hands {
            file: _,
            own: _,
            syncs: _,
            made: _,
            opened: _,
            lock: _,
            lasts: _,
            halt: _,
        } = self;
    }
}

/// The error of a step that has no file to work on.
fn no_file() -> io::Error {
    io::Error::from(ErrorKind::NotFound)
}

impl<F: Drop> Hands<F> {
    /// The hands of a call on the file of this name.
    pub fn new(alloc: Global, file: String, syncs: bool) -> Hands<F>
        ensures file { string_bytes result.file ≡ string_bytes file }
        ensures syncs { result.syncs ≡ syncs }
        ensures lock { result.lock ≡ None }
    {
        Hands {
            file,
            own: String::new(alloc),
            syncs,
            made: None,
            opened: None,
            lock: None,
            lasts: false,
            halt: None,
        }
    }

    /// The hands of a call on the file of this name, under a lock.
    pub fn under(alloc: Global, file: String, syncs: bool, lock: Lock<F>) -> Hands<F>
        ensures file { string_bytes result.file ≡ string_bytes file }
        ensures syncs { result.syncs ≡ syncs }
        ensures lock { result.lock ≡ Some lock }
    {
        let mut hands = Hands::new(alloc, file, syncs);
        hands.lock = Some(lock);
        hands
    }

    /// The name of its file.
    pub fn file(&self) -> &str
        ensures { result.now ≡ string_bytes self.now.file }
    {
        self.file.as_str()
    }

    /// Whether the name's folder was synced since it was changed or seen.
    pub fn lasts(&self) -> bool
        ensures { result ≡ self.now.lasts }
    {
        self.lasts
    }

    /// Why a step failed, the first that did; else this.
    pub fn halt_or(&self, halt: Halt) -> Halt {
        self.halt.unwrap_or(halt)
    }

    /// The answer to a step that failed, or that is not made.
    pub fn fails(&mut self, asked: Ask, halt: Halt) -> Answer
        ensures answer { result ≡ record { asked = asked; told = Told.Error } }
        ensures kept { IsKept self.old self.new }
    {
        if self.halt.is_none() {
            self.halt = Some(halt);
        }
        Answer::of(asked, Told::Error)
    }

    /// The answer to a step that is done, or failed.
    fn done(&mut self, asked: Ask, done: Result<(), Halt>) -> Answer
        ensures asked { result.asked ≡ asked }
        ensures kept { IsKept self.old self.new }
    {
        match done {
            Ok(()) => Answer::of(asked, Told::Done),
            Err(halt) => self.fails(asked, halt),
        }
    }

    /// `Draw`: the number that was made of the clock.
    pub fn drew(&mut self, number: Result<u64, Halt>) -> Answer
        ensures asked { result.asked ≡ Ask.Draw }
        ensures number { MatchResult number (λ number. result.told ≡ Told.Number number) (λ halt. result.told ≡ Told.Error) }
        ensures kept { IsKept self.old self.new }
    {
        match number {
            Ok(number) => Answer::of(Ask::Draw, Told::Number(number)),
            Err(halt) => self.fails(Ask::Draw, halt),
        }
    }

    /// `Take`: the lock, which the system granted or not.
    pub fn took(&mut self, taken: Result<Lock<F>, Halt>) -> Answer
        ensures asked { result.asked ≡ Ask.Take }
        ensures lock { MatchResult taken (λ lock. self.new.lock ≡ Some lock) (λ halt. self.new.lock ≡ self.old.lock) }
        ensures kept { (string_bytes self.new.file ≡ string_bytes self.old.file) × (self.new.syncs ≡ self.old.syncs) }
    {
        match taken {
            Ok(lock) => {
                self.lock = Some(lock);
                Answer::of(Ask::Take, Told::Done)
            }
            Err(halt) => self.fails(Ask::Take, halt),
        }
    }

    /// `Let`: the lock ends.
    pub fn let_go(&mut self) -> Answer
        ensures asked { result.asked ≡ Ask.Let }
        ensures lock { self.new.lock ≡ None }
        ensures kept { (string_bytes self.new.file ≡ string_bytes self.old.file) × (self.new.syncs ≡ self.old.syncs) × (self.new.lasts ≡ self.old.lasts) }
    {
        self.lock = None;
        Answer::of(Ask::Let, Told::Done)
    }
}

impl<F: Write + OpenFile + Drop> Hands<F> {
    /// `Write`: all of the bytes.
    pub fn write(&mut self, bytes: &[u8]) -> Answer
        ensures asked { result.asked ≡ Ask.Write }
        ensures kept { IsKept self.old self.new }
    {
        let done = match &mut self.made {
            Some(new) => new.write_all(bytes),
            None => Err(no_file()),
        };
        match done {
            Ok(()) => Answer::of(Ask::Write, Told::Done),
            Err(error) => self.fails(Ask::Write, at_error(Doing::WritingTemporary, error)),
        }
    }

    /// `SetTime`. Where that is asked the time is read back, and is an error where the file system does not keep it.
    pub fn set_time(&mut self, number: u64, reads_back: bool) -> Answer
        ensures asked { result.asked ≡ Ask.SetTime number }
        ensures kept { IsKept self.old self.new }
    {
        let done = match &self.made {
            Some(new) => timed(new, number, reads_back),
            None => Err(at_error(Doing::SettingTime, no_file())),
        };
        self.done(Ask::SetTime(number), done)
    }

    /// `SyncNew`: the bytes and the time, where what is told has to last. It closes the file.
    pub fn sync_new(&mut self) -> Answer
        ensures asked { result.asked ≡ Ask.SyncNew }
        ensures kept { IsKept self.old self.new }
    {
        let done = match self.made.take() {
            Some(new) if self.syncs => new.sync_all(),
            Some(_) => Ok(()),
            None => Err(no_file()),
        };
        match done {
            Ok(()) => Answer::of(Ask::SyncNew, Told::Done),
            Err(error) => self.fails(Ask::SyncNew, at_error(Doing::SyncingTemporary, error)),
        }
    }
}

/// Sets the time of change of an open file to a number, and reads it back where that is asked.
fn timed<F: OpenFile>(new: &F, number: u64, reads_back: bool) -> Result<(), Halt> {
    let Some(time) = UNIX_EPOCH.checked_add(Duration::from_nanos(number)) else {
        return Err(Halt::Fault(Fault::at(Doing::SettingTime)));
    };
    if let Err(error) = new.set_times(FileTimes::new().set_modified(time)) {
        return Err(at_error(Doing::SettingTime, error));
    }
    if !reads_back {
        return Ok(());
    }
    match new.metadata() {
        Ok(metadata) if number_of(&metadata) == Some(number) => Ok(()),
        Ok(_) => Err(Halt::Fault(Fault::at(Doing::KeepingTime))),
        Err(error) => Err(at_error(Doing::SettingTime, error)),
    }
}

impl<F: Read + OpenFile + Drop> Hands<F> {
    /// `Read`: what the open file says, in place of these bytes, and its time. It closes the file.
    pub fn read(&mut self, bytes: &mut Vec<u8>) -> Answer
        ensures asked { result.asked ≡ Ask.Read }
        ensures kept { IsKept self.old self.new }
    {
        bytes.clear();
        let read = match self.opened.take() {
            Some(mut opened) => match opened.read_to_end(bytes) {
                Ok(_) => opened.metadata(),
                Err(error) => Err(error),
            },
            None => Err(no_file()),
        };
        match read {
            Ok(metadata) => Answer::of(Ask::Read, Told::Says(number_of(&metadata))),
            Err(error) if is_stale(&error) => Answer::of(Ask::Read, Told::Gone),
            Err(error) => self.fails(Ask::Read, at_error(Doing::Reading, error)),
        }
    }
}

/// Whether a step found that the file is none any more.
fn is_stale(error: &io::Error) -> bool {
    error.kind() == ErrorKind::StaleNetworkFileHandle
}

/// Opens a new file of the temporary name of a number, where nothing has that.
fn opened_new<R: Files>(rt: &R, name: &str) -> io::Result<R::File> {
    OpenOptions::new()
        .write(true)
        .create_new(true)
        .open(rt, name)
}

/// Whether the folder of a file is missing.
fn is_without_folder(error: &io::Error) -> bool {
    error.kind() == ErrorKind::NotFound || error.kind() == ErrorKind::NotADirectory
}

/// The same, in a folder that is made where it is missing.
fn opened_in<R: Files>(
    rt: &R,
    folder: &str,
    name: &str,
    syncs: bool,
) -> Result<Option<R::File>, Halt> {
    let mut opened = opened_new(rt, name);
    if let Err(error) = &opened
        && is_without_folder(error)
    {
        make_folder(rt, folder, syncs)?;
        opened = opened_new(rt, name);
    }
    match opened {
        Ok(open) => Ok(Some(open)),
        Err(error) if error.kind() == ErrorKind::AlreadyExists => Ok(None),
        Err(error) => Err(at_error(Doing::WritingTemporary, error)),
    }
}

/// `Make`: a new file, by `O_EXCL`, in this folder, which is made where it is missing.
pub fn make<R: Files>(
    rt: &R,
    hands: &mut Hands<R::File>,
    alloc: Global,
    folder: &str,
    number: u64,
) -> Answer
    ensures asked { result.asked ≡ Ask.Make number }
    ensures kept { IsKept hands.old hands.new }
{
    let asked = Ask::Make(number);
    let file = hands.file.as_str();
    let own = match format!(in alloc; "{file}#{number:020}") {
        Ok(own) => own,
        Err(_) => return hands.fails(asked, Halt::NoMemory),
    };
    match opened_in(rt, folder, own.as_str(), hands.syncs) {
        Ok(Some(made)) => {
            hands.own = own;
            hands.made = Some(made);
            Answer::of(asked, Told::Done)
        }
        Ok(None) => Answer::of(asked, Told::Taken),
        Err(halt) => hands.fails(asked, halt),
    }
}

/// `Link`: the name for the new file too, by a hard link.
pub fn link<R: Files>(rt: &R, hands: &mut Hands<R::File>) -> Answer
    ensures asked { result.asked ≡ Ask.Link }
    ensures kept { IsKept hands.old hands.new }
{
    hands.lasts = false;
    match fs::hard_link(rt, hands.own.as_str(), hands.file.as_str()) {
        Ok(()) => Answer::of(Ask::Link, Told::Done),
        Err(error) if error.kind() == ErrorKind::AlreadyExists => {
            Answer::of(Ask::Link, Told::Taken)
        }
        Err(error) => hands.fails(Ask::Link, Halt::Fault(Fault::of(Doing::Linking, error))),
    }
}

/// `Rename`: the name for the new file, under a lock.
pub fn rename<R: Files>(rt: &R, hands: &mut Hands<R::File>) -> Answer
    ensures asked { result.asked ≡ Ask.Rename }
    ensures kept { IsKept hands.old hands.new }
{
    hands.lasts = false;
    if hands.lock.is_none() {
        return hands.fails(Ask::Rename, Halt::Fault(Fault::at(Doing::Locking)));
    }
    match fs::rename(rt, hands.own.as_str(), hands.file.as_str()) {
        Ok(()) => Answer::of(Ask::Rename, Told::Done),
        Err(error) => { hands.fails(Ask::Rename, Halt::Fault(Fault::of(Doing::Replacing, error))) }
    }
}

/// `Clean`: the temporary name is removed, whatever that says.
pub fn clean<R: Files>(rt: &R, hands: &mut Hands<R::File>) -> Answer
    ensures asked { result.asked ≡ Ask.Clean }
    ensures kept { IsKept hands.old hands.new }
{
    hands.made = None;
    let _ = fs::remove_file(rt, hands.own.as_str());
    Answer::of(Ask::Clean, Told::Done)
}

/// `Remove`: the name, under a lock.
pub fn remove<R: Files>(rt: &R, hands: &mut Hands<R::File>) -> Answer
    ensures asked { result.asked ≡ Ask.Remove }
    ensures kept { IsKept hands.old hands.new }
{
    hands.lasts = false;
    if hands.lock.is_none() {
        return hands.fails(Ask::Remove, Halt::Fault(Fault::at(Doing::Locking)));
    }
    match fs::remove_file(rt, hands.file.as_str()) {
        Ok(()) => Answer::of(Ask::Remove, Told::Done),
        Err(error) if error.kind() == ErrorKind::NotFound => {
            Answer::of(Ask::Remove, Told::Missing)
        }
        Err(error) => hands.fails(Ask::Remove, Halt::Fault(Fault::of(Doing::Removing, error))),
    }
}

/// Which file the system says this is: its number on its device, and the device's.
fn file_number(metadata: &fs::Metadata) -> u128 {
    (u128::from(metadata.dev()) << 64) | u128::from(metadata.ino())
}

/// `Look`: which regular file has the name.
pub fn look<R: Files>(rt: &R, hands: &mut Hands<R::File>) -> Answer
    ensures asked { result.asked ≡ Ask.Look }
    ensures kept { IsKept hands.old hands.new }
{
    hands.lasts = false;
    match metadata_of(rt, Doing::Looking, hands.file.as_str()) {
        Ok(Some(metadata)) => {
            let time = number_of(&metadata).unwrap_or(0);
            Answer::of(Ask::Look, Told::Holds(file_number(&metadata), time))
        }
        Ok(None) => Answer::of(Ask::Look, Told::Missing),
        Err(halt) => hands.fails(Ask::Look, halt),
    }
}

/// `LookOwn`: which regular file has the temporary name. An error where the system does not say which one.
pub fn look_own<R: Files>(rt: &R, hands: &mut Hands<R::File>) -> Answer
    ensures asked { result.asked ≡ Ask.LookOwn }
    ensures kept { IsKept hands.old hands.new }
{
    match metadata_of(rt, Doing::Looking, hands.own.as_str()) {
        Ok(Some(metadata)) if metadata.ino() != 0 => {
            let time = number_of(&metadata).unwrap_or(0);
            Answer::of(Ask::LookOwn, Told::Holds(file_number(&metadata), time))
        }
        Ok(_) => Answer::of(Ask::LookOwn, Told::Error),
        Err(halt) => hands.fails(Ask::LookOwn, halt),
    }
}

/// `Open`: what has the name.
pub fn open<R: Files>(rt: &R, hands: &mut Hands<R::File>) -> Answer
    ensures asked { result.asked ≡ Ask.Open }
    ensures kept { IsKept hands.old hands.new }
{
    match fs::open(rt, hands.file.as_str()) {
        Ok(open) => {
            hands.opened = Some(open);
            Answer::of(Ask::Open, Told::Opened)
        }
        Err(error) if error.kind() == ErrorKind::NotFound => {
            Answer::of(Ask::Open, Told::Missing)
        }
        Err(error) if is_stale(&error) => Answer::of(Ask::Open, Told::Gone),
        Err(error) => hands.fails(Ask::Open, at_error(Doing::Reading, error)),
    }
}

/// `Sync`: the names in the folder, where what is told has to last and is not known to.
pub fn sync<R: Files>(rt: &R, hands: &mut Hands<R::File>, is_known: bool) -> Answer
    ensures asked { result.asked ≡ Ask.Sync }
    ensures lasts { Lasts result.told hands.old.syncs (is_known || hands.new.lasts) }
    ensures kept { IsKept hands.old hands.new }
{
    if is_known {
        return Answer::of(Ask::Sync, Told::Done);
    }
    if !hands.syncs {
        return Answer::of(Ask::Sync, Told::Done);
    }
    match sync_folder(rt, above(hands.file.as_str())) {
        Ok(()) => {
            hands.lasts = true;
            Answer::of(Ask::Sync, Told::Done)
        }
        Err(halt) => hands.fails(Ask::Sync, halt),
    }
}

/// `Sync`, where a folder that is missing has no names.
pub fn sync_gone<R: Files>(rt: &R, hands: &mut Hands<R::File>) -> Answer
    ensures asked { result.asked ≡ Ask.Sync }
    ensures lasts { Lasts result.told hands.old.syncs hands.new.lasts }
    ensures kept { IsKept hands.old hands.new }
{
    if !hands.syncs {
        return Answer::of(Ask::Sync, Told::Done);
    }
    match sync_if_there(rt, above(hands.file.as_str())) {
        Ok(()) => {
            hands.lasts = true;
            Answer::of(Ask::Sync, Told::Done)
        }
        Err(halt) => hands.fails(Ask::Sync, halt),
    }
}
