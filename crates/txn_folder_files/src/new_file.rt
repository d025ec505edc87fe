//! A new file, step by step: each step is one call of the system, and what it did is kept beside the file. No other code makes
//! these values, so a file that is said to be whole or synced went through the step that made it so.
ghost use Rattle.std.specs.Prelude.{◌≡◌, true, false, Some, IfOk, IfSome, OnOk, string_bytes};
ghost use Rattle.txn_folder_files.specs.Names.{IsWritten};

use crate::fault::{Doing, Fault, Halt, at_error};
use std::fs;
use std::fs::{FileTimes, Metadata, OpenFile, OpenOptions};
use std::io::{ErrorKind, Write};
use std::rt::Files;
use std::time::{Duration, UNIX_EPOCH};

/// A file that was made under a name that nothing had, open for the one who made it.
#[derive(Drop)]
pub(crate) struct NewFile<F: Drop> {
    open: F,
    name: String,
    /// Whether its bytes were written, to the last one.
    is_whole: bool,
    /// The number that its time of change was set to since.
    number: Option<u64>,
    /// Whether both were synced since.
    is_synced: bool,
}

/// A file that was written whole under a name of its own, with a number that its time of change is.
#[derive(Drop)]
pub struct Written {
    name: String,
    number: u64,
    /// Whether its bytes and its time were synced.
    is_synced: bool,
}

impl Written {
    /// Its name.
    pub(crate) fn name(&self) -> &str
        ensures { result.now ≡ string_bytes self.now.name }
    {
        self.name.as_str()
    }

    /// Its number.
    pub fn number(&self) -> u64
        ensures { result ≡ self.now.number }
    {
        self.number
    }

    /// Whether its bytes and its time were synced.
    pub fn is_synced(&self) -> bool
        ensures { result ≡ self.now.is_synced }
    {
        self.is_synced
    }
}

/// Makes a file of a name that nothing has. None where something has it.
pub(crate) fn make<R: Files>(rt: &R, name: String) -> Result<Option<NewFile<R::File>>, Halt>
    ensures { IfOk result (λ told. IfSome told (λ new. new.name ≡ name)) }
{
    let opened = OpenOptions::new()
        .write(true)
        .create_new(true)
        .open(rt, name.as_str());
    match opened {
        Ok(open) => Ok(Some(NewFile {
            open,
            name,
            is_whole: false,
            number: None,
            is_synced: false,
        })),
        Err(error) if error.kind() == ErrorKind::AlreadyExists => Ok(None),
        Err(error) => Err(at_error(Doing::WritingTemporary, error)),
    }
}

impl<F: Write + OpenFile + Drop> NewFile<F> {
    /// Writes all of its bytes.
    pub(crate) fn write(&mut self, bytes: &[u8]) -> Result<(), Halt>
        ensures whole { OnOk result (self.new.is_whole ≡ true) }
        ensures kept { self.new.name ≡ self.old.name }
    {
        self.is_synced = false;
        match self.open.write_all(bytes) {
            Ok(()) => {
                self.is_whole = true;
                Ok(())
            }
            Err(error) => Err(at_error(Doing::WritingTemporary, error)),
        }
    }

    /// Sets its time of change to a number.
    pub(crate) fn set_number(&mut self, number: u64) -> Result<(), Halt>
        ensures number { OnOk result (self.new.number ≡ Some number) }
        ensures unsynced { self.new.is_synced ≡ false }
        ensures kept { (self.new.name ≡ self.old.name) × (self.new.is_whole ≡ self.old.is_whole) }
    {
        self.is_synced = false;
        let Some(time) = UNIX_EPOCH.checked_add(Duration::from_nanos(number)) else {
            return Err(Halt::Fault(Fault::at(Doing::SettingTime)));
        };
        match self.open.set_times(FileTimes::new().set_modified(time)) {
            Ok(()) => {
                self.number = Some(number);
                Ok(())
            }
            Err(error) => Err(at_error(Doing::SettingTime, error)),
        }
    }

    /// Makes its bytes and its time last.
    pub(crate) fn sync(&mut self) -> Result<(), Halt>
        ensures synced { OnOk result (self.new.is_synced ≡ true) }
        ensures kept { (self.new.name ≡ self.old.name) × (self.new.is_whole ≡ self.old.is_whole) × (self.new.number ≡ self.old.number) }
    {
        match self.open.sync_all() {
            Ok(()) => {
                self.is_synced = true;
                Ok(())
            }
            Err(error) => Err(at_error(Doing::SyncingTemporary, error)),
        }
    }

    /// What the system says of it.
    pub(crate) fn metadata(&self) -> Result<Metadata, Halt> {
        match self.open.metadata() {
            Ok(metadata) => Ok(metadata),
            Err(error) => Err(at_error(Doing::SettingTime, error)),
        }
    }

    /// Closes it, once it is whole and has this number.
    pub(crate) fn close(self, number: u64) -> Written
        requires whole { self.is_whole ≡ true }
        requires number { self.number ≡ Some number }
        ensures { IsWritten number self.is_synced result }
    {
        let NewFile {
            open,
            name,
            is_whole: _,
            number: _,
            is_synced,
        } = self;
        drop(open);
        Written {
            name,
            number,
            is_synced,
        }
    }

    /// Closes it and removes it.
    pub(crate) fn abandon<R: Files>(self, rt: &R) {
        let NewFile {
            open,
            name,
            is_whole: _,
            number: _,
            is_synced: _,
        } = self;
        drop(open);
        let _ = fs::remove_file(rt, name.as_str());
    }
}
