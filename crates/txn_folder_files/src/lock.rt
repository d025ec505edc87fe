//! Locks on files.
ghost use Rattle.std.specs.Prelude.{◌≡◌, IfOk, string_bytes};
ghost use Rattle.txn_folder_files.specs.Names.{IsHeld};

use crate::fault::{Doing, Fault, Halt, at_error};
use std::fs::{File, OpenOptions, TryLockError};
use std::io::ErrorKind;
use std::rt::{Clock, Files};
use std::time::Duration;
use std::{fs, io};

/// How often a lock is tried: for about 30 seconds.
const TRIES: u64 = 3_100;

/// How a file is locked.
#[derive(Clone, Copy)]
pub enum Sharing {
    /// No other open has a lock.
    Alone,
    /// No other open has a lock alone.
    WithOthers,
}

/// An open file that can be locked against the other opens of it. The lock ends where the file is dropped, and where its
/// process dies.
pub trait LockFile {
    /// Whether it is locked now. It waits for nothing.
    fn try_lock_file(&self, sharing: Sharing) -> io::Result<bool>;
}

impl LockFile for File {
    fn try_lock_file(&self, sharing: Sharing) -> io::Result<bool> {
        let tried = match sharing {
            Sharing::Alone => self.try_lock(),
            Sharing::WithOthers => self.try_lock_shared(),
        };
        match tried {
            Ok(()) => Ok(true),
            Err(TryLockError::WouldBlock) => Ok(false),
            Err(TryLockError::Error(error)) => Err(error),
        }
    }
}

/// How long to wait for a lock that was tried so often.
fn pause(turn: u64) -> Duration {
    if turn < 100 {
        Duration::from_millis(1)
    } else {
        Duration::from_millis(10)
    }
}

/// Opens the file of a lock that is taken with others: for reading alone, so that a reader needs no right to write, but where
/// it is missing and has to be made.
fn open_shared<R: Files>(rt: &R, name: &str) -> Result<R::File, Halt> {
    match fs::open(rt, name) {
        Ok(lock) => Ok(lock),
        Err(error) if error.kind() == ErrorKind::NotFound => open_lock(rt, name),
        Err(error) => Err(at_error(Doing::Locking, error)),
    }
}

/// Opens the file of a lock, which is made where it is missing.
pub(crate) fn open_lock<R: Files>(rt: &R, name: &str) -> Result<R::File, Halt> {
    let opened = OpenOptions::new()
        .read(true)
        .write(true)
        .create(true)
        .open(rt, name);
    match opened {
        Ok(lock) => Ok(lock),
        Err(error) => Err(at_error(Doing::Locking, error)),
    }
}

/// A file that is locked under its name against the other opens of it. The lock ends where this is dropped.
#[derive(Drop)]
pub struct Lock<F: Drop> {
    open: F,
    name: String,
    sharing: Sharing,
    /// Whether the system said that it is locked.
    is_held: bool,
}

impl<F: LockFile + Drop> Lock<F> {
    /// Whether it is locked now. It waits for nothing.
    fn try_hold(&mut self) -> io::Result<bool>
        ensures held { IfOk result (λ held. self.new.is_held ≡ held) }
        ensures kept { (self.new.name ≡ self.old.name) × (self.new.sharing ≡ self.old.sharing) }
    {
        match self.open.try_lock_file(self.sharing) {
            Ok(is_held) => {
                self.is_held = is_held;
                Ok(is_held)
            }
            Err(error) => Err(error),
        }
    }
}

/// The lock of this name, in a folder that is there.
///
/// # Errors
///
/// A fault of the step, where the system fails, or where another has the lock for too long. No lock is held then.
pub fn take_lock<R: Files + Clock>(
    rt: &R,
    name: String,
    sharing: Sharing,
) -> Result<Lock<R::File>, Halt>
where
    R::File: LockFile,
    ensures { IfOk result (IsHeld (string_bytes name) sharing) }
{
    let open = match sharing {
        Sharing::Alone => open_lock(rt, name.as_str())?,
        Sharing::WithOthers => open_shared(rt, name.as_str())?,
    };
    let mut lock = Lock {
        open,
        name,
        sharing,
        is_held: false,
    };
    for turn in 0..TRIES {
        match lock.try_hold() {
            Ok(true) => return Ok(lock),
            Ok(false) => rt.sleep(pause(turn)),
            Err(error) => return Err(at_error(Doing::Locking, error)),
        }
    }
    let error = io::Error::from(ErrorKind::TimedOut);
    Err(Halt::Fault(Fault::of(Doing::Locking, error)))
}
