//! Files written whole, each with a number, which its time of change is.
ghost use Rattle.std.specs.Prelude.{◌≡◌, true, Some, IfOk, IfSome, OnOk, min};
ghost use Rattle.std.specs.Duration.{as_nanos};
ghost use Rattle.txn_folder_files.specs.Names.{IsWritten};
ghost use Rattle.txn_folder_files.specs.Times.{time_number};

use crate::fault::{Doing, Fault, Halt};
use crate::new_file::{NewFile, Written, make};
use std::fs::{Metadata, OpenFile};
use std::io;
use std::io::Write;
use std::os::unix::fs::MetadataExt;
use std::rt::{Clock, Files};
use std::time::Duration;

/// The nanoseconds of a time, the greatest number where there are more. It takes no memory.
pub fn nanos_of(time: Duration) -> u64
    ensures { result ≡ min (as_nanos time) 18446744073709551615 }
{
    u64::try_from(time.as_nanos()).unwrap_or(u64::MAX)
}

/// The nanoseconds since 1970, the greatest number where there are more.
///
/// # Errors
///
/// The system's, where its clock cannot be read.
pub fn number_now<R: Clock>(rt: &R) -> io::Result<u64> {
    let now = rt.since_1970()?;
    Ok(nanos_of(now))
}

/// The nanoseconds from 1970 on to a time, where it is not before and a u64 holds them.
fn time_number(secs: i64, nanos: i64) -> Option<u64>
    ensures { result ≡ time_number secs nanos }
{
    let secs = u64::try_from(secs).ok()?;
    let nanos = u64::try_from(nanos).ok()?;
    secs.checked_mul(1_000_000_000)?.checked_add(nanos)
}

/// The number that a file's time of change is.
pub fn number_of(metadata: &Metadata) -> Option<u64> {
    time_number(metadata.mtime(), metadata.mtime_nsec())
}

/// How a file is written.
#[derive(Clone, Copy)]
pub struct Writing {
    /// Whether it is synced.
    pub syncs: bool,
    /// Whether its time is read back, to see whether the file system keeps it.
    pub reads_back: bool,
}

/// Writes the bytes to a new file of this name, whose time of change becomes this number, in nanoseconds since 1970. None where
/// something has the name.
///
/// # Errors
///
/// The fault of the step that failed, or `NoMemory`. The file is removed, and stays only where that fails too.
pub fn write_new<R: Files>(
    rt: &R,
    name: String,
    number: u64,
    bytes: &[u8],
    how: Writing,
) -> Result<Option<Written>, Halt>
    ensures { IfOk result (λ told. IfSome told (IsWritten number how.syncs)) }
{
    let Some(mut new) = make(rt, name)? else {
        return Ok(None);
    };
    match fill(&mut new, bytes, number, how) {
        Ok(()) => Ok(Some(new.close(number))),
        Err(halt) => {
            new.abandon(rt);
            Err(halt)
        }
    }
}

/// Writes the bytes and sets the time of change.
fn fill<F: Write + OpenFile + Drop>(
    new: &mut NewFile<F>,
    bytes: &[u8],
    number: u64,
    how: Writing,
) -> Result<(), Halt>
    ensures whole { OnOk result (new.new.is_whole ≡ true) }
    ensures number { OnOk result (new.new.number ≡ Some number) }
    ensures synced { OnOk result (new.new.is_synced ≡ how.syncs) }
{
    new.write(bytes)?;
    new.set_number(number)?;
    if how.reads_back {
        keeps_number(new, number)?;
    }
    if how.syncs {
        new.sync()?;
    }
    Ok(())
}

/// Whether the file system keeps the number that a file's time of change was set to. Else it is a fault.
fn keeps_number<F: Write + OpenFile + Drop>(new: &NewFile<F>, number: u64) -> Result<(), Halt> {
    let metadata = new.metadata()?;
    if number_of(&metadata) == Some(number) {
        return Ok(());
    }
    Err(Halt::Fault(Fault::at(Doing::KeepingTime)))
}
