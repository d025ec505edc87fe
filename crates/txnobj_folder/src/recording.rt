//! A recording that grows by whole rows, each by one write, as things happen.

use crate::error::{OpenError, at_file, bytes_in};
use std::fs::{File, OpenFile, OpenOptions, TryLockError};
use std::io::{Read, Seek, SeekFrom, Write};
use std::rt::Clock;
use std::{fs, io};
use txn_audit_recordings::rows::{
    add_answered, add_asked, add_begun, add_failed, add_first_rows, add_gave_up, add_replied,
};
use txn_audit_recordings::source::Source;
use txn_audit_recordings::texts::{first_line, whole_lines};
use txn_folder_files::written::{nanos_of, number_now};
use txn_history::event::{Answer, Call};
use txn_script_lines::text_form::LineValue;
use txn_store::request::{Reply, Request};
use txnobj::clients::recorder::Recorder;

/// The file in which a machine says which of its starts this is.
const START: &str = "/proc/sys/kernel/random/boot_id";

/// Where a client's recording goes: to the end of a file or of another writer, or nowhere.
#[derive(Drop)]
pub struct Recording<W: Drop> {
    rt: HostRuntime,
    out: Option<W>,
}

/// Whether a file ends with a line feed, or is empty.
fn ends_whole(file: &mut File, last: &mut Vec<u8>) -> io::Result<bool> {
    if file.metadata()?.len() == 0 {
        return Ok(true);
    }
    file.seek(SeekFrom::End(-1))?;
    file.read_to_end(last)?;
    Ok(last.as_slice() == b"\n".as_slice())
}

/// The same of a file of this name.
fn is_whole(rt: &HostRuntime, path: &str) -> io::Result<bool> {
    let mut last = Vec::new(rt.alloc());
    let mut file = fs::open(rt, path)?;
    ends_whole(&mut file, &mut last)
}

/// Takes off what follows the last whole row of a recording.
fn cut_off(rt: &HostRuntime, path: &str, file: &File) -> Result<(), OpenError> {
    let bytes = bytes_in(rt, path)?;
    match file.set_len(whole_lines(bytes.as_slice()) as u64) {
        Ok(()) => Ok(()),
        Err(error) => Err(at_file(rt.alloc(), path, error)),
    }
}

/// Locks a recording, of which this process alone writes, and takes off a row that was cut off as a client was killed.
fn begin_on(rt: &HostRuntime, path: &str, file: &File) -> Result<(), OpenError> {
    match file.try_lock() {
        Ok(()) => {}
        Err(TryLockError::WouldBlock) => {
            return Err(OpenError::RecordingInUse);
        }
        Err(TryLockError::Error(error)) => return Err(at_file(rt.alloc(), path, error)),
    }
    match is_whole(rt, path) {
        Ok(true) => Ok(()),
        Ok(false) => cut_off(rt, path, file),
        Err(error) => Err(at_file(rt.alloc(), path, error)),
    }
}

/// Opens a recording, of which this process alone writes, and takes off a row that was cut off as a client was killed.
fn opened(rt: &HostRuntime, path: &str) -> Result<File, OpenError> {
    let mut options = OpenOptions::new();
    let file = match options.append(true).create(true).open(rt, path) {
        Ok(file) => file,
        Err(error) => return Err(at_file(rt.alloc(), path, error)),
    };
    match begin_on(rt, path, &file) {
        Ok(()) => Ok(file),
        Err(error) => Err(error),
    }
}

/// The name that a machine gives to the clock since it was started, where it gives one.
fn machine_clock(rt: &HostRuntime) -> Option<String> {
    let bytes = bytes_in(rt, START).ok()?;
    let line = first_line(bytes.as_slice())?;
    String::from_str(rt.alloc(), line).ok()
}

/// The name of the clock of a machine since it was started. Where the machine does not say, it is one of this client's own.
fn clock_name(rt: &HostRuntime, client: u64) -> Result<String, OpenError> {
    match machine_clock(rt) {
        Some(name) => Ok(name),
        None => {
            let now = number_now(rt)?;
            Ok(format!(in rt.alloc(); "client-{client}-{now}")?)
        }
    }
}

impl Recording<File> {
    /// A recording of this client of an object, of which the first rows say it.
    ///
    /// # Errors
    ///
    /// `RecordingInUse` where another process writes it; `File` where the system fails at it; `System` where it fails as the
    /// first rows were written, of which some may stand; `NoMemory` where a growth was refused.
    pub fn new(
        rt: HostRuntime,
        path: Option<&str>,
        object: &str,
        client: u64,
        page: u64,
    ) -> Result<Recording<File>, OpenError> {
        let out = match path {
            Some(path) => Some(opened(&rt, path)?),
            None => None,
        };
        let mut recording = Recording { rt, out };
        if recording.out.is_some() {
            recording.begin(object, client, page)?;
        }
        Ok(recording)
    }

    /// Adds the rows that stand before all others, by one write.
    fn begin(&mut self, object: &str, client: u64, page: u64) -> Result<(), OpenError> {
        let since = number_now(&self.rt)?;
        let source = Source {
            object: String::from_str(self.rt.alloc(), object)?,
            clock: clock_name(&self.rt, client)?,
            ahead: since.saturating_sub(now(&self.rt)?),
        };
        let alloc = self.rt.alloc();
        let Some(file) = &mut self.out else {
            return Ok(());
        };
        add_first_rows(alloc, file, &source, client, page)?;
        Ok(())
    }
}

/// The nanoseconds of the machine's clock, which only rises.
fn now(rt: &HostRuntime) -> io::Result<u64> {
    Ok(nanos_of(rt.monotonic()?))
}

/// What it is handed is a row more of what its writer has, each with its line feed; nothing where it has none.
impl<T: LineValue, W: Write + Drop> Recorder<T> for Recording<W> {
    ghost use Rattle.txnobj_folder.specs.Recorded.{Records};

    ghost hands = { λ old note new. Records T.text W.contents old.out note new.out };

    fn begun(&mut self, op: u64, call: &Call<T>) -> io::Result<()> {
        let alloc = self.rt.alloc();
        match &mut self.out {
            None => Ok(()),
            Some(out) => add_begun(alloc, out, op, call),
        }
    }

    fn asked(&mut self, op: u64, request: &Request) -> io::Result<()> {
        let alloc = self.rt.alloc();
        match &mut self.out {
            None => Ok(()),
            Some(out) => add_asked(alloc, out, op, now(&self.rt)?, request),
        }
    }

    fn replied(&mut self, op: u64, reply: &Reply) -> io::Result<()> {
        let alloc = self.rt.alloc();
        match &mut self.out {
            None => Ok(()),
            Some(out) => add_replied(alloc, out, op, now(&self.rt)?, reply),
        }
    }

    fn failed(&mut self, op: u64) -> io::Result<()> {
        let alloc = self.rt.alloc();
        match &mut self.out {
            None => Ok(()),
            Some(out) => add_failed(alloc, out, op, now(&self.rt)?),
        }
    }

    fn gave_up(&mut self, op: u64) -> io::Result<()> {
        let alloc = self.rt.alloc();
        match &mut self.out {
            None => Ok(()),
            Some(out) => add_gave_up(alloc, out, op),
        }
    }

    fn answered(&mut self, op: u64, answer: &Answer<T>) -> io::Result<()> {
        let alloc = self.rt.alloc();
        match &mut self.out {
            None => Ok(()),
            Some(out) => add_answered(alloc, out, op, answer),
        }
    }
}
