//! What is asked of the system, noted in order: a line for each call that names a file or a folder, and for each of an open one.

use std::alloc::{AllocError, Global};
use std::cell::Cell;
use std::fs::{FileTimes, Metadata, OpenFile};
use std::io;
use std::io::{Read, Seek, SeekFrom, Write};
use std::rt::Files;
use std::time::UNIX_EPOCH;
use txn_folder_files::lock::{LockFile, Sharing};
use txn_store::digits::read_digits;

/// The notes of what was asked for below a root, where they are kept. A name is written as it lies below the root, a version's
/// as its id, the boundary's as `boundary`, the root as `root`, and of a temporary name no more than its `#`.
#[derive(Drop)]
pub struct Log<'a> {
    alloc: Global,
    root: &'a str,
    notes: Cell<String>,
    listed: Cell<bool>,
}

/// The name of a version's file as its id, and of the boundary's as `boundary`.
fn short(file: &str) -> (&str, Option<u64>) {
    if let Some(name) = file.strip_prefix("test/") {
        let digits = name.strip_suffix(".val").unwrap_or(name);
        return (file, read_digits(digits));
    }
    match file {
        "" => ("root", None),
        "gc/test.boundary" => ("boundary", None),
        _ => (file, None),
    }
}

/// A name in notes.
fn named(alloc: Global, file: &str, ending: &str) -> Result<String, AllocError> {
    match short(file) {
        (_, Some(id)) => format!(in alloc; "{id}{ending}"),
        (name, None) => format!(in alloc; "{name}{ending}"),
    }
}

impl<'a> Log<'a> {
    /// No notes.
    pub fn new(alloc: Global, root: &'a str) -> Log<'a> {
        Log {
            alloc,
            root,
            notes: Cell::new(String::new(alloc)),
            listed: Cell::new(false),
        }
    }

    /// The notes since they were taken last.
    pub fn take(&self) -> String {
        self.notes.replace(String::new(self.alloc))
    }

    /// Whether a folder was gone through before. One is now.
    pub fn was_listed(&self) -> bool {
        self.listed.replace(true)
    }

    /// A path as notes name it.
    fn shown(&self, path: &str) -> Result<String, AllocError> {
        let path = path.strip_prefix(self.root).unwrap_or(path);
        let path = path.strip_prefix('/').unwrap_or(path);
        let path = path.strip_suffix('/').unwrap_or(path);
        match path.split_once('#') {
            Some((file, "0")) => named(self.alloc, file, "#0"),
            Some((file, _)) => named(self.alloc, file, "#"),
            None => named(self.alloc, path, ""),
        }
    }

    /// Notes what is asked for.
    pub fn note(&self, word: &str, path: &str) -> Result<(), AllocError> {
        let name = self.shown(path)?;
        let line = format!(in self.alloc; "  {word} {name}\n")?;
        let mut notes = self.take();
        notes.push_str(line.as_str())?;
        let _ = self.notes.replace(notes);
        Ok(())
    }

    /// Notes what is asked of two names.
    pub fn note_both(&self, word: &str, from: &str, to: &str) -> Result<(), AllocError> {
        let from = self.shown(from)?;
        let word = format!(in self.alloc; "{word} {from}")?;
        self.note(word.as_str(), to)
    }
}

/// An open file or folder of the system, by its path, of which what is asked is noted.
#[derive(Drop)]
pub struct Watched<'a> {
    pub open: <HostRuntime as Files>::File,
    pub path: String,
    pub log: &'a Log<'a>,
    /// Whether it keeps no time but in whole seconds.
    pub keeps_seconds: bool,
}

impl Watched<'_> {
    fn note(&self, word: &str) -> io::Result<()> {
        self.log.note(word, self.path.as_str())?;
        Ok(())
    }
}

impl Read for Watched<'_> {
    fn read(&mut self, buf: &mut [u8]) -> io::Result<usize> {
        self.open.read(buf)
    }
}

impl Write for Watched<'_> {
    fn write(&mut self, buf: &[u8]) -> io::Result<usize> {
        self.note("write")?;
        self.open.write(buf)
    }

    fn flush(&mut self) -> io::Result<()> {
        self.open.flush()
    }
}

impl Seek for Watched<'_> {
    fn seek(&mut self, to: SeekFrom) -> io::Result<u64> {
        self.open.seek(to)
    }
}

impl OpenFile for Watched<'_> {
    fn metadata(&self) -> io::Result<Metadata> {
        self.note("look at")?;
        OpenFile::metadata(&self.open)
    }

    fn set_len(&self, size: u64) -> io::Result<()> {
        OpenFile::set_len(&self.open, size)
    }

    fn sync_all(&self) -> io::Result<()> {
        self.note("sync")?;
        OpenFile::sync_all(&self.open)
    }

    fn sync_data(&self) -> io::Result<()> {
        OpenFile::sync_data(&self.open)
    }

    fn set_times(&self, times: FileTimes) -> io::Result<()> {
        self.note("time")?;
        if self.keeps_seconds {
            let second = FileTimes::new().set_modified(UNIX_EPOCH);
            return OpenFile::set_times(&self.open, second);
        }
        OpenFile::set_times(&self.open, times)
    }
}

impl LockFile for Watched<'_> {
    fn try_lock_file(&self, sharing: Sharing) -> io::Result<bool> {
        self.note(match sharing {
            Sharing::Alone => "lock",
            Sharing::WithOthers => "lock with others",
        })?;
        self.open.try_lock_file(sharing)
    }
}
