//! What calls of the store in a folder take: one is added to a number again and again, or its versions are listed, by the
//! store's calls alone.

use crate::ending::Halt;
use crate::opened::store_of;
use bytes::Bytes;
use std::alloc::{AllocError, Global};
use std::rt::Clock;
use std::str;
use txn_client_journals::tables::layout::world_layout;
use txn_folder::store::FolderStore;
use txn_folder_files::written::nanos_of;
use txn_script_lines::values::entry::EntryCodec;
use txn_store::request::{Reply, Request};
use txn_store::store::{PutMode, StoreError};
use txn_store::types::boundary::read_boundary;
use txn_store::types::layout::{Layout, PAGE};
use txnobj_words::options::Options;

/// A number whose versions are kept in a folder, as one client knows it.
#[derive(Clone, Copy)]
struct Number {
    id: u64,
    value: u64,
    /// How often another was first.
    conflicts: u64,
}

/// What a reply tells.
#[derive(Clone, Copy)]
enum Told {
    /// A file was put.
    Put,
    /// A file has the name already.
    Taken,
    /// A file says this number, in epoch 0.
    Says(u64),
    /// A file says no such number.
    Other,
    /// There is no file.
    Missing,
    /// There are so many files.
    Listed(u64),
    /// The call failed, or memory lacked.
    Failed,
}

/// What was done again and again.
#[derive(Clone, Copy)]
enum Done {
    /// One was added: where the number stands.
    Added(Number),
    /// All versions were listed: how many there are.
    Listed(u64),
}

/// Why no more calls are made.
#[derive(Clone, Copy)]
enum Stopped {
    /// A call failed, or memory lacked.
    Failed,
    /// A version says no number in epoch 0, or a boundary stands.
    NotItsOwn,
}

/// The calls on a number, over the store that is lent.
#[derive(Drop)]
struct Calls<'a> {
    alloc: Global,
    layout: &'a Layout<EntryCodec>,
    store: &'a mut FolderStore<HostRuntime>,
}

/// What a version's bytes tell: epoch 0, a colon and the number.
fn told_bytes(bytes: &[u8]) -> Told {
    let Ok(text) = str::from_utf8(bytes) else {
        return Told::Other;
    };
    let Some(("0", payload)) = text.split_once(':') else {
        return Told::Other;
    };
    match read_boundary(payload.as_bytes()) {
        Some(value) => Told::Says(value),
        None => Told::Other,
    }
}

fn told_by(reply: &Reply) -> Told {
    match reply {
        Reply::Put(Ok(_)) => Told::Put,
        Reply::Put(Err(StoreError::AlreadyExists)) => Told::Taken,
        Reply::Get(Ok(got)) => told_bytes(got.bytes.as_slice()),
        Reply::Get(Err(StoreError::NotFound)) => Told::Missing,
        Reply::List(Ok(page)) => Told::Listed(page.metas.as_slice().len() as u64),
        _ => Told::Failed,
    }
}

impl Calls<'_> {
    /// What the call of a request is answered.
    fn serve(&mut self, request: Result<Request, AllocError>) -> Told {
        match request {
            Ok(request) => {
                let reply = self.store.serve(self.alloc, &request);
                let told = told_by(&reply);
                // (by a call: in place, the proof would follow each reply that may be dropped)
                drop(reply);
                told
            }
            Err(AllocError) => Told::Failed,
        }
    }

    fn get_of(&self, id: u64) -> Result<Request, AllocError> {
        Ok(Request::Get {
            path: self.layout.names.path_for(self.alloc, id)?,
            if_none_match: None,
        })
    }

    fn get_of_boundary(&self) -> Result<Request, AllocError> {
        Ok(Request::Get {
            path: self.layout.boundary.try_clone()?,
            if_none_match: None,
        })
    }

    fn put_of(&self, id: u64, value: u64) -> Result<Request, AllocError> {
        Ok(Request::Put {
            path: self.layout.names.path_for(self.alloc, id)?,
            bytes: Bytes::from_string(format!(in self.alloc; "0:{value}")?)?,
            mode: PutMode::Create,
        })
    }

    fn list_of(&self) -> Result<Request, AllocError> {
        Ok(Request::List {
            prefix: self.layout.names.dir().try_clone()?,
            after: None,
            limit: u64::MAX,
        })
    }

    /// Goes on to the newest version.
    fn catch_up(&mut self, number: &mut Number) -> Result<(), Stopped> {
        for next in number.id.saturating_add(1)..u64::MAX {
            let request = self.get_of(next);
            match self.serve(request) {
                Told::Says(value) => {
                    number.id = next;
                    number.value = value;
                }
                Told::Missing => return Ok(()),
                Told::Other => return Err(Stopped::NotItsOwn),
                _ => return Err(Stopped::Failed),
            }
        }
        Ok(())
    }

    /// Looks for the boundary, as a checked write does: an object that is the number's own has none.
    fn check(&mut self) -> Result<(), Stopped> {
        let request = self.get_of_boundary();
        match self.serve(request) {
            Told::Missing => Ok(()),
            Told::Says(_) | Told::Other => Err(Stopped::NotItsOwn),
            _ => Err(Stopped::Failed),
        }
    }

    /// Whether the next version was made.
    fn put(&mut self, number: &mut Number) -> Result<bool, Stopped> {
        let id = number.id.saturating_add(1);
        let value = number.value.wrapping_add(1);
        let request = self.put_of(id, value);
        match self.serve(request) {
            Told::Put => {
                number.id = id;
                number.value = value;
                Ok(true)
            }
            Told::Taken => Ok(false),
            _ => Err(Stopped::Failed),
        }
    }

    /// Adds one.
    fn add(&mut self, number: &mut Number) -> Result<(), Stopped> {
        for _ in 0..u64::MAX {
            if self.put(number)? {
                return self.check();
            }
            number.conflicts = number.conflicts.saturating_add(1);
            self.catch_up(number)?;
        }
        Ok(())
    }

    /// Lists all versions: how many there are.
    fn list(&mut self) -> Result<u64, Stopped> {
        let request = self.list_of();
        match self.serve(request) {
            Told::Listed(count) => Ok(count),
            _ => Err(Stopped::Failed),
        }
    }

    /// Adds one so many times: where the number stands then.
    fn add_times(&mut self, times: u64) -> Result<Number, Stopped> {
        let mut number = Number {
            id: 0,
            value: 0,
            conflicts: 0,
        };
        self.check()?;
        self.catch_up(&mut number)?;
        for _ in 0..times {
            self.add(&mut number)?;
        }
        Ok(number)
    }

    /// Lists all versions so many times: how many there were the last time.
    fn list_times(&mut self, times: u64) -> Result<u64, Stopped> {
        let mut versions = 0;
        for _ in 0..times {
            versions = self.list()?;
        }
        Ok(versions)
    }

    /// Lists all versions so many times, or adds one so many times.
    fn repeat(&mut self, times: u64, lists: bool) -> Result<Done, Stopped> {
        if lists {
            return Ok(Done::Listed(self.list_times(times)?));
        }
        Ok(Done::Added(self.add_times(times)?))
    }

    /// Why no more calls are made, as the program says it.
    fn halt_of(&self, stopped: Stopped) -> Halt {
        match (stopped, self.store.fault()) {
            (Stopped::NotItsOwn, _) => Halt::Words(
                "bench wants an object of its own: a version of this one says no number in epoch 0, or its boundary was raised",
            ),
            (Stopped::Failed, Some(fault)) => Halt::Store(*fault),
            (Stopped::Failed, None) => Halt::NoMemory,
        }
    }
}

/// Says what was done, and how long each took.
fn say(rt: &HostRuntime, done: Done, times: u64, nanos: u64) -> Result<u8, Halt> {
    let each = nanos.checked_div(times).unwrap_or(0);
    match done {
        Done::Added(
            Number {
                id,
                value,
                conflicts,
            },
        ) => println!(rt;
            "times {times} nanoseconds each {each} conflicts {conflicts} last {id} value {value}"
        )?,
        Done::Listed(versions) => println!(rt;
            "times {times} nanoseconds each {each} versions {versions}"
        )?,
    }
    Ok(0)
}

/// Makes the calls, and says how long each took.
fn timed(rt: &HostRuntime, calls: &mut Calls<'_>, times: u64, lists: bool) -> Result<u8, Halt> {
    let before = nanos_of(rt.monotonic()?);
    let done = calls.repeat(times, lists);
    let after = nanos_of(rt.monotonic()?);
    let nanos = after.saturating_sub(before);
    match done {
        Ok(done) => say(rt, done, times, nanos),
        Err(stopped) => Err(calls.halt_of(stopped)),
    }
}

/// Adds one to the number that the options name so many times, or lists its versions so many times, and says how long each
/// took, in nanoseconds.
///
/// # Errors
///
/// A root or a name that cannot be opened, the refusal of a call, the fault of a store call, the system's error, and want of
/// memory. What was added before stands.
pub fn bench(rt: &HostRuntime, options: &Options<'_>, times: u64, lists: bool) -> Result<u8, Halt> {
    let mut store = store_of(rt, options)?;
    let layout: Layout<EntryCodec> = world_layout(rt.alloc(), EntryCodec, PAGE)?;
    let mut calls = Calls {
        alloc: rt.alloc(),
        layout: &layout,
        store: &mut store,
    };
    timed(rt, &mut calls, times, lists)
}
