//! How an object in a folder is opened.
ghost use Rattle.std.specs.Prelude.{◌≤◌, ◌≡◌, IfOk, IfSome};
ghost use Rattle.txnobj_folder.specs.Opening.{IsNumberOf, IsOpened};

use crate::error::{OpenError, at_file};
use crate::recording::Recording;
use crate::store::SharedFolder;
use std::fs::{self, File};
use std::io::ErrorKind;
use txn_client_journals::tables::layout::world_layout;
use txn_folder::folder::Folder;
use txn_folder::store::FolderStore;
use txn_folder_files::written::number_now;
use txn_script_lines::text_form::LineValue;
use txn_script_lines::values::entry::{Entry, EntryCodec, EntryEpoch};
use txn_store::types::codec::ObjectCodec;
use txn_store::types::epoch::EpochField;
use txn_store::types::layout::{Layout, PAGE};
use txnobj::client::ObjectClient;

/// The most bytes of an object's name: its boundary's temporary files have 30 more, and a file's name has at most 255.
const MOST_OF_A_NAME: usize = 225;
/// The most bytes of a suffix: the temporary files of versions have 42 more.
const MOST_OF_A_SUFFIX: usize = 213;

/// How an object is opened.
#[derive(Clone, Copy, Debug)]
pub struct Opening<'a> {
    /// What the names of the versions' files end with. One object has one suffix.
    pub suffix: &'a str,
    /// Whether what is told lasts when the power fails. Where it does not, a cut loses what was told last, and can leave a newest
    /// version that is no value, on which nothing goes on before a `repair` of the store.
    pub syncs: bool,
    /// The client's number, at least 1, which no other client of the object has, in all runs. None: the nanoseconds since 1970.
    pub number: Option<u64>,
    /// The file at whose end the client is recorded, of which one process alone writes. None: the client is not recorded.
    pub recording: Option<&'a str>,
}

impl Opening<'_> {
    /// Files under the suffix `val`, synced, by a client of a number of its own, which is not recorded.
    pub fn new() -> Opening<'static> {
        Opening {
            suffix: "val",
            syncs: true,
            number: None,
            recording: None,
        }
    }
}

/// A client of an object in a folder.
pub type FolderClient<T, C, E> = ObjectClient<T, C, E, SharedFolder, Recording<File>>;

/// The same of one whose values are any bytes, each with its epoch, as `txnobj` writes and audits them.
pub type EntryClient = FolderClient<Entry, EntryCodec, EntryEpoch>;

/// Whether a root is a folder that is there.
///
/// # Errors
///
/// `EmptyRoot`, `MissingRoot` or `RootIsNoFolder`, by what it is; `File` where the system does not say. Nothing is made.
pub fn test_root(rt: &HostRuntime, root: &str) -> Result<(), OpenError> {
    if root.is_empty() {
        return Err(OpenError::EmptyRoot);
    }
    match fs::metadata(rt, root) {
        Ok(metadata) if metadata.is_dir() => Ok(()),
        Ok(_) => Err(OpenError::RootIsNoFolder),
        Err(error) if error.kind() == ErrorKind::NotFound => Err(OpenError::MissingRoot),
        Err(error) => Err(at_file(rt.alloc(), root, error)),
    }
}

/// Whether temporary names of so long a name fit: of its boundary's file, and, where it has this suffix, of its versions'.
fn test_name(name: &str, suffix: &str) -> Result<(), OpenError> {
    if name == "gc" {
        return Err(OpenError::NameOfBoundaries);
    }
    if MOST_OF_A_NAME < name.len() || MOST_OF_A_SUFFIX < suffix.len() {
        return Err(OpenError::LongName);
    }
    Ok(())
}

/// The store of the object of this name in the folder `root`. Nothing is made before the first write.
///
/// # Errors
///
/// Those of `test_root`; `NameOfBoundaries`, `BadName` and `LongName` for a name or a suffix that no file can have on each file
/// system; `NoMemory` where a growth was refused. Nothing is made.
pub fn open_store(
    rt: &HostRuntime,
    root: &str,
    name: &str,
    opening: &Opening<'_>,
) -> Result<FolderStore<HostRuntime>, OpenError> {
    test_root(rt, root)?;
    test_name(name, opening.suffix)?;
    let alloc = rt.alloc();
    let folder = Folder::new(alloc, root, name, opening.suffix)?;
    let Layout {
        names,
        boundary,
        ..
    } = world_layout(alloc, (), PAGE)?;
    let own = rt.clone()?;
    Ok(FolderStore::new(own, folder, names, boundary, opening.syncs))
}

/// The client's number.
fn number_of(rt: &HostRuntime, asked: Option<u64>) -> Result<u64, OpenError>
    ensures { IfOk result (IsNumberOf asked) }
{
    match asked {
        Some(0) => Err(OpenError::NumberZero),
        Some(number) => Ok(number),
        None => Ok(number_now(rt)?.max(1)),
    }
}

/// The recording of a client. It says its object the same on each machine, wherever the folder is mounted.
fn recording_of(
    rt: &HostRuntime,
    name: &str,
    opening: &Opening<'_>,
    number: u64,
) -> Result<Recording<File>, OpenError> {
    let suffix = opening.suffix;
    let object = format!(in rt.alloc(); "{name}.{suffix}")?;
    Recording::new(
        rt.clone()?,
        opening.recording,
        object.as_str(),
        number,
        PAGE,
    )
}

/// A client of the object of this name in the folder `root`, which is there.
///
/// # Errors
///
/// Those of `open_store`; `NumberZero` for a client's number that is 0; `RecordingInUse` where another process writes the
/// recording, and `File` where the system fails at it; `System` where it fails at its clock, or as the recording's first rows
/// were written, of which some may stand. Nothing of the object is made.
pub fn open<T: Clone + LineValue, C: ObjectCodec<T> + Drop, E: EpochField<T>>(
    rt: &HostRuntime,
    root: &str,
    name: &str,
    opening: &Opening<'_>,
    codec: C,
    epochs: E,
) -> Result<FolderClient<T, C, E>, OpenError>
    ensures { IfOk result (IsOpened opening.now.number codec epochs) }
{
    let store = open_store(rt, root, name, opening)?;
    let number = number_of(rt, opening.number)?;
    let recording = recording_of(rt, name, opening, number)?;
    let client = ObjectClient::new(
        rt.alloc(),
        number,
        codec,
        epochs,
        SharedFolder { store },
        recording,
    )?;
    Ok(client)
}
