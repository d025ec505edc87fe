//! The object that the options name, as a client of it or as its store.

use crate::ending::Halt;
use txn_folder::store::FolderStore;
use txn_script_lines::values::entry::{EntryCodec, EntryEpoch};
use txnobj_folder::opening::{self, EntryClient, Opening, test_root};
use txnobj_words::options::Options;

/// The folder that the options name.
fn named_root<'a>(options: &Options<'a>) -> Result<&'a str, Halt> {
    match options.root {
        None => Err(Halt::Words("this wants --root DIR before the command")),
        Some(root) => Ok(root),
    }
}

/// The same, where it is there.
///
/// # Errors
///
/// Words that name no root, and a root that is not there or is no folder. Nothing is made.
pub fn root_of<'a>(rt: &HostRuntime, options: &Options<'a>) -> Result<&'a str, Halt> {
    let root = named_root(options)?;
    test_root(rt, root)?;
    Ok(root)
}

/// Another mount of it, where one is given, and where that is there.
///
/// # Errors
///
/// A mount that is not there or is no folder. Nothing is made.
pub fn other_root<'a>(rt: &HostRuntime, other: Option<&'a str>) -> Result<Option<&'a str>, Halt> {
    if let Some(root) = other {
        test_root(rt, root)?;
    }
    Ok(other)
}

/// The object's name that the options give.
fn name_of<'a>(options: &Options<'a>) -> Result<&'a str, Halt> {
    match options.name {
        None => Err(Halt::Words("this wants --name NAME before the command")),
        Some(name) => Ok(name),
    }
}

/// How the options have it opened.
fn opening_of<'a>(options: &Options<'a>) -> Opening<'a> {
    Opening {
        suffix: options.suffix,
        syncs: options.syncs,
        number: options.client,
        recording: options.diary,
    }
}

/// The store of the object that the options name.
///
/// # Errors
///
/// Words that name no root or no object, and a root or a name that cannot be opened. Nothing is made.
pub fn store_of(rt: &HostRuntime, options: &Options<'_>) -> Result<FolderStore<HostRuntime>, Halt> {
    let root = root_of(rt, options)?;
    let name = name_of(options)?;
    Ok(opening::open_store(rt, root, name, &opening_of(options))?)
}

/// A client of the object that the options name.
///
/// # Errors
///
/// As of a store, and a recording that cannot be begun. Nothing of the object is made.
pub fn open(rt: &HostRuntime, options: &Options<'_>) -> Result<EntryClient, Halt> {
    let root = root_of(rt, options)?;
    let name = name_of(options)?;
    let opening = opening_of(options);
    Ok(opening::open(rt, root, name, &opening, EntryCodec, EntryEpoch)?)
}
