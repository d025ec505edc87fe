//! Calls of a store in a folder, and what they are answered, as text that one function plays.
//!
//! A table has a call a line, and after ` = ` what it is answered. A call is `create NAME BYTES`, `overwrite NAME BYTES`,
//! `update NAME TOKEN BYTES`, `get NAME`, `get NAME TOKEN`, `delete NAME`, `list LIMIT`, or `list LIMIT ID`, which goes on after
//! that version, or `repair`. A NAME is the id of a version, `boundary`, or `elsewhere`, which is none of the object's. Before a call may
//! stand how many calls of the system that name a file or a folder it takes, `noted`, where lines follow that say what it asks of
//! the system and in which order, or `other`, where another store in the folder makes it.

use crate::tests::failing::Failing;
use bytes::Bytes;
use std::alloc::{AllocError, Global};
use std::rt::Clock;
use std::time::SystemTime;
use std::{io, str};
use txn_folder::folder::Folder;
use txn_folder::repair::{Kept, Repair};
use txn_folder::store::FolderStore;
use txn_script_lines::record::{Record, RecordCodec};
use txn_store::digits::read_digits;
use txn_store::page::Page;
use txn_store::path::{Path, PathFault};
use txn_store::request::{Reply, Request};
use txn_store::store::{PutMode, StoreError, Token};
use txn_store::types::layout::Layout;

/// The name of a folder of a test's own, in its working folder.
pub fn folder_of(rt: &HostRuntime, name: &str) -> io::Result<String> {
    let time = rt.since_1970()?;
    let secs = time.as_secs();
    let nanos = time.subsec_nanos();
    Ok(format!(in rt.alloc(); "folder-{name}-{secs}-{nanos}")?)
}

/// A store of the object `test`, under the names that requests have.
type Store<'a> = FolderStore<Failing<'a>>;

/// What plays the calls of a table.
#[derive(Drop)]
struct Stores<'a> {
    layout: Layout<u8>,
    own: Store<'a>,
    other: Store<'a>,
}

/// The names that requests have.
fn layout_of(alloc: Global) -> Result<Layout<u8>, PathFault> {
    let top = Path::root(alloc).join("root")?;
    Layout::new(alloc, &top, "test", "val", 0u8)
}

/// The store of the object `test` below a root.
fn store_of<'a>(rt: Failing<'a>, root: &str, syncs: bool) -> Result<Store<'a>, PathFault> {
    let alloc = rt.alloc();
    let folder = Folder::new(alloc, root, "test", "val")?;
    let layout = layout_of(alloc)?;
    Ok(FolderStore::new(rt, folder, layout.names, layout.boundary, syncs))
}

/// A store whose calls of the system are those of `rt`, and one of which none fails.
fn stores_of<'a>(rt: Failing<'a>, root: &str, syncs: bool) -> Result<Stores<'a>, PathFault> {
    let layout = layout_of(rt.alloc())?;
    let own = store_of(rt, root, syncs)?;
    let other = store_of(Failing { writes: true, ..rt }, root, false)?;
    Ok(Stores { layout, own, other })
}

/// What stands before the first space, and what stands after it.
fn cut(text: &str) -> (&str, &str) {
    text.split_once(' ').unwrap_or((text, ""))
}

/// The path of a name.
fn path_of(alloc: Global, layout: &Layout<u8>, name: &str) -> Result<Path, PathFault> {
    match read_digits(name) {
        Some(id) => Ok(layout.names.path_for(alloc, id)?),
        None if name == "boundary" => Ok(layout.boundary.try_clone()?),
        None => Path::root(alloc).join("other"),
    }
}

fn token_of(digits: &str) -> Option<Token> {
    match read_digits(digits) {
        Some(number) => Some(Token::new(number)),
        None => None,
    }
}

fn put(alloc: Global, path: Path, bytes: &str, mode: PutMode) -> Result<Request, PathFault> {
    Ok(Request::Put {
        path,
        bytes: Bytes::copy_from_slice(alloc, bytes.as_bytes())?,
        mode,
    })
}

fn update(alloc: Global, path: Path, rest: &str) -> Result<Request, PathFault> {
    let (token, bytes) = cut(rest);
    let token = token_of(token).unwrap_or(Token::new(0));
    put(alloc, path, bytes, PutMode::Update(token))
}

/// The path that a listing goes on after, where one is named.
fn after_of(alloc: Global, layout: &Layout<u8>, after: &str) -> Result<Option<Path>, PathFault> {
    if after.is_empty() {
        return Ok(None);
    }
    Ok(Some(path_of(alloc, layout, after)?))
}

fn list(
    alloc: Global,
    layout: &Layout<u8>,
    limit: &str,
    after: &str,
) -> Result<Request, PathFault> {
    let after = after_of(alloc, layout, after)?;
    Ok(Request::List {
        prefix: layout.names.dir().try_clone()?,
        after,
        limit: read_digits(limit).unwrap_or(0),
    })
}

/// The request of a call.
fn request_of(alloc: Global, layout: &Layout<u8>, call: &str) -> Result<Request, PathFault> {
    let (word, rest) = cut(call);
    let (name, rest) = cut(rest);
    if word == "list" {
        return list(alloc, layout, name, rest);
    }
    let path = path_of(alloc, layout, name)?;
    match word {
        "create" => put(alloc, path, rest, PutMode::Create),
        "overwrite" => put(alloc, path, rest, PutMode::Overwrite),
        "update" => update(alloc, path, rest),
        "get" => Ok(Request::Get {
            path,
            if_none_match: token_of(rest),
        }),
        _ => Ok(Request::Delete { path }),
    }
}

fn name_of(error: StoreError) -> &'static str {
    match error {
        StoreError::NotFound => "not found",
        StoreError::AlreadyExists => "already exists",
        StoreError::Precondition => "precondition",
        StoreError::NotModified => "not modified",
        StoreError::Failed => "failed",
        StoreError::NoMemory => "no memory",
        StoreError::TokensExhausted => "tokens exhausted",
    }
}

fn got(alloc: Global, bytes: &[u8]) -> Result<String, AllocError> {
    let text = str::from_utf8(bytes).unwrap_or("no text");
    let text = if text.is_empty() { "nothing" } else { text };
    format!(in alloc; "got {text}")
}

/// Writes the id of a version.
fn write_id(
    alloc: Global,
    layout: &Layout<u8>,
    path: &Path,
    text: &mut String,
) -> Result<(), AllocError> {
    let id = layout.names.parse_id(path).unwrap_or(0);
    let word = format!(in alloc; " {id}")?;
    text.push_str(word.as_str())
}

/// Writes the ids of a page.
fn write_ids(
    alloc: Global,
    layout: &Layout<u8>,
    page: &Page,
    text: &mut String,
) -> Result<(), AllocError> {
    for meta in page.metas.as_slice() {
        write_id(alloc, layout, &meta.location, text)?;
    }
    text.push_str(if page.more { " and more" } else { "" })
}

fn listed(alloc: Global, layout: &Layout<u8>, page: &Page) -> Result<String, AllocError> {
    let mut text = String::from_str(alloc, "listed")?;
    write_ids(alloc, layout, page, &mut text)?;
    Ok(text)
}

/// What a reply says. Of a put's token it says nothing.
fn said(alloc: Global, layout: &Layout<u8>, reply: &Reply) -> Result<String, AllocError> {
    match reply {
        Reply::Get(Ok(found)) => got(alloc, found.bytes.as_slice()),
        Reply::List(Ok(page)) => listed(alloc, layout, page),
        Reply::Put(Ok(_)) => String::from_str(alloc, "put"),
        Reply::Delete(Ok(())) => String::from_str(alloc, "deleted"),
        Reply::Put(Err(error)) => String::from_str(alloc, name_of(*error)),
        Reply::Get(Err(error)) => String::from_str(alloc, name_of(*error)),
        Reply::List(Err(error)) => String::from_str(alloc, name_of(*error)),
        Reply::Delete(Err(error)) => String::from_str(alloc, name_of(*error)),
    }
}

/// What a request is answered.
fn replied(
    alloc: Global,
    layout: &Layout<u8>,
    store: &mut Store<'_>,
    request: &Request,
) -> Result<String, AllocError> {
    let reply = store.serve(alloc, request);
    said(alloc, layout, &reply)
}

/// Why a repair removed nothing.
fn kept(alloc: Global, why: &Kept) -> Result<String, AllocError> {
    match why {
        Kept::NoVersion => String::from_str(alloc, "there is no version"),
        Kept::NothingTorn(newest) => format!(in alloc; "{newest} is a value"),
        Kept::NoValue => String::from_str(alloc, "none is a value"),
        Kept::NoBoundary => String::from_str(alloc, "the boundary is no number"),
        Kept::NotAbove { newest, boundary } => format!(in alloc;
            "{newest} is not above {boundary}"
        ),
    }
}

/// Which versions a repair removed, and at which one the object goes on.
fn removed(alloc: Global, newest: u64, ids: &[u64]) -> Result<String, AllocError> {
    let mut text = String::from_str(alloc, "removed")?;
    for id in ids {
        let word = format!(in alloc; " {id}")?;
        text.push_str(word.as_str())?;
    }
    let end = format!(in alloc; ", at {newest}")?;
    text.push_str(end.as_str())?;
    Ok(text)
}

/// What a repair does, for records.
fn repaired(alloc: Global, store: &Store<'_>) -> Result<String, AllocError> {
    match store.repair::<Record, RecordCodec>(alloc, &RecordCodec) {
        Ok(Repair::Kept(why)) => kept(alloc, &why),
        Ok(
            Repair::Removed {
                newest,
                removed: ids,
            },
        ) => removed(alloc, newest, ids.as_slice()),
        Err(_) => String::from_str(alloc, "halted"),
    }
}

/// What a call is answered.
fn answered(
    alloc: Global,
    layout: &Layout<u8>,
    store: &mut Store<'_>,
    call: &str,
) -> Result<String, AllocError> {
    if call == "repair" {
        return repaired(alloc, store);
    }
    match request_of(alloc, layout, call) {
        Ok(request) => replied(alloc, layout, store, &request),
        Err(_) => Err(AllocError),
    }
}

/// Who makes the call of a line.
#[derive(Clone, Copy)]
enum Maker {
    /// The store that is tested, whose calls of the system are counted.
    Counted,
    /// The store that is tested, whose calls of the system are noted.
    Noted,
    /// The store that is tested.
    Own,
    /// Another store in the folder.
    Other,
}

/// Who makes the call of a line, and the call.
fn maker_of(line: &str) -> (Maker, &str) {
    let (word, rest) = cut(line);
    match word {
        "other" => (Maker::Other, rest),
        "noted" => (Maker::Noted, rest),
        _ if read_digits(word).is_some() => (Maker::Counted, rest),
        _ => (Maker::Own, line),
    }
}

/// The call of a line, with who makes it.
fn call_of(line: &str) -> &str {
    match line.split_once(" = ") {
        Some((call, _)) => call,
        None => line,
    }
}

/// Writes what stands before a call.
fn write_maker(
    alloc: Global,
    maker: Maker,
    took: u64,
    text: &mut String,
) -> Result<(), AllocError> {
    match maker {
        Maker::Counted => {
            let word = format!(in alloc; "{took} ")?;
            text.push_str(word.as_str())
        }
        Maker::Noted => text.push_str("noted "),
        Maker::Own => Ok(()),
        Maker::Other => text.push_str("other "),
    }
}

/// Writes a call with what it was answered, and whether there is a fault where it did not fail, or none where it did.
fn write_call(call: &str, answer: &str, faults: bool, text: &mut String) -> Result<(), AllocError> {
    text.push_str(call)?;
    text.push_str(" = ")?;
    text.push_str(answer)?;
    if faults != (answer == "failed") {
        text.push_str(" but for its fault")?;
    }
    text.push('\n')
}

/// Makes a call of a store, and writes it with what it was answered.
fn play_call(
    rt: Failing<'_>,
    layout: &Layout<u8>,
    store: &mut Store<'_>,
    maker: Maker,
    call: &str,
    text: &mut String,
) -> Result<(), AllocError> {
    let answer = answered(rt.alloc(), layout, store, call)?;
    let took = u64::MAX.wrapping_sub(rt.left.get());
    let faults = store.fault().is_some();
    let notes = rt.log.take();
    write_maker(rt.alloc(), maker, took, text)?;
    write_call(call, answer.as_str(), faults, text)?;
    match maker {
        Maker::Noted => text.push_str(notes.as_str()),
        _ => Ok(()),
    }
}

/// Makes the call of a line, and writes it with what it was answered.
fn play_line(
    rt: Failing<'_>,
    stores: &mut Stores<'_>,
    line: &str,
    text: &mut String,
) -> Result<(), AllocError> {
    let (maker, call) = maker_of(call_of(line));
    if !matches!(maker, Maker::Own) {
        rt.left.set(u64::MAX);
    }
    match maker {
        Maker::Other => play_call(rt, &stores.layout, &mut stores.other, maker, call, text),
        _ => play_call(rt, &stores.layout, &mut stores.own, maker, call, text),
    }
}

fn play_lines(
    rt: Failing<'_>,
    stores: &mut Stores<'_>,
    table: &str,
    text: &mut String,
) -> Result<(), AllocError> {
    for line in table.lines() {
        if !line.starts_with(' ') {
            play_line(rt, stores, line, text)?;
        }
    }
    Ok(())
}

/// How many temporary files are removed that were left before a time, none where that fails.
pub fn clean(rt: Failing<'_>, root: &str, before: SystemTime) -> Result<Option<u64>, AllocError> {
    match store_of(rt, root, false) {
        Ok(mut store) => Ok(store.clean(before).ok()),
        Err(_) => Err(AllocError),
    }
}

/// Makes the calls of a table in a folder, one after another, and writes each with what it was answered.
pub fn play(
    rt: Failing<'_>,
    root: &str,
    syncs: bool,
    table: &str,
    text: &mut String,
) -> Result<(), AllocError> {
    match stores_of(rt, root, syncs) {
        Ok(mut stores) => play_lines(rt, &mut stores, table, text),
        Err(_) => Err(AllocError),
    }
}
