//! What C is told: of what an operation asks for, how it ended, and what a view is.
ghost use Rattle.std.specs.Prelude.{◌≡◌};
ghost use Rattle.std.specs.Option.{option_copied};
ghost use Rattle.txn_history.specs.Names.{world_names};
ghost use Rattle.txn_history.specs.Seen.{Store};
ghost use Rattle.txn_machine.specs.plain.Doing.{asks_as};

use bytes::Bytes;
use txn_history::event::{Answer, PlainAnswer};
use txn_history::view::View;
use txn_script_lines::values::entry::Entry;
use txn_steps::boundary::ask::Ask;
use txn_store::path::Path;
use txn_store::request::Request;
use txn_store::store::{PutMode, Token};
use txn_store::version_names::VersionNames;

/// What is asked for: nothing (0), a look (1), a put (2), a get (3), a listing (4) or a delete (5).
#[repr(C)]
#[derive(Drop)]
pub struct Asked {
    pub kind: u8,
    /// Of a put: no file stands there (0), one of this token stands there (1), or nothing is asked (2). Of a get: whether a
    /// file of this token is not to be sent (1).
    pub mode: u8,
    /// The version whose file it is, or the boundary's, 0. Of a listing, the version after which it begins, 0 for the first.
    pub version: u64,
    pub token: u64,
    /// The most files of a listing.
    pub limit: u64,
    /// How many bytes a put has.
    pub len: usize,
}

/// How it ended: not yet (0), written (1), the newest version (2), that there is none (3), a value (4), that there is none (5),
/// ids (6), done (7), refused (8), a view (9), or a holder's view (10).
#[repr(C)]
#[derive(Drop)]
pub struct Answered {
    pub kind: u8,
    /// Why it is refused, of 8.
    pub refusal: u8,
    /// The view's number, of 9 and 10.
    pub view: u64,
    /// The version.
    pub id: u64,
    /// The value's epoch.
    pub epoch: u64,
    /// The holder's epoch, of 10.
    pub holder: u64,
    /// How many bytes the value has, or how many ids there are.
    pub len: usize,
}

/// A view as it stands, but for its bytes.
#[repr(C)]
#[derive(Drop)]
pub struct Viewed {
    /// The version at which it stands.
    pub id: u64,
    /// The epoch of its value.
    pub epoch: u64,
    /// Its epoch, where it is a holder's.
    pub holder: u64,
    /// Whether it is a holder's.
    pub is_holder: bool,
    /// How many bytes its value has.
    pub len: usize,
}

ghost use Rattle.txnobj_c.specs.Told.{IsVersion, IsAfter, TellsAsk, mode_kind, mode_token, known_kind, known_token, bare, valued, plain_told, answer_told, holder_told, is_holder, view_told};

/// The version that a path names, 0 where it names none.
fn version_of(names: &VersionNames, path: &Path) -> u64
    requires { names.now ≡ world_names }
    ensures { IsVersion path.now result }
{
    names.parse_id(path).unwrap_or(0)
}

/// The version after which a listing begins, 0 for the first.
fn after_of(names: &VersionNames, after: Option<&Path>) -> u64
    requires { names.now ≡ world_names }
    ensures { IsAfter (option_copied after.entry) result }
{
    match after {
        Some(path) => version_of(names, path),
        None => 0,
    }
}

/// The condition of a put.
fn mode_of(mode: &PutMode) -> (u8, u64)
    ensures kind { result.0 ≡ mode_kind mode.now }
    ensures token { result.1 ≡ mode_token mode.now }
{
    match mode {
        PutMode::Create => (0, 0),
        PutMode::Update(token) => (1, token.number()),
        PutMode::Overwrite => (2, 0),
    }
}

/// The condition of a get.
fn known_of(known: Option<Token>) -> (u8, u64)
    ensures kind { result.0 ≡ known_kind known }
    ensures token { result.1 ≡ known_token known }
{
    match known {
        Some(token) => (1, token.number()),
        None => (0, 0),
    }
}

/// What asks for no file.
fn plain(kind: u8) -> Asked
    ensures { result ≡ record { kind = kind; mode = 0; version = 0; token = 0; limit = 0; len = 0 } }
{
    Asked {
        kind,
        mode: 0,
        version: 0,
        token: 0,
        limit: 0,
        len: 0,
    }
}

/// What a put is, in numbers.
fn put_told(names: &VersionNames, path: &Path, bytes: &Bytes, mode: &PutMode) -> Asked
    requires { names.now ≡ world_names }
    ensures { TellsAsk (Some (Store (Request.Put path.now bytes.now mode.now))) result }
{
    let (mode, token) = mode_of(mode);
    Asked {
        kind: 2,
        mode,
        version: version_of(names, path),
        token,
        limit: 0,
        len: bytes.len(),
    }
}

/// What a get is, in numbers.
fn get_told(names: &VersionNames, path: &Path, known: Option<Token>) -> Asked
    requires { names.now ≡ world_names }
    ensures { TellsAsk (Some (Store (Request.Get path.now known))) result }
{
    let (mode, token) = known_of(known);
    Asked {
        kind: 3,
        mode,
        version: version_of(names, path),
        token,
        limit: 0,
        len: 0,
    }
}

/// What a store call is, in numbers.
fn request_told(names: &VersionNames, request: &Request) -> Asked
    requires { names.now ≡ world_names }
    ensures { TellsAsk (Some (Store request.now)) result }
{
    match request {
        Request::Put { path, bytes, mode } => put_told(names, path, bytes, mode),
        Request::Get {
            path,
            if_none_match,
        } => get_told(names, path, *if_none_match),
        Request::List {
            prefix: _,
            after,
            limit,
        } => Asked {
            kind: 4,
            mode: 0,
            version: after_of(names, after.as_ref()),
            token: 0,
            limit: *limit,
            len: 0,
        },
        Request::Delete { path } => Asked {
            kind: 5,
            mode: 0,
            version: version_of(names, path),
            token: 0,
            limit: 0,
            len: 0,
        },
    }
}

/// What an operation asks for, in numbers.
pub(crate) fn ask_told(names: &VersionNames, ask: Option<Ask<'_>>) -> Asked
    requires { names.now ≡ world_names }
    ensures { TellsAsk (asks_as ask.entry) result }
{
    match ask {
        None => plain(0),
        Some(Ask::Look) => plain(1),
        Some(Ask::Store(request)) => request_told(names, request),
    }
}

/// An answer with no value.
fn bare(kind: u8, refusal: u8, id: u64, len: usize) -> Answered
    ensures { result ≡ bare kind refusal id len }
{
    Answered {
        kind,
        refusal,
        view: 0,
        id,
        epoch: 0,
        holder: 0,
        len,
    }
}

/// An answer with a value.
fn valued(kind: u8, view: u64, id: u64, value: &Entry, holder: u64) -> Answered
    ensures { result ≡ valued kind view id value.now holder }
{
    let Entry { epoch, payload } = value;
    Answered {
        kind,
        refusal: 0,
        view,
        id,
        epoch: *epoch,
        holder,
        len: payload.len(),
    }
}

/// The answer of a call without a view, in numbers.
fn plain_told(answer: &PlainAnswer<Entry>) -> Answered
    ensures { result ≡ plain_told answer.now }
{
    match answer {
        PlainAnswer::Wrote(id) => bare(1, 0, *id, 0),
        PlainAnswer::Read(Some((id, value))) => valued(2, 0, *id, value, 0),
        PlainAnswer::Read(None) => bare(3, 0, 0, 0),
        PlainAnswer::Value(Some(value)) => valued(4, 0, 0, value, 0),
        PlainAnswer::Value(None) => bare(5, 0, 0, 0),
        PlainAnswer::Ids(ids) => bare(6, 0, 0, ids.as_slice().len()),
        PlainAnswer::Done => bare(7, 0, 0, 0),
        PlainAnswer::Refused(number) => bare(8, *number, 0, 0),
    }
}

/// How an operation ended, in numbers.
pub(crate) fn answer_told(answer: &Answer<Entry>) -> Answered
    ensures { result ≡ answer_told answer.now }
{
    match answer {
        Answer::Plain(answer) => plain_told(answer),
        Answer::View(view, id, value) => valued(9, *view, *id, value, 0),
        Answer::Held(view, id, value, epoch) => valued(10, *view, *id, value, *epoch),
    }
}

/// That an operation runs, in numbers.
pub(crate) fn runs() -> Answered
    ensures { result ≡ bare 0 0 0 0 }
{
    bare(0, 0, 0, 0)
}

/// A holder's epoch, 0 where it is none.
fn holder_of(epoch: Option<u64>) -> (u64, bool)
    ensures epoch { result.0 ≡ holder_told epoch }
    ensures is { result.1 ≡ is_holder epoch }
{
    match epoch {
        Some(epoch) => (epoch, true),
        None => (0, false),
    }
}

/// A view in numbers.
pub(crate) fn view_told(view: &View<Entry>) -> Viewed
    ensures { result ≡ view_told view.now }
{
    let (holder, is_holder) = holder_of(view.epoch);
    Viewed {
        id: view.id,
        epoch: view.object.epoch,
        holder,
        is_holder,
        len: view.object.payload.len(),
    }
}
