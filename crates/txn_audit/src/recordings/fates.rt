//! Which puts without a reply may decide how a history ends.
ghost use Rattle.std.specs.Prelude.{◌≡◌, ◌<◌, ◌+◌, IfOk, length, map, max, min, unwrap_or};
ghost use Rattle.std.specs.Option.{option_map};
ghost use Rattle.txn_store.specs.VersionOf.{version_of};
ghost use Rattle.txn_history.specs.Names.{world_names, world_boundary};
ghost use Rattle.txn_audit.specs.recordings.Places.{as_file};
ghost use Rattle.txn_audit.specs.recordings.Undecided.{version_in, boundary_in, file_put, file_shown, shown_by, shown_at, answers, lost_by, lost_at, greatest_in, version_shown, boundary_shown, goes_beyond, lost_in, undecided};

use bytes::Bytes;
use std::alloc::{AllocError, Global};
use txn_audit_recordings::row::RecordedRow;
use txn_client_journals::tables::layout::world_layout;
use txn_machine::traces::requests::version_of;
use txn_store::path::Path;
use txn_store::request::{Reply, Request};
use txn_store::types::boundary::read_boundary;
use txn_store::types::layout::Layout;
use txn_store::version_names::VersionNames;

/// A file as it is put.
#[derive(Clone, Copy)]
pub(crate) struct FilePut<'a> {
    pub path: &'a Path,
    pub bytes: &'a Bytes,
}

/// How far replies show that the puts went.
#[derive(Clone, Copy)]
pub(crate) struct Reach {
    /// The newest version, 0 for none.
    pub version: u64,
    /// The greatest boundary, 0 for none.
    pub boundary: u64,
}

/// The id of the version that a file is, 0 for none.
fn version_in(names: &VersionNames, file: FilePut<'_>) -> u64
    requires { names.now ≡ world_names }
    ensures { result ≡ version_in (as_file file.entry) }
{
    version_of(names, file.path).unwrap_or(0)
}

/// The boundary that a file says, 0 for none.
fn boundary_in(path: &Path, file: FilePut<'_>) -> u64
    requires { path.now ≡ world_boundary }
    ensures { result ≡ boundary_in (as_file file.entry) }
{
    if file.path == path {
        read_boundary(file.bytes).unwrap_or(0)
    } else {
        0
    }
}

/// The file that a request puts.
fn file_put(request: &Request) -> Option<FilePut<'_>>
    ensures { option_map as_file result ≡ file_put request.now }
{
    match request {
        Request::Put { path, bytes, .. } => Some(FilePut { path, bytes }),
        _ => None,
    }
}

/// The file of which a reply shows that it was put.
fn file_shown<'a>(request: &'a Request, reply: &'a Reply) -> Option<FilePut<'a>>
    ensures { option_map as_file result ≡ file_shown request.now reply.now }
{
    match (request, reply) {
        (Request::Put { path, bytes, .. }, Reply::Put(Ok(_))) => Some(FilePut { path, bytes }),
        (Request::Get { path, .. }, Reply::Get(Ok(got))) => Some(FilePut {
            path,
            bytes: &got.bytes,
        }),
        _ => None,
    }
}

/// The file that the call of a row shows to have been put, by the reply in the row behind it.
fn shown_by<'a, T>(
    row: Option<&'a RecordedRow<T>>,
    next: Option<&'a RecordedRow<T>>,
) -> Option<FilePut<'a>>
    ensures { option_map as_file result ≡ shown_by (option_map (λ row. row.now) row.entry) (option_map (λ row. row.now) next.entry) }
{
    match (row, next) {
        (Some(RecordedRow::Ask(op, _, request)), Some(RecordedRow::Reply(of, _, reply))) => {
            if *of == *op {
                file_shown(request, reply)
            } else {
                None
            }
        }
        _ => None,
    }
}

/// Whether a row is a reply to an operation.
fn answers<T>(op: u64, next: Option<&RecordedRow<T>>) -> bool
    ensures { result ≡ answers op (option_map (λ row. row.now) next.entry) }
{
    match next {
        Some(RecordedRow::Reply(of, _, _)) => *of == op,
        _ => false,
    }
}

/// The file that the call of a row puts, where the row behind it is no reply.
fn lost_by<'a, T>(
    row: Option<&'a RecordedRow<T>>,
    next: Option<&RecordedRow<T>>,
) -> Option<FilePut<'a>>
    ensures { option_map as_file result ≡ lost_by (option_map (λ row. row.now) row.entry) (option_map (λ row. row.now) next.entry) }
{
    match row {
        Some(RecordedRow::Ask(op, _, request)) => {
            if answers(*op, next) {
                None
            } else {
                file_put(request)
            }
        }
        _ => None,
    }
}

/// The file that the call of the row at this place shows to have been put.
fn shown_at<T>(rows: &[RecordedRow<T>], place: usize) -> Option<FilePut<'_>>
    requires { place < length rows.now }
    ensures { option_map as_file result ≡ shown_at rows.now place }
{
    shown_by(rows.get(place), rows.get(place + 1))
}

/// The file that the call of the row at this place puts, where that has no reply.
fn lost_at<T>(rows: &[RecordedRow<T>], place: usize) -> Option<FilePut<'_>>
    requires { place < length rows.now }
    ensures { option_map as_file result ≡ lost_at rows.now place }
{
    lost_by(rows.get(place), rows.get(place + 1))
}

impl Reach {
    /// As far as this, or as a file, where there is one.
    fn with(self, layout: &Layout<()>, file: Option<FilePut<'_>>) -> Reach
        requires names { layout.now.names ≡ world_names }
        requires boundary { layout.now.boundary ≡ world_boundary }
        ensures version { result.version ≡ max self.version (unwrap_or (option_map version_in (option_map as_file file.entry)) 0) }
        ensures boundary { result.boundary ≡ max self.boundary (unwrap_or (option_map boundary_in (option_map as_file file.entry)) 0) }
    {
        match file {
            Some(file) => Reach {
                version: self.version.max(version_in(&layout.names, file)),
                boundary: self.boundary.max(boundary_in(&layout.boundary, file)),
            },
            None => self,
        }
    }

    /// As far as this, or as the replies of a recording show.
    fn with_all<T>(self, layout: &Layout<()>, rows: &[RecordedRow<T>]) -> Reach
        requires names { layout.now.names ≡ world_names }
        requires boundary { layout.now.boundary ≡ world_boundary }
        ensures version { result.version ≡ max self.version (greatest_in version_in rows.now (length rows.now)) }
        ensures boundary { result.boundary ≡ max self.boundary (greatest_in boundary_in rows.now (length rows.now)) }
    {
        let mut reach = self;
        for place in 0..rows.len() {
            reach = reach.with(layout, shown_at(rows, place));
        }
        reach
    }

    /// Whether a file, where there is one, goes beyond this.
    fn is_below(self, layout: &Layout<()>, file: Option<FilePut<'_>>) -> bool
        requires names { layout.now.names ≡ world_names }
        requires boundary { layout.now.boundary ≡ world_boundary }
        ensures { result ≡ goes_beyond self.version self.boundary (option_map as_file file.entry) }
    {
        match file {
            Some(file) => {
                self.version < version_in(&layout.names, file)
                    || self.boundary < boundary_in(&layout.boundary, file)
            }
            None => false,
        }
    }

    /// How many puts of a recording have no reply and go beyond this.
    fn lost_in<T>(self, layout: &Layout<()>, rows: &[RecordedRow<T>]) -> u64
        requires names { layout.now.names ≡ world_names }
        requires boundary { layout.now.boundary ≡ world_boundary }
        ensures { result ≡ lost_in self.version self.boundary rows.now (length rows.now) }
    {
        let mut lost = 0u64;
        for place in 0..rows.len() {
            if self.is_below(layout, lost_at(rows, place)) {
                lost += 1;
            }
        }
        lost
    }
}

/// How far the replies of recordings show that the puts went.
fn reach_of<T>(layout: &Layout<()>, recordings: &[Vec<RecordedRow<T>>]) -> Reach
    requires names { layout.now.names ≡ world_names }
    requires boundary { layout.now.boundary ≡ world_boundary }
    ensures version { result.version ≡ version_shown (map (λ rows. rows.items) recordings.now) }
    ensures boundary { result.boundary ≡ boundary_shown (map (λ rows. rows.items) recordings.now) }
{
    let mut reach = Reach {
        version: 0,
        boundary: 0,
    };
    for recording in 0..recordings.len() {
        reach = reach.with_all(layout, recordings[recording].as_slice());
    }
    reach
}

/// How many puts have no reply and may decide how the history of the recordings ends: they would make a version above all that
/// replies show, or raise the boundary above all that these show. It goes over the rows twice. The count ends at the greatest
/// number of 64 bits.
///
/// # Errors
///
/// Want of memory alone, which changes nothing.
pub fn undecided<T>(alloc: Global, recordings: &[Vec<RecordedRow<T>>]) -> Result<u64, AllocError>
    ensures { IfOk result (λ count. count ≡ min (undecided (map (λ rows. rows.items) recordings.now)) 18446744073709551615) }
{
    let layout = world_layout(alloc, (), 1)?;
    let reach = reach_of(&layout, recordings);
    let mut lost = 0u64;
    for recording in 0..recordings.len() {
        let more = reach.lost_in(&layout, recordings[recording].as_slice());
        lost = lost.saturating_add(more);
    }
    Ok(lost)
}
