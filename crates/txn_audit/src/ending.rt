//! How the history of clients that shared only a store ends.
ghost use Rattle.std.specs.Prelude.{◌≡◌, IfOk, OnOk};
ghost use Rattle.std.specs.Option.{option_map};
ghost use Rattle.txn_history.specs.Names.{world_names, world_boundary};
ghost use Rattle.txn_machine.specs.plain.Machine.{took};
ghost use Rattle.txn_audit.specs.HistoryEnds.{HistoriesEndAt, IsEntered, created_by, boundary_by};

use std::alloc::{AllocError, Global};
use std::collections::HashSet;
use txn_client_journals::audited::Logged;
use txn_client_journals::rows::LogRow;
use txn_client_journals::tables::layout::world_layout;
use txn_machine::traces::requests::{boundary_after, created_id};
use txn_store::path::Path;
use txn_store::request::{Reply, Request};
use txn_store::version_names::VersionNames;

/// How a history ends.
#[derive(Clone, Copy, Debug, PartialEq, Eq)]
pub struct HistoryEnd {
    /// How many entries it has, which is the id of the newest.
    pub entries: u64,
    /// Where its boundary stands, 0 where none was put.
    pub boundary: u64,
}

/// Whether a reply says that a put or a removal was done.
fn took(reply: &Reply) -> bool
    ensures { result ≡ took reply.now }
{
    matches!(reply, Reply::Put(Ok(_)) | Reply::Delete(Ok(_)))
}

/// The id of the version that a row of a log creates.
fn id_created(names: &VersionNames, row: &LogRow) -> Option<u64>
    requires { names.now ≡ world_names }
    ensures { result ≡ option_map (λ version. version.0) (created_by row.now) }
{
    if took(&row.reply) {
        created_id(names, &row.request)
    } else {
        None
    }
}

/// The boundary after a row of a log.
fn boundary_by(file: &Path, before: u64, row: &LogRow) -> u64
    requires { file.now ≡ world_boundary }
    ensures { result ≡ boundary_by before row.now.request row.now.reply }
{
    match (&row.request, &row.reply) {
        (Request::Put { .. }, Reply::Put(Ok(_))) => boundary_after(file, before, &row.request),
        (Request::Delete { .. }, Reply::Delete(Ok(_))) => boundary_after(
            file,
            before,
            &row.request,
        ),
        _ => before,
    }
}

/// Enters an id, where there is one.
fn enter(created: &mut HashSet<u64>, id: Option<u64>) -> Result<(), AllocError>
    ensures { OnOk result (IsEntered created.old created.new id) }
{
    if let Some(id) = id {
        let _ = created.insert(id)?;
    }
    Ok(())
}

/// How the history ends of clients of these values that shared only the store that this is the log of, as an audit that agrees
/// says of them. It keeps the ids of all versions while it counts.
///
/// # Errors
///
/// Want of memory alone, which changes nothing.
pub fn end_of_history<T, L: Logged>(alloc: Global, log: &L) -> Result<HistoryEnd, AllocError>
    ensures { IfOk result (λ end. HistoriesEndAt T (L.logged log.now) end.entries end.boundary) }
{
    let layout = world_layout(alloc, (), 1)?;
    let mut created = HashSet::new(alloc);
    let mut boundary = 0u64;
    let rows = log.log();
    for row in rows {
        enter(&mut created, id_created(&layout.names, row))?;
        boundary = boundary_by(&layout.boundary, boundary, row);
    }
    let entries = created.len() as u64;
    Ok(HistoryEnd { entries, boundary })
}
