//! What a request does to the names of the store.
ghost use Rattle.std.specs.Prelude.{◌≡◌};
ghost use Rattle.std.specs.Option.{option_map};
ghost use Rattle.txn_store.specs.VersionOf.{version_of};
ghost use Rattle.txn_history.specs.Names.{world_names, world_boundary};
ghost use Rattle.txn_history.specs.History.{created, removed};
ghost use Rattle.txn_machine.specs.traces.Beside.{boundary_after};

use bytes::Bytes;
use txn_store::path::Path;
use txn_store::request::Request;
use txn_store::types::boundary::read_boundary;
use txn_store::version_names::VersionNames;

/// The id of the version that a path is.
pub fn version_of(names: &VersionNames, path: &Path) -> Option<u64>
    ensures { result ≡ version_of names.now path.now }
{
    names.parse_id(path)
}

/// The version that a request creates: its id and its bytes.
pub(crate) fn created_version<'a>(
    names: &VersionNames,
    request: &'a Request,
) -> Option<(u64, &'a Bytes)>
    requires { names.now ≡ world_names }
    ensures { option_map (λ version. (version.0, version.1.now)) result ≡ created request.now }
{
    match request {
        Request::Put { path, bytes, .. } => match version_of(names, path) {
            Some(id) => Some((id, bytes)),
            None => None,
        },
        _ => None,
    }
}

/// The id of the version that a request creates. It takes no memory.
pub fn created_id(names: &VersionNames, request: &Request) -> Option<u64>
    requires { names.now ≡ world_names }
    ensures { result ≡ option_map (λ version. version.0) (created request.now) }
{
    match request {
        Request::Put { path, .. } => version_of(names, path),
        _ => None,
    }
}

/// The id whose name a request removes.
pub(crate) fn removed_id(names: &VersionNames, request: &Request) -> Option<u64>
    requires { names.now ≡ world_names }
    ensures { result ≡ removed request.now }
{
    match request {
        Request::Delete { path } => version_of(names, path),
        _ => None,
    }
}

/// The boundary after a request that changed the store: what the boundary's file says then, 0 where it is missing or says no
/// number. It takes no memory.
pub fn boundary_after(file: &Path, before: u64, request: &Request) -> u64
    requires { file.now ≡ world_boundary }
    ensures { result ≡ boundary_after before request.now }
{
    match request {
        Request::Put { path, bytes, .. } if path == file => read_boundary(bytes).unwrap_or(0),
        Request::Delete { path } if path == file => 0,
        _ => before,
    }
}
