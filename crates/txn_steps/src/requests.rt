//! The requests that operations on versions make.
ghost use Rattle.std.specs.Prelude.{◌≡◌, None, IfOk};
ghost use Rattle.std.specs.Option.{option_copied};
ghost use Rattle.txn_store.specs.VersionName.{version_path};
ghost use Rattle.txn_steps.specs.Requests.{next_after};

use std::alloc::{AllocError, Global};
use txn_store::page::Page;
use txn_store::path::Path;
use txn_store::request::Request;
use txn_store::types::id::MonotonicId;
use txn_store::version_names::VersionNames;

/// A listing of the page of versions after a path, or of the first page.
pub(crate) fn list_request(
    names: &VersionNames,
    after: Option<Path>,
    limit: u64,
) -> Result<Request, AllocError>
    ensures { IfOk result (λ request. request ≡ Request.List names.now.dir after limit) }
{
    let prefix = names.dir().try_clone()?;
    Ok(Request::List {
        prefix,
        after,
        limit,
    })
}

/// A get of the version of this id.
pub(crate) fn get_request(
    alloc: Global,
    names: &VersionNames,
    id: MonotonicId,
) -> Result<Request, AllocError>
    ensures { IfOk result (λ request. request ≡ Request.Get (version_path names.now id) None) }
{
    let path = names.path_for(alloc, id.id())?;
    Ok(Request::Get {
        path,
        if_none_match: None,
    })
}

/// The path after which the next page begins: the last of this page, where it says that more follow.
/// A page that tells no file is the last.
pub(crate) fn next_after(page: &Page) -> Option<&Path>
    ensures { option_copied result ≡ next_after page.now }
{
    if !page.more {
        return None;
    }
    match page.metas.as_slice().last() {
        Some(meta) => Some(&meta.location),
        None => None,
    }
}
