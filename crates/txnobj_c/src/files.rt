//! The files of a listing, as a host tells them whose store tells their tokens and their sizes.
ghost use Rattle.std.specs.Prelude.{◌≡◌, map, IfOk};
ghost use Rattle.txn_history.specs.Names.{world_names};

use crate::numbers::error_of;
use std::alloc::{AllocError, Global};
use txn_store::page::{Listing, Page};
use txn_store::request::Reply;
use txn_store::store::{ObjectMeta, Token};
use txn_store::version_names::VersionNames;

/// A file of a listing.
#[repr(C)]
#[derive(Drop)]
pub struct Listed {
    /// The version whose file it is.
    pub version: u64,
    pub token: u64,
    /// How many bytes it has.
    pub size: u64,
}

ghost use Rattle.txnobj_c.specs.Listings.{bare_file, told_file, files_reply};

/// The files of these versions, of which nothing else is told. The only error is want of memory.
pub(crate) fn bare(alloc: Global, versions: &[u64]) -> Result<Vec<Listed>, AllocError>
    ensures { IfOk result (λ files. files.items ≡ map bare_file versions.now) }
{
    let mut files = Vec::with_capacity(alloc, versions.len())?;
    for version in versions {
        files.push(Listed {
            version: *version,
            token: 0,
            size: 0,
        })?;
    }
    Ok(files)
}

/// What a listing told. The only error is want of memory.
fn metas_of(
    alloc: Global,
    names: &VersionNames,
    files: &[Listed],
) -> Result<Vec<ObjectMeta>, AllocError>
    requires { names.now ≡ world_names }
    ensures { IfOk result (λ metas. metas.items ≡ map told_file files.now) }
{
    let mut metas = Vec::with_capacity(alloc, files.len())?;
    for file in files {
        let location = names.path_for(alloc, file.version)?;
        metas.push(ObjectMeta {
            location,
            size: file.size,
            token: Token::new(file.token),
        })?;
    }
    Ok(metas)
}

/// The reply to a listing. The only error is want of memory.
pub(crate) fn files_of(
    alloc: Global,
    names: &VersionNames,
    error: u8,
    files: &[Listed],
    more: bool,
) -> Result<Reply, AllocError>
    requires { names.now ≡ world_names }
    ensures { IfOk result (λ reply. reply ≡ files_reply error files.now more) }
{
    if error != 0 {
        return Ok(Reply::List(Err(error_of(error))));
    }
    let metas = Listing::from_vec(metas_of(alloc, names, files)?);
    Ok(Reply::List(Ok(Page { metas, more })))
}
