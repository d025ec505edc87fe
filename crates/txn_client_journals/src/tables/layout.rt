//! Where the files of an object lie that clients share.
ghost use Rattle.std.specs.Prelude.{◌≡◌, IfOk};
ghost use Rattle.txn_history.specs.Names.{world_names, world_boundary};

use std::alloc::{AllocError, Global};
use txn_store::path::{Path, PathFault};
use txn_store::types::layout::Layout;

/// Versions are the files root/test/<n>.val, and the boundary is the file root/gc/test.boundary. A page of a listing has at
/// most so many files.
///
/// # Errors
///
/// Want of memory alone, which changes nothing.
pub fn world_layout<C: Drop>(alloc: Global, codec: C, page: u64) -> Result<Layout<C>, AllocError>
    ensures names { IfOk result (λ layout. layout.names ≡ world_names) }
    ensures boundary { IfOk result (λ layout. layout.boundary ≡ world_boundary) }
    ensures codec { IfOk result (λ layout. layout.codec ≡ codec) }
    ensures page { IfOk result (λ layout. layout.page ≡ page) }
{
    let root = match Path::root(alloc).join("root") {
        Ok(root) => root,
        Err(PathFault::NoMemory) => return Err(AllocError),
        Err(PathFault::BadSegment) => unreachable!(),
    };
    match Layout::new(alloc, &root, "test", "val", codec) {
        Ok(mut layout) => {
            layout.page = page;
            Ok(layout)
        }
        Err(PathFault::NoMemory) => Err(AllocError),
        Err(PathFault::BadSegment) => unreachable!(),
    }
}
