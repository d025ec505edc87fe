//! The text of the boundary file.
ghost use Rattle.std.specs.Prelude.{◌≡◌, Some, IfOk};
ghost use Rattle.std.specs.Fmt.{decimal};
ghost use Rattle.txn_store.specs.types.BoundaryText.{boundary_read};

use bytes::Bytes;
use std::alloc::{AllocError, Global};
use std::str;

/// The boundary that the bytes of its file say: UTF-8, and between white space an optional `+` and at
/// least one digit, only digits, of a number below 2^64. Anything else says none. It takes no memory.
pub fn read_boundary(bytes: &[u8]) -> Option<u64>
    ensures { result ≡ boundary_read bytes.now }
{
    str::from_utf8(bytes).ok()?.trim().parse::<u64>().ok()
}

/// A boundary as its file says it: the plain decimal.
///
/// # Errors
///
/// Want of memory alone, which changes nothing.
pub fn boundary_bytes(alloc: Global, boundary: u64) -> Result<Bytes, AllocError>
    ensures decimal { IfOk result (λ bytes. bytes ≡ decimal boundary) }
    ensures reads_back { boundary_read (decimal boundary) ≡ Some boundary }
{
    Bytes::from_string(format!(in alloc; "{boundary}")?)
}
