//! What a client keeps in memory between its calls.
ghost use Rattle.std.specs.Prelude.{◌≡◌, [], None, Some, IfOk};
ghost use Rattle.txn_steps.specs.boundary.Boundaries.{token_of, greater_known};

use crate::boundary::window::Window;
use bytes::Bytes;
use std::alloc::AllocError;
use txn_store::store::Token;
use txn_store::types::id::MonotonicId;

/// A version, as the bytes of its file.
#[derive(Drop)]
pub struct Cached {
    /// Its id.
    pub id: MonotonicId,
    /// The bytes of its file.
    pub bytes: Bytes,
}

/// A boundary that was read or written, with the token of its file.
#[derive(Clone, Copy, Debug, PartialEq, Eq)]
pub struct CachedBoundary {
    /// The number that the file says.
    pub number: u64,
    /// The token of the file that says it.
    pub token: Token,
}

/// Both caches of one client.
#[derive(Drop)]
pub struct Caches {
    /// The versions of the greatest ids that it read or wrote.
    pub latest: Window,
    /// The greatest boundary that it read or wrote.
    pub boundary: Option<CachedBoundary>,
}

impl Cached {
    /// The same version. Its bytes are shared.
    ///
    /// # Errors
    ///
    /// Want of memory alone, which changes nothing.
    pub fn try_clone(&self) -> Result<Cached, AllocError>
        ensures { IfOk result (λ copy. copy ≡ self.now) }
    {
        Ok(Cached {
            id: self.id,
            bytes: self.bytes.clone()?,
        })
    }
}

/// The blank of a window's places: no version has it.
impl Default for Cached {
    fn default() -> Cached {
        Cached {
            id: MonotonicId::new(0),
            bytes: Bytes::new(),
        }
    }
}

impl Caches {
    /// Empty caches. They take no memory.
    pub fn new() -> Caches
        ensures { result ≡ record { latest = []; boundary = None } }
    {
        Caches {
            latest: Window::new(),
            boundary: None,
        }
    }
}

/// The token of a known boundary, where there is one.
pub(crate) fn token_of(cached: &Option<CachedBoundary>) -> Option<Token>
    ensures { result ≡ token_of cached.now }
{
    match cached {
        Some(known) => Some(known.token),
        None => None,
    }
}

/// Keeps the greater boundary, the new one where they are alike, and gives it.
pub(crate) fn keep_greater(
    boundary: &mut Option<CachedBoundary>,
    known: CachedBoundary,
) -> CachedBoundary
    ensures kept { boundary.new ≡ Some (greater_known boundary.old known) }
    ensures given { result ≡ greater_known boundary.old known }
{
    if let Some(cached) = boundary {
        if known.number < cached.number {
            return CachedBoundary {
                number: cached.number,
                token: cached.token,
            };
        }
    }
    let kept = known;
    *boundary = Some(known);
    kept
}
