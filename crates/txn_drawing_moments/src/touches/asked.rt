//! A store call, by what it does to the object.

ghost use Rattle.std.specs.Prelude.{◌≡◌, IfOk};
ghost use Rattle.txn_drawing_moments.specs.touches.Calls.{IsAsked, is_change};

use bytes::Bytes;
use std::alloc::AllocError;
use txn_audit_effects::calls::{Name, name_of, version_of};
use txn_store::path::Path;
use txn_store::request::Request;
use txn_store::types::boundary::read_boundary;

/// A store call, by what it does to the object.
#[derive(Drop)]
pub enum Asked {
    /// Nothing, or a look.
    Nothing,
    /// A version is created, which says this.
    Create { id: u64, value: Bytes },
    /// A version is read.
    Get(u64),
    /// The boundary is read.
    ReadBoundary,
    /// The boundary is raised to this.
    Raise(u64),
    /// The versions above an id are listed, so many at most.
    List { above: u64, most: u64 },
    /// A version is removed.
    Remove(u64),
}

/// The version of a path, 0 where it is none.
fn id_of(path: &Path) -> u64 {
    version_of(path).unwrap_or(0)
}

/// What a request does to the object.
///
/// # Errors
///
/// Want of memory alone.
pub fn asked_by(request: &Request) -> Result<Asked, AllocError>
    ensures { IfOk result (λ asked. IsAsked request.now asked) }
{
    Ok(match request {
        Request::Put { path, bytes, .. } => match name_of(path) {
            Name::Version(id) => Asked::Create {
                id,
                value: bytes.clone()?,
            },
            Name::Boundary => Asked::Raise(read_boundary(bytes).unwrap_or(0)),
        },
        Request::Get { path, .. } => match name_of(path) {
            Name::Version(id) => Asked::Get(id),
            Name::Boundary => Asked::ReadBoundary,
        },
        Request::List { after, limit, .. } => Asked::List {
            above: match after {
                Some(path) => id_of(path),
                None => 0,
            },
            most: *limit,
        },
        Request::Delete { path } => Asked::Remove(id_of(path)),
    })
}

impl Asked {
    /// Whether it may still reach the store where its client did not wait for it.
    pub fn is_loose(&self) -> bool
        ensures { result ≡ is_change self.now }
    {
        matches!(
            self,
            Asked::Create { .. } | Asked::Raise(_) | Asked::Remove(_)
        )
    }

    /// The same.
    ///
    /// # Errors
    ///
    /// Want of memory alone.
    pub fn try_clone(&self) -> Result<Asked, AllocError>
        ensures { IfOk result (λ copy. copy ≡ self.now) }
    {
        Ok(match self {
            Asked::Nothing => Asked::Nothing,
            Asked::Create { id, value } => Asked::Create {
                id: *id,
                value: value.clone()?,
            },
            Asked::Get(id) => Asked::Get(*id),
            Asked::ReadBoundary => Asked::ReadBoundary,
            Asked::Raise(to) => Asked::Raise(*to),
            Asked::List { above, most } => Asked::List {
                above: *above,
                most: *most,
            },
            Asked::Remove(id) => Asked::Remove(*id),
        })
    }
}
