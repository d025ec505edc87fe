//! Operations that run alone, as values, and what is done beside them.
use crate::tests::place::{Place, Play, driven};
use crate::tests::told::Told::{Fails, GoesOn, Is};
use crate::tests::told::{Error, Told, said};
use std::alloc::Global;
use std::ops::Bound;
use txn_steps::boundary::advance::AdvanceOp;
use txn_steps::boundary::caches::Caches;
use txn_steps::boundary::check::CheckOp;
use txn_steps::boundary::turned::Turned;
use txn_steps::boundary::window::Window;
use txn_steps::delete::{DeleteOp, DeleteUncheckedOp};
use txn_steps::latest::LatestOp;
use txn_steps::listing::{ListAnswer, ListOp};
use txn_steps::read::ReadOp;
use txn_steps::seen::ReadSeenOp;
use txn_steps::versions::Listed;
use txn_steps::write::{WriteOp, WriteUncheckedOp};
use txn_steps_driven::drive::At;
use txn_steps_driven::drive_version::ReadVersion;
use txn_store::path::Path;
use txn_store::types::id::MonotonicId;
use txn_store::types::test_utils::NumberCodec;

/// An operation, or something done beside it.
#[derive(Clone, Copy)]
pub(crate) enum Call {
    Check(u64),
    Advance(u64),
    /// A write of a value on a base, 0 for none.
    Write(u64, u64),
    WriteUnchecked(u64, u64),
    Delete(u64),
    DeleteUnchecked(u64),
    Read,
    /// The unchecked read of the newest version.
    Latest,
    /// The unchecked read of one version.
    ReadUnchecked(u64),
    ReadSeen(u64),
    /// Whether the versions within the bounds have these ids.
    Lists(Bound<u64>, Bound<u64>, &'static [u64]),
    /// Whether these ids are cached.
    Holds(&'static [u64]),
    /// Whether this boundary is cached.
    Knows(Option<u64>),
    /// A file that is put by hand, in place of any other.
    Put(&'static str, &'static [u8]),
}

fn base(id: u64) -> Option<MonotonicId> {
    if id == 0 {
        None
    } else {
        Some(MonotonicId::new(id))
    }
}

/// Whether these are the listed ids.
fn are_listed(found: &[Listed], ids: &[u64]) -> bool {
    if found.len() != ids.len() {
        return false;
    }
    for (version, id) in found.iter().zip(ids) {
        if !version.id.is(*id) {
            return false;
        }
    }
    true
}

/// Whether a listing has these ids, where it is done.
fn listed(turned: Turned<ListAnswer>, ids: &[u64]) -> Told {
    match turned {
        Turned::Goes => GoesOn,
        Turned::Done(Ok(found)) => Is(are_listed(found.as_slice(), ids)),
        Turned::Done(Err(error)) => Fails(error.number()),
    }
}

/// Puts a file, and says whether that is done.
fn put(alloc: Global, place: &mut Place, path: &str, bytes: &'static [u8]) -> bool {
    match Path::from_text(alloc, path) {
        Ok(path) => place.put(&path, bytes),
        Err(_) => false,
    }
}

/// Whether these ids are held.
pub(crate) fn holds(window: &Window, ids: &[u64]) -> bool {
    let held = window.as_slice();
    if held.len() != ids.len() {
        return false;
    }
    for (version, id) in held.iter().zip(ids) {
        if !version.id.is(*id) {
            return false;
        }
    }
    true
}

fn knows(caches: &Caches, number: Option<u64>) -> bool {
    caches.boundary.map(|known| known.number) == number
}

/// Something done beside the operations.
fn beside(alloc: Global, place: &mut Place, call: Call) -> Told {
    Is(match call {
        Call::Holds(ids) => holds(&place.client.caches.latest, ids),
        Call::Knows(number) => knows(&place.client.caches, number),
        Call::Put(path, bytes) => put(alloc, place, path, bytes),
        _ => return GoesOn,
    })
}

impl Play<NumberCodec> for Call {
    fn play(self, at: &At<NumberCodec>, place: &mut Place, steps: u64) -> Result<Told, Error> {
        Ok(match self {
            Call::Check(id) => {
                let op = CheckOp::start(at.layout, MonotonicId::new(id))?;
                said(driven(at, place, op, steps))
            }
            Call::Advance(target) => {
                let op = AdvanceOp::start(MonotonicId::new(target));
                said(driven(at, place, op, steps))
            }
            Call::Write(on, value) => {
                let op = WriteOp::start(at.alloc, at.layout, base(on), &value)?;
                said(driven(at, place, op, steps))
            }
            Call::WriteUnchecked(on, value) => {
                let op = WriteUncheckedOp::start(at.alloc, at.layout, base(on), &value)?;
                said(driven(at, place, op, steps))
            }
            Call::Delete(id) => {
                let op = DeleteOp::start(at.alloc, at.layout, MonotonicId::new(id))?;
                said(driven(at, place, op, steps))
            }
            Call::DeleteUnchecked(id) => {
                let op = DeleteUncheckedOp::start(at.alloc, at.layout, MonotonicId::new(id))?;
                said(driven(at, place, op, steps))
            }
            Call::Read => {
                let op = ReadOp::<u64>::start(at.layout)?;
                said(driven(at, place, op, steps))
            }
            Call::Latest => {
                let op = LatestOp::<u64>::start();
                said(driven(at, place, op, steps))
            }
            Call::ReadUnchecked(id) => {
                let op = ReadVersion::<u64>::start(at.alloc, at.layout, MonotonicId::new(id))?;
                said(driven(at, place, op, steps))
            }
            Call::ReadSeen(id) => {
                let op = ReadSeenOp::<u64>::start(MonotonicId::new(id));
                said(driven(at, place, op, steps))
            }
            Call::Lists(from, to, ids) => {
                let op = ListOp::start(at.alloc, at.layout, from, to)?;
                listed(driven(at, place, op, steps), ids)
            }
            _ => beside(at.alloc, place, self),
        })
    }
}
