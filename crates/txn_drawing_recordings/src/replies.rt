//! What replies say of calls.

ghost use Rattle.std.specs.Prelude.{◌≡◌, IfOk};
ghost use Rattle.txn_drawing_recordings.specs.Seen.{changed_by, IsSeenBy};

use std::alloc::{AllocError, Global};
use txn_audit_effects::calls::version_of;
use txn_drawing_moments::moment::Touch;
use txn_store::request::Reply;

/// Whether a reply says that a call changed something.
pub(crate) fn has_changed(reply: &Reply) -> bool
    ensures { result ≡ changed_by reply.now }
{
    match reply {
        Reply::Put(answer) => answer.is_ok(),
        Reply::Delete(answer) => answer.is_ok(),
        _ => false,
    }
}

/// The versions that a listing told.
pub(crate) fn listed(alloc: Global, reply: &Reply) -> Result<Vec<u64>, AllocError> {
    let mut ids = Vec::new(alloc);
    if let Reply::List(Ok(page)) = reply {
        for meta in page.metas.as_slice() {
            if let Some(id) = version_of(&meta.location) {
                ids.push(id)?;
            }
        }
    }
    Ok(ids)
}

/// What a call saw by its reply, where it is a read.
pub(crate) fn seen_by(alloc: Global, touch: Touch, reply: &Reply) -> Result<Touch, AllocError>
    ensures { IfOk result (λ seen. IsSeenBy reply.now touch seen) }
{
    Ok(match touch {
        Touch::Gets { id, .. } => Touch::Gets {
            id,
            is_there: matches!(reply, Reply::Get(Ok(_))),
        },
        Touch::Lists(ids) => {
            drop(ids);
            Touch::Lists(listed(alloc, reply)?)
        }
        touch => touch,
    })
}
