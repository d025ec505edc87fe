//! A listing of versions, driven to its end.
ghost use Rattle.std.specs.Prelude.{◌≡◌, ◌≤◌};
ghost use Rattle.txn_steps_driven.specs.ListRuns.{VersionsListed};

use crate::replies::reply_to;
use std::alloc::Global;
use std::ops::Bound;
use txn_steps::boundary::turned::Turned;
use txn_steps::listing::{ListAnswer, ListOp};
use txn_store::store::ObjectStore;
use txn_store::types::codec::ObjectCodec;
use txn_store::types::id::MonotonicId;
use txn_store::types::layout::Layout;

/// The number of a bound.
fn number_of(bound: Bound<MonotonicId>) -> Bound<u64>
    ensures { result ≡ bound }
{
    match bound {
        Bound::Included(id) => Bound::Included(id.id()),
        Bound::Excluded(id) => Bound::Excluded(id.id()),
        Bound::Unbounded => Bound::Unbounded,
    }
}

/// The versions that are stored within bounds, in ascending ids, each once, with what the listing tells of their files. It
/// lists page by page, and takes no token; where nothing fails it makes one store call a page, and never more. It changes no
/// file, and reads no cache.
///
/// `ObjectStoreError(Failed)` comes only where the store failed, and `NoMemory` where a growth was refused; nothing is
/// changed by either. No other error comes. A page of the layout has room for one file at least.
pub fn list_versions<T, C: ObjectCodec<T>, S: ObjectStore>(
    alloc: Global,
    layout: &Layout<C>,
    store: &mut S,
    from: Bound<MonotonicId>,
    to: Bound<MonotonicId>,
) -> ListAnswer
    requires { 1 ≤ layout.now.page }
    ensures { VersionsListed layout.now.names layout.now.page (C.decoded layout.now.codec) from to (S.state store.old) (S.state store.new) result }
{
    let mut op = ListOp::start(alloc, layout, number_of(from), number_of(to))?;
    'steps: loop {
        match op.take(alloc, layout, reply_to(alloc, store, op.ask())) {
            Turned::Goes => {}
            // (by a call: in place, the proof would follow each state that may be dropped)
            Turned::Done(answer) => {
                drop(op);
                return answer;
            }
        }
    }
}
