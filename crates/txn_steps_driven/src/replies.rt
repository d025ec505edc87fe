//! What a store does of what an operation asks for.
ghost use Rattle.txn_steps.specs.boundary.Asking.{asks};
ghost use Rattle.txn_steps_driven.specs.Asked.{CanServe, Replies};

use std::alloc::Global;
use txn_steps::boundary::ask::Ask;
use txn_store::request::{Reply, serve};
use txn_store::store::ObjectStore;

/// The store's reply to a request, and none to a look.
#[inline(always)]
pub fn reply_to<S: ObjectStore>(alloc: Global, store: &mut S, ask: Ask<'_>) -> Option<Reply>
    requires { CanServe (asks ask) }
    ensures { Replies (asks ask.entry) (S.state store.old) result (S.state store.new) }
{
    match ask {
        Ask::Store(request) => Some(serve(alloc, store, request)),
        Ask::Look => None,
    }
}
