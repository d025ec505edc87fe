//! What answers a client's store calls.

use std::alloc::Global;
use txn_store::request::{Reply, Request};

/// A store that a client calls, wherever it is: a folder, a server, or a store in memory.
pub trait Serve {
    ghost use Rattle.txn_store.specs.declared.request.Request.{Request};
    ghost use Rattle.txn_store.specs.declared.request.Reply.{Reply};
    ghost use Rattle.txn_client_journals.specs.Logged.{IsOfKind};

    /// It was called once, for this, replied so, and was left so.
    ghost serves: { Self → Request → Reply → Self → Type 0 };

    /// Makes the call that a request stands for. The reply is of the request's kind. A call of which nobody knows whether it took
    /// effect is answered `Failed`.
    fn serve(&mut self, alloc: Global, request: &Request) -> Reply
        ensures kind { IsOfKind request.now result }
        ensures served { serves self.old request.now result self.new };
}
