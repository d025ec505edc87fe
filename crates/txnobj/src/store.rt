//! Stores that others share.
ghost use Rattle.std.specs.Prelude.{◌≡◌};
ghost use Rattle.txnobj.specs.Stores.{failed_reply};

use crate::clients::serve::Serve;
use std::alloc::Global;
use txn_store::request::{Reply, Request};
use txn_store::store::StoreError;

/// A store that others share, wherever it is: a folder, a server, a bucket.
pub trait SharedStore {
    ghost use Rattle.std.specs.Prelude.{Result, IfOk};
    ghost use Rattle.txn_store.specs.declared.request.Request.{Request};
    ghost use Rattle.txn_store.specs.declared.request.Reply.{Reply};
    ghost use Rattle.txn_client_journals.specs.Logged.{IsOfKind};

    /// Why a call failed.
    type Fault: Clone;

    /// It was called once, for this, answered so, and was left so.
    ghost serves: { Self → Request → Result Reply Self.Fault → Self → Type 0 };

    /// Makes the call that a request stands for, once. The reply is of the request's kind. An error is why the call failed:
    /// nobody knows whether it took effect.
    fn serve(&mut self, alloc: Global, request: &Request) -> Result<Reply, Self::Fault>
        ensures kind { IfOk result (IsOfKind request.now) }
        ensures served { serves self.old request.now result self.new };
}

/// The reply to a request whose call failed.
fn failed_reply(request: &Request) -> Reply
    ensures { result ≡ failed_reply request.now }
{
    match request {
        Request::Put { .. } => Reply::Put(Err(StoreError::Failed)),
        Request::Get { .. } => Reply::Get(Err(StoreError::Failed)),
        Request::List { .. } => Reply::List(Err(StoreError::Failed)),
        Request::Delete { .. } => Reply::Delete(Err(StoreError::Failed)),
    }
}

/// A store, and why its last call failed, where it did.
#[derive(Drop)]
pub(crate) struct Kept<S, F> {
    pub store: S,
    pub fault: Option<F>,
}

impl<S: SharedStore> Serve for Kept<S, S::Fault> {
    ghost use Rattle.txnobj.specs.Stores.{KeepsServed};

    ghost serves = { λ old request reply new. KeepsServed S.serves old request reply new };

    fn serve(&mut self, alloc: Global, request: &Request) -> Reply {
        match self.store.serve(alloc, request) {
            Ok(reply) => {
                self.fault = None;
                reply
            }
            Err(fault) => {
                self.fault = Some(fault);
                failed_reply(request)
            }
        }
    }
}
