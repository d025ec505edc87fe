//! A call of a store and its answer, as values.
ghost use Rattle.std.specs.Prelude.{◌≡◌, IfOk};
ghost use Rattle.std.specs.Option.{option_copied};
ghost use Rattle.txn_store.specs.Requests.{Serves, HasLimit};

use crate::path::Path;
use crate::store::{Got, ObjectStore, Paged, PutMode, StoreError, Token};
use bytes::Bytes;
use std::alloc::{AllocError, Global};

/// One call of a store.
#[derive(Drop)]
pub enum Request {
    Put {
        path: Path,
        bytes: Bytes,
        mode: PutMode,
    },
    Get {
        path: Path,
        if_none_match: Option<Token>,
    },
    /// The limit is at least 1 where the request is served.
    List {
        prefix: Path,
        after: Option<Path>,
        limit: u64,
    },
    Delete {
        path: Path,
    },
}

/// A copy of a path, where there is one.
fn copied(path: Option<&Path>) -> Result<Option<Path>, AllocError>
    ensures { IfOk result (λ copy. copy ≡ option_copied path.entry) }
{
    match path {
        None => Ok(None),
        Some(path) => Ok(Some(path.try_clone()?)),
    }
}

impl Request {
    /// A request of the same call. Its bytes are shared.
    ///
    /// # Errors
    ///
    /// Want of memory alone, which changes nothing.
    pub fn try_clone(&self) -> Result<Request, AllocError>
        ensures { IfOk result (λ copy. copy ≡ self.now) }
    {
        match self {
            Request::Put { path, bytes, mode } => {
                let path = path.try_clone()?;
                let bytes = bytes.clone()?;
                let mode = *mode;
                Ok(Request::Put { path, bytes, mode })
            }
            Request::Get {
                path,
                if_none_match,
            } => {
                let path = path.try_clone()?;
                let if_none_match = *if_none_match;
                Ok(Request::Get {
                    path,
                    if_none_match,
                })
            }
            Request::List {
                prefix,
                after,
                limit,
            } => {
                let prefix = prefix.try_clone()?;
                let after = copied(after.as_ref())?;
                let limit = *limit;
                Ok(Request::List {
                    prefix,
                    after,
                    limit,
                })
            }
            Request::Delete { path } => {
                let path = path.try_clone()?;
                Ok(Request::Delete { path })
            }
        }
    }
}

/// The answer to a request, of the same kind.
#[derive(Drop)]
pub enum Reply {
    Put(Result<Token, StoreError>),
    Get(Result<Got, StoreError>),
    List(Paged),
    Delete(Result<(), StoreError>),
}

impl Reply {
    /// The same answer. Its bytes are shared.
    ///
    /// # Errors
    ///
    /// Want of memory alone, which changes nothing.
    pub fn try_clone(&self) -> Result<Reply, AllocError>
        ensures { IfOk result (λ copy. copy ≡ self.now) }
    {
        match self {
            Reply::Put(answer) => Ok(Reply::Put(*answer)),
            Reply::Get(Ok(got)) => {
                let got = got.try_clone()?;
                Ok(Reply::Get(Ok(got)))
            }
            Reply::Get(Err(error)) => Ok(Reply::Get(Err(*error))),
            Reply::List(Ok(page)) => {
                let page = page.try_clone()?;
                Ok(Reply::List(Ok(page)))
            }
            Reply::List(Err(error)) => Ok(Reply::List(Err(*error))),
            Reply::Delete(answer) => Ok(Reply::Delete(*answer)),
        }
    }
}

/// Makes the call that a request stands for. The limit of a listing is at least 1.
#[inline(always)]
pub fn serve<S: ObjectStore>(alloc: Global, store: &mut S, request: &Request) -> Reply
    requires { HasLimit request.now }
    ensures { Serves request.now (S.state store.old) result (S.state store.new) }
{
    match request {
        Request::Put { path, bytes, mode } => Reply::Put(store.put(path, bytes, mode)),
        Request::Get {
            path,
            if_none_match,
        } => Reply::Get(store.get(path, *if_none_match)),
        Request::List {
            prefix,
            after,
            limit,
        } => Reply::List(store.list(alloc, prefix, after.as_ref(), *limit)),
        Request::Delete { path } => Reply::Delete(store.delete(path)),
    }
}
