//! A store in memory, and what it served to whom.
ghost use Rattle.std.specs.Prelude.{◌≡◌, IfOk, OnErr};
ghost use Rattle.txn_client_journals.specs.Logged.{LeavesFiles, IsReceiptOf};

use crate::audited::Logged;
use crate::rows::{LogRow, Receipt};
use std::alloc::{AllocError, Global};
use std::marker::Model;
use std::sync::{Mutex, Wait};
use txn_store::in_memory::InMemory;
use txn_store::request::{Reply, Request};
use txn_store::types::room::push_within;

/// The same reply. The only error is want of memory, and comes only of a get or a listing.
fn copied(reply: &Reply) -> Result<Reply, AllocError>
    ensures ok { IfOk result (λ copy. copy ≡ reply.now) }
    ensures err { OnErr result (LeavesFiles reply.now) }
{
    match reply {
        Reply::Put(answer) => Ok(Reply::Put(*answer)),
        Reply::Delete(answer) => Ok(Reply::Delete(*answer)),
        Reply::Get(_) => reply.try_clone(),
        Reply::List(_) => reply.try_clone(),
    }
}

/// The same request, twice. What is owned is dropped by calls here and in those that use it: in place, the proof would follow
/// each state that may be dropped. The only error is want of memory.
fn request_twice(request: &Request) -> Result<(Request, Request), AllocError>
    ensures noted { IfOk result (λ pair. pair.0 ≡ request.now) }
    ensures told { IfOk result (λ pair. pair.1 ≡ request.now) }
{
    let noted = request.try_clone()?;
    match request.try_clone() {
        Ok(told) => Ok((noted, told)),
        Err(error) => {
            drop(noted);
            Err(error)
        }
    }
}

/// The same reply, twice. The only error is that of [`copied`].
fn reply_twice(reply: &Reply) -> Result<(Reply, Reply), AllocError>
    ensures copy { IfOk result (λ pair. pair.0 ≡ reply.now) }
    ensures again { IfOk result (λ pair. pair.1 ≡ reply.now) }
    ensures err { OnErr result (LeavesFiles reply.now) }
{
    let copy = copied(reply)?;
    match copied(reply) {
        Ok(again) => Ok((copy, again)),
        Err(error) => {
            drop(copy);
            Err(error)
        }
    }
}

/// A store in memory with a log of the calls that it served. Its log leads from the empty store to it.
///
/// A clause sees the log.
#[derive(Drop)]
pub struct LoggedStore {
    store: InMemory,
    log: Vec<LogRow>,
}

impl Model for LoggedStore {
    ghost use Rattle.std.specs.Prelude.{List};
    ghost use Rattle.std.specs.Coded.{codes};
    ghost use Rattle.txn_store.specs.Memory.{searched_state};
    ghost use Rattle.txn_client_journals.specs.declared.rows.LogRow.{LogRow};
    ghost use Rattle.txn_client_journals.specs.Logged.{IsLogged};

    ghost Value = { List LogRow };

    ghost coded = { Prim.hlevel codes };

    ghost view = { λ s. s.log.items };

    ghost invariant = { λ s. IsLogged s.log.items (searched_state s.store) };
}

impl LoggedStore {
    ghost use Rattle.std.specs.Prelude.{[]};
    ghost use Rattle.txn_client_journals.specs.Logged.{ServedLogged};

    /// An empty store with an empty log.
    pub fn new(alloc: Global) -> LoggedStore
        ensures { result ≡ [] }
    {
        LoggedStore {
            store: InMemory::new(alloc),
            log: Vec::new(alloc),
        }
    }

    /// Serves one request of a client, and logs it.
    ///
    /// # Errors
    ///
    /// Want of memory, of the store or of the log: then nothing is logged, and the store's files are as they were.
    pub fn serve_logged(
        &mut self,
        alloc: Global,
        client: u64,
        request: &Request,
    ) -> Result<Receipt, AllocError>
        ensures ok { IfOk result (λ receipt. ServedLogged self.old client request.now receipt self.new) }
        ensures err { OnErr result (self.new ≡ self.old) }
    {
        let (receipt, _reply) = self.serve_noted(alloc, client, request)?;
        Ok(receipt)
    }

    /// The same, with the reply once more: a client whose operation takes the reply notes it in its journal too. Both are made
    /// before the row is logged, so no row is logged that the client cannot note.
    ///
    /// # Errors
    ///
    /// As those of [`LoggedStore::serve_logged`].
    pub fn serve_noted(
        &mut self,
        alloc: Global,
        client: u64,
        request: &Request,
    ) -> Result<(Receipt, Reply), AllocError>
        ensures ok { IfOk result (λ pair. ServedLogged self.old client request.now pair.0 self.new) }
        ensures again { IfOk result (λ pair. pair.1 ≡ pair.0.reply) }
        ensures err { OnErr result (self.new ≡ self.old) }
    {
        self.log.reserve(1)?;
        let place = self.log.len() as u64;
        let requests = request_twice(request)?;
        let reply = match self.store.try_serve(alloc, request) {
            Ok(reply) => reply,
            Err(error) => {
                drop(requests);
                return Err(error);
            }
        };
        let replies = match reply_twice(&reply) {
            Ok(replies) => replies,
            Err(error) => {
                drop(requests);
                drop(reply);
                return Err(error);
            }
        };
        let (noted, told) = requests;
        let (copy, again) = replies;
        push_within(
            &mut self.log,
            LogRow {
                client,
                request: noted,
                reply: copy,
                landed: None,
            },
        );
        let receipt = Receipt {
            place,
            request: told,
            reply,
        };
        Ok((receipt, again))
    }
}

impl Logged for LoggedStore {
    ghost logged = { λ log. log };

    fn log(&self) -> &[LogRow] {
        self.log.as_slice()
    }
}

/// Serves one request of a client under one lock, and logs it.
///
/// # Errors
///
/// Want of memory, as of [`LoggedStore::serve_logged`].
pub fn serve_shared<R: Wait>(
    rt: &R,
    alloc: Global,
    store: &Mutex<LoggedStore>,
    client: u64,
    request: &Request,
) -> Result<Receipt, AllocError>
    ensures { IfOk result (λ receipt. IsReceiptOf request.now receipt) }
{
    store.lock(rt).serve_logged(alloc, client, request)
}
