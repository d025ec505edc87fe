//! The operations of clients: what they ask for, and how they take their turns and end.
ghost use Rattle.std.specs.Prelude.{◌≡◌, Some, IsSome, IfOk, is_some};
ghost use Rattle.std.specs.Option.{option_copied, option_map};
ghost use Rattle.txn_store.specs.types.Clones.{IsExactClone};
ghost use Rattle.txn_history.specs.Names.{world_names, world_boundary};
ghost use Rattle.txn_history.specs.Lists.{numbered};
ghost use Rattle.txn_machine.specs.plain.Doing.{asks_as};
ghost use Rattle.txn_machine.specs.Doing as any;
ghost use Rattle.txn_client_journals.specs.tables.Operations.{asked_by, request_of, loose_of, usage_of, TakesReply, Ends, TakesTurn};

use std::alloc::{AllocError, Global};
use txn_machine::doing::{Doing, Ending, Operation};
use txn_steps::boundary::ask::Ask;
use txn_steps::boundary::caches::Caches;
use txn_store::request::{Reply, Request};
use txn_store::types::codec::ObjectCodec;
use txn_store::types::epoch::EpochField;
use txn_store::types::layout::Layout;

/// Whose an operation is, and the view that it uses.
#[derive(Clone, Copy)]
pub struct Usage {
    pub client: u64,
    pub view: Option<u64>,
    /// Whether it is a claim, which ends its view unless it is held.
    pub claims: bool,
}

/// What an operation asks for: nothing where it is not there, or has ended.
#[inline(always)]
pub fn asked<T: Drop>(operations: &[Operation<T>], op: u64) -> Option<Ask<'_>>
    ensures { asks_as result ≡ asked_by operations.now op }
{
    if op == 0 {
        return None;
    }
    match operations.get((op - 1) as usize) {
        Some(operation) => operation.doing.ask(),
        None => None,
    }
}

/// The request that is asked for, where a store call is.
#[inline(always)]
pub fn request_of(ask: Option<Ask<'_>>) -> Option<&Request>
    ensures { option_copied result ≡ request_of (asks_as ask.entry) }
{
    match ask {
        None => None,
        Some(Ask::Store(request)) => Some(request),
        Some(Ask::Look) => None,
    }
}

/// A copy of the put or the delete that is asked for, where one is: what an operation leaves that ends before the store
/// replied.
///
/// # Errors
///
/// Want of memory alone, which changes nothing.
pub fn loose_copy(ask: Option<Ask<'_>>) -> Result<Option<Request>, AllocError>
    ensures { IfOk result (λ copy. copy ≡ loose_of (asks_as ask.entry)) }
{
    match ask {
        Some(Ask::Store(request)) => match request {
            Request::Put { .. } | Request::Delete { .. } => Ok(Some(request.try_clone()?)),
            _ => Ok(None),
        },
        Some(Ask::Look) => Ok(None),
        None => Ok(None),
    }
}

/// Whether an operation has not ended.
pub fn runs<T: Drop>(doing: &Doing<T>) -> bool
    ensures { result ≡ is_some (any.asked doing.now) }
{
    !doing.has_ended()
}

/// Whose an operation is that is there, and the view that it uses.
pub fn usage_at<T>(operations: &[Operation<T>], op: u64) -> Usage
    requires { IsSome (numbered operations.now op) }
    ensures { option_map usage_of (numbered operations.now op) ≡ Some result }
{
    let operation = &operations[(op - 1) as usize];
    Usage {
        client: operation.client,
        view: operation.view,
        claims: operation.claims,
    }
}

/// Hands an operation the store's reply, or none for a look, with its client's caches. Where it is answered it has ended.
#[inline(always)]
pub fn turn<T: Clone, C: ObjectCodec<T>, E: EpochField<T>>(
    alloc: Global,
    layout: &Layout<C>,
    epochs: &E,
    operations: &mut Vec<Operation<T>>,
    caches: &mut Caches,
    op: u64,
    reply: Option<Reply>,
) -> Option<Ending<T>>
    requires exact { IsExactClone T.is_clone }
    requires names { layout.now.names ≡ world_names }
    requires boundary { layout.now.boundary ≡ world_boundary }
    requires takes { TakesReply operations.old.items op reply }
    ensures { TakesTurn layout.now.page (C.encoded layout.now.codec) (C.decoded layout.now.codec) (E.epoch_of epochs.now) (E.with_epoch epochs.now) operations.old.items caches.old op reply operations.new.items caches.new result }
{
    let operation = &mut operations[(op - 1) as usize];
    operation.doing.take(alloc, layout, epochs, caches, reply)
}

/// Ends an operation that is there, without an answer.
pub fn end<T: Drop>(operations: &mut Vec<Operation<T>>, op: u64)
    requires { IsSome (numbered operations.old.items op) }
    ensures { Ends operations.old.items op operations.new.items }
{
    let operation = &mut operations[(op - 1) as usize];
    operation.doing.end();
}
