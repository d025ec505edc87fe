//! Requests that reach the store.
ghost use Rattle.std.specs.Prelude.{◌≡◌, false, ◌++◌, ◌<◌, ◌≤◌, None, IfOk, OnOk, OnErr, IsSome, is_some, if◌then◌else◌, vec_len, vec_capacity};
ghost use Rattle.std.specs.HashSet.{spare};
ghost use Rattle.txn_store.specs.Memory.{searched_state};
ghost use Rattle.txn_store.specs.MemoryServes.{lacks_memory};
ghost use Rattle.txn_store.specs.Requests.{Serves};
ghost use Rattle.txn_history.specs.Added.{effect_rows};
ghost use Rattle.txn_machine.specs.plain.Machine.{effect_of, took, may_change};
ghost use Rattle.txn_client_journals.specs.tables.Operations.{asked_by, request_of};
ghost use Rattle.txn_world.specs.Reaching.{IsServed};

use std::alloc::{AllocError, Global};
use txn_client_journals::tables::operations::{asked, request_of};
use txn_machine::doing::Operation;
use txn_machine::traces::trace::Trace;
use txn_store::in_memory::InMemory;
use txn_store::request::{Reply, Request};
use txn_store::types::codec::ObjectCodec;
use txn_store::types::epoch::EpochField;

/// A copy of a request that changes the store where it is done, for the trace: of a put, or of the
/// removal of a file that is there.
#[inline(always)]
fn copy_of(store: &InMemory, request: &Request) -> Result<Option<Request>, AllocError>
    ensures { IfOk result (λ copy. copy ≡ may_change (searched_state store.now).files request.now) }
{
    match request {
        Request::Put { .. } => Ok(Some(request.try_clone()?)),
        Request::Delete { path } if store.contains(path) => Ok(Some(request.try_clone()?)),
        _ => Ok(None),
    }
}

/// Whether the reply says that a put or a removal was done.
fn took(reply: &Reply) -> bool
    ensures { result ≡ took reply.now }
{
    matches!(reply, Reply::Put(Ok(_)) | Reply::Delete(Ok(())))
}

/// The request that changed the store, by its reply. A copy of it was made before.
#[inline(always)]
fn effect_of(reply: &Reply, copy: Option<Request>) -> Option<Request>
    ensures { result ≡ (if took reply.now then copy else None) }
{
    if took(reply) { copy } else { None }
}

/// Who takes the reply of a request.
#[derive(Clone, Copy, PartialEq, Eq)]
pub(crate) enum Taker {
    /// The operation that made it.
    Operation,
    /// Nobody: the operation is told that its call failed, or has ended.
    Nobody,
}

/// A request of an operation reaches the store: the reply, and whether it changed the store, which has its row then. After
/// it there is room for the row of an answer. The only error is want of memory, and then nothing reached the store. The store's own
/// want of memory is a reply that an operation takes, and an error where nobody does.
pub(crate) fn reach<T: Drop, C: ObjectCodec<T> + Drop, E: EpochField<T>>(
    alloc: Global,
    store: &mut InMemory,
    trace: &mut Trace<T, C, E>,
    op: u64,
    request: &Request,
    taker: Taker,
) -> Result<(Reply, bool), AllocError>
    ensures layout { trace.new.layout ≡ trace.old.layout }
    ensures field { trace.new.field ≡ trace.old.field }
    ensures serves { IfOk result (λ got. Serves request.now (searched_state store.old) got.0 (searched_state store.new)) }
    ensures answered { taker ≡ Taker.Nobody → IfOk result (λ got. lacks_memory got.0 ≡ false) }
    ensures rows { IfOk result (λ got. trace.new.rows.items ≡ trace.old.rows.items ++ effect_rows op (effect_of (searched_state store.old).files request.now got.0)) }
    ensures changed { IfOk result (λ got. got.1 ≡ is_some (effect_of (searched_state store.old).files request.now got.0)) }
    ensures room { OnOk result (vec_len trace.new.rows < vec_capacity trace.new.rows) }
    ensures spare { OnOk result (1 ≤ spare trace.new.told) }
    ensures err { OnErr result (store.new ≡ store.old) }
    ensures err_rows { OnErr result (trace.new.rows.items ≡ trace.old.rows.items) }
{
    let epoch = trace.epoch_made(alloc, request)?;
    let copy = copy_of(store, request)?;
    trace.reserve()?;
    let reply = match taker {
        Taker::Operation => store.serve(alloc, request),
        Taker::Nobody => store.try_serve(alloc, request)?,
    };
    let effect = effect_of(&reply, copy);
    let changed = effect.is_some();
    trace.effect(op, effect, epoch);
    Ok((reply, changed))
}

/// What an operation asks for reaches the store, as [`reach`] says: the reply.
pub(crate) fn reach_asked<T: Drop, C: ObjectCodec<T> + Drop, E: EpochField<T>>(
    alloc: Global,
    operations: &[Operation<T>],
    store: &mut InMemory,
    trace: &mut Trace<T, C, E>,
    op: u64,
    taker: Taker,
) -> Result<Reply, AllocError>
    requires asks { IsSome (request_of (asked_by operations.now op)) }
    ensures layout { trace.new.layout ≡ trace.old.layout }
    ensures field { trace.new.field ≡ trace.old.field }
    ensures served { IfOk result (λ reply. IsServed operations.now op (searched_state store.old) trace.old.rows.items reply (searched_state store.new) trace.new.rows.items) }
    ensures answered { taker ≡ Taker.Nobody → IfOk result (λ reply. lacks_memory reply ≡ false) }
    ensures room { OnOk result (vec_len trace.new.rows < vec_capacity trace.new.rows) }
    ensures spare { OnOk result (1 ≤ spare trace.new.told) }
    ensures err { OnErr result (store.new ≡ store.old) }
    ensures err_rows { OnErr result (trace.new.rows.items ≡ trace.old.rows.items) }
{
    let Some(request) = request_of(asked(operations, op)) else {
        unreachable!();
    };
    let (reply, _) = reach(alloc, store, trace, op, request, taker)?;
    Ok(reply)
}
