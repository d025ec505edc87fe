//! Clients of the library on threads of their own, over one store in memory under a lock.

use crate::tests::objects::{Unkept, View, next_of};
use std::alloc::{AllocError, AllocGlobal, Global};
use std::sync::{Mutex, Wait};
use std::test::Fail;
use std::thread;
use std::thread::Threads;
use txn_script_lines::record::{Record, RecordCodec, RecordEpoch};
use txn_store::in_memory::InMemory;
use txn_store::request::{Reply, Request};
use txnobj::{Error, ObjectClient, SharedStore, SimpleTransactionalObject, TransactionalObject};

/// How many clients there are, and how often each adds one.
const CLIENTS: u64 = 3;

const TIMES: u64 = 40;

/// The store under a lock, for one of those who share it.
#[derive(Drop)]
struct Locked<'a, R> {
    rt: &'a R,
    store: &'a Mutex<InMemory>,
}

/// Why a call failed: none does.
#[derive(Clone, Copy, Debug)]
struct NoFault;

// What others leave in it meanwhile no clause says.
impl<R: Wait> SharedStore for Locked<'_, R> {
    ghost serves = { λ _ _ _ _. Unit {0} };

    type Fault = NoFault;

    fn serve(&mut self, alloc: Global, request: &Request) -> Result<Reply, NoFault> {
        Ok(self.store.lock(self.rt).serve(alloc, request))
    }
}

type Outcome<A> = Result<A, Error<NoFault>>;

/// A client of this number adds one again and again, each time on what it read: the number and its version when it has done.
fn adds<R: Wait>(
    rt: &R,
    alloc: Global,
    store: &Mutex<InMemory>,
    number: u64,
    times: u64,
) -> Outcome<(u64, u64)> {
    let locked = Locked { rt, store };
    let number = number.max(1);
    let mut client = ObjectClient::new(alloc, number, RecordCodec, RecordEpoch, locked, Unkept)?;
    let first = Record {
        epoch: 0,
        payload: 0,
    };
    let mut view: View = match SimpleTransactionalObject::init(alloc, &mut client, first) {
        Err(Error::ObjectVersionExists) => SimpleTransactionalObject::load(alloc, &mut client)?,
        begun => begun?,
    };
    for _ in 0..times {
        view.maybe_apply_update(&mut client, &next_of)?;
    }
    Ok((view.object().payload, view.id().id()))
}

/// The numbers of the clients.
fn numbers(alloc: Global) -> Result<Vec<u64>, AllocError> {
    Ok(vec![in alloc; 1, 2, 3]?)
}

/// How many clients on threads of their own ended with all done, and the number and its version after them.
fn added(rt: &(impl Threads + Wait + Sync + AllocGlobal)) -> Outcome<(u64, u64, u64)> {
    let alloc = rt.alloc();
    let store = Mutex::new(InMemory::new(alloc));
    let numbers = numbers(alloc)?;
    let ends = thread::map_vec(
        rt,
        numbers,
        &|number: u64| -> bool { adds(rt, alloc, &store, number, TIMES).is_ok() },
    )?;
    let mut done = 0u64;
    for end in ends {
        done = done.saturating_add(u64::from(end));
    }
    let (payload, id) = adds(rt, alloc, &store, 4, 0)?;
    Ok((done, payload, id))
}

#[test]
fn clients_on_threads_lose_no_update(rt: HostRuntime) -> Result<(), Fail> {
    assert_eq!(rt; added(&rt)?, (3, 3 * TIMES, 3 * TIMES + 1));
    Ok(())
}
