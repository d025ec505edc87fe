//! What calls are lent, and the clients that make them.
use crate::clock::LineClock;
use slatedb_txn_obj::Turns;
use slatedb_txn_obj::object_store::{
    ObjectStoreBoundaryObject, ObjectStoreSequencedStorageProtocol,
};
use std::alloc::{AllocError, Global};
use std::mem;
use txn_script_lines::record::{Record, RecordCodec};
use txn_store::failing::{FailingStore, When};
use txn_store::in_memory::InMemory;
use txn_store::path::{Path, PathFault};

/// The store of a script.
pub(crate) type Store = FailingStore<InMemory>;

pub(crate) type Protocol = ObjectStoreSequencedStorageProtocol<
    Record,
    RecordCodec,
    ObjectStoreBoundaryObject,
>;

/// The time of a claim, where no line sets it, in milliseconds.
const TIMEOUT: u64 = 100;

/// How many clients there are.
const CLIENTS: usize = 4;

/// What each call is lent.
#[derive(Drop)]
pub(crate) struct Desk<S> {
    pub(crate) alloc: Global,
    pub(crate) store: S,
    pub(crate) turns: Turns,
    pub(crate) clock: LineClock,
    /// How long a claim may take, in milliseconds.
    pub(crate) timeout: u64,
}

/// A protocol over the files of `root/test`, with its own boundary object, and another boundary object of the same file.
#[derive(Drop)]
pub(crate) struct Client {
    pub(crate) protocol: Protocol,
    pub(crate) boundary: ObjectStoreBoundaryObject,
}

/// A store with nothing in it, which gives this token first and never fails.
fn empty_store(alloc: Global, first: u64) -> Store {
    FailingStore::new(InMemory::from_token(alloc, first), 0, When::Before)
}

/// What calls are lent over an empty store, which gives this token first.
pub(crate) fn new_desk(alloc: Global, first: u64) -> Desk<Store> {
    Desk {
        alloc,
        store: empty_store(alloc, first),
        turns: Turns::new(0),
        clock: LineClock::new(Vec::new(alloc)),
        timeout: TIMEOUT,
    }
}

impl Desk<Store> {
    /// From here on the nth call of the store fails, so.
    pub(crate) fn fail(&mut self, nth: u64, when: When) {
        let store = mem::replace(&mut self.store, empty_store(self.alloc, 1));
        self.store = FailingStore::new(store.into_inner(), nth, when);
    }
}

/// A client that has cached nothing, and lists so many files a page, one at least.
fn a_client(alloc: Global, page: u64) -> Result<Client, PathFault> {
    let root = Path::from_text(alloc, "root")?;
    let boundary = ObjectStoreBoundaryObject::new(alloc, &root, "test")?;
    let protocol = ObjectStoreSequencedStorageProtocol::new(
        alloc,
        &root,
        "test",
        "val",
        RecordCodec,
    )?;
    Ok(Client {
        protocol: protocol.with_page(page.max(1)),
        boundary,
    })
}

/// The clients of a script.
pub(crate) fn clients(alloc: Global, page: u64) -> Result<Vec<Client>, AllocError> {
    let mut clients = Vec::new(alloc);
    for _client in 0..CLIENTS {
        let Ok(client) = a_client(alloc, page) else {
            return Err(AllocError);
        };
        clients.push(client)?;
    }
    Ok(clients)
}
