//! A store in memory.
ghost use Rattle.std.specs.Prelude.{◌≡◌, ◌≤◌, ◌*◌, false, is_some, IfOk, IsOk, OnOk, OnErr};
ghost use Rattle.std.specs.Option.{option_copied};
ghost use Rattle.std.specs.FinMap as finmap;
ghost use Rattle.txn_store.specs.MemoryServes.{lacks_memory};
ghost use Rattle.txn_store.specs.Store.{put_fault, listing, page_of};

use crate::count::Count;
use crate::path::Path;
use crate::request::{Reply, Request};
use crate::sorted::SortedFiles;
use crate::store::{
    Got, ObjectStore, Paged, PutMode, StoreError, Token, fault_of_get, fault_of_put,
};
use bytes::Bytes;
use std::alloc::{AllocError, Global};
use std::marker::Model;

/// Files in memory, in the order of their paths. Its tokens are numbers that rise by one, and the greatest u64 is
/// the last. It never fails.
///
/// A clause sees the files, the first token, the token to come, the count of calls, and how many stored paths the
/// last call compared with an asked one.
#[derive(Drop)]
pub struct InMemory {
    files: SortedFiles,
    first: u64,
    next: Option<u64>,
    calls: Count,
    compared: u64,
}

impl Model for InMemory {
    ghost use Rattle.txn_store.specs.Memory.{Searched, searched_code};

    ghost Value = { Searched };

    ghost coded = { searched_code };

    ghost use Rattle.txn_store.specs.MemoryFields.{searched_view, IsMemory};

    ghost view = { searched_view };

    ghost invariant = { IsMemory };
}

impl InMemory {
    ghost use Rattle.std.specs.Prelude.{◌⊎◌};
    ghost use Rattle.txn_store.specs.Memory.{fresh_memory, searched_state, called};
    ghost use Rattle.txn_store.specs.MemoryServes.{exact_reply, LacksMemory, memory_after};
    ghost use Rattle.txn_store.specs.Requests.{Serves};

    /// An empty store, which gives the tokens 1, 2, 3 and so on.
    pub fn new(alloc: Global) -> InMemory
        ensures { result ≡ record { memory = fresh_memory 1; compared = 0 } }
    {
        InMemory::from_token(alloc, 1)
    }

    /// An empty store, whose tokens start at a given one.
    pub fn from_token(alloc: Global, first: u64) -> InMemory
        ensures { result ≡ record { memory = fresh_memory first; compared = 0 } }
    {
        InMemory {
            files: SortedFiles::new(alloc),
            first,
            next: Some(first),
            calls: Count::new(),
            compared: 0,
        }
    }

    /// Makes the call that a request stands for. Its reply and what it leaves are those of the request, the store
    /// and the growths that were refused.
    pub fn serve(&mut self, alloc: Global, request: &Request) -> Reply
        ensures meaning { Serves request.now (searched_state self.old) result (searched_state self.new) }
        ensures exact { (result ≡ exact_reply request.now self.old.memory) ⊎ LacksMemory request.now result }
        ensures after { self.new.memory ≡ memory_after request.now result self.old.memory }
    {
        match request {
            Request::Put { path, bytes, mode } => Reply::Put(self.put(path, bytes, mode)),
            Request::Get {
                path,
                if_none_match,
            } => Reply::Get(self.get(path, *if_none_match)),
            Request::List {
                prefix,
                after,
                limit,
            } => Reply::List(self.list(alloc, prefix, after.as_ref(), *limit)),
            Request::Delete { path } => Reply::Delete(self.delete(path)),
        }
    }

    /// The same where no growth is refused.
    ///
    /// # Errors
    ///
    /// Want of memory alone. There was no call: the store is as it was.
    pub fn try_serve(&mut self, alloc: Global, request: &Request) -> Result<Reply, AllocError>
        ensures meaning { IfOk result (λ reply. Serves request.now (searched_state self.old) reply (searched_state self.new)) }
        ensures exact { IfOk result (λ reply. reply ≡ exact_reply request.now self.old.memory) }
        ensures answered { IfOk result (λ reply. lacks_memory reply ≡ false) }
        ensures after { IfOk result (λ reply. self.new.memory ≡ memory_after request.now reply self.old.memory) }
        ensures err { OnErr result (self.new ≡ self.old) }
    {
        let calls_before = self.calls.copy();
        let compared_before = self.compared;
        let reply = self.serve(alloc, request);
        if lacks_memory(&reply) {
            let InMemory {
                calls,
                compared,
                ..
            } = self;
            *calls = calls_before;
            *compared = compared_before;
            return Err(AllocError);
        }
        Ok(reply)
    }

    /// Counts a call, which has compared no path yet.
    fn begin(&mut self)
        ensures { self.new ≡ record { memory = called self.old.memory; compared = 0 } }
    {
        let InMemory {
            calls,
            compared,
            ..
        } = self;
        calls.tick();
        *compared = 0;
    }

    /// How many stored paths the last call compared with an asked one, 0 before the first call.
    pub fn compared(&self) -> u64
        ensures { result ≡ self.now.compared }
    {
        self.compared
    }

    /// Whether a file stands under a path. It takes no memory, and is no call that counts.
    pub fn contains(&self, path: &Path) -> bool
        ensures { result ≡ is_some (finmap.get self.now.memory.files path.now) }
    {
        let mut uncounted = 0;
        self.files.get(path, &mut uncounted).is_some()
    }
}

/// Whether a reply says that a growth was refused.
fn lacks_memory(reply: &Reply) -> bool
    ensures { result ≡ lacks_memory reply.now }
{
    matches!(
        reply,
        Reply::Put(Err(StoreError::NoMemory))
            | Reply::Get(Err(StoreError::NoMemory))
            | Reply::List(Err(StoreError::NoMemory))
            | Reply::Delete(Err(StoreError::NoMemory))
    )
}

impl ObjectStore for InMemory {
    ghost use Rattle.txn_store.specs.Store.{Puts, Gets, Lists, Deletes};
    ghost use Rattle.txn_store.specs.Memory.{searched_state, file_count, binary_digits, called, with_file, without_file, put_answer, get_answer, IsExact};

    ghost state = { searched_state };

    fn put(&mut self, path: &Path, bytes: &Bytes, mode: &PutMode) -> Result<Token, StoreError>
        ensures meaning { Puts path.now bytes.now mode.now (searched_state self.old) result (searched_state self.new) }
        ensures exact { IsExact (put_answer (put_fault mode.now (finmap.get self.old.memory.files path.now)) self.old.memory.next) result }
        ensures ok { OnOk result (self.new.memory ≡ with_file path.now bytes.now self.old.memory) }
        ensures err { OnErr result (self.new.memory ≡ called self.old.memory) }
        ensures few { self.new.compared ≤ binary_digits (file_count self.old.memory) }
    {
        self.begin();
        let place = self.files.place(path, &mut self.compared);
        if let Some(fault) = fault_of_put(mode, self.files.at(path, place)) {
            return Err(fault);
        }
        let Some(next) = self.next else {
            return Err(StoreError::TokensExhausted);
        };
        let bytes = bytes.clone()?;
        let token = Token::new(next);
        self.files.set(path, place, Got { bytes, token })?;
        self.next = next.checked_add(1);
        Ok(token)
    }

    fn get(&mut self, path: &Path, if_none_match: Option<Token>) -> Result<Got, StoreError>
        ensures meaning { Gets path.now if_none_match (searched_state self.old) result (searched_state self.new) }
        ensures exact { IsExact (get_answer if_none_match (finmap.get self.old.memory.files path.now)) result }
        ensures same { self.new.memory ≡ called self.old.memory }
        ensures few { self.new.compared ≤ binary_digits (file_count self.old.memory) }
    {
        self.begin();
        let Some(got) = self.files.get(path, &mut self.compared) else {
            return Err(StoreError::NotFound);
        };
        if let Some(fault) = fault_of_get(if_none_match, got) {
            return Err(fault);
        }
        Ok(got.try_clone()?)
    }

    fn list(&mut self, alloc: Global, prefix: &Path, after: Option<&Path>, limit: u64) -> Paged
        ensures meaning { Lists prefix.now (option_copied after.entry) limit (searched_state self.old) result (searched_state self.new) }
        ensures exact { IsExact (Ok (page_of limit (listing prefix.now (option_copied after.entry) (finmap.entries self.old.memory.files)))) result }
        ensures same { self.new.memory ≡ called self.old.memory }
        ensures few { self.new.compared ≤ 2 * binary_digits (file_count self.old.memory) }
    {
        self.begin();
        Ok(
            self.files
                .page(alloc, prefix, after, limit, &mut self.compared)?,
        )
    }

    fn delete(&mut self, path: &Path) -> Result<(), StoreError>
        ensures meaning { Deletes path.now (searched_state self.old) result (searched_state self.new) }
        ensures always { IsOk result }
        ensures removed { self.new.memory ≡ without_file path.now self.old.memory }
        ensures few { self.new.compared ≤ binary_digits (file_count self.old.memory) }
    {
        self.begin();
        let place = self.files.place(path, &mut self.compared);
        self.files.remove(path, place);
        Ok(())
    }
}
