//! A store of one's own: a list of files.
ghost use Rattle.std.specs.Prelude.{◌≡◌, ◌≤◌, IsOk, OnOk, OnErr};
ghost use Rattle.std.specs.Option.{option_copied};
ghost use Rattle.std.specs.FinMap as finmap;
ghost use Rattle.txn_store.specs.Store.{put_fault, listing, page_of};
ghost use Rattle.txn_store.specs.Memory.{Memory, memory_code};
ghost use Rattle.slatedb_txn_obj_uses.specs.ListFields.{list_view, IsList};

use crate::listed::Listed;
use bytes::Bytes;
use std::alloc::Global;
use std::marker::Model;
use txn_store::in_memory::InMemory;
use txn_store::page::{Listing, Page};
use txn_store::path::Path;
use txn_store::store::{
    Got, ObjectStore, Paged, PutMode, StoreError, Token, fault_of_get, fault_of_put,
};

/// Files in a list, in the order in which their paths were first written. Its tokens are 1, 2, 3 and so on, and the greatest
/// u64 is the last. It never fails. A clause sees the files as a finite map, the first token, the token to come and the count
/// of calls.
#[derive(Drop)]
pub struct ListStore {
    files: Listed,
    next: Option<u64>,
    /// A store with no file, of which one call is made a call: a count without an end.
    calls: InMemory,
}

impl Model for ListStore {
    ghost Value = { Memory };

    ghost coded = { memory_code };

    ghost view = { list_view };

    ghost invariant = { IsList };
}

impl ListStore {
    ghost use Rattle.txn_store.specs.Memory.{fresh_memory, called};

    /// An empty store. It takes no memory.
    pub fn new(alloc: Global) -> ListStore
        ensures { result ≡ fresh_memory 1 }
    {
        ListStore {
            files: Listed::new(alloc),
            next: Some(1),
            calls: InMemory::new(alloc),
        }
    }

    /// Counts a call.
    fn begin(&mut self, path: &Path)
        ensures { self.new ≡ called self.old }
    {
        let _ = self.calls.get(path, None);
    }
}

impl ObjectStore for ListStore {
    ghost use Rattle.txn_store.specs.Store.{Puts, Gets, Lists, Deletes};
    ghost use Rattle.txn_store.specs.Memory.{state_of, called, with_file, without_file, put_answer, get_answer, IsExact};

    ghost state = { state_of };

    fn put(&mut self, path: &Path, bytes: &Bytes, mode: &PutMode) -> Result<Token, StoreError>
        ensures meaning { Puts path.now bytes.now mode.now (state_of self.old) result (state_of self.new) }
        ensures exact { IsExact (put_answer (put_fault mode.now (finmap.get self.old.files path.now)) self.old.next) result }
        ensures ok { OnOk result (self.new ≡ with_file path.now bytes.now self.old) }
        ensures err { OnErr result (self.new ≡ called self.old) }
    {
        self.begin(path);
        if let Some(fault) = fault_of_put(mode, self.files.get(path)) {
            return Err(fault);
        }
        let Some(next) = self.next else {
            return Err(StoreError::TokensExhausted);
        };
        let bytes = bytes.clone()?;
        let token = Token::new(next);
        self.files.set(path, Got { bytes, token })?;
        self.next = next.checked_add(1);
        Ok(token)
    }

    fn get(&mut self, path: &Path, if_none_match: Option<Token>) -> Result<Got, StoreError>
        ensures meaning { Gets path.now if_none_match (state_of self.old) result (state_of self.new) }
        ensures exact { IsExact (get_answer if_none_match (finmap.get self.old.files path.now)) result }
        ensures same { self.new ≡ called self.old }
    {
        self.begin(path);
        let Some(got) = self.files.get(path) else {
            return Err(StoreError::NotFound);
        };
        if let Some(fault) = fault_of_get(if_none_match, got) {
            return Err(fault);
        }
        Ok(got.try_clone()?)
    }

    fn list(&mut self, alloc: Global, prefix: &Path, after: Option<&Path>, limit: u64) -> Paged
        ensures meaning { Lists prefix.now (option_copied after.entry) limit (state_of self.old) result (state_of self.new) }
        ensures exact { IsExact (Ok (page_of limit (listing prefix.now (option_copied after.entry) (finmap.entries self.old.files)))) result }
        ensures same { self.new ≡ called self.old }
    {
        self.begin(prefix);
        let mut metas = self.files.listing(alloc, prefix, after)?;
        let more = limit < metas.len() as u64;
        metas.truncate(limit as usize);
        Ok(Page {
            metas: Listing::from_vec(metas),
            more,
        })
    }

    fn delete(&mut self, path: &Path) -> Result<(), StoreError>
        ensures meaning { Deletes path.now (state_of self.old) result (state_of self.new) }
        ensures always { IsOk result }
        ensures removed { self.new ≡ without_file path.now self.old }
    {
        self.begin(path);
        self.files.remove(path);
        Ok(())
    }
}
