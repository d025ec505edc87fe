//! A store that fails on command, for tests.
ghost use Rattle.std.specs.Prelude.{◌≡◌, ◌≤◌};
ghost use Rattle.std.specs.Option.{option_copied};
ghost use Rattle.txn_store.specs.declared.failing.Counts.{Counts};
ghost use Rattle.txn_store.specs.CallCounts.{no_calls, one_put, one_get, one_list, one_delete};

use crate::count::Count;
use crate::path::Path;
use crate::store::{Got, ObjectStore, Paged, PutMode, StoreError, Token};
use bytes::Bytes;
use std::alloc::Global;

/// Whether a failing call fails without its effect or after it.
#[derive(Clone, Copy, Debug, PartialEq, Eq)]
pub enum When {
    Before,
    After,
}

/// How many calls of each kind were made. Each count stops at the greatest u64.
#[derive(Clone, Copy, Debug, PartialEq, Eq)]
pub struct Counts {
    pub puts: u64,
    pub gets: u64,
    pub lists: u64,
    pub deletes: u64,
}

impl Counts {
    fn none() -> Counts
        ensures { result ≡ no_calls }
    {
        Counts {
            puts: 0,
            gets: 0,
            lists: 0,
            deletes: 0,
        }
    }
}

/// A store over another one, whose nth call fails. Each other call is the inner store's.
#[derive(Drop)]
pub struct FailingStore<S> {
    inner: S,
    /// How many calls are to come up to the failing one, or 0 where none is to fail.
    ahead: u64,
    when: When,
    counts: Counts,
    failed: Count,
    withheld: Count,
}

impl<S> FailingStore<S> {
    ghost use Rattle.txn_store.specs.Failing.{IsFresh, IsNextCall, due};

    /// The store whose nth call (from 1; 0 for none) answers `Failed`: without its effect, or after it.
    pub fn new(inner: S, nth: u64, when: When) -> FailingStore<S>
        ensures { IsFresh inner nth when result }
    {
        FailingStore {
            inner,
            ahead: nth,
            when,
            counts: Counts::none(),
            failed: Count::new(),
            withheld: Count::new(),
        }
    }

    /// The calls made so far, failed ones too.
    pub fn counts(&self) -> Counts
        ensures { result ≡ self.now.counts }
    {
        self.counts
    }

    /// The store below.
    pub fn into_inner(self) -> S
        ensures { result ≡ self.inner }
    {
        self.inner
    }

    /// Whether this call fails, and how.
    fn turn(&mut self) -> Option<When>
        ensures due { result ≡ due self.old }
        ensures inner { self.new.inner ≡ self.old.inner }
        ensures next { IsNextCall self.old.counts self.old self.new }
    {
        let due = self.ahead == 1;
        self.ahead = self.ahead.saturating_sub(1);
        if !due {
            return None;
        }
        self.failed.tick();
        if self.when == When::Before {
            self.withheld.tick();
        }
        Some(self.when)
    }
}

impl<S: ObjectStore> ObjectStore for FailingStore<S> {
    ghost use Rattle.txn_store.specs.Store.{Puts, Gets, Lists, Deletes};
    ghost use Rattle.txn_store.specs.Failing.{IsNextCall, FailsWhenDue, due, failing_state};

    ghost state = { λ f. failing_state (S.state f.inner) f.failed f.withheld };

    fn put(&mut self, path: &Path, bytes: &Bytes, mode: &PutMode) -> Result<Token, StoreError>
        ensures meaning { Puts path.now bytes.now mode.now (failing_state (S.state self.old.inner) self.old.failed self.old.withheld) result
            (failing_state (S.state self.new.inner) self.new.failed self.new.withheld) }
        ensures call { FailsWhenDue (due self.old) (Puts path.now bytes.now mode.now) (S.state self.old.inner) result (S.state self.new.inner) }
        ensures next { IsNextCall (one_put self.old.counts) self.old self.new }
    {
        self.counts.puts = self.counts.puts.saturating_add(1);
        match self.turn() {
            None => self.inner.put(path, bytes, mode),
            Some(When::Before) => Err(StoreError::Failed),
            Some(When::After) => {
                let _ = self.inner.put(path, bytes, mode);
                Err(StoreError::Failed)
            }
        }
    }

    fn get(&mut self, path: &Path, if_none_match: Option<Token>) -> Result<Got, StoreError>
        ensures meaning { Gets path.now if_none_match (failing_state (S.state self.old.inner) self.old.failed self.old.withheld) result
            (failing_state (S.state self.new.inner) self.new.failed self.new.withheld) }
        ensures call { FailsWhenDue (due self.old) (Gets path.now if_none_match) (S.state self.old.inner) result (S.state self.new.inner) }
        ensures next { IsNextCall (one_get self.old.counts) self.old self.new }
    {
        self.counts.gets = self.counts.gets.saturating_add(1);
        match self.turn() {
            None => self.inner.get(path, if_none_match),
            Some(When::Before) => Err(StoreError::Failed),
            Some(When::After) => {
                let _ = self.inner.get(path, if_none_match);
                Err(StoreError::Failed)
            }
        }
    }

    fn list(&mut self, alloc: Global, prefix: &Path, after: Option<&Path>, limit: u64) -> Paged
        requires { 1 ≤ limit }
        ensures meaning { Lists prefix.now (option_copied after.entry) limit (failing_state (S.state self.old.inner) self.old.failed self.old.withheld) result
            (failing_state (S.state self.new.inner) self.new.failed self.new.withheld) }
        ensures call { FailsWhenDue (due self.old) (Lists prefix.now (option_copied after.entry) limit) (S.state self.old.inner) result (S.state self.new.inner) }
        ensures next { IsNextCall (one_list self.old.counts) self.old self.new }
    {
        self.counts.lists = self.counts.lists.saturating_add(1);
        match self.turn() {
            None => self.inner.list(alloc, prefix, after, limit),
            Some(When::Before) => Err(StoreError::Failed),
            Some(When::After) => {
                let _ = self.inner.list(alloc, prefix, after, limit);
                Err(StoreError::Failed)
            }
        }
    }

    fn delete(&mut self, path: &Path) -> Result<(), StoreError>
        ensures meaning { Deletes path.now (failing_state (S.state self.old.inner) self.old.failed self.old.withheld) result
            (failing_state (S.state self.new.inner) self.new.failed self.new.withheld) }
        ensures call { FailsWhenDue (due self.old) (Deletes path.now) (S.state self.old.inner) result (S.state self.new.inner) }
        ensures next { IsNextCall (one_delete self.old.counts) self.old self.new }
    {
        self.counts.deletes = self.counts.deletes.saturating_add(1);
        match self.turn() {
            None => self.inner.delete(path),
            Some(When::Before) => Err(StoreError::Failed),
            Some(When::After) => {
                let _ = self.inner.delete(path);
                Err(StoreError::Failed)
            }
        }
    }
}
