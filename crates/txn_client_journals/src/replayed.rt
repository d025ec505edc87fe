//! What an honest store has, by its replies.
ghost use Rattle.std.specs.Prelude.{◌≡◌, ◌≤◌, Some, nat_eq, IfErr, OnErr, OnOk, Decides};
ghost use Rattle.std.specs.HashSet.{contains};
ghost use Rattle.std.specs.Option.{option_copied};
ghost use Rattle.txn_store.specs.Store.{State, get_fault};
ghost use Rattle.txn_store.specs.declared.request.Request.TheVariants as requests;
ghost use Rattle.txn_store.specs.declared.request.Reply.TheVariants as replies;
ghost use Rattle.txn_machine.specs.plain.Machine.{empty_store};
ghost use Rattle.txn_client_journals.specs.Replayed.{HasError, HasFile, IsErrorFault, IsPutFault, StandsFor, KeepsAll, KeepsPut, KeepsRemoved, Follows};

use crate::log_fault::LogFault;
use crate::same::{same_error, same_got, same_page};
use bytes::Bytes;
use std::alloc::Global;
use std::collections::HashSet;
use txn_store::page::Page;
use txn_store::path::Path;
use txn_store::request::{Reply, Request};
use txn_store::sorted::SortedFiles;
use txn_store::store::{Got, PutMode, StoreError, Token, fault_of_get, fault_of_put};

/// Whether this is why the files refuse a call.
fn is_fault(fault: Option<StoreError>, error: StoreError) -> bool
    ensures { Decides result (fault ≡ Some error) }
{
    match fault {
        Some(found) => same_error(found, error),
        None => false,
    }
}

/// Whether an honest store gives this error, where this is why its files refuse the call, and where the call wants a token
/// and none is left.
fn has_error(fault: Option<StoreError>, spent: bool, error: StoreError) -> bool
    ensures { Decides result (HasError fault spent error) }
{
    match error {
        StoreError::Failed => false,
        StoreError::NoMemory => fault.is_none(),
        StoreError::TokensExhausted => fault.is_none() && spent,
        StoreError::NotFound => is_fault(fault, StoreError::NotFound),
        StoreError::AlreadyExists => is_fault(fault, StoreError::AlreadyExists),
        StoreError::Precondition => is_fault(fault, StoreError::Precondition),
        StoreError::NotModified => is_fault(fault, StoreError::NotModified),
    }
}

/// Takes an error that an honest store gives. The error is `Failed` or `OtherAnswer`.
fn take_error(fault: Option<StoreError>, spent: bool, error: StoreError) -> Result<(), LogFault>
    ensures ok { OnOk result (HasError fault spent error) }
    ensures err { IfErr result (IsErrorFault (HasError fault spent error) error) }
{
    if same_error(error, StoreError::Failed) {
        return Err(LogFault::Failed);
    }
    if !has_error(fault, spent, error) {
        return Err(LogFault::OtherAnswer);
    }
    Ok(())
}

/// Why a get is refused by what stands under its path.
fn fault_of_found(known: Option<Token>, found: Option<&Got>) -> Option<StoreError>
    ensures { result ≡ get_fault known (option_copied found.entry) }
{
    match found {
        None => Some(StoreError::NotFound),
        Some(got) => fault_of_get(known, got),
    }
}

/// Whether a get finds this file, where this stands under its path.
fn has_file(known: Option<Token>, found: Option<&Got>, got: &Got) -> bool
    ensures { Decides result (HasFile known (option_copied found.entry) got.now) }
{
    match found {
        None => false,
        Some(stored) => fault_of_get(known, stored).is_none() && same_got(stored, got),
    }
}

/// What an honest store has after what it replied so far.
#[derive(Drop)]
pub(crate) struct Replayed {
    files: SortedFiles,
    /// The tokens that were given.
    given: HashSet<u64>,
    /// How many tokens are left.
    left: u64,
}

impl Replayed {
    /// What a store has that has not been called.
    pub fn new(alloc: Global) -> Replayed
        ensures { StandsFor result empty_store }
    {
        Replayed {
            files: SortedFiles::new(alloc),
            given: HashSet::new(alloc),
            left: u64::MAX,
        }
    }

    /// Puts a file with a token, which must not have been given before. The other error is want of memory.
    fn put(&mut self, path: &Path, bytes: &Bytes, token: Token) -> Result<(), LogFault>
        requires { 1 ≤ self.old.left }
        ensures ok { OnOk result (KeepsPut path.now bytes.now token self.old self.new) }
        ensures err { OnErr result (KeepsAll self.old self.new) }
        ensures fault { IfErr result (IsPutFault (contains nat_eq self.old.given token)) }
    {
        let number = token.number();
        if self.given.contains(&number) {
            return Err(LogFault::TokenGiven);
        }
        let bytes = bytes.clone()?;
        self.given.reserve(1)?;
        let mut uncounted = 0;
        let place = self.files.place(path, &mut uncounted);
        self.files.set(path, place, Got { bytes, token })?;
        if self.given.insert(number).is_err() {
            unreachable!();
        }
        self.left -= 1;
        Ok(())
    }

    /// Removes a file.
    fn remove(&mut self, path: &Path)
        ensures { KeepsRemoved path.now self.old self.new }
    {
        let mut uncounted = 0;
        let place = self.files.place(path, &mut uncounted);
        self.files.remove(path, place);
    }

    /// Takes the answer of a put.
    fn follow_put(
        &mut self,
        path: &Path,
        bytes: &Bytes,
        mode: &PutMode,
        answer: Result<Token, StoreError>,
    ) -> Result<(), LogFault>
        ensures { (store : State) → StandsFor self.old store → Follows (requests.Put path.now bytes.now mode.now) store (replies.Put answer) result self.new }
    {
        let mut uncounted = 0;
        let fault = fault_of_put(mode, self.files.get(path, &mut uncounted));
        match answer {
            Ok(token) => {
                if fault.is_some() {
                    return Err(LogFault::OtherAnswer);
                }
                if self.left == 0 {
                    return Err(LogFault::OtherAnswer);
                }
                self.put(path, bytes, token)
            }
            Err(error) => take_error(fault, self.left == 0, error),
        }
    }

    /// Takes the answer of a get.
    fn follow_get(
        &self,
        path: &Path,
        known: Option<Token>,
        answer: &Result<Got, StoreError>,
    ) -> Result<(), LogFault>
        ensures { (store : State) → StandsFor self.now store → Follows (requests.Get path.now known) store (replies.Get answer.now) result self.now }
    {
        let mut uncounted = 0;
        let found = self.files.get(path, &mut uncounted);
        match answer {
            Ok(got) => {
                if !has_file(known, found, got) {
                    return Err(LogFault::OtherAnswer);
                }
                Ok(())
            }
            Err(error) => take_error(fault_of_found(known, found), false, *error),
        }
    }

    /// Takes the answer of a listing.
    fn follow_list(
        &self,
        alloc: Global,
        prefix: &Path,
        after: Option<&Path>,
        limit: u64,
        answer: &Result<Page, StoreError>,
    ) -> Result<(), LogFault>
        ensures { (store : State) → StandsFor self.now store → Follows (requests.List prefix.now (option_copied after.entry) limit) store (replies.List answer.now) result self.now }
    {
        match answer {
            Ok(told) => {
                let mut uncounted = 0;
                let page = self
                    .files
                    .page(alloc, prefix, after, limit, &mut uncounted)?;
                if !same_page(told, &page) {
                    return Err(LogFault::OtherAnswer);
                }
                Ok(())
            }
            Err(error) => take_error(None, false, *error),
        }
    }

    /// Takes the answer of a delete.
    fn follow_delete(&mut self, path: &Path, answer: Result<(), StoreError>) -> Result<(), LogFault>
        ensures { (store : State) → StandsFor self.old store → Follows (requests.Delete path.now) store (replies.Delete answer) result self.new }
    {
        match answer {
            Ok(()) => {
                self.remove(path);
                Ok(())
            }
            Err(error) => take_error(None, false, error),
        }
    }

    /// Takes the reply to a request where an honest store can have given it, and keeps what that store then has.
    ///
    /// # Errors
    ///
    /// Those of [`LogFault`]: then it keeps what it kept.
    pub fn follow(
        &mut self,
        alloc: Global,
        request: &Request,
        reply: &Reply,
    ) -> Result<(), LogFault>
        ensures { (store : State) → StandsFor self.old store → Follows request.now store reply.now result self.new }
    {
        match (request, reply) {
            (Request::Put { path, bytes, mode }, Reply::Put(answer)) => {
                self.follow_put(path, bytes, mode, *answer)
            }
            (
                Request::Get {
                    path,
                    if_none_match,
                },
                Reply::Get(answer),
            ) => self.follow_get(path, *if_none_match, answer),
            (
                Request::List {
                    prefix,
                    after,
                    limit,
                },
                Reply::List(answer),
            ) => self.follow_list(alloc, prefix, after.as_ref(), *limit, answer),
            (Request::Delete { path }, Reply::Delete(answer)) => self.follow_delete(path, *answer),
            _ => Err(LogFault::OtherKind),
        }
    }
}
