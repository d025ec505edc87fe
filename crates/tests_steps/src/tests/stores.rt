//! What paths are made of texts, and what stores answer, count and compare.
use bytes::Bytes;
use std::alloc::{AllocError, Global};
use std::test::Fail;
use txn_store::failing::{Counts, FailingStore, When};
use txn_store::in_memory::InMemory;
use txn_store::path::{Path, PathFault};
use txn_store::store::{ObjectStore, PutMode, StoreError, Token};

/// How a path is made.
#[derive(Clone, Copy)]
enum Made {
    Root,
    /// This segment is joined to the root.
    Joined(&'static str),
    /// It is read of this text.
    Read(&'static str),
}

use Made::{Joined, Read, Root};

/// Paths, and what each shows.
const PATHS: &[(Made, &str)] = &[
    (Read("/root//test/"), "root/test"),
    (Read("a/../b"), "BadSegment"),
    (Joined("x/y"), "BadSegment"),
    (Joined(""), "BadSegment"),
    (Joined("+0000000000000000001.val"), "BadSegment"),
    (Root, ""),
];

fn path_of(alloc: Global, made: Made) -> Result<Path, PathFault> {
    match made {
        Root => Ok(Path::root(alloc)),
        Joined(segment) => Path::root(alloc).join(segment),
        Read(text) => Path::from_text(alloc, text),
    }
}

fn shown(alloc: Global, made: Made) -> Result<String, AllocError> {
    match path_of(alloc, made) {
        Ok(path) => format!(in alloc; "{path}"),
        Err(fault) => format!(in alloc; "{fault:?}"),
    }
}

#[test]
fn paths_show_their_segments(rt: HostRuntime) -> Result<(), Fail> {
    for (made, want) in PATHS {
        assert_eq!(rt; shown(rt.alloc(), *made)?.as_str(), *want);
    }
    Ok(())
}

/// A call under a path: a create, or else a get.
type Call = (&'static str, bool);

/// The token that a call is answered.
fn answer<S: ObjectStore>(store: &mut S, path: &Path, creates: bool) -> Result<Token, StoreError> {
    if creates {
        return store.put(path, &Bytes::from_static(b"x"), &PutMode::Create);
    }
    Ok(store.get(path, None)?.token)
}

/// The tokens that calls are answered, in a row.
fn answers<S: ObjectStore>(
    alloc: Global,
    store: &mut S,
    calls: &[Call],
) -> Result<String, PathFault> {
    let mut text = String::new(alloc);
    for (path, creates) in calls {
        let answer = answer(store, &Path::from_text(alloc, path)?, *creates);
        text.push_str(format!(in alloc; "{answer:?} ")?.as_str())?;
    }
    Ok(text)
}

#[test]
fn a_file_that_stands_is_told_before_tokens_that_ran_out(rt: HostRuntime) -> Result<(), Fail> {
    let mut store = InMemory::from_token(rt.alloc(), u64::MAX);
    let calls = [("a", true), ("b", true), ("a", true)];
    let want = "Ok(Token(18446744073709551615)) Err(TokensExhausted) Err(AlreadyExists) ";
    assert_eq!(rt; answers(rt.alloc(), &mut store, &calls)?.as_str(), want);
    Ok(())
}

#[test]
fn a_call_that_fails_after_its_effect_counts(rt: HostRuntime) -> Result<(), Fail> {
    let mut store = FailingStore::new(InMemory::new(rt.alloc()), 2, When::After);
    let calls = [("a", true), ("b", true), ("b", false)];
    let want = "Ok(Token(1)) Err(Failed) Ok(Token(2)) ";
    assert_eq!(rt; answers(rt.alloc(), &mut store, &calls)?.as_str(), want);
    let counts = Counts {
        puts: 2,
        gets: 1,
        lists: 0,
        deletes: 0,
    };
    assert_eq!(rt; store.counts(), counts);
    Ok(())
}
