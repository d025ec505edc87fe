//! Many versions: a large store.
use bytes::Bytes;
use std::alloc::Global;
use std::test::Fail;
use txn_store::in_memory::InMemory;
use txn_store::path::{Path, PathFault};
use txn_store::store::{ObjectStore, PutMode};
use txn_store::version_names::VersionNames;

/// How many versions there are.
const MANY: u64 = 100_000;

const PAGE: u64 = 1000;

fn names(alloc: Global) -> Result<VersionNames, PathFault> {
    VersionNames::new(alloc, Path::from_text(alloc, "root/test")?, "val")
}

/// Puts so many versions.
fn put_all(
    alloc: Global,
    names: &VersionNames,
    store: &mut InMemory,
    count: u64,
) -> Result<(), Fail> {
    for number in 0..count {
        let path = names.path_for(alloc, number)?;
        let _ = store.put(&path, &Bytes::from_static(b"a value"), &PutMode::Create)?;
    }
    Ok(())
}

/// How many pages and files the listing of all versions has, of fewer than 1,000 pages.
fn listed(alloc: Global, names: &VersionNames, store: &mut InMemory) -> Result<(u64, usize), Fail> {
    let mut after = None;
    let mut files = 0usize;
    for pages in 1..1000u64 {
        let page = store.list(alloc, names.dir(), after.as_ref(), PAGE)?;
        files = files.saturating_add(page.metas.as_slice().len());
        if !page.more {
            return Ok((pages, files));
        }
        if let Some(last) = page.metas.as_slice().last() {
            after = Some(last.location.try_clone()?);
        }
    }
    Err("a listing goes on")?
}

/// Gets and removes all versions, the oldest first.
fn remove_all(alloc: Global, names: &VersionNames, store: &mut InMemory) -> Result<(), Fail> {
    for number in 0..MANY {
        let path = names.path_for(alloc, number)?;
        let _ = store.get(&path, None)?;
        store.delete(&path)?;
    }
    Ok(())
}

#[test]
fn a_hundred_thousand_versions(rt: HostRuntime) -> Result<(), Fail> {
    let names = names(rt.alloc())?;
    let mut store = InMemory::new(rt.alloc());
    put_all(rt.alloc(), &names, &mut store, MANY)?;
    assert_eq!(rt; listed(rt.alloc(), &names, &mut store)?, (100, 100_000));
    remove_all(rt.alloc(), &names, &mut store)?;
    assert_eq!(rt; listed(rt.alloc(), &names, &mut store)?, (1, 0));
    Ok(())
}

/// How many stored paths are compared at most by a get of one of so many versions or of the next, and by a listing after it.
fn most_compared(
    alloc: Global,
    names: &VersionNames,
    store: &mut InMemory,
    count: u64,
) -> Result<(u64, u64), Fail> {
    let (mut got, mut listed) = (0u64, 0u64);
    for number in 0..=count {
        let path = names.path_for(alloc, number)?;
        let _ = store.get(&path, None).is_ok();
        got = got.max(store.compared());
        drop(store.list(alloc, names.dir(), Some(&path), 1)?);
        listed = listed.max(store.compared());
    }
    Ok((got, listed))
}

#[test]
fn few_paths_are_compared(rt: HostRuntime) -> Result<(), Fail> {
    let names = names(rt.alloc())?;
    let mut store = InMemory::new(rt.alloc());
    assert_eq!(rt; most_compared(rt.alloc(), &names, &mut store, 0)?, (0, 0));
    put_all(rt.alloc(), &names, &mut store, 1000)?;
    let (got, listed) = most_compared(rt.alloc(), &names, &mut store, 1000)?;
    assert!(rt; got <= 10 && listed <= 20, "{got} and {listed}");
    Ok(())
}
