//! What calls saw of versions that stood.

use crate::calls::{Asked, version_of};
use bytes::Bytes;
use std::alloc::{AllocError, Global};
use std::collections::{BTreeMap, HashMap};
use txn_store::page::Page;
use txn_store::request::{Reply, Request};
use txn_store::store::Token;

/// What a call saw of a version that stood.
#[derive(Clone, Copy)]
pub(crate) enum Seen<'a> {
    /// Its bytes.
    Bytes(&'a Bytes),
    /// How many bytes it has.
    Size(u64),
    /// No more than that it stood.
    Stood,
}

/// A version that a call saw, with its token.
#[derive(Clone, Copy)]
pub(crate) struct Sight<'a> {
    pub id: u64,
    pub token: u64,
    pub seen: Seen<'a>,
    /// When the call was asked, and when its reply was there.
    pub at: u64,
    pub until: u64,
}

/// Adds that a call saw a version so, where the file was one, with this token.
fn add_sight<'a>(
    sights: &mut Vec<Sight<'a>>,
    call: &Asked<'a>,
    id: Option<u64>,
    token: Token,
    seen: Seen<'a>,
) -> Result<(), AllocError> {
    if let Some(id) = id {
        sights.push(Sight {
            id,
            token: token.number(),
            seen,
            at: call.from,
            until: call.until,
        })?;
    }
    Ok(())
}

/// Adds what one call saw in a page.
fn add_page<'a>(
    sights: &mut Vec<Sight<'a>>,
    call: &Asked<'a>,
    page: &Page,
) -> Result<(), AllocError> {
    for meta in page.metas.as_slice() {
        let seen = Seen::Size(meta.size);
        add_sight(sights, call, version_of(&meta.location), meta.token, seen)?;
    }
    Ok(())
}

/// Adds what one call saw.
fn add_sights<'a>(sights: &mut Vec<Sight<'a>>, call: &Asked<'a>) -> Result<(), AllocError> {
    match (call.request, call.reply) {
        (Request::Get { path, .. }, Some(Reply::Get(Ok(got)))) => {
            add_sight(
                sights,
                call,
                version_of(path),
                got.token,
                Seen::Bytes(&got.bytes),
            )
        }
        (_, Some(Reply::List(Ok(page)))) => add_page(sights, call, page),
        _ => Ok(()),
    }
}

/// What all calls saw: first what gets saw, which tell bytes, then what listings saw.
pub(crate) fn sights<'a>(alloc: Global, calls: &[Asked<'a>]) -> Result<Vec<Sight<'a>>, AllocError> {
    let mut sights = Vec::new(alloc);
    for call in calls {
        if let Request::Get { .. } = call.request {
            add_sights(&mut sights, call)?;
        }
    }
    for call in calls {
        if let Request::List { .. } = call.request {
            add_sights(&mut sights, call)?;
        }
    }
    Ok(sights)
}

/// Of each version and token that no life has, what was seen first of these, by when the first reply was there that told it.
fn first_of<'a>(
    alloc: Global,
    sights: &[Sight<'a>],
    of_token: &HashMap<(u64, u64), usize>,
) -> Result<BTreeMap<(u64, u64), Sight<'a>>, AllocError> {
    let mut first: BTreeMap<(u64, u64), Sight<'a>> = BTreeMap::new(alloc);
    for sight in sights {
        let key = (sight.id, sight.token);
        if !of_token.contains_key(&key) {
            let seen = first.get(&key).copied().unwrap_or(*sight);
            let until = seen.until.min(sight.until);
            first.insert(key, Sight { until, ..seen })?;
        }
    }
    Ok(first)
}

/// What calls saw of versions and tokens that no life has, each once, by when the first reply was there that told it: in that order, since
/// what made the one that was told first cannot have been asked later.
pub(crate) fn first_sights<'a>(
    alloc: Global,
    sights: &[Sight<'a>],
    of_token: &HashMap<(u64, u64), usize>,
) -> Result<Vec<Sight<'a>>, AllocError> {
    let first = first_of(alloc, sights, of_token)?;
    let mut unmade = Vec::new(alloc);
    for sight in first.values() {
        unmade.push(*sight)?;
    }
    unmade.sort_by_key(|sight| sight.until)?;
    Ok(unmade)
}
