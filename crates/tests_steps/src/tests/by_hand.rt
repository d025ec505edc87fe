//! Reads and checks to which a hand makes the replies, as of a store whose listing lies, which none does that keeps its
//! contract.
use crate::tests::fits::{fits_check, fits_latest, fits_read};
use crate::tests::operations::holds;
use crate::tests::place::a_layout;
use crate::tests::told::Told::{Did, Fails, GoesOn, Newest};
use crate::tests::told::{Told, said};
use bytes::Bytes;
use std::alloc::Global;
use std::test::Fail;
use txn_steps::boundary::ask::Ask;
use txn_steps::boundary::caches::{CachedBoundary, Caches};
use txn_steps::boundary::check::CheckOp;
use txn_steps::latest::LatestOp;
use txn_steps::read::ReadOp;
use txn_store::page::{Listing, Page};
use txn_store::path::Path;
use txn_store::request::Reply;
use txn_store::store::{Got, ObjectMeta, StoreError, Token};
use txn_store::types::id::MonotonicId;
use txn_store::types::layout::{Layout, PAGE};
use txn_store::types::test_utils::NumberCodec;

/// A reply that is made up.
#[derive(Clone, Copy)]
enum Made {
    /// A get finds these bytes.
    Finds(&'static [u8]),
    /// A get finds no file.
    Misses,
    /// A get finds no file, and this boundary was cached since it was asked for.
    MissesAt(u64),
    /// A get finds the file as it was known.
    NotModified,
    /// A listing tells the file of this path alone, or none.
    Lists(Option<&'static str>),
}

use Made::{Finds, Lists, Misses, MissesAt, NotModified};

/// The token of whatever is made up.
fn a_token() -> Token {
    Token::new(9)
}

/// A page of one file at most.
fn a_page(alloc: Global, told: Option<&str>) -> Result<Page, Fail> {
    let mut metas = Vec::new(alloc);
    if let Some(path) = told {
        metas.push(ObjectMeta {
            location: Path::from_text(alloc, path)?,
            size: 8,
            token: a_token(),
        })?;
    }
    Ok(Page {
        metas: Listing::from_vec(metas),
        more: false,
    })
}

fn reply_of(alloc: Global, made: Made) -> Result<Reply, Fail> {
    Ok(match made {
        Made::Finds(bytes) => Reply::Get(Ok(Got {
            bytes: Bytes::from_static(bytes),
            token: a_token(),
        })),
        Made::Misses | Made::MissesAt(_) => Reply::Get(Err(StoreError::NotFound)),
        Made::NotModified => Reply::Get(Err(StoreError::NotModified)),
        Made::Lists(told) => Reply::List(Ok(a_page(alloc, told)?)),
    })
}

/// Whether it is a call of the store, and not a look.
fn is_call(ask: Ask<'_>) -> bool {
    match ask {
        Ask::Store(_) => true,
        Ask::Look => false,
    }
}

/// A read or a check that a hand drives.
#[derive(Drop)]
enum Read {
    /// One that no boundary checks.
    Unchecked(LatestOp<u64>),
    Checked(ReadOp<u64>),
    /// A check alone.
    Check(CheckOp),
}

impl Read {
    /// Whether it asks for a call of the store, and not for a look.
    fn calls(&self) -> bool {
        match self {
            Read::Unchecked(op) => is_call(op.ask()),
            Read::Checked(op) => is_call(op.ask()),
            Read::Check(op) => is_call(op.ask()),
        }
    }

    /// Takes a reply, or none for a look, and says its answer, or that it goes on. What it didn't ask for is a failure.
    fn turn(
        &mut self,
        alloc: Global,
        layout: &Layout<NumberCodec>,
        caches: &mut Caches,
        reply: Option<Reply>,
    ) -> Result<Told, Fail> {
        match self {
            Read::Unchecked(op) if fits_latest(op, &reply) => {
                Ok(said(op.take(alloc, layout, &mut caches.latest, reply)))
            }
            Read::Checked(op) if fits_read(op, &reply) => {
                Ok(said(op.take(alloc, layout, caches, reply)))
            }
            Read::Check(op) if fits_check(op, &reply) => Ok(said(op.take(caches, reply))),
            _ => of_another_kind(reply),
        }
    }
}

/// It drops the reply.
fn of_another_kind(_reply: Option<Reply>) -> Result<Told, Fail> {
    Err("a reply of another kind")?
}

/// The reply to a call, or none to a look.
fn replied(alloc: Global, calls: bool, made: Option<Made>) -> Result<Option<Reply>, Fail> {
    match (calls, made) {
        (false, _) => Ok(None),
        (true, Some(made)) => Ok(Some(reply_of(alloc, made)?)),
        (true, None) => Err("no reply is left")?,
    }
}

/// What is cached before a reply comes, where that is told.
fn cache_before(caches: &mut Caches, reply: Option<&Made>) {
    if let Some(MissesAt(number)) = reply {
        caches.boundary = Some(CachedBoundary {
            number: *number,
            token: a_token(),
        });
    }
}

/// What a read says in the end, and how many calls of the store and how many looks it took.
type Played = (Told, usize, u64);

/// How many steps a read has at most.
const STEPS: u64 = 40;

/// Drives a read to its answer, and drops it.
fn drive(
    alloc: Global,
    layout: &Layout<NumberCodec>,
    caches: &mut Caches,
    op: Read,
    made: &[Made],
) -> Result<Played, Fail> {
    let mut op = op;
    drive_on(alloc, layout, caches, &mut op, made)
}

/// The same, of a read that its caller drops.
fn drive_on(
    alloc: Global,
    layout: &Layout<NumberCodec>,
    caches: &mut Caches,
    op: &mut Read,
    made: &[Made],
) -> Result<Played, Fail> {
    let (mut calls, mut looks) = (0usize, 0u64);
    for _ in 1..STEPS {
        let reply = replied(alloc, op.calls(), made.get(calls).copied())?;
        if reply.is_some() {
            cache_before(caches, made.get(calls));
            calls = calls.saturating_add(1);
        } else {
            looks = looks.saturating_add(1);
        }
        let told = op.turn(alloc, layout, caches, reply)?;
        if told != GoesOn {
            return Ok((told, calls, looks));
        }
    }
    Err("it goes on")?
}

const FIRST: &str = "root/test/00000000000000000001.val";

const SECOND: &str = "root/test/00000000000000000002.val";

/// The bytes of 10.
const TEN: &[u8] = &[0, 0, 0, 0, 0, 0, 0, 10];

/// An unchecked read of the newest version with these replies, and whether these ids are cached then.
fn latest(
    alloc: Global,
    caches: &mut Caches,
    made: &[Made],
    ids: &[u64],
) -> Result<(Played, bool), Fail> {
    let layout = a_layout(alloc, PAGE, NumberCodec)?;
    let op = Read::Unchecked(LatestOp::start());
    let played = drive(alloc, &layout, caches, op, made)?;
    Ok((played, holds(&caches.latest, ids)))
}

#[test]
fn test_latest_read_invalidates_cache_when_list_is_empty(rt: HostRuntime) -> Result<(), Fail> {
    let mut caches = Caches::new();
    let made = [Lists(Some(FIRST)), Finds(TEN)];
    let found = latest(rt.alloc(), &mut caches, &made, &[1])?;
    assert_eq!(rt; found, ((Newest(Some((1, 10))), 2, 3), true));
    // It finds four successors, and nothing is listed.
    let made = [Finds(TEN), Finds(TEN), Finds(TEN), Finds(TEN), Lists(None)];
    let found = latest(rt.alloc(), &mut caches, &made, &[])?;
    assert_eq!(rt; found, ((Newest(None), 5, 7), true));
    Ok(())
}

/// A read of the newest version with these replies, and whether these ids are cached then.
fn newest(alloc: Global, made: &[Made], ids: &[u64]) -> Result<(Played, bool), Fail> {
    let layout = a_layout(alloc, PAGE, NumberCodec)?;
    let mut caches = Caches::new();
    let op = Read::Checked(ReadOp::start(&layout)?);
    let played = drive(alloc, &layout, &mut caches, op, made)?;
    Ok((played, holds(&caches.latest, ids)))
}

#[test]
fn test_try_read_latest_retries_missing_listed_file(rt: HostRuntime) -> Result<(), Fail> {
    let made = [
        Lists(Some(FIRST)),
        Misses,
        Lists(Some(SECOND)),
        Finds(TEN),
        // There is no boundary.
        Misses,
    ];
    let found = newest(rt.alloc(), &made, &[2])?;
    assert_eq!(rt; found, ((Newest(Some((2, 10))), 5, 6), true));
    Ok(())
}

/// A check of id 1 to whose get a hand replies so, and the boundary that is cached then.
fn checked(alloc: Global, made: Made) -> Result<(Played, Option<u64>), Fail> {
    let layout = a_layout(alloc, PAGE, NumberCodec)?;
    let mut caches = Caches::new();
    let op = Read::Check(CheckOp::start(&layout, MonotonicId::new(1))?);
    let played = drive(alloc, &layout, &mut caches, op, &[made])?;
    Ok((played, caches.boundary.map(|known| known.number)))
}

#[test]
fn a_check_takes_the_boundary_of_its_get(rt: HostRuntime) -> Result<(), Fail> {
    // Nothing is cached that could be as it was.
    let found = checked(rt.alloc(), NotModified)?;
    assert_eq!(rt; found, ((Fails(7), 1, 3), None));
    // What was cached meanwhile stays, and is not what the get says.
    let found = checked(rt.alloc(), MissesAt(2))?;
    assert_eq!(rt; found, ((Did, 1, 2), Some(2)));
    Ok(())
}
