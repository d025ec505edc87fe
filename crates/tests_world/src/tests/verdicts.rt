//! What an audit finds of clients that wrote and read, and of others beside them or in their places.
ghost use Rattle.std.specs.Prelude.{◌≡◌, ◌≤◌, IfOk, length, vec_len};

use crate::tests::workers::ONE;
use std::alloc::{AllocError, AllocGlobal, Global};
use std::sync::{Mutex, Wait};
use std::test::Fail;
use txn_audit::audit::audit;
use txn_client_journals::logged::{LoggedStore, serve_shared};
use txn_diary::diary::Diary;
use txn_history::event::{Call, EventFault, PlainCall, Told};
use txn_script_lines::record::{Record, RecordCodec, RecordEpoch};
use txn_store::path::Path;
use txn_store::request::Request;
use txn_store::types::layout::PAGE;
use txn_world_threads::gate::FreeGate;
use txn_world_threads::jobs::Job;
use txn_world_threads::work::work;

pub(crate) type Records = Diary<Record, RecordCodec, RecordEpoch>;

/// The number of the fault that an audit finds, 0 where it agrees.
pub(crate) fn verdict(store: &LoggedStore, diaries: &[Records]) -> u8 {
    match audit(store, diaries) {
        Ok(()) => 0,
        Err(fault) => fault.number(),
    }
}

/// A client that has done nothing.
pub(crate) fn client(alloc: Global, number: u64) -> Result<Records, AllocError>
    requires { 1 ≤ number }
{
    Diary::new(alloc, number, RecordCodec, RecordEpoch, PAGE)
}

/// A client that read and wrote once.
fn worked(
    rt: &(impl Wait + AllocGlobal),
    store: &Mutex<LoggedStore>,
    number: u64,
) -> Result<Records, AllocError>
    requires { 1 ≤ number }
{
    let diary = client(rt.alloc(), number)?;
    Ok(work(rt, store, diary, &mut FreeGate, &[Job::WriteOnRead(ONE)]).caller)
}

/// The diaries of a new client 3, of clients 1 and 2, each of which read and wrote once, and of a new client 1.
fn diaries(
    rt: &(impl Wait + AllocGlobal),
    store: &Mutex<LoggedStore>,
) -> Result<Vec<Records>, AllocError>
    ensures { IfOk result (λ diaries. vec_len diaries ≡ 4) }
{
    let mut diaries = Vec::new(rt.alloc());
    diaries.push(client(rt.alloc(), 3)?)?;
    diaries.push(worked(rt, store, 1)?)?;
    diaries.push(worked(rt, store, 2)?)?;
    diaries.push(client(rt.alloc(), 1)?)?;
    Ok(diaries)
}

/// What an audit finds of clients 1 and 2, of client 1 alone, of both with a new client 1, and of both with a new client 3.
fn verdicts(store: &LoggedStore, diaries: &[Records]) -> [u8; 4]
    requires { length diaries.now ≡ 4 }
{
    [
        verdict(store, &diaries[1..3]),
        verdict(store, &diaries[1..2]),
        verdict(store, &diaries[1..4]),
        verdict(store, &diaries[0..3]),
    ]
}

/// Has the store serve one call for client 1, which does not note it.
fn serve_unnoted(
    rt: &(impl Wait + AllocGlobal),
    store: &Mutex<LoggedStore>,
) -> Result<(), AllocError> {
    let request = Request::List {
        prefix: Path::root(rt.alloc()),
        after: None,
        limit: 1,
    };
    drop(serve_shared(rt, rt.alloc(), store, 1, &request)?);
    Ok(())
}

/// What an audit finds of clients 1 and 2 in the place of a new store's clients.
fn of_new_store(rt: &impl AllocGlobal, diaries: &[Records]) -> u8
    requires { length diaries.now ≡ 4 }
{
    verdict(&LoggedStore::new(rt.alloc()), &diaries[1..3])
}

/// What an audit finds of clients 1 and 2 once the store served a call that client 1 did not note.
fn after_unnoted(
    rt: &(impl Wait + AllocGlobal),
    store: &Mutex<LoggedStore>,
    diaries: &[Records],
) -> Result<u8, AllocError>
    requires { length diaries.now ≡ 4 }
{
    serve_unnoted(rt, store)?;
    Ok(verdict(&store.lock(rt), &diaries[1..3]))
}

/// How many answers and receipts a client has.
fn counts(alloc: Global, diary: &Records) -> Result<[usize; 2], AllocError> {
    let answers = diary.answers(alloc)?.len();
    let receipts = diary.receipts(alloc)?.len();
    Ok([answers, receipts])
}

/// All these verdicts, and how many answers and receipts client 1 has.
fn found(
    rt: &(impl Wait + AllocGlobal),
    store: &Mutex<LoggedStore>,
) -> Result<([u8; 4], u8, u8, [usize; 2]), AllocError> {
    let diaries = diaries(rt, store)?;
    let counts = counts(rt.alloc(), &diaries[1]);
    let found = verdicts(&store.lock(rt), &diaries);
    let of_new_store = of_new_store(rt, &diaries);
    let after = after_unnoted(rt, store, &diaries)?;
    Ok((found, of_new_store, after, counts?))
}

#[test]
fn audits_find_what_is_missing_twice_or_different(rt: HostRuntime) -> Result<(), Fail> {
    let store = Mutex::new(LoggedStore::new(rt.alloc()));
    // Client 1 reads nothing by one listing, and its write is a create and a get of the boundary.
    assert_eq!(rt; found(&rt, &store)?, ([0, 2, 1, 0], 3, 3, [2, 3]));
    Ok(())
}

/// What a client is told that begins a read and gives it up.
fn given_up(diary: &mut Records) -> [Result<Told<Record>, EventFault>; 2] {
    [diary.begin(Call::Plain(PlainCall::Read)), diary.give_up(1)]
}

#[test]
fn a_client_is_told_that_it_gave_up(rt: HostRuntime) -> Result<(), Fail> {
    let told = given_up(&mut client(rt.alloc(), 1)?);
    assert!(rt; matches!(told, [Ok(Told::Began(1)), Ok(Told::GaveUp(1))]));
    Ok(())
}
