//! Growths that are refused: whatever a client, or the store's log, could not make room for, an audit agrees.
ghost use Rattle.std.specs.Prelude.{◌≤◌};

use crate::tests::verdicts::{Records, client, verdict};
use crate::tests::workers::ONE;
use std::alloc::{AllocError, AllocGlobal, Global};
use std::sync::{Mutex, Wait};
use std::test::Fail;
use txn_client_journals::logged::LoggedStore;
use txn_history::event::{Call, EventFault, PlainCall, Told};
use txn_script_lines::record::Record;

/// The call that a client makes: a write of the first version, or a read.
fn call(writes: bool) -> Call<Record> {
    if writes {
        Call::Plain(PlainCall::Write(None, ONE))
    } else {
        Call::Plain(PlainCall::Read)
    }
}

/// Begins a call, once more where a growth was refused.
fn begun(diary: &mut Records, writes: bool) -> Result<Told<Record>, EventFault> {
    match diary.begin(call(writes)) {
        Err(EventFault::NoMemory) => diary.begin(call(writes)),
        told => told,
    }
}

/// Steps an operation, once more where a growth was refused.
fn stepped(
    rt: &impl Wait,
    store: &Mutex<LoggedStore>,
    diary: &mut Records,
    op: u64,
) -> Result<Told<Record>, EventFault> {
    match diary.step(rt, store, op) {
        Err(EventFault::NoMemory) => diary.step(rt, store, op),
        told => told,
    }
}

/// Makes a call, and says whether it was answered, be it for want of memory.
fn calls(rt: &impl Wait, store: &Mutex<LoggedStore>, diary: &mut Records, writes: bool) -> bool {
    let Ok(Told::Began(op)) = begun(diary, writes) else {
        return false;
    };
    for _ in 0..50 {
        match stepped(rt, store, diary, op) {
            Ok(Told::Went(_)) => {}
            Ok(Told::Answered(_, _)) => return true,
            _ => return false,
        }
    }
    false
}

/// A client that has done nothing, made once more where a growth was refused.
fn client_again(alloc: Global, number: u64) -> Result<Records, AllocError>
    requires { 1 ≤ number }
{
    match client(alloc, number) {
        Ok(diary) => Ok(diary),
        Err(_) => client(alloc, number),
    }
}

/// Whether each call of two clients that write and read was answered, and what an audit finds.
fn found(rt: &(impl Wait + AllocGlobal)) -> Result<(bool, u8), AllocError> {
    let store = Mutex::new(LoggedStore::new(rt.alloc()));
    let mut first = client_again(rt.alloc(), 1)?;
    let mut second = client_again(rt.alloc(), 2)?;
    let answered = calls(rt, &store, &mut first, true)
        && calls(rt, &store, &mut second, true)
        && calls(rt, &store, &mut second, false)
        && calls(rt, &store, &mut first, false);
    let diaries = [first, second];
    let found = verdict(&store.lock(rt), &diaries);
    Ok((answered, found))
}

#[test]
fn audits_agree_whichever_growth_is_refused(rt: HostRuntime) -> Result<(), Fail> {
    assert_eq!(rt; found(&rt)?, (true, 0));
    Ok(())
}
