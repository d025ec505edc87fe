//! A run of clients on threads that share only a store, each with a diary, and the audit of what they leave.

ghost use Rattle.std.specs.Prelude.{◌≤◌, IfOk, IfErr};
ghost use Rattle.txnworld_commands.specs.Tallies.{IsHaltOf};
ghost use Rattle.txnworld_commands.specs.Audits.{AreClients, Audits, IsAudited};

use crate::halt::Halt;
use crate::workers::work_off;
use std::alloc::{AllocError, Global};
use std::sync::{Mutex, Wait};
use std::thread::Threads;
use txn_audit::diaries::audit_diaries;
use txn_client_journals::fault::AuditFault;
use txn_client_journals::logged::LoggedStore;
use txn_diary::diary::Diary;
use txn_script_lines::record::{Record, RecordCodec, RecordEpoch};
use txn_store::types::layout::PAGE;

type Records = Diary<Record, RecordCodec, RecordEpoch>;

/// Clients of the numbers from 1 on that have done nothing.
fn clients(alloc: Global, workers: u64) -> Result<Vec<Records>, AllocError>
    ensures { IfOk result (λ clients. AreClients workers clients.items) }
{
    let mut clients = Vec::new(alloc);
    for before in 0..workers {
        let client = Diary::new(alloc, before + 1, RecordCodec, RecordEpoch, PAGE)?;
        clients.push(client)?;
    }
    Ok(clients)
}

/// What an audit finds of a store's log and the diaries of its clients.
fn audited(store: &LoggedStore, workers: u64, diaries: &[Records]) -> Result<(), AuditFault>
    requires { AreClients workers diaries.now }
    ensures { Audits workers store.now diaries.now result }
{
    audit_diaries(PAGE, &RecordCodec, &RecordEpoch, store, diaries)
}

/// Lets so many clients work at the same time that share only a store, and audits their diaries.
pub(crate) fn run_diaries<R: Threads + Wait + Sync>(
    rt: &R,
    alloc: Global,
    workers: u64,
) -> Result<Result<(), AuditFault>, Halt>
    requires some { 1 ≤ workers }
    requires few { workers ≤ 64 }
    ensures audited { IfOk result (IsAudited workers) }
    ensures halt { IfErr result (IsHaltOf workers) }
{
    let store = Mutex::new(LoggedStore::new(alloc));
    let diaries = work_off(rt, alloc, &store, clients(alloc, workers)?)?;
    Ok(audited(&store.into_inner(), workers, &diaries))
}
