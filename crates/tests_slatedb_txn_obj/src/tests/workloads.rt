//! The workloads of `txnbench`: wrong answers, and that each is measured.
use slatedb_txn_obj_uses::bench::run_command;
use slatedb_txn_obj_uses::calls::{list_all, read_newest, update_versions};
use slatedb_txn_obj_uses::command::Command;
use slatedb_txn_obj_uses::fault::{Fault, Halt};
use slatedb_txn_obj_uses::setting::{Setting, load_claim, load_newest};
use slatedb_txn_obj_uses::workload::Workload;
use std::alloc::{AllocError, Global};
use std::str;
use std::test::Fail;
use txn_store::path::Path;

/// A workload, what is said of its calls where two versions stand, and what where another one is taken as the newest. The
/// claim is the last, since it writes a version.
const SAID: &[(Workload, &str, &str)] = &[
    (
        Workload::Update,
        "object version exists",
        "object version exists",
    ),
    (Workload::ReadWarm, "done", "wrong answer"),
    (Workload::LoadCold100, "done", "wrong answer"),
    (Workload::List10000, "done", "wrong answer"),
    (Workload::LoadClaimFresh, "done", "wrong answer"),
];

/// Calls of a workload below a root, where this version is taken as the newest.
fn call_below(
    alloc: Global,
    root: &Path,
    setting: &mut Setting,
    workload: Workload,
    newest: u64,
) -> Result<(), Fault> {
    let Setting {
        protocol,
        store,
        ..
    } = setting;
    match workload {
        Workload::Update => Ok(update_versions(alloc, protocol, store, newest)?),
        Workload::ReadWarm => read_newest(protocol, store, newest),
        Workload::LoadCold100 => load_newest(alloc, root, store, newest),
        Workload::List10000 => list_all(protocol, store, newest),
        Workload::LoadClaimFresh => load_claim(alloc, root, store, newest),
    }
}

/// The same below the root of the workloads.
fn call(
    alloc: Global,
    setting: &mut Setting,
    workload: Workload,
    newest: u64,
) -> Result<(), Fault> {
    let root = Path::from_text(alloc, "bench")?;
    call_below(alloc, &root, setting, workload, newest)
}

/// How a workload's calls are told, by the line of what stopped them where they stopped.
fn line_of(
    alloc: Global,
    workload: Workload,
    answer: Result<(), Fault>,
) -> Result<String, AllocError> {
    match answer {
        Ok(()) => format!(in alloc; "{workload}: done"),
        Err(fault) => format!(in alloc; "{}", Halt { workload, fault }),
    }
}

/// Whether this is said of a workload's calls.
fn is_said(
    alloc: Global,
    setting: &mut Setting,
    workload: Workload,
    newest: u64,
    said: &str,
) -> Result<bool, AllocError> {
    let line = line_of(alloc, workload, call(alloc, setting, workload, newest))?;
    Ok(line.as_str() == format!(in alloc; "{workload}: {said}")?.as_str())
}

/// The first workload of which something else is said.
fn first_other(
    alloc: Global,
    setting: &mut Setting,
    newest: u64,
) -> Result<Option<Workload>, AllocError> {
    for (workload, right, wrong) in SAID {
        let said = if newest == 2 { right } else { wrong };
        if !is_said(alloc, setting, *workload, newest, said)? {
            return Ok(Some(*workload));
        }
    }
    Ok(None)
}

/// The same, where two versions stand.
fn other_of_two(alloc: Global, newest: u64) -> Result<Option<Workload>, Fail> {
    let mut setting = Setting::new(alloc, 2)?;
    Ok(first_other(alloc, &mut setting, newest)?)
}

#[test]
fn another_newest_version_is_a_wrong_answer(rt: HostRuntime) -> Result<(), Fail> {
    for newest in 1..4 {
        assert_eq!(rt; other_of_two(rt.alloc(), newest)?, None);
    }
    Ok(())
}

// A figure of 0 would be of no call. What the lines are else is in the contract of `run_command`.
#[test]
fn run_prints_a_figure_for_each_workload(rt: HostRuntime) {
    let mut out = Vec::new(rt.alloc());
    let mut err = Vec::new(rt.alloc());
    let status = run_command(&rt, rt.alloc(), Command::Run, &mut out, &mut err);
    let is_above = matches!(str::from_utf8(&out), Ok(text) if !text.contains(" 0\n"));
    assert!(rt; status == 0 && is_above);
}
