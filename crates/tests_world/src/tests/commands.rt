//! What a run of workers prints.
ghost use Rattle.std.specs.Prelude.{◌≤◌};

use std::alloc::{AllocError, AllocGlobal, Global};
use std::str;
use std::sync::Wait;
use std::test::Fail;
use std::thread::Threads;
use txn_client_journals::fault::AuditFault;
use txn_script_lines::stop::Stop;
use txnworld_commands::halt::Halt;
use txnworld_commands::threads::{Report, Tally, run_threads};

/// The number of a line of this name.
fn number_of(line: Option<&str>, name: &str) -> Option<u64> {
    let (first, number) = line?.split_once(' ')?;
    if first == name {
        number.parse().ok()
    } else {
        None
    }
}

/// The length of the history where a text is the six lines of so many workers whose counts and audit agree, and nothing else.
fn history_in(text: &str, workers: u64) -> Option<u64> {
    let calls = Some(workers.saturating_mul(9));
    let mut lines = text.lines();
    let counted = [
        number_of(lines.next(), "workers") == Some(workers),
        number_of(lines.next(), "calls") == calls,
        number_of(lines.next(), "answers") == calls,
    ];
    let history = number_of(lines.next(), "history")?;
    let agree = [
        lines.next() == Some("counts agree"),
        lines.next() == Some("audit ok"),
        lines.next().is_none(),
    ];
    if counted == [true, true, true] && agree == [true, true, true] {
        Some(history)
    } else {
        None
    }
}

/// The length of the history that so many workers leave, where they succeed and nothing is said on the other writer.
fn history_of(rt: &(impl Threads + Wait + Sync + AllocGlobal), workers: u64) -> Option<u64>
    requires some { 1 ≤ workers }
    requires few { workers ≤ 64 }
{
    let mut out = Vec::new(rt.alloc());
    let mut err = Vec::new(rt.alloc());
    let status = run_threads(rt, rt.alloc(), workers, &mut out, &mut err);
    if status != 0 || !err.is_empty() {
        return None;
    }
    history_in(str::from_utf8(&out).ok()?, workers)
}

#[test]
fn workers_of_each_count_agree(rt: HostRuntime) {
    for workers in 1..9u64 {
        // Each worker's four later writes each follow a version of their own, after the first.
        let most = 4 * workers + 1;
        let is_right = matches!(history_of(&rt, workers), Some(it) if 5 <= it && it <= most);
        assert!(rt; is_right, "{workers} workers");
    }
}

/// What a run of two workers prints whose counts differ, and whose audit finds this fault.
fn differing(alloc: Global, fault: AuditFault) -> Result<String, AllocError> {
    let tally = Tally {
        workers: 2,
        calls: 18,
        answers: 18,
        history: 5,
        agree: false,
    };
    let audit = Err(fault);
    let report = Report { tally, audit };
    format!(in alloc; "{report}")
}

/// What is said of runs that halt.
fn halted(alloc: Global) -> Result<String, AllocError> {
    let (worker, lacking) = (Halt::Worker(2), Halt::Stop(Stop::NoMemory));
    format!(in alloc; "{worker}, {lacking}")
}

#[test]
fn what_went_wrong_is_said(rt: HostRuntime) -> Result<(), Fail> {
    let text = differing(rt.alloc(), AuditFault::RowsDiffer)?;
    let want = "workers 2\ncalls 18\nanswers 18\nhistory 5\ncounts differ\naudit fault 3";
    assert_eq!(rt; text.as_str(), want);
    assert_eq!(rt; halted(rt.alloc())?.as_str(), "worker 2 stopped, no memory");
    Ok(())
}
