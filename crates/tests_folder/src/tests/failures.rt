//! Each call of the system failing in turn, before its effect or after it.

use crate::tests::failing::{Failing, never_failing};
use crate::tests::scenes::verdict;
use crate::tests::steps::{folder_of, play};
use crate::tests::watched::Log;
use std::alloc::AllocError;
use std::cell::Cell;
use std::io::ErrorKind;
use std::test::Fail;
use std::{fs, io};

/// What stands before each case.
const BEFORE: &str = "create 1 0:1 = put
create boundary 1 = put
";

/// A call with what it is answered where nothing fails, what shows then that it took effect, and what that it did not.
type Case = (&'static str, &'static str, &'static str);

const CASES: &[Case] = &[
    (
        "create 2 0:2 = put\n",
        "get 2 = got 0:2\nlist 5 = listed 1 2\n",
        "get 2 = not found\nlist 5 = listed 1\n",
    ),
    (
        "create 1 0:2 = already exists\n",
        "get 1 = got 0:1\n",
        "get 1 = got 0:1\n",
    ),
    (
        "overwrite 1 0:3 = put\n",
        "get 1 = got 0:3\n",
        "get 1 = got 0:1\n",
    ),
    (
        "update boundary 1 2 = put\n",
        "get boundary = got 2\n",
        "get boundary = got 1\n",
    ),
    (
        "update boundary 0 2 = precondition\n",
        "get boundary = got 1\n",
        "get boundary = got 1\n",
    ),
    (
        "delete 1 = deleted\n",
        "get 1 = not found\n",
        "get 1 = got 0:1\n",
    ),
    (
        "delete 2 = deleted\n",
        "get 2 = not found\n",
        "get 2 = not found\n",
    ),
    (
        "get 1 = got 0:1\n",
        "get 1 = got 0:1\n",
        "get 1 = got 0:1\n",
    ),
    (
        "get boundary = got 1\n",
        "get boundary = got 1\n",
        "get boundary = got 1\n",
    ),
    (
        "list 5 = listed 1\n",
        "get 1 = got 0:1\n",
        "get 1 = got 0:1\n",
    ),
];

/// How many calls of the system are let fail in turn.
const CALLS: u64 = 16;

/// How a call went of which one call of the system failed.
#[derive(Clone, Copy, PartialEq, Eq)]
enum Outcome {
    /// It was answered as if nothing had failed.
    Done,
    /// It was answered `Failed`.
    Failed,
    /// It was answered otherwise.
    Wrong,
}

/// How a table is played whose only call may fail.
fn outcome_of(
    rt: Failing<'_>,
    root: &str,
    syncs: bool,
    table: &str,
) -> Result<Outcome, AllocError> {
    let mut text = String::new(rt.alloc());
    play(rt, root, syncs, table, &mut text)?;
    Ok(if text.as_str() == table {
        Outcome::Done
    } else if text.as_str().ends_with(" = failed\n") {
        Outcome::Failed
    } else {
        Outcome::Wrong
    })
}

/// Whether all calls of a table are answered so.
fn are_told(rt: &HostRuntime, root: &str, table: &str) -> Result<bool, AllocError> {
    let left = Cell::new(u64::MAX);
    let log = Log::new(rt.alloc(), root);
    let outcome = outcome_of(never_failing(rt, &left, &log), root, false, table)?;
    Ok(outcome == Outcome::Done)
}

/// How a call goes of which one call of the system fails.
fn failing(
    rt: &HostRuntime,
    root: &str,
    table: &str,
    nth: u64,
    after: bool,
) -> Result<Outcome, AllocError> {
    let left = Cell::new(nth);
    let log = Log::new(rt.alloc(), root);
    let failing = Failing {
        after,
        ..never_failing(rt, &left, &log)
    };
    outcome_of(failing, root, true, table)
}

/// How a case goes: `Wrong` where the call is told otherwise than what the folder holds.
fn went(
    rt: &HostRuntime,
    root: &str,
    case: &Case,
    nth: u64,
    after: bool,
) -> Result<Outcome, AllocError> {
    let (table, done, undone) = *case;
    if !are_told(rt, root, BEFORE)? {
        return Ok(Outcome::Wrong);
    }
    let outcome = failing(rt, root, table, nth, after)?;
    let is_right = match outcome {
        Outcome::Done => are_told(rt, root, done)?,
        Outcome::Failed => are_told(rt, root, done)? || are_told(rt, root, undone)?,
        Outcome::Wrong => false,
    };
    Ok(if is_right { outcome } else { Outcome::Wrong })
}

/// The same in a folder of its own.
fn went_alone(rt: &HostRuntime, case: &Case, nth: u64, after: bool) -> io::Result<Outcome> {
    let root = folder_of(rt, "fails")?;
    fs::create_dir(rt, root.as_str())?;
    let went = went(rt, root.as_str(), case, nth, after);
    let _ = fs::remove_dir_all(rt, root.as_str());
    Ok(went?)
}

/// How often a case is answered `Failed`. Where it is told wrong, it is written.
fn failures(rt: &HostRuntime, case: &Case, after: bool, wrong: &mut String) -> io::Result<u64> {
    let mut failed: u64 = 0;
    for nth in 0..CALLS {
        match went_alone(rt, case, nth, after)? {
            Outcome::Done => {}
            Outcome::Failed => failed = failed.saturating_add(1),
            Outcome::Wrong => wrong.push_str(case.0)?,
        }
    }
    Ok(failed)
}

/// Lets calls of the system fail before their effect and after it, and writes the cases that are told wrong. More than thirty
/// calls have to be answered `Failed`.
fn fail_each(rt: &HostRuntime, wrong: &mut String) -> io::Result<()> {
    let mut failed: u64 = 0;
    for case in CASES {
        let before = failures(rt, case, false, wrong)?;
        let after = failures(rt, case, true, wrong)?;
        failed = failed.saturating_add(before).saturating_add(after);
    }
    if failed <= 30 {
        wrong.push_str("too few calls failed")?;
    }
    Ok(())
}

#[test]
fn each_call_of_the_system_fails(rt: HostRuntime) -> Result<(), Fail> {
    let mut wrong = String::new(rt.alloc());
    let done = fail_each(&rt, &mut wrong);
    verdict(done, wrong.as_str())
}

/// Gets whose file is none any more as it is opened, after it was found, as a network can have it: each looks it up anew.
const LOOKED_UP_ANEW: &[&str] = &["get 1 = got 0:1\n", "get boundary = got 1\n"];

/// The call of the system, in a get, that opens the file.
const OPENS: u64 = 1;

/// How a get goes whose file is none any more as it is opened.
fn stale(rt: &HostRuntime, root: &str, table: &str) -> Result<Outcome, AllocError> {
    let left = Cell::new(OPENS);
    let log = Log::new(rt.alloc(), root);
    let failing = Failing {
        kind: ErrorKind::StaleNetworkFileHandle,
        ..never_failing(rt, &left, &log)
    };
    outcome_of(failing, root, false, table)
}

/// Plays these gets, and writes those that are answered otherwise than if nothing had happened.
fn look_up_anew(rt: &HostRuntime, root: &str, wrong: &mut String) -> Result<(), AllocError> {
    if !are_told(rt, root, BEFORE)? {
        wrong.push_str(BEFORE)?;
    }
    for table in LOOKED_UP_ANEW {
        if stale(rt, root, table)? != Outcome::Done {
            wrong.push_str(table)?;
        }
    }
    Ok(())
}

/// The same in a folder of its own.
fn look_up_anew_alone(rt: &HostRuntime, wrong: &mut String) -> io::Result<()> {
    let root = folder_of(rt, "stale")?;
    fs::create_dir(rt, root.as_str())?;
    let done = look_up_anew(rt, root.as_str(), wrong);
    let _ = fs::remove_dir_all(rt, root.as_str());
    Ok(done?)
}

#[test]
fn stale_files_are_looked_up_anew(rt: HostRuntime) -> Result<(), Fail> {
    let mut wrong = String::new(rt.alloc());
    let done = look_up_anew_alone(&rt, &mut wrong);
    verdict(done, wrong.as_str())
}
