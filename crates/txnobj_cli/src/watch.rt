//! Waiting for a version.
ghost use Rattle.std.specs.Prelude.{IfOk};
ghost use Rattle.txnobj_cli.specs.Answers.{PrintsWatched};

use crate::ending::{Halt, NOTHING};
use crate::printed::print_seen;
use std::io::Write;
use std::rt::Clock;
use std::time::Duration;
use txn_folder_files::fault::Fault;
use txn_script_lines::values::entry::Entry;
use txnobj::protocol::TransactionalStorageProtocol;
use txnobj_folder::opening::EntryClient;

/// How long a watch sleeps between two looks, in milliseconds.
const PAUSE: u64 = 100;
/// How often it looks in a second.
const LOOKS: u64 = 10;

/// Whether so many seconds have passed.
fn have_passed(rt: &HostRuntime, began: Duration, seconds: u64) -> Result<bool, Halt> {
    let now = rt.monotonic()?;
    Ok(match now.checked_sub(began) {
        Some(passed) => seconds <= passed.as_secs(),
        None => false,
    })
}

/// Looks for a version above this one until so many seconds have passed, and prints its id and its epoch where there is one.
/// Whether there is.
fn print_watched<W: Write, P: TransactionalStorageProtocol<Entry, Fault = Fault>>(
    rt: &HostRuntime,
    out: &mut W,
    protocol: &mut P,
    after: u64,
    seconds: u64,
) -> Result<bool, Halt>
    ensures { IfOk result (λ seen. PrintsWatched P.made P.stopped P.tells after seen protocol.old protocol.new (W.contents out.old) (W.contents out.new)) }
{
    let began = rt.monotonic()?;
    for _look in 0..seconds.saturating_mul(LOOKS).saturating_add(1) {
        if print_seen(rt.alloc(), out, protocol, after)? {
            return Ok(true);
        }
        if have_passed(rt, began, seconds)? {
            return Ok(false);
        }
        rt.sleep(Duration::from_millis(PAUSE));
    }
    Ok(false)
}

/// Waits for a version above this id: the status.
///
/// # Errors
///
/// As of a look for it ([`print_seen`](crate::printed::print_seen)), and the system's error at its clock.
pub fn watch(
    rt: &HostRuntime,
    client: &mut EntryClient,
    after: u64,
    seconds: u64,
) -> Result<u8, Halt> {
    if print_watched(rt, &mut rt.stdout(), client, after, seconds)? {
        return Ok(0);
    }
    Ok(NOTHING)
}
