//! Whether the landings of a log are of what its clients left.
ghost use Rattle.std.specs.Prelude.{◌≡◌, List, Option, Some, None, Decides, map, false, if◌then◌else◌};
ghost use Rattle.std.specs.Option.{option_copied};
ghost use Rattle.txn_store.specs.MemoryServes.{lacks_memory};
ghost use Rattle.txn_history.specs.Seen.{Store};
ghost use Rattle.txn_history.specs.GoesOn.{may_be_loose};
ghost use Rattle.txn_client_journals.specs.Journals.{left_by, left_among, left_in};
ghost use Rattle.txn_client_journals.specs.Verdict.{AuditedDiary, journal_of, stops_at, left_at, WasLeft, WereLeft};

use txn_client_journals::audited::Audited;
use txn_client_journals::rows::{Act, JournalRow, Left, LogRow, Step};
use txn_client_journals::same::same_request;
use txn_store::request::{Reply, Request};
use txn_store::store::StoreError;

/// Whether a request is a put or a delete, which may still land where its operation has ended.
fn may_land(request: &Request) -> bool
    ensures { may_be_loose (Store request.now) ≡ (if result then Some request.now else None) }
{
    match request {
        Request::Put { .. } => true,
        Request::Delete { .. } => true,
        Request::Get { .. } => false,
        Request::List { .. } => false,
    }
}

/// What an act leaves, if it leaves something.
fn left_by(act: &Act) -> Option<&Request>
    ensures { option_copied result ≡ left_by act.now }
{
    match act {
        Act::Look => None,
        Act::Receive(_) => None,
        Act::Lacks => None,
        Act::GiveUp(left) => left.as_ref(),
        Act::Fails(request) => {
            if may_land(request) {
                Some(request)
            } else {
                None
            }
        }
    }
}

/// Whether a step takes a receipt of this place in the log, or of a later one.
fn stops_at<T>(place: u64, step: &Step<T>) -> bool
    ensures { result ≡ stops_at place step.now }
{
    match step {
        Step::Act(_, Act::Receive(receipt)) => !(receipt.place < place),
        _ => false,
    }
}

/// What an operation left by a kill that left these, or this.
fn left_among<'a>(op: u64, lefts: &'a [Left], found: Option<&'a Request>) -> Option<&'a Request>
    ensures { option_copied result ≡ left_among op lefts.now (option_copied found.entry) }
{
    for left in lefts {
        if left.op == op {
            return Some(&left.request);
        }
    }
    found
}

/// What an operation has left after this step, where it had left this before.
fn left_in<'a, T>(op: u64, step: &'a Step<T>, found: Option<&'a Request>) -> Option<&'a Request>
    ensures { option_copied result ≡ left_in op step.now (option_copied found.entry) }
{
    match step {
        Step::Act(at, act) => match left_by(act) {
            Some(request) => { if *at == op { Some(request) } else { found } }
            None => found,
        },
        Step::Killed(lefts) => left_among(op, lefts, found),
        Step::Begin(_) => found,
    }
}

/// What the operation left in the rows before the first receipt of this place in the log, or of a later one.
fn left_at<T>(place: u64, op: u64, rows: &[JournalRow<T>]) -> Option<&Request>
    ensures { option_copied result ≡ left_at place op None rows.now }
{
    let mut found = None;
    for row in rows {
        if stops_at(place, &row.step) {
            return found;
        }
        found = left_in(op, &row.step, found);
    }
    found
}

/// Whether the operation left this request there.
fn is_left<T>(place: u64, op: u64, request: &Request, rows: &[JournalRow<T>]) -> bool
    ensures { Decides result (left_at place op None rows.now ≡ Some request.now) }
{
    match left_at(place, op, rows) {
        Some(left) => same_request(left, request),
        None => false,
    }
}

/// Whether this client's diary says that the operation left this request there.
fn has_left<T, D: Audited<T>>(
    place: u64,
    client: u64,
    op: u64,
    request: &Request,
    diaries: &[D],
) -> bool
    ensures { Decides result (left_at place op None (journal_of (map D.diary diaries.now) client) ≡ Some request.now) }
{
    for diary in diaries {
        if diary.client() == client {
            return is_left(place, op, request, diary.rows());
        }
    }
    false
}

/// Whether the store refused the call for want of memory.
fn lacks_memory(reply: &Reply) -> bool
    ensures { result ≡ lacks_memory reply.now }
{
    match reply {
        Reply::Put(Err(StoreError::NoMemory)) => true,
        Reply::Get(Err(StoreError::NoMemory)) => true,
        Reply::List(Err(StoreError::NoMemory)) => true,
        Reply::Delete(Err(StoreError::NoMemory)) => true,
        _ => false,
    }
}

/// Whether a row of the log is no landing, or one of what its client had left.
fn was_left<T, D: Audited<T>>(place: u64, row: &LogRow, diaries: &[D]) -> bool
    ensures { Decides result (WasLeft place row.now row.now.landed (map D.diary diaries.now)) }
{
    match row.landed {
        None => true,
        Some(op) => {
            !lacks_memory(&row.reply) && has_left(place, row.client, op, &row.request, diaries)
        }
    }
}

/// Whether each landing of the log is of what its client had left before.
pub fn were_left<T, D: Audited<T>>(log: &[LogRow], diaries: &[D]) -> bool
    ensures { Decides result (WereLeft 0 log.now (map D.diary diaries.now)) }
{
    for place in 0..log.len() {
        if !was_left(place as u64, &log[place], diaries) {
            return false;
        }
    }
    true
}
