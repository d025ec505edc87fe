//! The recorded calls, and the rows of a log that they are.
ghost use Rattle.std.specs.Option.{option_map};
ghost use Rattle.std.specs.Prelude.{◌≡◌, ◌<◌, ◌+◌, ℕ, true, None, Some, IfOk, IfSome, IfNone, length, map, slice_get};
ghost use Rattle.txn_store.specs.declared.request.Reply.{Reply};
ghost use Rattle.txn_store.specs.declared.request.Request.{Request};
ghost use Rattle.txn_audit_recordings.specs.declared.row.RecordedRow.TheVariants as kinds;
ghost use Rattle.txn_audit.specs.recordings.Calls.{EndsWith, HasCall, IsCall};
ghost use Rattle.txn_audit.specs.recordings.Places.{seen_reply, as_call, IsReplied};

use crate::recordings::refusal::Refusal;
use txn_audit_order::order::CallPlace;
use txn_audit_recordings::row::RecordedRow;
use txn_client_journals::rows::LogRow;
use txn_store::request::{Reply, Request};

/// A recorded call: where it is, its client, its operation, when and what it asked, and its reply where one was seen, with the
/// time.
#[derive(Clone, Copy)]
pub(crate) struct RecordedCall<'a> {
    pub place: CallPlace,
    pub client: u64,
    pub op: u64,
    pub asked: u64,
    pub request: &'a Request,
    pub reply: Option<(u64, &'a Reply)>,
}

/// The client that the first row names, and its page.
fn named_by<T>(rows: &[RecordedRow<T>]) -> Option<(u64, u64)>
    ensures { IfSome result (λ named. slice_get rows.now 0 ≡ Some (kinds.Client named.0 named.1)) }
{
    match rows.first() {
        Some(RecordedRow::Client(client, page)) => Some((*client, *page)),
        _ => None,
    }
}

/// The operation that asks in a row, when, and what.
fn asked_at<T>(rows: &[RecordedRow<T>], place: usize) -> Option<(u64, u64, &Request)>
    ensures some { IfSome result (λ asked. slice_get rows.now place ≡ Some (kinds.Ask asked.0 asked.1 asked.2.now)) }
    ensures none { IfNone result ((op at : ℕ) (request : Request) → slice_get rows.now place ≡ Some (kinds.Ask op at request) → ⊥) }
    ensures within { IfSome result (λ asked. place < length rows.now) }
{
    match rows.get(place) {
        Some(RecordedRow::Ask(op, at, request)) => Some((*op, *at, request)),
        _ => None,
    }
}

/// The reply to an operation that the row behind its call has, and when it was there.
fn reply_of<T>(next: Option<&RecordedRow<T>>, op: u64) -> Option<(u64, &Reply)>
    ensures { EndsWith (option_map (λ row. row.now) next.entry) op (seen_reply result) }
{
    match next {
        Some(RecordedRow::Reply(of, at, reply)) => {
            if *of == op { Some((*at, reply)) } else { None }
        }
        _ => None,
    }
}

/// The reply to the call of the row at this place, and when it was there.
fn reply_after<T>(rows: &[RecordedRow<T>], place: usize, op: u64) -> Option<(u64, &Reply)>
    requires { place < length rows.now }
    ensures { EndsWith (slice_get rows.now (place + 1)) op (seen_reply result) }
{
    reply_of(rows.get(place + 1), op)
}

/// The recorded call at a place.
pub(crate) fn recorded<T>(
    recordings: &[Vec<RecordedRow<T>>],
    call: CallPlace,
) -> Option<RecordedCall<'_>>
    ensures has { IfSome result (λ found. HasCall (map (λ rows. rows.items) recordings.now) (as_call found)) }
    ensures place { IfSome result (λ found. found.place ≡ call) }
{
    let rows = recordings.get(call.recording)?.as_slice();
    let (client, _) = named_by(rows)?;
    let (op, asked, request) = asked_at(rows, call.row)?;
    Some(RecordedCall {
        place: call,
        client,
        op,
        asked,
        request,
        reply: reply_after(rows, call.row, op),
    })
}

/// The row of the log that a call is: a landing where nobody saw its reply. None where it landed and has a reply, or neither.
pub(crate) fn log_row(
    recorded: RecordedCall<'_>,
    landed: Option<Reply>,
) -> Result<Option<LogRow>, Refusal>
    ensures { IfOk result (λ row. IfSome row (IsCall (as_call recorded.entry))) }
{
    let request = recorded.request.try_clone()?;
    match (landed, recorded.reply) {
        (Some(reply), None) => Ok(Some(LogRow {
            client: recorded.client,
            request,
            reply,
            landed: Some(recorded.op),
        })),
        (None, Some((_, reply))) => Ok(Some(LogRow {
            client: recorded.client,
            request,
            reply: reply.try_clone()?,
            landed: None,
        })),
        _ => Ok(None),
    }
}

/// Whether a row asks, and its reply stands behind it.
pub(crate) fn is_replied<T>(rows: &[RecordedRow<T>], place: usize) -> bool
    ensures { IsReplied rows.now place → result ≡ true }
{
    match asked_at(rows, place) {
        Some((op, _, _)) => reply_after(rows, place, op).is_some(),
        None => false,
    }
}
