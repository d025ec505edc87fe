//! What is copied out to C.
ghost use Rattle.std.specs.Prelude.{◌≡◌};
ghost use Rattle.std.specs.Option.{option_copied};
ghost use Rattle.txn_machine.specs.plain.Doing.{asks_as};
ghost use Rattle.txnobj_c.specs.Copied.{copied_into, bytes_asked, plain_bytes, bytes_answered, ids_answered, bytes_viewed};

use txn_history::event::{Answer, PlainAnswer};
use txn_history::view::View;
use txn_script_lines::values::entry::Entry;
use txn_steps::boundary::ask::Ask;
use txn_store::request::Request;

/// Copies bytes, where there are any, and as many as there is room for. Whether they were copied.
pub(crate) fn copy_bytes(bytes: Option<&[u8]>, out: &mut [u8]) -> bool
    ensures { (result, out.new) ≡ copied_into (option_copied bytes.entry) out.old }
{
    match bytes {
        Some(bytes) if bytes.len() == out.len() => {
            out.copy_from_slice(bytes);
            true
        }
        _ => false,
    }
}

/// The same of ids.
pub(crate) fn copy_ids(ids: Option<&[u64]>, out: &mut [u64]) -> bool
    ensures { (result, out.new) ≡ copied_into (option_copied ids.entry) out.old }
{
    match ids {
        Some(ids) if ids.len() == out.len() => {
            out.copy_from_slice(ids);
            true
        }
        _ => false,
    }
}

/// The bytes that a put is to write, where a put is asked for.
pub(crate) fn bytes_asked(ask: Option<Ask<'_>>) -> Option<&[u8]>
    ensures { option_copied result ≡ bytes_asked (asks_as ask.entry) }
{
    match ask {
        Some(Ask::Store(request)) => match request {
            Request::Put { bytes, .. } => Some(bytes.as_slice()),
            _ => None,
        },
        Some(Ask::Look) => None,
        None => None,
    }
}

/// The bytes of the value that a call without a view was answered.
fn plain_bytes(answer: &PlainAnswer<Entry>) -> Option<&[u8]>
    ensures { option_copied result ≡ plain_bytes answer.now }
{
    match answer {
        PlainAnswer::Read(Some((_, value))) => Some(value.payload.as_slice()),
        PlainAnswer::Value(Some(value)) => Some(value.payload.as_slice()),
        _ => None,
    }
}

/// The bytes of the value that was answered.
pub(crate) fn bytes_answered(answer: Option<&Answer<Entry>>) -> Option<&[u8]>
    ensures { option_copied result ≡ bytes_answered (option_copied answer.entry) }
{
    match answer {
        None => None,
        Some(Answer::Plain(answer)) => plain_bytes(answer),
        Some(Answer::View(_, _, value)) => Some(value.payload.as_slice()),
        Some(Answer::Held(_, _, value, _)) => Some(value.payload.as_slice()),
    }
}

/// The ids that were answered.
pub(crate) fn ids_answered(answer: Option<&Answer<Entry>>) -> Option<&[u64]>
    ensures { option_copied result ≡ ids_answered (option_copied answer.entry) }
{
    match answer {
        Some(Answer::Plain(PlainAnswer::Ids(ids))) => Some(ids.as_slice()),
        _ => None,
    }
}

/// The bytes of a view.
pub(crate) fn bytes_viewed(view: Option<&View<Entry>>) -> Option<&[u8]>
    ensures { option_copied result ≡ bytes_viewed (option_copied view.entry) }
{
    match view {
        Some(view) => Some(view.object.payload.as_slice()),
        None => None,
    }
}
