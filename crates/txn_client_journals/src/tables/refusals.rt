//! Why what a client does is refused, as far as its operations and views tell.
ghost use Rattle.std.specs.Prelude.{◌≡◌, None, Some, is_some, if◌then◌else◌};
ghost use Rattle.txn_history.specs.Allowed.{ask_fault, id_seen, may_use, base_seen};
ghost use Rattle.std.specs.Option.{option_copied};
ghost use Rattle.txn_history.specs.Seen.{view_of};
ghost use Rattle.txn_history.specs.declared.event.EventFault.TheVariants.{UnknownNumber};
ghost use Rattle.txn_machine.specs.plain.Doing.{asks_as};
ghost use Rattle.txn_client_journals.specs.tables.Views.{seen_with};

use crate::tables::views::{ViewTable, get};
use txn_history::event::{Call, EventFault, PlainCall, ViewCall};
use txn_history::view::View;
use txn_steps::boundary::ask::Ask;

/// Why an operation that asks for this is refused a look, or a store call: it has ended, or asks for the other.
#[inline(always)]
pub fn ask_refusal(store: bool, ask: Option<Ask<'_>>) -> Option<EventFault>
    ensures { result ≡ ask_fault store (asks_as ask.entry) }
{
    match ask {
        None => Some(EventFault::UnknownNumber),
        Some(Ask::Store(_)) if store => None,
        Some(Ask::Look) if !store => None,
        Some(Ask::Store(_)) => Some(EventFault::NotAsked),
        Some(Ask::Look) => Some(EventFault::NotAsked),
    }
}

/// Why what asks for this is refused to be given up: it has ended.
pub fn end_refusal(ask: Option<Ask<'_>>) -> Option<EventFault>
    ensures { result ≡ (if is_some (asks_as ask.entry) then None else Some UnknownNumber) }
{
    match ask {
        None => Some(EventFault::UnknownNumber),
        Some(Ask::Store(_)) => None,
        Some(Ask::Look) => None,
    }
}

/// The view of this number, as a test of views sees it.
fn seen<T, V: ViewTable<T>>(views: &V, number: u64) -> Option<&View<T>>
    ensures { option_copied result ≡ view_of (seen_with (V.views views.now)) number }
{
    get(views, number)
}

/// Whether the client may use the view of a call, if it has one: it is the client's own, and a holder exactly where the
/// call is a holder's.
pub fn may_use<T, V: ViewTable<T>>(views: &V, client: u64, holders: bool, view: Option<u64>) -> bool
    ensures { result ≡ may_use (seen_with (V.views views.now)) client holders view }
{
    let Some(number) = view else {
        return true;
    };
    match seen(views, number) {
        Some(view) => view.client == client && holders == view.epoch.is_some(),
        None => false,
    }
}

/// Where the view of this number stands, if it does.
fn id_at<T, V: ViewTable<T>>(views: &V, number: u64) -> Option<u64>
    ensures { result ≡ id_seen (seen_with (V.views views.now)) (Some number) }
{
    Some(seen(views, number)?.id)
}

/// The base that a call writes on: an update's is where its view stands.
pub fn base<T, V: ViewTable<T>>(views: &V, call: &Call<T>) -> Option<u64>
    ensures { result ≡ base_seen (seen_with (V.views views.now)) call.now }
{
    match call {
        Call::Plain(PlainCall::Write(base, _)) => *base,
        Call::Plain(PlainCall::WriteUnchecked(base, _)) => *base,
        Call::View(ViewCall::Update(view, _)) => id_at(views, *view),
        Call::View(ViewCall::HolderUpdate(view, _)) => id_at(views, *view),
        _ => None,
    }
}
