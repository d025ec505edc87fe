//! What a call uses and writes.
ghost use Rattle.std.specs.Prelude.{◌≡◌};
ghost use Rattle.std.specs.Option.{option_copied};
ghost use Rattle.txn_history.specs.Calls.{view_used, is_holders, value_written};

use txn_history::event::{Call, PlainCall, ViewCall};

/// The view that a call uses.
pub fn view_used<T>(call: &Call<T>) -> Option<u64>
    ensures { result ≡ view_used call.now }
{
    match call {
        Call::View(ViewCall::Refresh(view)) => Some(*view),
        Call::View(ViewCall::Update(view, _)) => Some(*view),
        Call::View(ViewCall::Claim(view)) => Some(*view),
        Call::View(ViewCall::ClaimAt(view, _)) => Some(*view),
        Call::View(ViewCall::HolderRefresh(view)) => Some(*view),
        Call::View(ViewCall::HolderUpdate(view, _)) => Some(*view),
        _ => None,
    }
}

/// Whether a call is a holder's.
pub fn is_holders<T>(call: &Call<T>) -> bool
    ensures { result ≡ is_holders call.now }
{
    matches!(
        call,
        Call::View(ViewCall::HolderRefresh(_) | ViewCall::HolderUpdate(..))
    )
}

/// The value that a call asks to write on its base, but for a holder's.
pub fn value_written<T>(call: &Call<T>) -> Option<&T>
    ensures { option_copied result ≡ value_written call.now }
{
    match call {
        Call::Plain(PlainCall::Write(_, value)) => Some(value),
        Call::Plain(PlainCall::WriteUnchecked(_, value)) => Some(value),
        Call::View(ViewCall::Update(_, value)) => Some(value),
        _ => None,
    }
}
