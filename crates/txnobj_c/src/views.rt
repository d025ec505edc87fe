//! Views as they stand, and what a client forgets.
ghost use Rattle.std.specs.Prelude.{◌≡◌};
ghost use Rattle.std.specs.Option.{option_copied};
ghost use Rattle.txn_client_seat.specs.Seats.{EndsView, ForgetsOld};
ghost use Rattle.txnobj_c.specs.Clients.{view_in, IsChange};
ghost use Rattle.txnobj_c.specs.Copied.{copied_into, bytes_viewed};
ghost use Rattle.txnobj_c.specs.Told.{viewed};

use crate::calls::{DONE, UNKNOWN};
use crate::client::Client;
use crate::copied::{bytes_viewed, copy_bytes};
use crate::told::{Viewed, view_told};
use std::alloc::Global;
use txn_history::view::View;
use txn_script_lines::values::entry::Entry;

/// Says what a view is; the code of it.
fn say(view: Option<&View<Entry>>, out: &mut Viewed) -> u8
    ensures { (result, out.new) ≡ viewed (option_copied view.entry) out.old }
{
    match view {
        Some(view) => {
            *out = view_told(view);
            DONE
        }
        None => UNKNOWN,
    }
}

/// Says where a view stands. Code 1 for one that is not there or has ended.
#[unsafe(no_mangle)]
pub extern "C" fn txnobj_view(alloc: Global, client: &mut Client, view: u64, out: &mut Viewed) -> u8
    ensures client { client.new.value ≡ client.old.value }
    ensures told { (result, out.new) ≡ viewed (view_in client.old.value view) out.old }
{
    let Some(seat) = client.take(alloc) else {
        return UNKNOWN;
    };
    let code = say(seat.view(view), out);
    client.put(alloc, seat);
    code
}

/// Copies the bytes of a view, into as many bytes as it has. Whether it did.
#[unsafe(no_mangle)]
pub extern "C" fn txnobj_view_bytes(
    alloc: Global,
    client: &mut Client,
    view: u64,
    out: &mut [u8],
) -> bool
    ensures client { client.new.value ≡ client.old.value }
    ensures copied { (result, out.new) ≡ copied_into (bytes_viewed (view_in client.old.value view)) out.old }
{
    let Some(seat) = client.take(alloc) else {
        return false;
    };
    let done = copy_bytes(bytes_viewed(seat.view(view)), out);
    client.put(alloc, seat);
    done
}

/// Lets a view go: it is not there any more. Nothing happens where there is none of this number.
#[unsafe(no_mangle)]
pub extern "C" fn txnobj_end_view(alloc: Global, client: &mut Client, view: u64) -> u8
    ensures { IsChange (λ old new. EndsView old view new) client.old.value result client.new.value }
{
    let Some(mut seat) = client.take(alloc) else {
        return UNKNOWN;
    };
    seat.as_mut().end_view(view);
    client.put(alloc, seat);
    DONE
}

/// Has a client forget what it no longer needs: its operations, where none of them runs, and of the ids that its checked calls
/// answered all but the bases of its views, the greatest, and those of the last answers, so many as are asked for. A write on
/// a base that it forgot is refused.
#[unsafe(no_mangle)]
pub extern "C" fn txnobj_forget(alloc: Global, client: &mut Client, last: usize) -> u8
    ensures { IsChange ForgetsOld client.old.value result client.new.value }
{
    let Some(mut seat) = client.take(alloc) else {
        return UNKNOWN;
    };
    seat.as_mut().forget(last);
    client.put(alloc, seat);
    DONE
}
