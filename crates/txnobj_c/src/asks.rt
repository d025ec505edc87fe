//! What an operation asks for.
ghost use Rattle.std.specs.Prelude.{◌≡◌};
ghost use Rattle.txnobj_c.specs.Clients.{asked_in};
ghost use Rattle.txnobj_c.specs.Copied.{copied_into, bytes_asked};
ghost use Rattle.txnobj_c.specs.Asking.{TellsAsked};

use crate::calls::{DONE, UNKNOWN};
use crate::client::Client;
use crate::copied::{bytes_asked, copy_bytes};
use crate::told::{Asked, ask_told};
use std::alloc::Global;

/// Says what an operation asks for: nothing, where it is not there or has ended.
#[unsafe(no_mangle)]
pub extern "C" fn txnobj_asked(alloc: Global, client: &mut Client, op: u64, out: &mut Asked) -> u8
    ensures client { client.new.value ≡ client.old.value }
    ensures told { TellsAsked client.old.value op out.old result out.new }
{
    let Some(seat) = client.take(alloc) else {
        return UNKNOWN;
    };
    *out = ask_told(seat.names(), seat.asks(op));
    client.put(alloc, seat);
    DONE
}

/// Copies the bytes of the put that is asked for, into as many bytes as it has. Whether it did.
#[unsafe(no_mangle)]
pub extern "C" fn txnobj_asked_bytes(
    alloc: Global,
    client: &mut Client,
    op: u64,
    out: &mut [u8],
) -> bool
    ensures client { client.new.value ≡ client.old.value }
    ensures copied { (result, out.new) ≡ copied_into (bytes_asked (asked_in client.old.value op)) out.old }
{
    let Some(seat) = client.take(alloc) else {
        return false;
    };
    let done = copy_bytes(bytes_asked(seat.asks(op)), out);
    client.put(alloc, seat);
    done
}
