//! The unchecked calls, which stand beside those of the client.
ghost use Rattle.txn_client_seat.specs.Seats.{IsReadBegin, IsDeleteBegin};
ghost use Rattle.txnobj_c.specs.Clients.{OfClient, TellsNumber};

use crate::calls::tell_number;
use crate::client::Client;
use std::alloc::Global;
use txn_history::event::EventFault;

/// Begins an unchecked read of the newest version beside the client.
fn begin_read(alloc: Global, client: &mut Client) -> Result<u64, EventFault>
    ensures { OfClient IsReadBegin client.old.value result client.new.value }
{
    let Some(mut seat) = client.take(alloc) else {
        return Err(EventFault::UnknownNumber);
    };
    let told = seat.as_mut().read_latest_unchecked();
    client.put(alloc, seat);
    told
}

/// Begins an unchecked delete beside the client.
fn begin_delete(alloc: Global, client: &mut Client, id: u64) -> Result<u64, EventFault>
    ensures { OfClient (IsDeleteBegin id) client.old.value result client.new.value }
{
    let Some(mut seat) = client.take(alloc) else {
        return Err(EventFault::UnknownNumber);
    };
    let told = seat.as_mut().delete_unchecked(id);
    client.put(alloc, seat);
    told
}

/// Reads the newest version, whatever the boundary is. Answered READ or READ_NONE.
#[unsafe(no_mangle)]
pub extern "C" fn txnobj_read_latest_unchecked(
    alloc: Global,
    client: &mut Client,
    op: &mut u64,
) -> u8
    ensures { TellsNumber (λ told. OfClient IsReadBegin client.old.value told client.new.value) op.old result op.new }
{
    tell_number(begin_read(alloc, client), op)
}

/// Removes the version of this id, whatever the boundary is. Answered DONE.
#[unsafe(no_mangle)]
pub extern "C" fn txnobj_delete_unchecked(
    alloc: Global,
    client: &mut Client,
    id: u64,
    op: &mut u64,
) -> u8
    ensures { TellsNumber (λ told. OfClient (IsDeleteBegin id) client.old.value told client.new.value) op.old result op.new }
{
    tell_number(begin_delete(alloc, client, id), op)
}
