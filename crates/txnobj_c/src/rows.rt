//! Clients that are recorded: when things happen, and the lines of their rows.
ghost use Rattle.std.specs.Prelude.{◌≡◌};
ghost use Rattle.txn_client_seat.specs.Seats.{IsAsking, at_time};
ghost use Rattle.txnobj_c.specs.Clients.{HandsLines, IsChange, IsCount, IsHanded, OfClient, Tells, TellsCount};

use crate::calls::{DONE, NO_MEMORY, UNKNOWN, asking};
use crate::client::Client;
use std::alloc::Global;
use txn_client_seat::seat::Seat;

/// Says the time of the rows that come next, in nanoseconds of a clock of the host's.
#[unsafe(no_mangle)]
pub extern "C" fn txnobj_at(alloc: Global, client: &mut Client, at: u64) -> u8
    ensures { IsChange (λ old new. new ≡ at_time at old) client.old.value result client.new.value }
{
    let Some(mut seat) = client.take(alloc) else {
        return UNKNOWN;
    };
    seat.as_mut().say_time(at);
    client.put(alloc, seat);
    DONE
}

/// The operation is about to ask the store what it asks for: where the client is recorded, the row of that waits, and is to be
/// written down before the store is called.
#[unsafe(no_mangle)]
pub extern "C" fn txnobj_asking(alloc: Global, client: &mut Client, op: u64) -> u8
    ensures { Tells (λ told. OfClient (IsAsking op) client.old.value told client.new.value) result }
{
    asking(alloc, client, op)
}

/// Says how many bytes the lines have; the code of it.
fn count(alloc: Global, seat: &Seat, len: &mut usize) -> u8
    ensures { IsCount seat.now len.old (result, len.new) }
{
    match seat.lines(alloc) {
        Ok(lines) => {
            *len = lines.as_bytes().len();
            DONE
        }
        Err(_) => NO_MEMORY,
    }
}

/// Says how many bytes the lines have of the rows that wait: 0 where the client is not recorded.
#[unsafe(no_mangle)]
pub extern "C" fn txnobj_rows_len(alloc: Global, client: &mut Client, len: &mut usize) -> u8
    ensures client { client.new.value ≡ client.old.value }
    ensures told { TellsCount client.old.value len.old (result, len.new) }
{
    let Some(seat) = client.take(alloc) else {
        return UNKNOWN;
    };
    let code = count(alloc, seat.as_ref(), len);
    client.put(alloc, seat);
    code
}

/// Copies the lines out, where there is room for exactly these, and lets them go; the code of it.
fn hand_out(alloc: Global, seat: &mut Seat, out: &mut [u8]) -> u8
    ensures { IsHanded seat.old out.old (result, seat.new, out.new) }
{
    let Ok(lines) = seat.lines(alloc) else {
        return NO_MEMORY;
    };
    if lines.as_bytes().len() != out.len() {
        return UNKNOWN;
    }
    out.copy_from_slice(lines.as_bytes());
    seat.let_lines_go();
    DONE
}

/// Copies the lines out of the rows that wait, into as many bytes as they have, and lets the rows go. Code 1 where they have
/// another length.
#[unsafe(no_mangle)]
pub extern "C" fn txnobj_rows_take(alloc: Global, client: &mut Client, out: &mut [u8]) -> u8
    ensures { HandsLines client.old.value out.old result client.new.value out.new }
{
    let Some(mut seat) = client.take(alloc) else {
        return UNKNOWN;
    };
    let code = hand_out(alloc, seat.as_mut(), out);
    client.put(alloc, seat);
    code
}
