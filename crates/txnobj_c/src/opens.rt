//! Clients that are opened and closed.
ghost use Rattle.std.specs.Prelude.{◌≡◌, ◌≤◌, ◌==◌, ◌||◌, None, IfOk};
ghost use Rattle.txn_client_seat.specs.Seats.{new_seat, recorded_seat};
ghost use Rattle.txnobj_c.specs.Clients.{IsOpen, Tells, opened};

use crate::calls::{DONE, NO_MEMORY, UNKNOWN};
use crate::client::Client;
use std::alloc::{AllocError, Global};
use txn_client_seat::seat::Seat;

/// Whether no client has this number, or pages of this size.
fn is_refused(number: u64, page: u64) -> bool
    ensures { result ≡ ((number == 0) || (page == 0)) }
{
    number == 0 || page == 0
}

/// A client that has done nothing, recorded or not. The only error is want of memory.
fn made(alloc: Global, number: u64, page: u64, recorded: bool) -> Result<Seat, AllocError>
    requires some { 1 ≤ number }
    requires paged { 1 ≤ page }
    ensures { IfOk result (λ seat. seat ≡ opened recorded number page) }
{
    if recorded {
        Seat::recorded(alloc, number, page)
    } else {
        Seat::new(alloc, number, page)
    }
}

/// Makes a client in a handle, recorded or not. What the handle held is dropped.
fn open_as(alloc: Global, client: &mut Client, number: u64, page: u64, recorded: bool) -> u8
    ensures { Tells (IsOpen (opened recorded) number page client.old.value client.new.value) result }
{
    if is_refused(number, page) {
        return UNKNOWN;
    }
    let Ok(made) = made(alloc, number, page, recorded) else {
        return NO_MEMORY;
    };
    match Box::new(alloc, made) {
        Ok(seat) => {
            client.put(alloc, seat);
            DONE
        }
        Err(error) => {
            drop(error);
            NO_MEMORY
        }
    }
}

/// Makes a client of this number, at least 1, that has done nothing. Its listings have pages of at most `page` files, at least 1.
/// What the handle held is dropped.
#[unsafe(no_mangle)]
pub extern "C" fn txnobj_open(alloc: Global, client: &mut Client, number: u64, page: u64) -> u8
    ensures { Tells (IsOpen new_seat number page client.old.value client.new.value) result }
{
    open_as(alloc, client, number, page, false)
}

/// Makes such a client that is recorded: its rows wait as lines of a recording, until they are taken off.
#[unsafe(no_mangle)]
pub extern "C" fn txnobj_open_recorded(
    alloc: Global,
    client: &mut Client,
    number: u64,
    page: u64,
) -> u8
    ensures { Tells (IsOpen recorded_seat number page client.old.value client.new.value) result }
{
    open_as(alloc, client, number, page, true)
}

/// Drops a client, where one is: what it asked for may still reach the store.
#[unsafe(no_mangle)]
pub extern "C" fn txnobj_close(alloc: Global, client: &mut Client)
    ensures { client.new.value ≡ None }
{
    drop(client.take(alloc));
}
