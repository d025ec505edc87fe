//! What is done to the client of a handle.
ghost use Rattle.std.specs.Prelude.{◌≡◌};
ghost use Rattle.txn_history.specs.Allowed.{fault_number};
ghost use Rattle.txn_client_seat.specs.Seats.{IsAsking, IsBegin, IsLook, IsTake, IsGiveUp};
ghost use Rattle.txnobj_c.specs.Clients.{OfClient, Tells, TellsNumber, code_of, number_in};

use crate::client::Client;
use std::alloc::Global;
use txn_history::event::{Call, EventFault};
use txn_script_lines::values::entry::Entry;
use txn_store::request::Reply;

/// It is done.
pub(crate) const DONE: u8 = 0;
/// There is no client, or nothing of this number.
pub(crate) const UNKNOWN: u8 = 1;
/// A growth was refused.
pub(crate) const NO_MEMORY: u8 = 7;

/// Begins a call of the client.
fn begin_of(alloc: Global, client: &mut Client, call: &Call<Entry>) -> Result<u64, EventFault>
    ensures { OfClient (IsBegin call.now) client.old.value result client.new.value }
{
    let Some(mut seat) = client.take(alloc) else {
        return Err(EventFault::UnknownNumber);
    };
    let told = seat.as_mut().begin(call);
    client.put(alloc, seat);
    told
}

/// Has an operation of the client look.
fn look_of(alloc: Global, client: &mut Client, op: u64) -> Result<(), EventFault>
    ensures { OfClient (IsLook op) client.old.value result client.new.value }
{
    let Some(mut seat) = client.take(alloc) else {
        return Err(EventFault::UnknownNumber);
    };
    let told = seat.as_mut().look(op);
    client.put(alloc, seat);
    told
}

/// Has the row wait of what an operation of the client is about to ask.
fn asking_of(alloc: Global, client: &mut Client, op: u64) -> Result<(), EventFault>
    ensures { OfClient (IsAsking op) client.old.value result client.new.value }
{
    let Some(mut seat) = client.take(alloc) else {
        return Err(EventFault::UnknownNumber);
    };
    let told = seat.as_mut().asking(op);
    client.put(alloc, seat);
    told
}

/// Hands an operation of the client a reply.
fn take_of(alloc: Global, client: &mut Client, op: u64, reply: Reply) -> Result<(), EventFault>
    ensures { OfClient (IsTake op reply) client.old.value result client.new.value }
{
    let Some(mut seat) = client.take(alloc) else {
        drop(reply);
        return Err(EventFault::UnknownNumber);
    };
    let told = seat.as_mut().take(op, reply);
    client.put(alloc, seat);
    told
}

/// Gives an operation of the client up.
fn give_up_of(alloc: Global, client: &mut Client, op: u64) -> Result<(), EventFault>
    ensures { OfClient (IsGiveUp op) client.old.value result client.new.value }
{
    let Some(mut seat) = client.take(alloc) else {
        return Err(EventFault::UnknownNumber);
    };
    let told = seat.as_mut().give_up(op);
    client.put(alloc, seat);
    told
}

/// The code of what was told.
fn code(told: Result<(), EventFault>) -> u8
    ensures { result ≡ code_of told }
{
    match told {
        Ok(()) => DONE,
        Err(fault) => fault.number(),
    }
}

/// What was told of a begin: its code, and the operation's number where it began.
pub(crate) fn tell_number(told: Result<u64, EventFault>, op: &mut u64) -> u8
    ensures code { result ≡ code_of told }
    ensures number { op.new ≡ number_in told op.old }
{
    match told {
        Ok(number) => {
            *op = number;
            DONE
        }
        Err(fault) => fault.number(),
    }
}

/// Begins a call: its code, and the operation's number where it began.
pub(crate) fn begin(alloc: Global, client: &mut Client, call: &Call<Entry>, op: &mut u64) -> u8
    ensures { TellsNumber (λ told. OfClient (IsBegin call.now) client.old.value told client.new.value) op.old result op.new }
{
    tell_number(begin_of(alloc, client, call), op)
}

/// Has an operation look: the code.
pub(crate) fn look(alloc: Global, client: &mut Client, op: u64) -> u8
    ensures { Tells (λ told. OfClient (IsLook op) client.old.value told client.new.value) result }
{
    code(look_of(alloc, client, op))
}

/// Has the row wait of what an operation is about to ask: the code.
pub(crate) fn asking(alloc: Global, client: &mut Client, op: u64) -> u8
    ensures { Tells (λ told. OfClient (IsAsking op) client.old.value told client.new.value) result }
{
    code(asking_of(alloc, client, op))
}

/// Hands an operation a reply: the code.
pub(crate) fn take(alloc: Global, client: &mut Client, op: u64, reply: Reply) -> u8
    ensures { Tells (λ told. OfClient (IsTake op reply) client.old.value told client.new.value) result }
{
    code(take_of(alloc, client, op, reply))
}

/// Gives an operation up: the code.
pub(crate) fn give_up(alloc: Global, client: &mut Client, op: u64) -> u8
    ensures { Tells (λ told. OfClient (IsGiveUp op) client.old.value told client.new.value) result }
{
    code(give_up_of(alloc, client, op))
}

/// Memory was wanting for what a call writes: the code, and nothing has changed.
pub(crate) fn lack_value(client: &mut Client, op: &mut u64) -> u8
    ensures client { client.new.value ≡ client.old.value }
    ensures number { op.new ≡ op.old }
    ensures code { result ≡ 7 }
{
    let _ = client;
    let _ = op;
    NO_MEMORY
}

/// The reply was not made, for this fault: its code, and nothing has changed.
pub(crate) fn lack_reply(client: &mut Client, fault: EventFault) -> u8
    ensures client { client.new.value ≡ client.old.value }
    ensures code { result ≡ fault_number fault }
{
    let _ = client;
    fault.number()
}
