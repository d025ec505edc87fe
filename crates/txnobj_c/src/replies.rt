//! What the host's store replied. Each error is a number of the store's errors, 0 for none.
ghost use Rattle.std.specs.Prelude.{◌≡◌, IfOk, IfErr};
ghost use Rattle.txn_client_seat.specs.Seats.{IsLook, IsTake, IsGiveUp};
ghost use Rattle.txnobj_c.specs.Clients.{OfClient, Tells, lack_of};
ghost use Rattle.txnobj_c.specs.Listings.{files_reply, listed_reply};
ghost use Rattle.txnobj_c.specs.Numbers.{put_reply, got_reply, deleted_reply};

use crate::calls::{self, lack_reply, take};
use crate::client::Client;
use crate::files::{Listed, bare, files_of};
use crate::numbers::{deleted_of, got_of, put_of};
use std::alloc::Global;
use txn_history::event::EventFault;
use txn_store::request::Reply;

/// The operation looks at its client's caches, as it asks to.
#[unsafe(no_mangle)]
pub extern "C" fn txnobj_look(alloc: Global, client: &mut Client, op: u64) -> u8
    ensures { Tells (λ told. OfClient (IsLook op) client.old.value told client.new.value) result }
{
    calls::look(alloc, client, op)
}

/// The put was answered: it took effect, and the file has this token, or it was refused so.
#[unsafe(no_mangle)]
pub extern "C" fn txnobj_put(
    alloc: Global,
    client: &mut Client,
    op: u64,
    error: u8,
    token: u64,
) -> u8
    ensures { Tells (λ told. OfClient (IsTake op (put_reply error token)) client.old.value told client.new.value) result }
{
    take(alloc, client, op, put_of(error, token))
}

/// The get was answered: the file has these bytes and this token, or it was refused so.
#[unsafe(no_mangle)]
pub extern "C" fn txnobj_got(
    alloc: Global,
    client: &mut Client,
    op: u64,
    error: u8,
    token: u64,
    bytes: &[u8],
) -> u8
    ensures { Tells (λ told. OfClient (IsTake op (got_reply error token bytes.now)) client.old.value told client.new.value) result }
{
    match got_of(alloc, error, token, bytes) {
        Ok(reply) => take(alloc, client, op, reply),
        Err(_) => lack_reply(client, EventFault::NoMemory),
    }
}

/// The reply to a listing of these files, by the names of the client.
fn listing(
    alloc: Global,
    client: &mut Client,
    error: u8,
    files: &[Listed],
    more: bool,
) -> Result<Reply, EventFault>
    ensures client { client.new.value ≡ client.old.value }
    ensures ok { IfOk result (λ reply. reply ≡ files_reply error files.now more) }
    ensures err { IfErr result (λ fault. fault ≡ lack_of client.old.value) }
{
    let Some(seat) = client.take(alloc) else {
        return Err(EventFault::UnknownNumber);
    };
    let reply = files_of(alloc, seat.names(), error, files, more);
    client.put(alloc, seat);
    match reply {
        Ok(reply) => Ok(reply),
        Err(_) => Err(EventFault::NoMemory),
    }
}

/// Takes the reply to a listing of these files.
fn take_listing(
    alloc: Global,
    client: &mut Client,
    op: u64,
    error: u8,
    files: &[Listed],
    more: bool,
) -> u8
    ensures { Tells (λ told. OfClient (IsTake op (files_reply error files.now more)) client.old.value told client.new.value) result }
{
    match listing(alloc, client, error, files, more) {
        Ok(reply) => take(alloc, client, op, reply),
        Err(fault) => lack_reply(client, fault),
    }
}

/// The listing was answered: these versions follow, ascending, and whether more follow them, or it was refused so.
#[unsafe(no_mangle)]
pub extern "C" fn txnobj_listed(
    alloc: Global,
    client: &mut Client,
    op: u64,
    error: u8,
    versions: &[u64],
    more: bool,
) -> u8
    ensures { Tells (λ told. OfClient (IsTake op (listed_reply error versions.now more)) client.old.value told client.new.value) result }
{
    match bare(alloc, versions) {
        Ok(files) => take_listing(alloc, client, op, error, &files, more),
        Err(_) => lack_reply(client, EventFault::NoMemory),
    }
}

/// The listing was answered: the same, with the token and the size of each file, which the rows of a client that is recorded say.
#[unsafe(no_mangle)]
pub extern "C" fn txnobj_listed_files(
    alloc: Global,
    client: &mut Client,
    op: u64,
    error: u8,
    files: &[Listed],
    more: bool,
) -> u8
    ensures { Tells (λ told. OfClient (IsTake op (files_reply error files.now more)) client.old.value told client.new.value) result }
{
    take_listing(alloc, client, op, error, files, more)
}

/// The delete was answered: no file stands there, or it was refused so.
#[unsafe(no_mangle)]
pub extern "C" fn txnobj_deleted(alloc: Global, client: &mut Client, op: u64, error: u8) -> u8
    ensures { Tells (λ told. OfClient (IsTake op (deleted_reply error)) client.old.value told client.new.value) result }
{
    take(alloc, client, op, deleted_of(error))
}

/// An operation is given up, and ends without an answer: a put or a delete that it asks for may still reach the store.
#[unsafe(no_mangle)]
pub extern "C" fn txnobj_give_up(alloc: Global, client: &mut Client, op: u64) -> u8
    ensures { Tells (λ told. OfClient (IsGiveUp op) client.old.value told client.new.value) result }
{
    calls::give_up(alloc, client, op)
}
