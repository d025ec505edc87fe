//! The calls: each begins an operation.
ghost use Rattle.std.specs.Prelude.{◌≡◌};
ghost use Rattle.txn_client_seat.specs.Seats.{IsBegin};
ghost use Rattle.txnobj_c.specs.Clients.{OfClient, TellsNumber};
ghost use Rattle.txnobj_c.specs.Numbers.{based, bounded, entry_of};

use crate::calls::{begin, lack_value};
use crate::client::Client;
use crate::numbers::{based, bounded, entry};
use std::alloc::Global;
use txn_history::event::{Call, PlainCall, ViewCall};

/// Reads the newest version. Answered READ or READ_NONE.
#[unsafe(no_mangle)]
pub extern "C" fn txnobj_read(alloc: Global, client: &mut Client, op: &mut u64) -> u8
    ensures { TellsNumber (λ told. OfClient (IsBegin (Call.Plain PlainCall.Read)) client.old.value told client.new.value) op.old result op.new }
{
    begin(alloc, client, &Call::Plain(PlainCall::Read), op)
}

/// Reads the version of this id. Answered VALUE or VALUE_NONE.
#[unsafe(no_mangle)]
pub extern "C" fn txnobj_read_version(
    alloc: Global,
    client: &mut Client,
    id: u64,
    op: &mut u64,
) -> u8
    ensures { TellsNumber (λ told. OfClient (IsBegin (Call.Plain (PlainCall.ReadUnchecked id))) client.old.value told client.new.value) op.old result op.new }
{
    begin(
        alloc,
        client,
        &Call::Plain(PlainCall::ReadUnchecked(id)),
        op,
    )
}

/// The same, from the client's cache where it is there; else what is found is cached.
#[unsafe(no_mangle)]
pub extern "C" fn txnobj_read_seen(alloc: Global, client: &mut Client, id: u64, op: &mut u64) -> u8
    ensures { TellsNumber (λ told. OfClient (IsBegin (Call.Plain (PlainCall.ReadSeen id))) client.old.value told client.new.value) op.old result op.new }
{
    begin(alloc, client, &Call::Plain(PlainCall::ReadSeen(id)), op)
}

/// Lists the ids within the bounds, of which each has a kind: none (0), within (1), not within (2). Answered IDS.
#[unsafe(no_mangle)]
pub extern "C" fn txnobj_list(
    alloc: Global,
    client: &mut Client,
    from_kind: u8,
    from: u64,
    to_kind: u8,
    to: u64,
    op: &mut u64,
) -> u8
    ensures { TellsNumber (λ told. OfClient (IsBegin (Call.Plain (PlainCall.ListIds (bounded from_kind from) (bounded to_kind to)))) client.old.value told client.new.value) op.old result op.new }
{
    begin(
        alloc,
        client,
        &Call::Plain(PlainCall::ListIds(bounded(from_kind, from), bounded(to_kind, to))),
        op,
    )
}

/// Removes the version of this id, which is at or below the boundary. Answered DONE.
#[unsafe(no_mangle)]
pub extern "C" fn txnobj_delete(alloc: Global, client: &mut Client, id: u64, op: &mut u64) -> u8
    ensures { TellsNumber (λ told. OfClient (IsBegin (Call.Plain (PlainCall.Delete id))) client.old.value told client.new.value) op.old result op.new }
{
    begin(alloc, client, &Call::Plain(PlainCall::Delete(id)), op)
}

/// Checks that the id is above the boundary. Answered DONE.
#[unsafe(no_mangle)]
pub extern "C" fn txnobj_check(alloc: Global, client: &mut Client, id: u64, op: &mut u64) -> u8
    ensures { TellsNumber (λ told. OfClient (IsBegin (Call.Plain (PlainCall.Check id))) client.old.value told client.new.value) op.old result op.new }
{
    begin(alloc, client, &Call::Plain(PlainCall::Check(id)), op)
}

/// Raises the boundary to this id, which is 0 or below an id that a checked call of this client answered. Answered DONE.
#[unsafe(no_mangle)]
pub extern "C" fn txnobj_advance(alloc: Global, client: &mut Client, to: u64, op: &mut u64) -> u8
    ensures { TellsNumber (λ told. OfClient (IsBegin (Call.Plain (PlainCall.Advance to))) client.old.value told client.new.value) op.old result op.new }
{
    begin(alloc, client, &Call::Plain(PlainCall::Advance(to)), op)
}

/// Writes the value directly on the version of this id, or as the first version where it is 0. Answered WROTE.
#[unsafe(no_mangle)]
pub extern "C" fn txnobj_write(
    alloc: Global,
    client: &mut Client,
    base: u64,
    epoch: u64,
    bytes: &[u8],
    op: &mut u64,
) -> u8
    ensures { TellsNumber (λ told. OfClient (IsBegin (Call.Plain (PlainCall.Write (based base) (entry_of epoch bytes.now)))) client.old.value told client.new.value) op.old result op.new }
{
    match entry(alloc, epoch, bytes) {
        Ok(value) => begin(
            alloc,
            client,
            &Call::Plain(PlainCall::Write(based(base), value)),
            op,
        ),
        Err(_) => lack_value(client, op),
    }
}

/// The same, without the check that the new version is above the boundary.
#[unsafe(no_mangle)]
pub extern "C" fn txnobj_write_unchecked(
    alloc: Global,
    client: &mut Client,
    base: u64,
    epoch: u64,
    bytes: &[u8],
    op: &mut u64,
) -> u8
    ensures { TellsNumber (λ told. OfClient (IsBegin (Call.Plain (PlainCall.WriteUnchecked (based base) (entry_of epoch bytes.now)))) client.old.value told client.new.value) op.old result op.new }
{
    match entry(alloc, epoch, bytes) {
        Ok(value) => begin(
            alloc,
            client,
            &Call::Plain(PlainCall::WriteUnchecked(based(base), value)),
            op,
        ),
        Err(_) => lack_value(client, op),
    }
}

/// Writes the value as the first version. Answered VIEW, of a new view.
#[unsafe(no_mangle)]
pub extern "C" fn txnobj_init(
    alloc: Global,
    client: &mut Client,
    epoch: u64,
    bytes: &[u8],
    op: &mut u64,
) -> u8
    ensures { TellsNumber (λ told. OfClient (IsBegin (Call.View (ViewCall.Init (entry_of epoch bytes.now)))) client.old.value told client.new.value) op.old result op.new }
{
    match entry(alloc, epoch, bytes) {
        Ok(value) => begin(alloc, client, &Call::View(ViewCall::Init(value)), op),
        Err(_) => lack_value(client, op),
    }
}

/// Reads the newest version. Answered VIEW, of a new view.
#[unsafe(no_mangle)]
pub extern "C" fn txnobj_load(alloc: Global, client: &mut Client, op: &mut u64) -> u8
    ensures { TellsNumber (λ told. OfClient (IsBegin (Call.View ViewCall.Load)) client.old.value told client.new.value) op.old result op.new }
{
    begin(alloc, client, &Call::View(ViewCall::Load), op)
}

/// Reads the newest version into the view. Answered VIEW.
#[unsafe(no_mangle)]
pub extern "C" fn txnobj_refresh(alloc: Global, client: &mut Client, view: u64, op: &mut u64) -> u8
    ensures { TellsNumber (λ told. OfClient (IsBegin (Call.View (ViewCall.Refresh view))) client.old.value told client.new.value) op.old result op.new }
{
    begin(alloc, client, &Call::View(ViewCall::Refresh(view)), op)
}

/// Writes the value directly on the version of the view. Answered VIEW.
#[unsafe(no_mangle)]
pub extern "C" fn txnobj_update(
    alloc: Global,
    client: &mut Client,
    view: u64,
    epoch: u64,
    bytes: &[u8],
    op: &mut u64,
) -> u8
    ensures { TellsNumber (λ told. OfClient (IsBegin (Call.View (ViewCall.Update view (entry_of epoch bytes.now)))) client.old.value told client.new.value) op.old result op.new }
{
    match entry(alloc, epoch, bytes) {
        Ok(value) => begin(
            alloc,
            client,
            &Call::View(ViewCall::Update(view, value)),
            op,
        ),
        Err(_) => lack_value(client, op),
    }
}

/// Makes the view a holder of the next epoch. Answered HELD; a claim that is not held ends its view.
#[unsafe(no_mangle)]
pub extern "C" fn txnobj_claim(alloc: Global, client: &mut Client, view: u64, op: &mut u64) -> u8
    ensures { TellsNumber (λ told. OfClient (IsBegin (Call.View (ViewCall.Claim view))) client.old.value told client.new.value) op.old result op.new }
{
    begin(alloc, client, &Call::View(ViewCall::Claim(view)), op)
}

/// The same of this epoch.
#[unsafe(no_mangle)]
pub extern "C" fn txnobj_claim_at(
    alloc: Global,
    client: &mut Client,
    view: u64,
    epoch: u64,
    op: &mut u64,
) -> u8
    ensures { TellsNumber (λ told. OfClient (IsBegin (Call.View (ViewCall.ClaimAt view epoch))) client.old.value told client.new.value) op.old result op.new }
{
    begin(
        alloc,
        client,
        &Call::View(ViewCall::ClaimAt(view, epoch)),
        op,
    )
}

/// Reads the newest version into the holder's view. Answered VIEW.
#[unsafe(no_mangle)]
pub extern "C" fn txnobj_holder_refresh(
    alloc: Global,
    client: &mut Client,
    view: u64,
    op: &mut u64,
) -> u8
    ensures { TellsNumber (λ told. OfClient (IsBegin (Call.View (ViewCall.HolderRefresh view))) client.old.value told client.new.value) op.old result op.new }
{
    begin(
        alloc,
        client,
        &Call::View(ViewCall::HolderRefresh(view)),
        op,
    )
}

/// Writes the value, of the holder's epoch, directly on the version of the holder's view. Answered VIEW.
#[unsafe(no_mangle)]
pub extern "C" fn txnobj_holder_update(
    alloc: Global,
    client: &mut Client,
    view: u64,
    epoch: u64,
    bytes: &[u8],
    op: &mut u64,
) -> u8
    ensures { TellsNumber (λ told. OfClient (IsBegin (Call.View (ViewCall.HolderUpdate view (entry_of epoch bytes.now)))) client.old.value told client.new.value) op.old result op.new }
{
    match entry(alloc, epoch, bytes) {
        Ok(value) => begin(
            alloc,
            client,
            &Call::View(ViewCall::HolderUpdate(view, value)),
            op,
        ),
        Err(_) => lack_value(client, op),
    }
}
