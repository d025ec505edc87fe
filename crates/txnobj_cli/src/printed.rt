//! What a command prints of what its client was answered, whatever client it is, and whatever writer it is printed on.
ghost use Rattle.std.specs.Prelude.{◌≡◌, Ok, OnOk, IfOk};
ghost use Rattle.txn_script_lines.specs.values.Holder.{may_write};
ghost use Rattle.txnobj.specs.Claims.{ClaimEnds};
ghost use Rattle.txnobj_cli.specs.Calls.{AsksNext};
ghost use Rattle.txnobj_cli.specs.Answers.{PrintsFirst, PrintsNewest, PrintsValue, PrintsPut, PrintsPutOnNewest, PrintsClaim, PrintsIds, PrintsStored, PrintsEach, PrintsHistory, PrintsCollected, PrintsSeen};

use crate::ending::Halt;
use bytes::Bytes;
use slatedb_txn_obj::clock::SystemClock;
use std::alloc::Global;
use std::fmt;
use std::io::Write;
use std::ops::Bound;
use txn_folder_files::fault::Fault;
use txn_script_lines::values::entry::Entry;
use txn_script_lines::values::holder::{next_entry, test_holder};
use txn_store::types::callback::CallbackFault;
use txn_store::types::dirty::DirtyObject;
use txn_store::types::id::MonotonicId;
use txn_store::types::invariant::NoInvariant;
use txnobj::error::Error;
use txnobj::fenceable::FenceableTransactionalObject;
use txnobj::object::TransactionalObject;
use txnobj::protocol::TransactionalStorageProtocol;
use txnobj::simple::SimpleTransactionalObject;
use txnobj_words::lines::{Stored, print_line, print_number, print_numbers};

/// A version in a view of a client.
pub type Object = SimpleTransactionalObject<Entry, NoInvariant>;
/// The same, claimed.
type Holder = FenceableTransactionalObject<Entry, NoInvariant>;
/// A candidate for the next version.
type Dirty = DirtyObject<Entry, MonotonicId>;

/// A version: its id, and its epoch.
#[derive(Clone, Copy)]
pub struct Version {
    pub id: u64,
    pub epoch: u64,
}

/// Its id and its epoch.
impl fmt::Display for Version {
    ghost use Rattle.std.specs.Prelude.{Some};
    ghost use Rattle.txnobj_cli.specs.Calls.{version_words};

    ghost output = { λ version. Some (version_words version) };

    fn fmt<W: fmt::Write>(&self, f: &mut fmt::Formatter<W>) -> fmt::Result {
        let id = self.id;
        let epoch = self.epoch;
        write!(f, "{id} {epoch}")
    }
}

/// Writes the first version, in epoch 0, and prints its id.
///
/// # Errors
///
/// The refusal of the call, one that is not permitted or has no end, the fault of a store call, after which the version may
/// stand, the system's error as it is printed, after which it stands, and want of memory.
pub fn print_first<W: Write, P: TransactionalStorageProtocol<Entry, Fault = Fault>>(
    alloc: Global,
    out: &mut W,
    protocol: &mut P,
    payload: Bytes,
) -> Result<(), Halt>
    ensures { OnOk result (PrintsFirst P.made P.stopped P.tells payload protocol.old protocol.new (W.contents out.old) (W.contents out.new)) }
{
    let first: Object = SimpleTransactionalObject::init(
        alloc,
        protocol,
        Entry { epoch: 0, payload },
    )?;
    print_number(alloc, out, first.id().id())?;
    Ok(())
}

/// Prints the id and the epoch of the newest version.
///
/// # Errors
///
/// The refusal of the call, one that is not permitted or has no end, the fault of a store call, the system's error as it is
/// printed, and want of memory. No version is changed.
pub fn print_newest<W: Write, P: TransactionalStorageProtocol<Entry, Fault = Fault>>(
    alloc: Global,
    out: &mut W,
    protocol: &mut P,
) -> Result<(), Halt>
    ensures { OnOk result (PrintsNewest P.made P.stopped P.tells protocol.old protocol.new (W.contents out.old) (W.contents out.new)) }
{
    let newest: Object = SimpleTransactionalObject::load(alloc, protocol)?;
    let version = Version {
        id: newest.id().id(),
        epoch: newest.object().epoch,
    };
    print_line(alloc, out, version)?;
    Ok(())
}

/// Prints the bytes of the newest version.
///
/// # Errors
///
/// As of the id and the epoch.
pub fn print_value<W: Write, P: TransactionalStorageProtocol<Entry, Fault = Fault>>(
    alloc: Global,
    out: &mut W,
    protocol: &mut P,
) -> Result<(), Halt>
    ensures { OnOk result (PrintsValue P.made P.stopped P.tells protocol.old protocol.new (W.contents out.old) (W.contents out.new)) }
{
    let newest: Object = SimpleTransactionalObject::load(alloc, protocol)?;
    out.write_all(newest.object().payload.as_slice())?;
    Ok(())
}

/// Whether the holder of this epoch, if there is one, may write on a version of that one. Another may have claimed meanwhile.
fn test_own(holder: Option<u64>, stored: u64) -> Result<(), Halt>
    ensures { OnOk result (may_write holder stored ≡ Ok tt) }
{
    match test_holder(holder, stored) {
        Ok(()) => Ok(()),
        Err(error) => Err(Halt::Refused(error.number())),
    }
}

/// Writes a version with this payload on this base, and prints its id: in the epoch of the base, which is the holder's own,
/// where a holder writes.
///
/// # Errors
///
/// As of the first version; a base that is not there, or that another epoch than the holder's has, is refused, and nothing is
/// written.
pub fn print_put_on<W: Write, P: TransactionalStorageProtocol<Entry, Fault = Fault>>(
    alloc: Global,
    out: &mut W,
    protocol: &mut P,
    base: u64,
    holder: Option<u64>,
    payload: &Bytes,
) -> Result<(), Halt>
    ensures { OnOk result (PrintsPut P.made P.stopped P.tells base holder payload.now protocol.old protocol.new (W.contents out.old) (W.contents out.new)) }
{
    let mut newest: Object = SimpleTransactionalObject::load(alloc, protocol)?;
    let stored = newest.object().epoch;
    let Some(value) = next_entry(holder, stored, payload)? else {
        test_own(holder, stored)?;
        return Err(Halt::Refused(7));
    };
    let dirty = DirtyObject {
        id: MonotonicId::new(base),
        value,
    };
    newest.update(protocol, dirty)?;
    print_number(alloc, out, newest.id().id())?;
    Ok(())
}

/// The candidate with this payload for the version after an object's, where the holder, if there is one, has its epoch.
fn candidate_of(
    object: &Object,
    holder: Option<u64>,
    payload: &Bytes,
) -> Result<Option<Dirty>, CallbackFault>
    ensures { AsksNext holder payload.now object.now result }
{
    let Some(value) = next_entry(holder, object.object().epoch, payload)? else {
        return Ok(None);
    };
    let id = object.id();
    Ok(Some(DirtyObject { id, value }))
}

/// Writes a version with this payload on the newest, again after each conflict, and prints its id: in the epoch of the version
/// that it is written on, which is the holder's own, where a holder writes.
///
/// # Errors
///
/// As of the first version; a holder that another claim has shut out is refused, and nothing is written.
pub fn print_put<W: Write, P: TransactionalStorageProtocol<Entry, Fault = Fault>>(
    alloc: Global,
    out: &mut W,
    protocol: &mut P,
    holder: Option<u64>,
    payload: &Bytes,
) -> Result<(), Halt>
    ensures { OnOk result (PrintsPutOnNewest P.made P.stopped P.tells P.most holder payload.now protocol.old protocol.new (W.contents out.old) (W.contents out.new)) }
{
    let mut object: Object = SimpleTransactionalObject::load(alloc, protocol)?;
    let mutator = |now: &Object| -> Result<Option<Dirty>, CallbackFault>
        ensures { AsksNext holder payload.entry.now now.now result }
    { candidate_of(now, holder, payload) };
    object.maybe_apply_update(protocol, &mutator)?;
    test_own(holder, object.object().epoch)?;
    print_number(alloc, out, object.id().id())?;
    Ok(())
}

/// The holder of the next epoch, or of this one. It may take any time.
fn claimed<P: TransactionalStorageProtocol<Entry, Fault = Fault>, K: SystemClock>(
    newest: Object,
    protocol: &mut P,
    clock: &mut K,
    epoch: Option<u64>,
) -> Result<Holder, Error<Fault>>
    ensures { ClaimEnds P.made P.stopped P.tells P.lets_go epoch 18446744073709551615 (P.most protocol.old) newest protocol.old (K.readings clock.old) result protocol.new (K.readings clock.new) }
{
    match epoch {
        None => FenceableTransactionalObject::init(newest, protocol, u64::MAX, clock),
        Some(epoch) => {
            FenceableTransactionalObject::init_with_epoch(newest, protocol, u64::MAX, clock, epoch)
        }
    }
}

/// Claims the next epoch, or this one, and prints the id and the epoch of the version that says so.
///
/// # Errors
///
/// As of the first version; an epoch that is not above the newest version's is refused, and nothing is written.
pub fn print_claim<W: Write, P: TransactionalStorageProtocol<Entry, Fault = Fault>, K: SystemClock>(
    alloc: Global,
    out: &mut W,
    protocol: &mut P,
    clock: &mut K,
    epoch: Option<u64>,
) -> Result<(), Halt>
    ensures { OnOk result (PrintsClaim P.made P.stopped P.tells P.lets_go P.most epoch protocol.old (K.readings clock.old) protocol.new (K.readings clock.new) (W.contents out.old) (W.contents out.new)) }
{
    let newest: Object = SimpleTransactionalObject::load(alloc, protocol)?;
    let held = claimed(newest, protocol, clock, epoch)?;
    let version = Version {
        id: held.id().id(),
        epoch: held.local_epoch(),
    };
    print_line(alloc, out, version)?;
    Ok(())
}

/// Prints the ids of the stored versions, a line each.
///
/// # Errors
///
/// As of the id and the epoch. The lines before may be printed.
pub fn print_ids<W: Write, P: TransactionalStorageProtocol<Entry, Fault = Fault>>(
    alloc: Global,
    out: &mut W,
    protocol: &mut P,
) -> Result<(), Halt>
    ensures { OnOk result (PrintsIds P.made P.stopped P.tells protocol.old protocol.new (W.contents out.old) (W.contents out.new)) }
{
    let ids = protocol.list(Bound::Unbounded, Bound::Unbounded)?;
    print_numbers(alloc, out, ids.as_slice())?;
    Ok(())
}

/// Prints a stored version, if it still stands.
fn print_stored<W: Write, P: TransactionalStorageProtocol<Entry, Fault = Fault>>(
    alloc: Global,
    out: &mut W,
    protocol: &mut P,
    id: u64,
) -> Result<(), Halt>
    ensures { OnOk result (PrintsStored P.made P.stopped P.tells id protocol.old protocol.new (W.contents out.old) (W.contents out.new)) }
{
    let Some(value) = protocol.try_read_unchecked(MonotonicId::new(id))? else {
        return Ok(());
    };
    let stored = Stored { id, value: &value };
    print_line(alloc, out, stored)?;
    Ok(())
}

/// Prints each of these versions that still stands, a line each.
fn print_each<W: Write, P: TransactionalStorageProtocol<Entry, Fault = Fault>>(
    alloc: Global,
    out: &mut W,
    protocol: &mut P,
    ids: &[u64],
) -> Result<(), Halt>
    ensures { OnOk result (PrintsEach P.made P.stopped P.tells ids.now protocol.old protocol.new (W.contents out.old) (W.contents out.new)) }
{
    for id in ids {
        print_stored(alloc, out, protocol, *id)?;
    }
    Ok(())
}

/// Prints each stored version, a line each.
///
/// # Errors
///
/// As of the id and the epoch. The lines before may be printed.
pub fn print_history<W: Write, P: TransactionalStorageProtocol<Entry, Fault = Fault>>(
    alloc: Global,
    out: &mut W,
    protocol: &mut P,
) -> Result<(), Halt>
    ensures { OnOk result (PrintsHistory P.made P.stopped P.tells protocol.old protocol.new (W.contents out.old) (W.contents out.new)) }
{
    let ids = protocol.list(Bound::Unbounded, Bound::Unbounded)?;
    print_each(alloc, out, protocol, ids.as_slice())
}

/// Removes all versions below the newest, and prints how many it found. Another may have removed some of them meanwhile.
///
/// # Errors
///
/// As of the id and the epoch; some of the versions may be removed, but never the newest.
pub fn print_collected<W: Write, P: TransactionalStorageProtocol<Entry, Fault = Fault>>(
    alloc: Global,
    out: &mut W,
    protocol: &mut P,
) -> Result<(), Halt>
    ensures { OnOk result (PrintsCollected P.made P.stopped P.tells protocol.old protocol.new (W.contents out.old) (W.contents out.new)) }
{
    let found = protocol.collect_below(MonotonicId::new(u64::MAX))?;
    print_number(alloc, out, found)?;
    Ok(())
}

/// Looks for a version above this one, and prints its id and its epoch where there is one. Whether there is.
///
/// # Errors
///
/// As of the id and the epoch.
pub fn print_seen<W: Write, P: TransactionalStorageProtocol<Entry, Fault = Fault>>(
    alloc: Global,
    out: &mut W,
    protocol: &mut P,
    after: u64,
) -> Result<bool, Halt>
    ensures { IfOk result (λ seen. PrintsSeen P.made P.stopped P.tells after seen protocol.old protocol.new (W.contents out.old) (W.contents out.new)) }
{
    let Some((id, entry)) = protocol.try_read_latest()? else {
        return Ok(false);
    };
    let version = Version {
        id: id.id(),
        epoch: entry.epoch,
    };
    if version.id <= after {
        return Ok(false);
    }
    print_line(alloc, out, version)?;
    Ok(true)
}
