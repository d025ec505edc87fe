//! An object of numbers in a store in memory, and the calls of each workload on it.
ghost use Rattle.std.specs.Prelude.{◌≡◌, ◌<◌, ◌≤◌, ℕ, [], IfOk, OnOk, IsErrOf};
ghost use Rattle.slatedb_txn_obj_uses.specs.Workloads.{numbers_to, versions_before, IsByNew};
ghost use Rattle.slatedb_txn_obj_uses.specs.Objects.{ObjectStands, Stands, IsNew};
ghost use Rattle.slatedb_txn_obj_uses.specs.declared.fault.Fault.TheVariants as faults;
ghost use Rattle.slatedb_txn_obj_uses.specs.declared.workload.Workload.TheVariants as workloads;

use crate::calls::{claim_newest, list_all, read_newest, update_versions, write_versions};
use crate::fault::Fault;
use crate::workload::Workload;
use slatedb_txn_obj::object_store::boundary::ObjectStoreBoundaryObject;
use slatedb_txn_obj::object_store::protocol::ObjectStoreSequencedStorageProtocol;
use std::alloc::Global;
use txn_store::in_memory::InMemory;
use txn_store::path::{Path, PathFault};
use txn_store::store::ObjectStore;
use txn_store::types::test_utils::NumberCodec;

/// A protocol of versions that are numbers.
pub type Protocol = ObjectStoreSequencedStorageProtocol<
    u64,
    NumberCodec,
    ObjectStoreBoundaryObject,
>;

/// A protocol of the object `object` below a root. Nothing is held or cached.
///
/// # Errors
///
/// Want of memory alone, since the names are plain segments. No call of a store is made.
pub fn new_protocol(alloc: Global, root: &Path) -> Result<Protocol, PathFault>
    ensures { IfOk result (IsNew root.now) }
{
    ObjectStoreSequencedStorageProtocol::new(alloc, root, "object", "number", NumberCodec)
}

/// Reads the newest version by a new protocol.
///
/// # Errors
///
/// `WrongAnswer` where it is any other than the one of this id; want of memory for the protocol; the read's own error.
pub fn load_newest<S: ObjectStore>(
    alloc: Global,
    root: &Path,
    store: &mut S,
    newest: u64,
) -> Result<(), Fault>
    ensures right { IsErrOf result faults.WrongAnswer → 0 < newest → (b : ℕ) → ObjectStands root.now (S.state store.old) (numbers_to newest) b → ⊥ }
{
    let mut protocol = new_protocol(alloc, root)?;
    read_newest(&mut protocol, store, newest)
}

/// Loads the newest version by a new protocol, and claims it by that.
///
/// # Errors
///
/// `WrongAnswer` where the epoch is any other than the one above this id; want of memory for the protocol; the load's own
/// error, and the claim's, after which the claim may have been written.
pub fn load_claim<S: ObjectStore>(
    alloc: Global,
    root: &Path,
    store: &mut S,
    newest: u64,
) -> Result<(), Fault>
    ensures right { IsErrOf result faults.WrongAnswer → (b : ℕ) → ObjectStands root.now (S.state store.old) (numbers_to newest) b → ⊥ }
{
    let mut protocol = new_protocol(alloc, root)?;
    claim_newest(alloc, &mut protocol, store, newest)
}

/// An object's store in memory, and a protocol that wrote its versions.
#[derive(Drop)]
pub struct Setting {
    alloc: Global,
    root: Path,
    pub store: InMemory,
    pub protocol: Protocol,
}

impl Setting {
    /// An empty store, and a protocol that holds nothing.
    fn empty(alloc: Global) -> Result<Setting, Fault>
        ensures { IfOk result (λ setting. Stands setting.protocol setting.store [] 0) }
    {
        let root = Path::from_text(alloc, "bench")?;
        let protocol = new_protocol(alloc, &root)?;
        Ok(Setting {
            alloc,
            root,
            store: InMemory::new(alloc),
            protocol,
        })
    }

    /// So many versions, written one after another by one protocol.
    ///
    /// # Errors
    ///
    /// Want of memory, and the errors of a write. There is no setting then.
    pub fn new(alloc: Global, versions: u64) -> Result<Setting, Fault>
        ensures { IfOk result (λ setting. Stands setting.protocol setting.store (numbers_to versions) 0) }
    {
        let mut setting = Setting::empty(alloc)?;
        write_versions(&mut setting.protocol, &mut setting.store, versions)?;
        Ok(setting)
    }

    /// Makes so many calls of a workload, where its versions stand, and at least one update.
    ///
    /// # Errors
    ///
    /// `WrongAnswer` of a load by a new protocol alone, where the versions of the workload stood, since no trait says that the
    /// protocol of an earlier call left the files; the call's own error. What was written before stands.
    pub fn perform(&mut self, workload: Workload, calls: u64) -> Result<(), Fault>
        ensures wrote { OnOk result (workload ≡ workloads.Update → 1 ≤ calls → Stands self.old.protocol self.old.store [] 0 → Stands self.new.protocol self.new.store (numbers_to calls) 0) }
        ensures right { IsErrOf result faults.WrongAnswer → Stands self.old.protocol self.old.store (numbers_to (versions_before workload)) 0 → IsByNew workload }
    {
        let newest = workload.versions();
        match workload {
            Workload::Update => {
                update_versions(self.alloc, &mut self.protocol, &mut self.store, calls)?;
            }
            Workload::ReadWarm => {
                for _ in 0..calls {
                    read_newest(&mut self.protocol, &mut self.store, newest)?;
                }
            }
            Workload::LoadCold100 => {
                for _ in 0..calls {
                    load_newest(self.alloc, &self.root, &mut self.store, newest)?;
                }
            }
            Workload::List10000 => {
                for _ in 0..calls {
                    list_all(&mut self.protocol, &mut self.store, newest)?;
                }
            }
            Workload::LoadClaimFresh => {
                for before in 0..calls {
                    load_claim(self.alloc, &self.root, &mut self.store, newest + before)?;
                }
            }
        }
        Ok(())
    }
}
