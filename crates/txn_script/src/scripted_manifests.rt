//! Worlds of manifests, as scripts run them.

ghost use Rattle.std.specs.Prelude.{◌≡◌, IfOk};
ghost use Rattle.txn_script.specs.Running.{CameOf};
ghost use Rattle.txn_script_lines.specs.Printed.{named_fault_text};
ghost use Rattle.txn_script.specs.Manifests.{manifest_fault_name, manifest_fault_text, manifest_world};

use crate::kind::{Came, ScriptWorld};
use crate::manifest_call::{ManifestCall, as_manifests, event_of};
use std::alloc::{AllocError, Global};
use txn_history::event::{EventFault, EventOf};
use txn_history::view::View;
use txn_manifest::event::ManifestFault;
use txn_manifest::manifest::{Manifest, ManifestCodec, ManifestEpoch};
use txn_manifest::world::ManifestWorld;
use txn_script_lines::printed::{FaultLine, fault_name as world_fault_name};
use txn_world::world::World;

/// The name of a fault.
fn fault_name(fault: ManifestFault) -> &'static str
    ensures { result.now ≡ manifest_fault_name fault }
{
    match fault {
        ManifestFault::World(fault) => world_fault_name(fault),
        ManifestFault::NotOfManifest => "NotOfManifest",
        ManifestFault::NotPinned => "NotPinned",
        ManifestFault::Needed => "Needed",
    }
}

/// The line of a fault.
fn fault_line(fault: ManifestFault) -> FaultLine
    ensures { named_fault_text result.number result.name.now ≡ manifest_fault_text fault }
{
    FaultLine::new(fault.number(), fault_name(fault))
}

/// A world of manifests that a script runs.
#[derive(Drop)]
pub struct Scripted {
    world: ManifestWorld,
}

impl Scripted {
    /// Its world.
    pub fn world(&self) -> &World<Manifest, ManifestCodec, ManifestEpoch>
        ensures { result.now ≡ self.now.world }
    {
        self.world.world()
    }
}

impl ScriptWorld<Manifest, ManifestCall> for Scripted {
    ghost use Rattle.txn_script.specs.Manifests.{manifest_world};

    ghost rules = { manifest_world };

    ghost state = { λ scripted. scripted.world.state };

    fn open(alloc: Global, clients: u64, page: u64) -> Result<Scripted, AllocError> {
        Ok(Scripted {
            world: ManifestWorld::new(alloc, clients, page)?,
        })
    }

    fn take(&mut self, event: EventOf<ManifestCall>) -> Result<Came<Manifest>, AllocError>
        ensures { IfOk result (λ came. CameOf manifest_world self.old.world.state event came self.new.world.state) }
    {
        match self.world.take(event_of(event)) {
            Ok(told) => Ok(Came::Told(told)),
            Err(ManifestFault::World(EventFault::NoMemory)) => Err(AllocError),
            Err(fault) => Ok(Came::Refused(fault_line(fault))),
        }
    }

    fn next_event(&self, op: u64) -> EventOf<ManifestCall> {
        as_manifests(self.world.world().next_event(op))
    }

    fn entries(&self, alloc: Global) -> Result<Vec<Manifest>, AllocError> {
        self.world.world().entries(alloc)
    }

    fn boundary(&self) -> u64 {
        self.world.world().boundary()
    }

    fn erased(&self, alloc: Global) -> Result<Vec<u64>, AllocError> {
        self.world.world().erased(alloc)
    }

    fn pinned(&self, alloc: Global) -> Result<Option<Vec<u64>>, AllocError> {
        let pins = self.world.pinned(alloc)?;
        let mut ids = Vec::new(alloc);
        ids.extend_from_slice(pins.as_slice())?;
        Ok(Some(ids))
    }

    fn views(&self) -> u64 {
        self.world.world().views()
    }

    fn view(&self, number: u64) -> Option<&View<Manifest>> {
        self.world.world().view(number)
    }
}
