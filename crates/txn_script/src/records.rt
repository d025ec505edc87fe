//! Worlds of records, as scripts run them.

ghost use Rattle.std.specs.Prelude.{IfOk};
ghost use Rattle.txn_script.specs.Records.{record_world};
ghost use Rattle.txn_script.specs.Running.{CameOf};

use crate::kind::{Came, ScriptWorld};
use std::alloc::{AllocError, Global};
use txn_history::event::{Call, Event, EventFault};
use txn_history::view::View;
use txn_script_lines::printed::FaultLine;
use txn_script_lines::record::{Record, RecordCodec, RecordEpoch};
use txn_world::world::World;

impl ScriptWorld<Record, Call<Record>> for World<Record, RecordCodec, RecordEpoch> {
    ghost use Rattle.txn_script.specs.Records.{record_world};

    ghost rules = { record_world };

    ghost state = { λ world. world.state };

    fn open(
        alloc: Global,
        clients: u64,
        page: u64,
    ) -> Result<World<Record, RecordCodec, RecordEpoch>, AllocError> {
        World::new(alloc, RecordCodec, RecordEpoch, clients, page)
    }

    fn take(&mut self, event: Event<Record>) -> Result<Came<Record>, AllocError>
        ensures { IfOk result (λ came. CameOf record_world self.old.state event came self.new.state) }
    {
        match World::take(self, event) {
            Ok(told) => Ok(Came::Told(told)),
            Err(EventFault::NoMemory) => Err(AllocError),
            Err(fault) => Ok(Came::Refused(FaultLine::of_world(fault))),
        }
    }

    fn next_event(&self, op: u64) -> Event<Record> {
        World::next_event(self, op)
    }

    fn entries(&self, alloc: Global) -> Result<Vec<Record>, AllocError> {
        World::entries(self, alloc)
    }

    fn boundary(&self) -> u64 {
        World::boundary(self)
    }

    fn erased(&self, alloc: Global) -> Result<Vec<u64>, AllocError> {
        World::erased(self, alloc)
    }

    fn pinned(&self, _alloc: Global) -> Result<Option<Vec<u64>>, AllocError> {
        Ok(None)
    }

    fn views(&self) -> u64 {
        World::views(self)
    }

    fn view(&self, number: u64) -> Option<&View<Record>> {
        World::view(self, number)
    }
}
