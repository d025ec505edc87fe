//! What a drawing sees of a world beside what a script prints.

use txn_history::event::Call;
use txn_history::trace::Row;
use txn_manifest::manifest::Manifest;
use txn_script::kind::ScriptWorld;
use txn_script::manifest_call::ManifestCall;
use txn_script::scripted_manifests::Scripted;
use txn_script_lines::record::{Record, RecordCodec, RecordEpoch};
use txn_steps::boundary::ask::Ask;
use txn_world::world::World;

/// A world that scripts run, and that shows what its operations ask for and what happened.
pub trait SeenWorld<T, C>: ScriptWorld<T, C> {
    /// What an operation asks for: nothing where it is not there or has ended. It takes no memory.
    fn asks(&self, op: u64) -> Option<Ask<'_>>;

    /// What happened, row by row. It takes no memory.
    fn rows(&self) -> &[Row<T>];
}

impl SeenWorld<Record, Call<Record>> for World<Record, RecordCodec, RecordEpoch> {
    fn asks(&self, op: u64) -> Option<Ask<'_>> {
        World::asks(self, op)
    }

    fn rows(&self) -> &[Row<Record>] {
        World::trace(self)
    }
}

impl SeenWorld<Manifest, ManifestCall> for Scripted {
    fn asks(&self, op: u64) -> Option<Ask<'_>> {
        self.world().asks(op)
    }

    fn rows(&self) -> &[Row<Manifest>] {
        self.world().trace()
    }
}
