//! A world that notes what happens in it while a script runs.

ghost use Rattle.std.specs.Prelude.{IfOk};
ghost use Rattle.txn_script.specs.Running.{CameOf};

use crate::drawings::run::Run;
use crate::drawings::seen::SeenWorld;
use crate::drawings::worded::Worded;
use std::alloc::{AllocError, Global};
use txn_history::event::EventOf;
use txn_history::view::View;
use txn_script::kind::{Came, ScriptWorld};
use txn_script_lines::text_form::LineValue;

/// A world, and what happened in it. For a script it is that world: contracts see its state.
#[derive(Drop)]
pub struct Traced<K> {
    world: K,
    run: Run,
}

impl<K> Traced<K> {
    /// What happened.
    pub fn run(&self) -> &Run {
        &self.run
    }
}

impl<T: LineValue, C: Worded, K: SeenWorld<T, C>> ScriptWorld<T, C> for Traced<K> {
    ghost rules = { K.rules };

    ghost state = { λ traced. K.state traced.world };

    fn open(alloc: Global, clients: u64, page: u64) -> Result<Traced<K>, AllocError> {
        let run = Run::new(alloc, clients)?;
        Ok(Traced {
            world: K::open(alloc, clients, page)?,
            run,
        })
    }

    fn take(&mut self, event: EventOf<C>) -> Result<Came<T>, AllocError>
        ensures { IfOk result (λ came. CameOf K.rules (K.state self.old.world) event came (K.state self.new.world)) }
    {
        let before = self.run.before::<T, C, K>(&self.world, &event)?;
        let count = self.world.rows().len();
        let came = self.world.take(event)?;
        let rows = self.world.rows().get(count..).unwrap_or(&[]);
        self.run.after(before, &came, rows)?;
        Ok(came)
    }

    fn next_event(&self, op: u64) -> EventOf<C> {
        self.world.next_event(op)
    }

    fn entries(&self, alloc: Global) -> Result<Vec<T>, AllocError> {
        self.world.entries(alloc)
    }

    fn boundary(&self) -> u64 {
        self.world.boundary()
    }

    fn erased(&self, alloc: Global) -> Result<Vec<u64>, AllocError> {
        self.world.erased(alloc)
    }

    fn pinned(&self, alloc: Global) -> Result<Option<Vec<u64>>, AllocError> {
        self.world.pinned(alloc)
    }

    fn views(&self) -> u64 {
        self.world.views()
    }

    fn view(&self, number: u64) -> Option<&View<T>> {
        self.world.view(number)
    }
}
