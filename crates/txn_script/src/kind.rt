//! A kind of world that scripts run.

ghost use Rattle.std.specs.Prelude.{◌≡◌, ◌≤◌, List, Option, Some, map, length, IfOk};
ghost use Rattle.std.specs.Option.{option_copied, option_map};
ghost use Rattle.txn_machine.specs.Machine.{State, opening, seen_of, seen_views};
ghost use Rattle.txn_history.specs.History.{history, boundary, AreErased};
ghost use Rattle.txn_history.specs.Seen.{view_of};
ghost use Rattle.txn_script.specs.Rules.{WorldRules};
ghost use Rattle.txn_script.specs.Running.{CameOf};

use std::alloc::{AllocError, Global};
use txn_history::event::{EventOf, Told};
use txn_history::view::View;
use txn_script_lines::printed::FaultLine;

/// What came of an event.
#[derive(Debug, Drop)]
pub enum Came<T> {
    /// It was taken, and told this.
    Told(Told<T>),
    /// It was refused, with the fault of this line, and changed nothing.
    Refused(FaultLine),
}

/// A world that scripts run, whose values and calls are of these types.
pub trait ScriptWorld<T, C>: Drop {
    /// How such worlds go on, and what is printed of their end.
    ghost rules: { WorldRules T C };

    /// The state that a world is in.
    ghost state: { Self → State T };

    /// A world in which nothing has happened, with so many clients, from 1 to 64, and pages of so many files. The only error
    /// is want of memory.
    fn open(alloc: Global, clients: u64, page: u64) -> Result<Self, AllocError>
        requires some { 1 ≤ clients }
        requires few { clients ≤ 64 }
        requires paged { 1 ≤ page }
        ensures { IfOk result (λ world. state world ≡ opening clients page) };

    /// Takes an event. The only error is want of memory.
    fn take(&mut self, event: EventOf<C>) -> Result<Came<T>, AllocError>
        ensures { IfOk result (λ came. CameOf rules (state self.old) event came (state self.new)) };

    /// The event that gives an operation what it asks for. It takes no memory.
    fn next_event(&self, op: u64) -> EventOf<C>
        ensures { result ≡ rules.next (state self.now) op };

    /// The values of the history, in order. The only error is want of memory.
    fn entries(&self, alloc: Global) -> Result<Vec<T>, AllocError>
        ensures { IfOk result (λ values. map Some values.items ≡ history rules.decode (state self.now).trace) };

    /// The boundary. It takes no memory.
    fn boundary(&self) -> u64
        ensures { result ≡ boundary (state self.now).trace };

    /// The erased ids, each once and ascending. The only error is want of memory.
    fn erased(&self, alloc: Global) -> Result<Vec<u64>, AllocError>
        ensures { IfOk result (λ ids. AreErased (state self.now).trace ids.items) };

    /// The ids that the newest value pins, where values pin some. The only error is want of memory.
    fn pinned(&self, alloc: Global) -> Result<Option<Vec<u64>>, AllocError>
        ensures { IfOk result (λ pins. rules.pins (state self.now) (option_map (λ ids. ids.items) pins)) };

    /// How many views were made. It takes no memory.
    fn views(&self) -> u64
        ensures { result ≡ length (state self.now).views };

    /// The view of a number as it stands, where it was made and has not ended. It takes no memory.
    fn view(&self, number: u64) -> Option<&View<T>>
        ensures { option_copied result ≡ view_of (seen_of (state self.now)) number };
}
