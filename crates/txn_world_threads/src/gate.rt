//! What a worker asks before each of its events.
ghost use Rattle.std.specs.Prelude.{◌≡◌, Ok};

/// The gate lets the worker take no further event.
#[derive(Clone, Copy, Debug, PartialEq, Eq)]
pub struct GateSpent;

/// A gate is asked before each event of a worker.
pub trait Gate {
    /// Lets the worker take its event of this turn, or says that it is to stop. Workers are numbered
    /// from 1, and a worker's turns are counted from 1.
    fn pass(&mut self, worker: u64, turn: u64) -> Result<(), GateSpent>;
}

/// A gate that always lets a worker pass.
#[derive(Clone, Copy, Debug, Drop, PartialEq, Eq)]
pub struct FreeGate;

impl Gate for FreeGate {
    fn pass(&mut self, _worker: u64, _turn: u64) -> Result<(), GateSpent>
        ensures { result ≡ Ok tt }
    {
        Ok(())
    }
}
