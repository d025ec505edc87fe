//! The invariants of a view.
use anyhow::anyhow;
use slatedb_txn_obj::{CallbackFault, Invariant};
use txn_script_lines::record::Record;

/// The payload is at most so much. It says whether it is the first of its view where it is not.
#[derive(Clone, Copy)]
pub(crate) struct Ceiling {
    pub(crate) is_first: bool,
    pub(crate) ceiling: u64,
}

impl Invariant<Record> for Ceiling {
    ghost use Rattle.std.specs.Prelude.{◌≤◌};

    ghost holds = { λ i dirty _. dirty.payload ≤ i.ceiling };

    ghost fails = { λ _ _ _ _. Unit {0} };

    fn test(&self, dirty: &Record, _current: &Record) -> Result<(), CallbackFault> {
        if dirty.payload <= self.ceiling {
            return Ok(());
        }
        if self.is_first {
            return Err(CallbackFault::Refused(anyhow!("first")));
        }
        Err(CallbackFault::Refused(anyhow!("later")))
    }
}
