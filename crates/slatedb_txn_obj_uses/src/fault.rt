//! Why a workload stops.
ghost use Rattle.slatedb_txn_obj_uses.specs.declared.fault.Fault.TheVariants.{Name, Call};

use crate::workload::Workload;
use std::fmt;
use thiserror::Error;
use txn_store::path::PathFault;
use txn_store::types::error::TransactionalObjectError;

/// Why a workload stops before its end.
#[derive(Debug, Drop, Error)]
pub enum Fault {
    /// The paths of the object were refused.
    #[error("{0}")]
    Name(PathFault),
    /// A call was refused.
    #[error("{0}")]
    Call(TransactionalObjectError),
    /// A call answered something else than what was written.
    #[error("wrong answer")]
    WrongAnswer,
    /// The clock could not be read.
    #[error("clock failed")]
    ClockFailed,
    /// The writer failed to take a line, or to flush it.
    #[error("write failed")]
    WriteFailed,
}

impl From<PathFault> for Fault {
    ghost use Rattle.std.specs.Prelude.{◌≡◌};

    ghost from_gives = { λ fault made. made ≡ Name fault };

    fn from(fault: PathFault) -> Fault {
        Fault::Name(fault)
    }
}

impl From<TransactionalObjectError> for Fault {
    ghost use Rattle.std.specs.Prelude.{◌≡◌};

    ghost from_gives = { λ error made. made ≡ Call error };

    fn from(error: TransactionalObjectError) -> Fault {
        Fault::Call(error)
    }
}

/// A workload that stopped, and why.
#[derive(Debug, Drop)]
pub struct Halt {
    pub workload: Workload,
    pub fault: Fault,
}

impl fmt::Display for Halt {
    fn fmt<W: fmt::Write>(&self, f: &mut fmt::Formatter<W>) -> fmt::Result {
        write!(f, "{}: {}", self.workload, self.fault)
    }
}
