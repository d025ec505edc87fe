//! What halts a run of workers before it prints.
ghost use Rattle.std.specs.Prelude.{Some};
ghost use Rattle.txnworld_commands.specs.Threads.{halt_text};

use std::alloc::AllocError;
use std::fmt;
use txn_script_lines::stop::Stop;

/// Why a run of workers prints none of its lines.
#[derive(Clone, Copy, Debug, PartialEq, Eq)]
pub enum Halt {
    /// The worker of this number, and none before it, left a job undone.
    Worker(u64),
    /// A growth was refused, or the writer failed.
    Stop(Stop),
}

impl fmt::Display for Halt {
    ghost output = { λ halt. Some (halt_text halt) };

    fn fmt<W: fmt::Write>(&self, f: &mut fmt::Formatter<W>) -> fmt::Result {
        match self {
            Halt::Worker(number) => write!(f, "worker {number} stopped"),
            Halt::Stop(stop) => write!(f, "{stop}"),
        }
    }
}

impl From<AllocError> for Halt {
    ghost use Rattle.std.specs.Prelude.{◌≡◌};
    ghost use Rattle.txn_script_lines.specs.declared.stop.Stop.TheVariants as stops;
    ghost use Rattle.txnworld_commands.specs.declared.halt.Halt.TheVariants as halts;

    ghost from_gives = { λ _ halt. halt ≡ halts.Stop stops.NoMemory };

    fn from(_error: AllocError) -> Halt {
        Halt::Stop(Stop::NoMemory)
    }
}

impl From<Stop> for Halt {
    ghost use Rattle.std.specs.Prelude.{◌≡◌};
    ghost use Rattle.txnworld_commands.specs.declared.halt.Halt.TheVariants as halts;

    ghost from_gives = { λ stop halt. halt ≡ halts.Stop stop };

    fn from(stop: Stop) -> Halt {
        Halt::Stop(stop)
    }
}
