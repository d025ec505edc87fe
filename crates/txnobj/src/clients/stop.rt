//! Why a client makes no call, or did not bring one to its answer.
ghost use Rattle.std.specs.Prelude.{◌≡◌};
ghost use Rattle.txnobj.specs.declared.clients.stop.Stop.TheVariants.{NoMemory, Unrecorded};

use std::alloc::AllocError;
use std::{fmt, io};
use txn_history::event::EventFault;

/// Why a call has no answer.
#[derive(Debug, Drop)]
pub enum Stop {
    /// The client does not permit the call: it did not begin, and the client is as it was.
    Refused(EventFault),
    /// The call was not answered within the steps that it was given. Its operation is given up; a put or a delete that it asked
    /// for may still reach the store. The client goes on.
    StepsSpent,
    /// The recorder failed. What the client does from here on would not be recorded: it makes no further call.
    Unrecorded(io::Error),
    /// A growth was refused in the middle of a call. The client makes no further call, as if it had been killed there.
    NoMemory,
    /// The client ended before, by one of the two above.
    Ended,
}

impl fmt::Display for Stop {
    fn fmt<W: fmt::Write>(&self, f: &mut fmt::Formatter<W>) -> fmt::Result {
        match self {
            Stop::Refused(fault) => {
                let number = fault.number();
                write!(f, "the client does not permit the call: fault {number}")
            }
            Stop::StepsSpent => write!(f, "the call was not answered within its steps"),
            Stop::Unrecorded(error) => write!(f, "the recorder failed: {error}"),
            Stop::NoMemory => write!(f, "no memory"),
            Stop::Ended => write!(f, "the client has ended"),
        }
    }
}

impl From<AllocError> for Stop {
    ghost from_gives = { λ _ e. e ≡ NoMemory };

    fn from(_e: AllocError) -> Stop {
        Stop::NoMemory
    }
}

impl From<io::Error> for Stop {
    ghost from_gives = { λ error e. e ≡ Unrecorded error };

    fn from(error: io::Error) -> Stop {
        Stop::Unrecorded(error)
    }
}
