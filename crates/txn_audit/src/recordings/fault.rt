//! Why a client cannot have made a row of its recording.

use std::alloc::AllocError;
use std::fmt;
use txn_history::event::EventFault;

/// Why a client cannot have made a row of its recording.
#[derive(Clone, Copy, Debug, PartialEq, Eq)]
pub enum RowFault {
    /// The recording does not begin with the client's number and the page of its listings, each at least 1, or names them again.
    NoClient,
    /// Its listings have other pages than those of the first recording.
    OtherPage,
    /// The row is out of turn: an operation that does not run, or a number that is not the next; a begin while another
    /// operation runs; a reply to nothing; an answer of an operation that was not answered.
    OutOfTurn,
    /// The operation asks for something else.
    OtherRequest,
    /// The operation was answered otherwise.
    OtherAnswer,
    /// The reply has no place in the order.
    NoPlace,
    /// The client does not permit it: its fault.
    Refused(EventFault),
    /// A growth was refused.
    NoMemory,
}

impl From<AllocError> for RowFault {
    fn from(_e: AllocError) -> RowFault {
        RowFault::NoMemory
    }
}

impl From<EventFault> for RowFault {
    fn from(fault: EventFault) -> RowFault {
        match fault {
            EventFault::NoMemory => RowFault::NoMemory,
            fault => RowFault::Refused(fault),
        }
    }
}

/// What is said of a row that a client cannot have made.
impl fmt::Display for RowFault {
    fn fmt<W: fmt::Write>(&self, f: &mut fmt::Formatter<W>) -> fmt::Result {
        match self {
            RowFault::NoClient => write!(f, "no client and page"),
            RowFault::OtherPage => write!(f, "another page than that of the first recording"),
            RowFault::OutOfTurn => write!(f, "out of turn"),
            RowFault::OtherRequest => write!(f, "the operation asks for something else"),
            RowFault::OtherAnswer => write!(f, "the operation was answered otherwise"),
            RowFault::NoPlace => write!(f, "the reply has no place in the order"),
            RowFault::Refused(fault) => {
                let number = fault.number();
                write!(f, "the client does not permit it: fault {number}")
            }
            RowFault::NoMemory => write!(f, "no memory"),
        }
    }
}
