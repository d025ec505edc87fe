//! Why recordings are not audited.

use crate::recordings::fault::RowFault;
use std::alloc::{AllocError, AllocFailed};
use std::fmt;
use txn_audit_order::order::{CallPlace, Link, OrderFault};
use txn_client_journals::fault::AuditFault;
use txn_client_journals::log_fault::LogFault;

/// Why recordings are not one history, as far as they were audited. Recordings and rows are counted from 0, and rows of the
/// order too.
#[derive(Debug, Drop)]
pub enum Refusal {
    /// The client cannot have made this row of its recording. A row past the last one stands for the end.
    Row(CallPlace, RowFault),
    /// Store calls wait for each other in a circle: no order was found that explains all replies and times.
    Circle(Vec<Link>),
    /// No honest store gives this reply at this place in the order, be it recorded or that of a call that landed.
    Dishonest(CallPlace, u64, LogFault),
    /// The reply to this call, which has this place in the order, was there before it or a call before it was asked.
    OutOfTime(CallPlace, u64),
    /// The diaries and the log differ.
    Differs(AuditFault),
    /// A growth was refused.
    NoMemory,
}

impl From<AllocError> for Refusal {
    fn from(_e: AllocError) -> Refusal {
        Refusal::NoMemory
    }
}

impl<T: Drop> From<AllocFailed<T>> for Refusal {
    fn from(_e: AllocFailed<T>) -> Refusal {
        Refusal::NoMemory
    }
}

impl From<OrderFault> for Refusal {
    fn from(fault: OrderFault) -> Refusal {
        match fault {
            OrderFault::Circle(links) => Refusal::Circle(links),
            OrderFault::NoMemory => Refusal::NoMemory,
        }
    }
}

impl From<AuditFault> for Refusal {
    fn from(fault: AuditFault) -> Refusal {
        Refusal::Differs(fault)
    }
}

/// What is said of a reply that no honest store gave.
fn name_of(fault: LogFault) -> &'static str {
    match fault {
        LogFault::OtherKind => "it answers another kind of call",
        LogFault::Failed => "an honest store does not fail",
        LogFault::OtherAnswer => "the files answer otherwise",
        LogFault::TokenGiven => "its token was given before",
        LogFault::NoMemory => "no memory",
    }
}

/// What is said of diaries and a log that differ.
fn difference(fault: AuditFault) -> &'static str {
    match fault {
        AuditFault::ClientTwice => "two recordings are of one client",
        AuditFault::ClientMissing => "a call is of no recording's client",
        AuditFault::RowsDiffer => "a client's replies are not those of the order",
        AuditFault::LandingUnknown => "a call took effect that its client had not left",
    }
}

/// A line that says it. Recordings, the rows of each and the calls of the order are counted from 1.
impl fmt::Display for Refusal {
    fn fmt<W: fmt::Write>(&self, f: &mut fmt::Formatter<W>) -> fmt::Result {
        match self {
            Refusal::Row(at, fault) => {
                let recording = at.recording.saturating_add(1);
                let row = at.row.saturating_add(1);
                write!(f, "recording {recording}, row {row}: {fault}")
            }
            Refusal::Circle(links) => {
                write!(
                    f,
                    "no order: each of these came before the next, and the last before the first:"
                )?;
                for link in links.as_slice() {
                    let recording = link.call.recording.saturating_add(1);
                    let row = link.call.row.saturating_add(1);
                    let reason = link.reason;
                    write!(f, " recording {recording}, row {row}, {reason};")?;
                }
                Ok(())
            }
            Refusal::Dishonest(at, place, fault) => {
                let recording = at.recording.saturating_add(1);
                let row = at.row.saturating_add(1);
                let call = place.saturating_add(1);
                let name = name_of(*fault);
                write!(
                    f,
                    "recording {recording}, row {row}: no honest store replies so to call {call} of the order: {name}"
                )
            }
            Refusal::OutOfTime(at, place) => {
                let recording = at.recording.saturating_add(1);
                let row = at.row.saturating_add(1);
                let call = place.saturating_add(1);
                write!(
                    f,
                    "recording {recording}, row {row}: call {call} of the order had its reply before it or an earlier one was asked"
                )
            }
            Refusal::Differs(fault) => {
                let said = difference(*fault);
                write!(f, "{said}")
            }
            Refusal::NoMemory => write!(f, "no memory"),
        }
    }
}
