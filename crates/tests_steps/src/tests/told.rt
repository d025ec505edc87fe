//! What calls say.
use txn_script_lines::record::Record;
use txn_steps::boundary::turned::Turned;
use txn_steps_views::outcome::Outcome;
use txn_store::types::id::MonotonicId;
use txn_store::types::step_error::StepError;

/// What a call of a client says. A view is told by the id of its version with its record's epoch and payload.
#[derive(Clone, Copy, Debug, PartialEq, Eq)]
pub(crate) enum Told {
    /// A check, an advance or a delete.
    Did,
    Wrote(u64),
    /// The newest version and its value.
    Newest(Option<(u64, u64)>),
    /// The value of one version.
    Value(Option<u64>),
    /// Whether something is as it was told.
    Is(bool),
    /// The view is at this version.
    Viewed(u64, u64, u64),
    /// The view is at this version, as the holder of the epoch that stands last.
    Held(u64, u64, u64, u64),
    /// The holder's view is at this version, and the answer is this refusal.
    Shut(u64, u64, u64, u8),
    /// An error as its number.
    Fails(u8),
    /// Its steps were spent first.
    GoesOn,
}

use Told::{Did, Fails, GoesOn, Held, Newest, Shut, Value, Viewed, Wrote};

pub(crate) type Error = StepError;

/// What an operation answers where it does not fail.
pub(crate) trait Tell {
    fn tell(self) -> Told;
}

impl Tell for () {
    fn tell(self) -> Told {
        Did
    }
}

impl Tell for MonotonicId {
    fn tell(self) -> Told {
        Wrote(self.id())
    }
}

impl Tell for Option<(MonotonicId, u64)> {
    fn tell(self) -> Told {
        Newest(self.map(|(id, value)| (id.id(), value)))
    }
}

impl Tell for Option<u64> {
    fn tell(self) -> Told {
        Value(self)
    }
}

impl Tell for Outcome<Record> {
    fn tell(self) -> Told {
        match self {
            Outcome::Viewed(id, copies) => {
                let (value, _, _) = copies.into_values();
                Viewed(id.id(), value.epoch, value.payload)
            }
            Outcome::Held(id, copies, epoch) => {
                let (value, _, _) = copies.into_values();
                Held(id.id(), value.epoch, value.payload, epoch)
            }
            Outcome::Shut(id, value, error) => {
                Shut(id.id(), value.epoch, value.payload, error.number())
            }
        }
    }
}

/// What an operation says after a turn.
pub(crate) fn said<T: Tell>(turned: Turned<Result<T, Error>>) -> Told {
    match turned {
        Turned::Goes => GoesOn,
        Turned::Done(Ok(answer)) => answer.tell(),
        Turned::Done(Err(error)) => Fails(error.number()),
    }
}
