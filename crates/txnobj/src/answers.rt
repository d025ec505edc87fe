//! What an answer gives, by the kind of its call.
ghost use Rattle.std.specs.Prelude.{◌≡◌};
ghost use Rattle.txnobj.specs.Answers.{Sorts, read_in, wrote_in, value_in, ids_in, done_in, view_in, held_in};

use txn_history::event::{Answer, PlainAnswer};
use txn_history::ids::Ids;
use txn_store::types::id::MonotonicId;

/// A view as it stands: its number, and the version that it is at.
#[derive(Drop)]
pub struct Viewed<T> {
    pub view: u64,
    pub id: u64,
    pub value: T,
}

/// A view as a holder has it: its number, the version that it is at, and the holder's epoch.
#[derive(Drop)]
pub struct Held<T> {
    pub view: u64,
    pub id: u64,
    pub value: T,
    pub epoch: u64,
}

/// A version that was read.
fn version_of<T>(found: Option<(u64, T)>) -> Option<(MonotonicId, T)>
    ensures { result ≡ found }
{
    match found {
        Some((id, value)) => Some((MonotonicId::new(id), value)),
        None => None,
    }
}

/// The newest version, where an answer gives it, or that there is none.
pub(crate) fn read_in<T: Drop>(answer: Answer<T>) -> Result<Option<(MonotonicId, T)>, Answer<T>>
    ensures { Sorts read_in answer result }
{
    match answer {
        Answer::Plain(PlainAnswer::Read(found)) => Ok(version_of(found)),
        other => Err(other),
    }
}

/// The id of what was written.
pub(crate) fn wrote_in<T: Drop>(answer: Answer<T>) -> Result<MonotonicId, Answer<T>>
    ensures { Sorts wrote_in answer result }
{
    match answer {
        Answer::Plain(PlainAnswer::Wrote(id)) => Ok(MonotonicId::new(id)),
        other => Err(other),
    }
}

/// The value of a version, or that there is none.
pub(crate) fn value_in<T: Drop>(answer: Answer<T>) -> Result<Option<T>, Answer<T>>
    ensures { Sorts value_in answer result }
{
    match answer {
        Answer::Plain(PlainAnswer::Value(value)) => Ok(value),
        other => Err(other),
    }
}

/// Ids.
pub(crate) fn ids_in<T: Drop>(answer: Answer<T>) -> Result<Ids, Answer<T>>
    ensures { Sorts ids_in answer result }
{
    match answer {
        Answer::Plain(PlainAnswer::Ids(ids)) => Ok(ids),
        other => Err(other),
    }
}

/// That it is done.
pub(crate) fn done_in<T: Drop>(answer: Answer<T>) -> Result<(), Answer<T>>
    ensures { Sorts done_in answer result }
{
    match answer {
        Answer::Plain(PlainAnswer::Done) => Ok(()),
        other => Err(other),
    }
}

/// A view.
pub(crate) fn view_in<T: Drop>(answer: Answer<T>) -> Result<Viewed<T>, Answer<T>>
    ensures { Sorts view_in answer result }
{
    match answer {
        Answer::View(view, id, value) => Ok(Viewed { view, id, value }),
        other => Err(other),
    }
}

/// A holder's view.
pub(crate) fn held_in<T: Drop>(answer: Answer<T>) -> Result<Held<T>, Answer<T>>
    ensures { Sorts held_in answer result }
{
    match answer {
        Answer::Held(view, id, value, epoch) => Ok(Held {
            view,
            id,
            value,
            epoch,
        }),
        other => Err(other),
    }
}
