//! The calls that have rings.

ghost use Rattle.std.specs.Prelude.{◌≡◌};
ghost use Rattle.txn_drawing_recordings.specs.Rings.{edge_of, ring_of};

use txn_audit_order::order::{CallPlace, Reason};
use txn_drawing_moments::moment::{Edge, Ring};

/// A call that has a ring. In a circle each came before the next one, and the last before the first, for this reason.
#[derive(Clone, Copy)]
pub struct Ringed {
    pub call: CallPlace,
    pub before: Option<Reason>,
}

/// What the call of a number came before, of so many.
fn edge_of(number: u64, count: u64, reason: Reason) -> Edge
    ensures { result ≡ edge_of number count reason }
{
    Edge {
        to: if number < count {
            number.saturating_add(1)
        } else {
            1
        },
        is_by_time: reason == Reason::Times,
    }
}

/// The ring of a number, where there is one. A call alone comes before none.
pub(crate) fn ring_of(ringed: &[Ringed], number: u64) -> Option<Ring>
    ensures { result ≡ ring_of ringed.now number }
{
    let place = number.checked_sub(1)? as usize;
    let it = *ringed.get(place)?;
    let count = ringed.len() as u64;
    let before = match it.before {
        Some(reason) if count > 1 => Some(edge_of(number, count, reason)),
        _ => None,
    };
    Some(Ring { number, before })
}
