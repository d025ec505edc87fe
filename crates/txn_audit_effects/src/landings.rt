//! Calls whose reply nobody saw, and which took effect all the same.

use crate::calls::Asked;
use std::alloc::{AllocError, Global};

/// What became of a call.
#[derive(Clone, Copy, Debug, PartialEq, Eq)]
pub enum Fate {
    /// Its reply was seen.
    Answered,
    /// Nobody saw a reply, and nothing shows an effect.
    Unknown,
    /// Nobody saw a reply, but it took effect. A put was given this token, where one is known.
    Landed(Option<u64>),
}

/// What became of each call, as far as replies tell.
pub(crate) fn fates(alloc: Global, calls: &[Asked<'_>]) -> Result<Vec<Fate>, AllocError> {
    let mut fates = Vec::with_capacity(alloc, calls.len())?;
    for call in calls {
        fates.push(if call.is_answered() {
            Fate::Answered
        } else {
            Fate::Unknown
        })?;
    }
    Ok(fates)
}

/// What became of a call.
pub fn fate_of(fates: &[Fate], call: usize) -> Fate {
    match fates.get(call) {
        Some(fate) => *fate,
        None => Fate::Unknown,
    }
}

/// Whether a call has a place in the order.
pub fn has_place(fates: &[Fate], call: usize) -> bool {
    fate_of(fates, call) != Fate::Unknown
}

/// Notes that a call took effect though nobody saw its reply.
pub(crate) fn land(fates: &mut Vec<Fate>, call: usize, token: Option<u64>) {
    if let Some(fate) = fates.get_mut(call) {
        *fate = Fate::Landed(token);
    }
}
