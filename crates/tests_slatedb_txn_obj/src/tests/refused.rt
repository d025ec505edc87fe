//! Growths that are refused while views and holders are at work.
use crate::tests::swept::{
    A_FENCED_VERSION_AT_HAND, A_STALE_EPOCH, AN_EPOCH, AN_UPDATE, AN_UPDATE_BEHIND_THE_BOUNDARY,
    HOLDERS, Outcome, end_of,
};
use std::alloc::{AllocError, Global};

const ALL: &[(&str, &str)] = &[
    ("an update", AN_UPDATE),
    (
        "an update behind the boundary",
        AN_UPDATE_BEHIND_THE_BOUNDARY,
    ),
    ("a fenced version at hand", A_FENCED_VERSION_AT_HAND),
    ("holders", HOLDERS),
    ("a stale epoch", A_STALE_EPOCH),
    ("an epoch", AN_EPOCH),
];

/// What comes of lines over a store that never fails.
fn outcome_of(alloc: Global, rows: &str) -> Result<Outcome, AllocError> {
    end_of(alloc, "fail 0 before", rows, "refused 9 NoMemory")
}

/// Whether lines went as they should, or a growth was refused on the way and nothing else came.
fn is_right(outcome: Result<Outcome, AllocError>) -> bool {
    !matches!(outcome, Ok(Outcome::Other(_)))
}

// Run it with each allocation failing in turn.
#[test]
fn a_refused_growth_leaves_what_was(rt: HostRuntime) {
    for (name, rows) in ALL {
        assert!(rt; is_right(outcome_of(rt.alloc(), rows)), "{name}");
    }
}
