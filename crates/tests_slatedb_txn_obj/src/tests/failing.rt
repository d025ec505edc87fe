//! Each call of an update behind the boundary fails in turn, before or after its effect.
use crate::tests::swept::{AN_UPDATE_BEHIND_THE_BOUNDARY, Outcome, end_of};
use std::alloc::{AllocError, Global};
use std::test::Fail;

/// How many calls of the store the lines make.
const CALLS: u64 = 16;

/// What comes of the lines over a store whose nth call fails so.
fn outcome_with(alloc: Global, nth: u64, when: &str) -> Result<Outcome, AllocError> {
    let failure = format!(in alloc; "fail {nth} {when}")?;
    let error = "refused 2 ObjectStoreError: failed";
    end_of(
        alloc,
        failure.as_str(),
        AN_UPDATE_BEHIND_THE_BOUNDARY,
        error,
    )
}

#[test]
fn each_failed_call_breaks_off_an_update_behind_the_boundary(rt: HostRuntime) -> Result<(), Fail> {
    for before in 0..CALLS {
        for when in ["before", "after"] {
            let outcome = outcome_with(rt.alloc(), before + 1, when)?;
            assert_eq!(rt; (before, when, outcome), (before, when, Outcome::BrokenOff));
        }
    }
    Ok(())
}
