//! The tables of calls, which are played here: of operations, and of calls on views, one at a time.
use crate::tests::place::{other, other_of};
use crate::tests::scenarios::{FAILING, FIVE};
use crate::tests::{claims, holders, scenarios, views};
use std::alloc::Global;
use std::test::Fail;
use txn_script_lines::record::RecordCodec;
use txn_store::path::PathFault;
use txn_store::types::layout::PAGE;
use txn_store::types::test_utils::NumberCodec;

/// The first of these that goes otherwise, counted from 0, and the row that does, where there is one.
fn other_failing(alloc: Global) -> Result<Option<(usize, usize)>, PathFault> {
    for (at, (nth, rows)) in FAILING.iter().enumerate() {
        if let Some((row, _)) = other(alloc, PAGE, NumberCodec, *nth, rows)? {
            return Ok(Some((at, row)));
        }
    }
    Ok(None)
}

#[test]
fn each_call_takes_its_steps(rt: HostRuntime) -> Result<(), Fail> {
    assert_eq!(rt;
        other_of(rt.alloc(), NumberCodec, scenarios::SCENARIOS)?,
        None
    );
    assert_eq!(rt; other(rt.alloc(), 2, NumberCodec, 0, FIVE)?, None);
    assert_eq!(rt; other_failing(rt.alloc())?, None);
    for scenarios in [views::SCENARIOS, claims::SCENARIOS, holders::SCENARIOS] {
        assert_eq!(rt; other_of(rt.alloc(), RecordCodec, scenarios)?, None);
    }
    Ok(())
}
