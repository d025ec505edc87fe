//! In how many orders each outcome is reached.

use crate::walk::Walk;
use std::alloc::{AllocError, Global};

/// In how many orders the outcomes are reached. From the greatest u128 on no order is counted.
#[derive(Drop)]
pub(crate) struct Counts {
    /// All of them.
    pub(crate) orders: u128,
    /// Those of each outcome, with its mirror images.
    pub(crate) of: Vec<u128>,
}

/// Adds up what leads to a state.
fn add(count: &mut [u128], state: usize, more: u128) {
    if let Some(count) = count.get_mut(state) {
        *count = count.saturating_add(more);
    }
}

/// In how many orders each outcome of a whole walk is reached.
pub(crate) fn counts_of(alloc: Global, walk: &Walk) -> Result<Counts, AllocError> {
    let mut ways = vec![in alloc; 0u128; walk.states.len()]?;
    let mut of = vec![in alloc; 0u128; walk.images.len()]?;
    let mut orders = 0u128;
    add(&mut ways, 0, 1);
    for number in walk.finished.as_slice().iter().rev() {
        let Some(state) = walk.states.get(*number) else {
            continue;
        };
        let here = ways.get(*number).copied().unwrap_or(0);
        for next in state.next.as_slice() {
            add(&mut ways, *next, here);
        }
        if let Some(outcome) = state.outcome {
            add(&mut of, outcome, here);
            orders = orders.saturating_add(here);
        }
    }
    Ok(Counts { orders, of })
}
