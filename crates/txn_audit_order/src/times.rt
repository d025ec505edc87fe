//! Which call came before which, by their times.

use crate::graph::Graph;
use std::alloc::{AllocError, Global};
use txn_audit_effects::calls::Asked;
use txn_audit_effects::landings::{Fate, has_place};

/// A clock and a time of it. Those of the clock 0 are of all calls, as far as all clocks surely tell them; those of any other are
/// of its own calls alone, and exact.
pub(crate) type Time = (usize, u64);

/// The clock whose times are of all calls.
const ALL: usize = 0;

/// Adds when the calls were asked.
fn add_times(calls: &[Asked<'_>], fates: &[Fate], all: &mut Vec<Time>) -> Result<(), AllocError> {
    for place in 0..calls.len() {
        if has_place(fates, place) {
            let call = &calls[place];
            all.push((ALL, call.from))?;
            if call.clock != ALL {
                all.push((call.clock, call.asked))?;
            }
        }
    }
    Ok(())
}

/// The times at which calls were asked, those of each clock ascending, each once.
pub(crate) fn times_asked(
    alloc: Global,
    calls: &[Asked<'_>],
    fates: &[Fate],
) -> Result<Vec<Time>, AllocError> {
    let mut all = Vec::new(alloc);
    add_times(calls, fates, &mut all)?;
    all.sort_unstable();
    let mut times = Vec::with_capacity(alloc, all.len())?;
    for time in all.as_slice() {
        if times.as_slice().last() != Some(time) {
            times.push(*time)?;
        }
    }
    Ok(times)
}

/// The times of a graph, which are nodes behind those of the calls.
#[derive(Clone, Copy)]
struct Times<'a> {
    times: &'a [Time],
    behind: usize,
}

impl Times<'_> {
    /// The node of the time at a place, where one of this clock stands there.
    fn node(&self, place: usize, clock: usize) -> Option<usize> {
        let (of, _) = self.times.get(place)?;
        (*of == clock).then_some(self.behind.saturating_add(place))
    }

    /// Adds that each time of a clock comes before the next one.
    fn ascend(&self, graph: &mut Graph) -> Result<(), AllocError> {
        for place in 1..self.times.len() {
            let (clock, _) = self.times[place];
            graph.edge(
                self.node(place.saturating_sub(1), clock),
                self.node(place, clock),
            )?;
        }
        Ok(())
    }

    /// Adds that a call came after the time at which it was asked, and before each later one than that of its reply.
    fn link(
        &self,
        graph: &mut Graph,
        call: usize,
        clock: usize,
        asked: u64,
        told: Option<u64>,
    ) -> Result<(), AllocError> {
        let start = self.times.partition_point(|time| *time < (clock, asked));
        graph.edge(self.node(start, clock), Some(call))?;
        if let Some(told) = told {
            let later = self.times.partition_point(|time| *time <= (clock, told));
            graph.edge(Some(call), self.node(later, clock))?;
        }
        Ok(())
    }
}

/// Adds that a call whose reply was there came before each that was asked at a later time: of all calls where that is sure by all
/// clocks, and of those of one clock by that alone. The times are nodes behind those of the calls.
pub(crate) fn link_times(
    graph: &mut Graph,
    calls: &[Asked<'_>],
    fates: &[Fate],
    times: &[Time],
) -> Result<(), AllocError> {
    let times = Times {
        times,
        behind: calls.len(),
    };
    times.ascend(graph)?;
    for place in 0..calls.len() {
        if has_place(fates, place) {
            let call = &calls[place];
            let is_answered = call.is_answered();
            times.link(
                graph,
                place,
                ALL,
                call.from,
                is_answered.then_some(call.until),
            )?;
            if call.clock != ALL {
                times.link(
                    graph,
                    place,
                    call.clock,
                    call.asked,
                    is_answered.then_some(call.told),
                )?;
            }
        }
    }
    Ok(())
}
