//! When the calls of recordings were, beside each other.

ghost use Rattle.std.specs.Prelude.{◌≡◌};
ghost use Rattle.txn_drawing_recordings.specs.Pace.{served_at, told_at};

use txn_audit_effects::clock::{Clock, clock_of};
use txn_audit_recordings::row::RecordedRow;
use txn_drawing_moments::moment::When;

/// When calls were, which are told one after another.
#[derive(Clone, Copy)]
pub(crate) struct Pace<'a> {
    clocks: &'a [Clock],
    /// Whether one clock has all times.
    is_shared: bool,
    /// When the first call was asked.
    start: u64,
    /// When the last one was served at the earliest.
    pub(crate) last: u64,
}

/// When a row asks, by its own clock.
fn asked_in<T>(row: &RecordedRow<T>) -> Option<u64> {
    match row {
        RecordedRow::Ask(_, at, _) => Some(*at),
        _ => None,
    }
}

/// When the first call was asked: never, where there is none.
fn start_of<T>(recordings: &[Vec<RecordedRow<T>>], clocks: &[Clock]) -> u64 {
    let mut start = u64::MAX;
    for (recording, rows) in recordings.iter().enumerate() {
        let ahead = clock_of(clocks, recording).ahead;
        for row in rows {
            if let Some(at) = asked_in(row) {
                start = start.min(at.saturating_add(ahead));
            }
        }
    }
    start
}

/// Whether one clock has the times of so many recordings.
fn is_shared(recordings: usize, clocks: &[Clock]) -> bool {
    let first = clock_of(clocks, 0).number;
    for recording in 0..recordings {
        if clock_of(clocks, recording).number != first {
            return false;
        }
    }
    true
}

/// The first moment at which the store can have served a call that was asked and replied at these times: not before the last one was.
pub(crate) fn served_at(now: u64, asked: u64, replied: Option<u64>) -> u64
    ensures { result ≡ served_at now asked replied }
{
    let first = now.max(asked);
    match replied {
        Some(replied) => first.min(replied),
        None => first,
    }
}

impl<'a> Pace<'a> {
    /// None of these recordings' calls was told yet.
    pub(crate) fn of<T>(recordings: &[Vec<RecordedRow<T>>], clocks: &'a [Clock]) -> Pace<'a> {
        Pace {
            clocks,
            is_shared: is_shared(recordings.len(), clocks),
            start: start_of(recordings, clocks),
            last: 0,
        }
    }

    /// A time of a recording, as all clocks tell it.
    pub(crate) fn common(&self, recording: usize, at: u64) -> u64 {
        at.saturating_add(clock_of(self.clocks, recording).ahead)
    }

    /// A time as it is told, where it is known.
    pub(crate) fn when(&self, at: Option<u64>) -> When
        ensures { result ≡ told_at self.now.is_shared self.now.start at }
    {
        match at {
            Some(at) if self.is_shared => When::Shared(at.saturating_sub(self.start)),
            Some(at) => When::Own(at.saturating_sub(self.start)),
            None => When::Unknown,
        }
    }
}
