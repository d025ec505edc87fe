//! What scans of a folder, which take their time, tell of one moment.
ghost use Rattle.std.specs.Prelude.{◌≡◌, ◌≤◌, ◌+◌, ◌==◌, ◌++◌, ℕ, Bool, List, Decides, Contains, length, take, MatchOption};
ghost use Rattle.std.specs.List.Sorted.{IsStrictlyIncreasing};
ghost use Rattle.txn_folder.specs.steps.Scans.{BeginsAbove, IsSameUpTo, followed, AreAmong, AreSettled};
ghost use Rattle.txn_folder.specs.steps.Moments.{AreScans, StoodAtAMoment};

fn begins_above(ids: &[u64], last: u64) -> bool
    ensures { Decides result (BeginsAbove last ids.now) }
{
    match ids.first() {
        Some(id) => last < *id,
        None => true,
    }
}

/// What follows these ids in those, where those begin with them and go on with ids above the last one.
pub(crate) fn beyond<'a>(these: &[u64], those: &'a [u64], last: u64) -> Option<&'a [u64]>
    ensures { MatchOption result (¬ (IsSameUpTo last these.now those.now)) (λ rest. (those.now ≡ these.now ++ rest.now) × BeginsAbove last rest.now) }
{
    let rest = those.strip_prefix(these)?;
    if begins_above(rest, last) {
        Some(rest)
    } else {
        None
    }
}

/// Whether two scans tell the same up to the last id: those are these, and then ids above it.
pub fn is_same_up_to(these: &[u64], those: &[u64], last: u64) -> bool
    ensures { Decides result (IsSameUpTo last these.now those.now) }
{
    beyond(these, those, last).is_some()
}

/// Whether an id is among those, which ascend.
fn has(those: &[u64], id: u64) -> bool
    requires { IsStrictlyIncreasing those.now }
    ensures { Decides result (Contains those.now id) }
{
    those.binary_search(&id).is_ok()
}

/// Whether all of these ids are among those, which ascend.
pub fn has_all(those: &[u64], these: &[u64]) -> bool
    requires { IsStrictlyIncreasing those.now }
    ensures { Decides result (AreAmong those.now these.now) }
{
    for id in these {
        if !has(those, *id) {
            return false;
        }
    }
    true
}

/// Whether an id is the one after another.
fn is_next(id: u64, before: u64) -> bool
    ensures { result ≡ (id == before + 1) }
{
    before < id && id - before == 1
}

/// How many ids follow the last one without a gap.
pub fn followed(ids: &[u64], last: u64) -> usize
    ensures bound { result ≤ length ids.now }
    ensures run { take result ids.now ≡ followed last ids.now }
{
    let mut count = 0;
    let mut end = last;
    for id in ids {
        if !is_next(*id, end) {
            return count;
        }
        end = *id;
        count += 1;
    }
    count
}

/// The run of ids that follow the last one in the second of three scans, where the three tell one moment: up to the last id
/// they are the same, and the third has all that the second has. At that moment stood what the first tells, and the run.
pub fn settled_run<'a>(
    first: &[u64],
    second: &'a [u64],
    third: &[u64],
    last: u64,
) -> Option<&'a [u64]>
    requires { IsStrictlyIncreasing third.now }
    ensures { MatchOption result ((run : List ℕ) → ¬ (AreSettled last first.now second.now third.now run)) (λ run. AreSettled last first.now second.now third.now run.now) }
{
    let rest = beyond(first, second, last)?;
    if !is_same_up_to(first, third, last) || !has_all(third, second) {
        return None;
    }
    let count = followed(rest, last);
    Some(&rest[..count])
}

/// The law of a listing: where three scans of a folder in which nothing is removed tell one moment, there was one, after the
/// first scan's end and up to the second's, at which stood what the first tells and the run, and nothing else. Above the last
/// id versions have to be made in the order of their ids, each after the one before it.
pub fn settled_scans_tell_a_moment(last: u64)
    ensures { (stood : ℕ → ℕ → Bool) (end next later third_from : ℕ) (first second third run : List ℕ) → AreScans last stood end next later third_from first second third → AreSettled last first second third run → StoodAtAMoment stood end later (first ++ run) }
{}
