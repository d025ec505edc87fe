//! The search for the versions that stood in a folder at one moment, by scans of it: a small machine.
ghost use Rattle.std.specs.Prelude.{◌≡◌, length, option_map, unwrap_or};
ghost use Rattle.std.specs.List.Sorted.{IsStrictlyIncreasing};
ghost use Rattle.txn_folder.specs.steps.Scans.{beyond, settled_run};
ghost use Rattle.txn_folder.specs.steps.Listing.{last_of, scan_turned, thrice_turned, twice_turned};
ghost use Rattle.txn_folder.specs.steps.Paging.{scanned_as, scanning_as};

use crate::steps::scans::{beyond, settled_run};

/// What a search has been told: no scan of a folder tells what stood at one moment by itself, since it can tell of a version and
/// miss an older one. What two scans in a row tell stood between them. Where there are new versions in the second, which are
/// made in the order of their ids, a third one tells that nothing else came meanwhile: then there was a moment with what the
/// first told and with the new ones that follow it in the second.
#[derive(Drop)]
pub enum ScanStep {
    /// It makes its first scan.
    Once,
    /// It makes a second scan after this one.
    Twice(Vec<u64>),
    /// It makes a third scan after these.
    Thrice(Vec<u64>, Vec<u64>),
}

/// Where a search goes on, or the ids of the versions that stood at one moment.
#[derive(Drop)]
pub enum ScanNext {
    Goes(ScanStep),
    Settles(Vec<u64>),
}

/// The greatest of ids that ascend, or the one that they are above.
fn last_of(ids: &[u64], after: Option<u64>) -> u64
    ensures { result ≡ last_of (unwrap_or after 0) ids.now }
{
    match ids.last() {
        Some(id) => *id,
        None => after.unwrap_or(0),
    }
}

/// How many ids follow these in those, where those are the same up to the last id.
fn count_beyond(these: &[u64], those: &[u64], last: u64) -> Option<usize>
    ensures { result ≡ option_map length (beyond last these.now those.now) }
{
    match beyond(these, those, last) {
        Some(rest) => Some(rest.len()),
        None => None,
    }
}

/// How many ids follow the first of three scans, where these tell one moment.
fn count_settled(first: &[u64], second: &[u64], third: &[u64], last: u64) -> Option<usize>
    requires { IsStrictlyIncreasing third.now }
    ensures { result ≡ option_map length (settled_run last first.now second.now third.now) }
{
    match settled_run(first, second, third, last) {
        Some(run) => Some(run.len()),
        None => None,
    }
}

/// Where a second scan leads.
fn twice(first: Vec<u64>, second: Vec<u64>, last: u64) -> ScanNext
    ensures { scanned_as result ≡ twice_turned first.items second.items (beyond last first.items second.items) }
{
    match count_beyond(&first, &second, last) {
        Some(0) => ScanNext::Settles(second),
        Some(_) => ScanNext::Goes(ScanStep::Thrice(first, second)),
        None => ScanNext::Goes(ScanStep::Twice(second)),
    }
}

/// Where a third scan leads. What the first told, with what follows it, is the front of the second.
fn thrice(first: Vec<u64>, second: Vec<u64>, third: Vec<u64>, last: u64) -> ScanNext
    requires { IsStrictlyIncreasing third.items }
    ensures { scanned_as result ≡ thrice_turned first.items third.items (settled_run last first.items second.items third.items) }
{
    let Some(count) = count_settled(&first, &second, &third, last) else {
        return ScanNext::Goes(ScanStep::Twice(third));
    };
    let mut settled = second;
    settled.truncate(first.len() + count);
    ScanNext::Settles(settled)
}

impl ScanStep {
    /// Where a scan leads that told these ids, which ascend, each above one where that is given.
    pub fn take(self, after: Option<u64>, ids: Vec<u64>) -> ScanNext
        requires { IsStrictlyIncreasing ids.items }
        ensures { scanned_as result ≡ scan_turned (unwrap_or after 0) (scanning_as self) ids.items }
    {
        match self {
            ScanStep::Once => ScanNext::Goes(ScanStep::Twice(ids)),
            ScanStep::Twice(first) => {
                let last = last_of(&first, after);
                twice(first, ids, last)
            }
            ScanStep::Thrice(first, second) => {
                let last = last_of(&first, after);
                thrice(first, second, ids, last)
            }
        }
    }
}
