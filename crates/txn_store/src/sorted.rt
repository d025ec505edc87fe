//! Files in the order of their paths, found by binary search.
ghost use Rattle.std.specs.Prelude.{◌≡◌, ◌≤◌, ◌<◌, ◌+◌, ◌-◌, ◌*◌, ◌^◌, map, length, take, drop, IfOk, OnOk, OnErr};
ghost use Rattle.std.specs.Option.{option_copied};
ghost use Rattle.std.specs.FinMap as finmap;
ghost use Rattle.txn_store.specs.CallCounts.{one_more};
ghost use Rattle.txn_store.specs.Memory.{binary_digits};
ghost use Rattle.txn_store.specs.Sorted.{side, IsPlace, IsBehind, further};
ghost use Rattle.txn_store.specs.Store.{meta_of, listing, page_of};

use crate::page::{Listing, Page};
use crate::path::Path;
use crate::store::{Got, ObjectMeta};
use std::alloc::{AllocError, Global};
use std::cmp::Ordering;
use std::collections::VecDeque;
use std::marker::Model;

/// What is searched for. Clauses alone name it.
#[derive(Clone, Copy, Debug, PartialEq, Eq)]
pub enum Mark {
    /// The path itself.
    Path,
    /// The end of the paths strictly below it.
    End,
}

/// Where a stored path stands: before what is searched for, at it, or behind it. Each stored path that a call
/// compares is compared here, which counts it.
fn compare(compared: &mut u64, stored: &Path, mark: Mark, asked: &Path) -> Ordering
    ensures counted { compared.new ≡ one_more compared.old }
    ensures side { result ≡ side mark asked.now stored.now }
{
    *compared = compared.saturating_add(1);
    match mark {
        Mark::Path => stored.cmp(asked),
        Mark::End if asked < stored && !stored.is_below(asked) => Ordering::Greater,
        Mark::End => Ordering::Less,
    }
}

/// The path behind which a page begins.
fn further<'a>(prefix: &'a Path, after: Option<&'a Path>) -> &'a Path
    ensures { result.now ≡ further prefix.now (option_copied after.entry) }
{
    match after {
        Some(after) if prefix < after => after,
        _ => prefix,
    }
}

/// How many of so many entries may stand on one side of the first that a search compares: one less than a power of two.
fn most_on_a_side(count: usize) -> usize
    ensures covers { count ≤ 2 * result + 1 }
    ensures few { 0 < count → binary_digits result + 1 ≤ binary_digits count }
{
    if count == 0 {
        return 0;
    }
    2usize.pow(count.ilog2()) - 1
}

/// The index of the next entry that a search compares, where so many may stand on one side of it: the middle first, and
/// then as far on as that allows, behind an entry that stood before the mark, and before one that stood behind it.
fn compared_next(low: usize, high: usize, most: usize, last: Ordering) -> usize
    requires { low < high }
    ensures rising { low ≤ result }
    ensures within { result < high }
    ensures before { high - low ≤ 2 * most + 1 → result - low ≤ most }
    ensures behind { high - low ≤ 2 * most + 1 → high - (result + 1) ≤ most }
{
    let others = high - low - 1;
    match last {
        Ordering::Less => low + most.min(others),
        Ordering::Equal => low + others / 2,
        Ordering::Greater => low + others.saturating_sub(most),
    }
}

/// An index among sorted files: `Ok` where a path stands, `Err` where it would.
pub type Place = Result<usize, usize>;

/// Files in the order of their paths. A clause sees them as a finite map. A search adds to `compared` how many stored paths
/// it compared with the asked one.
#[derive(Drop)]
pub struct SortedFiles {
    entries: VecDeque<(Path, Got)>,
}

impl Model for SortedFiles {
    ghost use Rattle.std.specs.FinMap as finmap;
    ghost use Rattle.std.specs.Prelude.{T};
    ghost use Rattle.txn_store.specs.Store.{Files};
    ghost use Rattle.txn_store.specs.Paths.{path_cmp};
    ghost use Rattle.txn_store.specs.Memory.{files_code};

    ghost Value = { Files };

    ghost coded = { files_code };

    ghost view = { λ s. finmap.from_sorted s.entries.items };

    ghost invariant = { λ s. T (finmap.is_sorted path_cmp s.entries.items) };
}

impl SortedFiles {
    /// No files. It takes no memory.
    pub fn new(alloc: Global) -> SortedFiles
        ensures { result ≡ finmap.empty }
    {
        SortedFiles {
            entries: VecDeque::new(alloc),
        }
    }

    /// Where a mark stands among the files. It compares as many of their paths as their number has binary digits, at most, and
    /// mostly far fewer near either end, where the newest version and the boundary stand: after the path in the middle each
    /// path that it compares stands as far on as that bound allows.
    fn search(&self, mark: Mark, asked: &Path, compared: &mut u64) -> Place
        ensures place { IsPlace mark asked.now (finmap.entries self.now) result }
        // There is an index after it.
        ensures small { IfOk result (λ index. index < 2 ^ 63) }
        ensures few { compared.new ≤ compared.old + binary_digits (length (finmap.entries self.now)) }
    {
        let mut low = 0;
        let mut high = self.entries.len();
        let mut most = most_on_a_side(high);
        let mut last = Ordering::Equal;
        while low < high {
            let middle = compared_next(low, high, most, last);
            most /= 2;
            last = compare(compared, &self.entries[middle].0, mark, asked);
            match last {
                Ordering::Less => low = middle + 1,
                Ordering::Equal => return Ok(middle),
                Ordering::Greater => high = middle,
            }
        }
        Err(low)
    }

    /// Where a path stands, or would. It is the place of that path as long as the files stay.
    pub fn place(&self, path: &Path, compared: &mut u64) -> Place
        ensures place { IsPlace Mark.Path path.now (finmap.entries self.now) result }
        ensures few { compared.new ≤ compared.old + binary_digits (length (finmap.entries self.now)) }
    {
        self.search(Mark::Path, path, compared)
    }

    /// What stands under the path of a place.
    pub fn at(&self, path: &Path, place: Place) -> Option<&Got>
        requires { IsPlace Mark.Path path.now (finmap.entries self.now) place }
        ensures { option_copied result ≡ finmap.get self.now path.now }
    {
        match place {
            Ok(index) => Some(&self.entries[index].1),
            Err(_) => None,
        }
    }

    /// What stands under a path.
    pub fn get(&self, path: &Path, compared: &mut u64) -> Option<&Got>
        ensures got { option_copied result ≡ finmap.get self.now path.now }
        ensures few { compared.new ≤ compared.old + binary_digits (length (finmap.entries self.now)) }
    {
        let place = self.place(path, compared);
        self.at(path, place)
    }

    /// Puts a file under the path of a place.
    ///
    /// # Errors
    ///
    /// Want of memory alone, which changes nothing.
    pub fn set(&mut self, path: &Path, place: Place, got: Got) -> Result<(), AllocError>
        requires { IsPlace Mark.Path path.now (finmap.entries self.old) place }
        ensures ok { OnOk result (self.new ≡ finmap.insert self.old path.now got) }
        ensures err { OnErr result (self.new ≡ self.old) }
    {
        match place {
            Ok(index) => self.entries[index].1 = got,
            Err(index) => self.entries.insert(index, (path.try_clone()?, got))?,
        }
        Ok(())
    }

    /// Removes the file under the path of a place. It takes no memory.
    pub fn remove(&mut self, path: &Path, place: Place)
        requires { IsPlace Mark.Path path.now (finmap.entries self.old) place }
        ensures { self.new ≡ finmap.remove self.old path.now }
    {
        if let Ok(index) = place {
            self.entries.remove(index);
        }
    }

    /// What a listing tells of the files from an index up to another.
    fn metas(&self, alloc: Global, start: usize, end: usize) -> Result<Vec<ObjectMeta>, AllocError>
        requires rising { start ≤ end }
        requires within { end ≤ length (finmap.entries self.now) }
        ensures { IfOk result (λ metas. metas.items ≡ map meta_of (take (end - start) (drop start (finmap.entries self.now)))) }
    {
        let mut metas = Vec::with_capacity(alloc, end - start)?;
        for (path, got) in self.entries.range(start..end) {
            metas.push(ObjectMeta {
                location: path.try_clone()?,
                size: got.bytes.len() as u64,
                token: got.token,
            })?;
        }
        Ok(metas)
    }

    /// The index of the first file behind a mark.
    fn behind(&self, mark: Mark, asked: &Path, compared: &mut u64) -> usize
        ensures behind { IsBehind mark asked.now (finmap.entries self.now) result }
        ensures few { compared.new ≤ compared.old + binary_digits (length (finmap.entries self.now)) }
    {
        match self.search(mark, asked, compared) {
            Ok(index) => index + 1,
            Err(index) => index,
        }
    }

    /// A page of the files below a prefix and above a path: the first `limit` of them. It looks at no file before its first.
    ///
    /// # Errors
    ///
    /// Want of memory alone, which changes nothing but the count of what was compared.
    pub fn page(
        &self,
        alloc: Global,
        prefix: &Path,
        after: Option<&Path>,
        limit: u64,
        compared: &mut u64,
    ) -> Result<Page, AllocError>
        ensures told { IfOk result (λ page. page ≡ page_of limit (listing prefix.now (option_copied after.entry) (finmap.entries self.now))) }
        ensures few { compared.new ≤ compared.old + (binary_digits (length (finmap.entries self.now)) + binary_digits (length (finmap.entries self.now))) }
    {
        let start = self.behind(Mark::Path, further(prefix, after), compared);
        let below = self
            .behind(Mark::End, prefix, compared)
            .saturating_sub(start);
        let count = limit.min(below as u64) as usize;
        let metas = self.metas(alloc, start, start + count)?;
        Ok(Page {
            metas: Listing::from_vec(metas),
            more: limit < below as u64,
        })
    }
}
