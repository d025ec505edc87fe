//! A listing.
ghost use Rattle.std.specs.Prelude.{◌≡◌, ◌∷◌, ◌++◌, [], nat_lt, length, take, reverse, IfOk};
ghost use Rattle.txn_folder.specs.steps.Steps.{Fails, Is};
ghost use Rattle.txn_folder.specs.steps.Listing.{ListFrees, freed, list_asked, list_turned, looks_up, meta_told, scanned};
ghost use Rattle.txn_folder.specs.steps.Paging.{IsAscending, list_ask_as, list_asks, list_next_as, list_told_as, list_verdict, paging_as, scanned_as};

use crate::steps::scan::{ScanNext, ScanStep};
use std::alloc::{AllocError, Global};
use txn_store::page::{Listing, Page};
use txn_store::store::{ObjectMeta, Token};
use txn_store::version_names::VersionNames;

/// What a listing asks of the system.
#[derive(Clone, Copy)]
pub enum ListAsk {
    /// Whether the folder of the versions is there.
    Folder,
    /// The lock of removals, with others.
    Share,
    /// The versions that the folder shows, as it is gone through once.
    Scan,
    /// The file of the version of this id.
    Look(u64),
    /// That the lock is let go.
    Let,
    /// That the names that are told last.
    Sync,
}

/// What the system tells.
#[derive(Drop)]
pub enum ListTold {
    Done,
    Missing,
    /// The ids of the versions that the folder shows, above the one that the listing goes on after, in ascending order.
    Shown(Vec<u64>),
    /// The file has so many bytes, and this time of change, 0 where no number holds it.
    Holds(u64, u64),
    Error,
}

/// What the system told a listing that asked it for this.
#[derive(Drop)]
pub struct ListAnswer {
    pub asked: ListAsk,
    pub told: ListTold,
}

/// How a listing is to end.
#[derive(Drop)]
pub enum ListEnd {
    /// It tells this page.
    Listed(Page),
    Fails,
}

/// Where a listing is.
#[derive(Drop)]
pub enum ListStep {
    /// It looks for the folder of the versions: one that is missing has none.
    Sees,
    /// It takes the lock of removals, with others.
    Shares,
    /// It goes through the folder.
    Scans(ScanStep),
    /// It looks up the file of a version, and then those of the rest, the last of these first. What was told of those before,
    /// and whether there are more versions than it may tell.
    Looks {
        id: u64,
        rest: Vec<u64>,
        metas: Vec<ObjectMeta>,
        more: bool,
    },
    /// It lets the lock go, and is to end so.
    Frees(ListEnd),
    /// It makes what it tells last, and is to end so.
    Syncs(ListEnd),
}

/// Where a listing goes on.
#[derive(Drop)]
pub enum ListNext {
    Goes(ListStep),
    Ends(ListEnd),
}

/// Where a listing goes on that has these still to look up, the first of them last.
fn looks_up(rest: Vec<u64>, metas: Vec<ObjectMeta>, more: bool) -> ListStep
    ensures { paging_as result ≡ looks_up (reverse rest.items) metas.items more }
{
    let mut rest = rest;
    match rest.pop() {
        Some(id) => ListStep::Looks {
            id,
            rest,
            metas,
            more,
        },
        None => ListStep::Frees(ListEnd::Listed(Page {
            metas: Listing::from_vec(metas),
            more,
        })),
    }
}

/// Where a listing goes on of which these versions stood at one moment: the first of them are looked up, up to the limit.
fn first_looks(alloc: Global, ids: Vec<u64>, limit: u64) -> ListStep
    ensures { paging_as result ≡ looks_up (take limit ids.items) [] (nat_lt limit (length ids.items)) }
{
    let mut ids = ids;
    let more = limit < ids.len() as u64;
    if more {
        ids.truncate(limit as usize);
    }
    ids.reverse();
    looks_up(ids, Vec::new(alloc), more)
}

/// Where a scan leads.
fn scanned(alloc: Global, next: ScanNext, limit: u64) -> ListStep
    ensures { paging_as result ≡ scanned limit (scanned_as next) }
{
    match next {
        ScanNext::Goes(step) => ListStep::Scans(step),
        ScanNext::Settles(ids) => first_looks(alloc, ids, limit),
    }
}

/// What is told of a version, after what was told before. The only error is want of memory.
fn with_meta(
    alloc: Global,
    names: &VersionNames,
    metas: Vec<ObjectMeta>,
    id: u64,
    size: u64,
    time: u64,
) -> Result<Vec<ObjectMeta>, AllocError>
    ensures { IfOk result (λ told. told.items ≡ metas.items ++ meta_told names.now id size time ∷ []) }
{
    let mut metas = metas;
    metas.push(ObjectMeta {
        location: names.path_for(alloc, id)?,
        size,
        token: Token::new(time),
    })?;
    Ok(metas)
}

/// Where a listing goes on that has let the lock go.
fn freed(end: ListEnd) -> ListNext
    ensures { list_next_as result ≡ freed (list_verdict end) }
{
    match end {
        ListEnd::Listed(page) => ListNext::Goes(ListStep::Syncs(ListEnd::Listed(page))),
        ListEnd::Fails => ListNext::Ends(ListEnd::Fails),
    }
}

/// The step of a listing that failed: it lets the lock go.
fn fails() -> ListNext
    ensures { list_next_as result ≡ Is (ListFrees Fails) }
{
    ListNext::Goes(ListStep::Frees(ListEnd::Fails))
}

impl ListStep {
    /// What it asks.
    pub fn ask(&self) -> ListAsk
        ensures asks { result ≡ list_asks self.now }
        ensures so { list_ask_as result ≡ list_asked (paging_as self.now) }
    {
        match self {
            ListStep::Sees => ListAsk::Folder,
            ListStep::Shares => ListAsk::Share,
            ListStep::Scans(_) => ListAsk::Scan,
            ListStep::Looks {
                id,
                rest: _,
                metas: _,
                more: _,
            } => ListAsk::Look(*id),
            ListStep::Frees(_) => ListAsk::Let,
            ListStep::Syncs(_) => ListAsk::Sync,
        }
    }

    /// Where the answer to what it asks leads, of a listing of the versions of these names above one, where that is given, up
    /// to a limit.
    ///
    /// # Errors
    ///
    /// Want of memory alone: the listing ends there, and its lock has to be let go.
    pub fn take(
        self,
        alloc: Global,
        names: &VersionNames,
        after: Option<u64>,
        limit: u64,
        answer: ListAnswer,
    ) -> Result<ListNext, AllocError>
        requires asked { answer.asked ≡ list_asks self }
        requires ascend { IsAscending answer.told }
        ensures { IfOk result (λ next. list_next_as next ≡ list_turned names.now after limit (paging_as self) (list_told_as (list_asks self) answer.told)) }
    {
        let told = answer.told;
        Ok(match self {
            ListStep::Sees => match told {
                ListTold::Done => ListNext::Goes(ListStep::Shares),
                ListTold::Missing => ListNext::Ends(ListEnd::Listed(Page {
                    metas: Listing::from_vec(Vec::new(alloc)),
                    more: false,
                })),
                _ => ListNext::Ends(ListEnd::Fails),
            },
            ListStep::Shares => match told {
                ListTold::Done => ListNext::Goes(ListStep::Scans(ScanStep::Once)),
                _ => fails(),
            },
            ListStep::Scans(step) => match told {
                ListTold::Shown(ids) => ListNext::Goes(scanned(
                    alloc,
                    step.take(after, ids),
                    limit,
                )),
                _ => fails(),
            },
            ListStep::Looks {
                id,
                rest,
                metas,
                more,
            } => match told {
                ListTold::Holds(size, time) => {
                    let metas = with_meta(alloc, names, metas, id, size, time)?;
                    ListNext::Goes(looks_up(rest, metas, more))
                }
                ListTold::Missing => ListNext::Goes(ListStep::Scans(ScanStep::Once)),
                _ => fails(),
            },
            ListStep::Frees(end) => freed(end),
            ListStep::Syncs(end) => match told {
                ListTold::Done => ListNext::Ends(end),
                _ => ListNext::Ends(ListEnd::Fails),
            },
        })
    }
}
