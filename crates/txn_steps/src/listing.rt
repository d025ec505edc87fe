//! A listing of versions, as a state.
ghost use Rattle.std.specs.Prelude.{◌≡◌, [], IfOk, OnOk, OnErr, Some};
ghost use Rattle.txn_steps.specs.boundary.Steps.{turned_by_number, lacks_memory, TellsErrorOf};
ghost use Rattle.txn_steps.specs.boundary.Asking.{asks, reply_told, unless_lacking, IsListed};
ghost use Rattle.txn_steps.specs.Listings.{listing_paged, listing_found, with_found};

use crate::boundary::ask::Ask;
use crate::boundary::turned::Turned;
use crate::requests::{list_request, next_after};
use crate::versions::Versions;
use std::alloc::{AllocError, Global};
use std::mem;
use std::ops::Bound;
use txn_store::page::Page;
use txn_store::path::Path;
use txn_store::request::{Reply, Request};
use txn_store::store::ObjectMeta;
use txn_store::types::layout::Layout;
use txn_store::types::step_error::StepError;
use txn_store::version_names::VersionNames;

/// What a listing answers: the versions, in the order of the store's pages, which is that of their ids.
pub type ListAnswer = Result<Versions, StepError>;

/// A listing of the versions within bounds, page by page.
#[derive(Drop)]
pub struct ListOp {
    /// From which id on.
    pub from: Bound<u64>,
    /// Up to which id.
    pub to: Bound<u64>,
    /// What the pages before this one told.
    pub found: Versions,
    /// The page that it asks for.
    pub request: Request,
}

impl ListOp {
    ghost use Rattle.txn_steps.specs.Listings.{listing_started, listing_got, listing_turned};

    /// A listing of the versions whose ids are within these bounds, which begins with the first page.
    ///
    /// # Errors
    ///
    /// Want of memory alone, which changes nothing.
    pub fn start<C>(
        alloc: Global,
        layout: &Layout<C>,
        from: Bound<u64>,
        to: Bound<u64>,
    ) -> Result<ListOp, AllocError>
        ensures { IfOk result (λ op. op ≡ listing_started layout.now.names layout.now.page from to) }
    {
        Ok(ListOp {
            from,
            to,
            found: Versions::new(alloc),
            request: list_request(&layout.names, None, layout.page)?,
        })
    }

    /// What it asks for. It takes no memory.
    pub fn ask(&self) -> Ask<'_>
        ensures { asks result ≡ Some self.now.request }
    {
        Ask::Store(&self.request)
    }

    /// It asks for the page after this one.
    fn go_on<C>(
        &mut self,
        layout: &Layout<C>,
        after: Path,
        metas: Vec<ObjectMeta>,
    ) -> Result<(), AllocError>
        ensures ok { IfOk result (λ _. self.new ≡ listing_paged layout.now.names layout.now.page self.old after metas.items) }
        ensures err { OnErr result (self.new ≡ self.old) }
    {
        let request = list_request(&layout.names, Some(after), layout.page)?;
        self.found.add(&layout.names, self.from, self.to, metas)?;
        self.request = request;
        Ok(())
    }

    /// It answers what it found, with what the last page tells.
    fn end(
        &mut self,
        alloc: Global,
        names: &VersionNames,
        metas: Vec<ObjectMeta>,
    ) -> Result<Versions, AllocError>
        ensures left { OnOk result (self.new ≡ with_found self.old []) }
        ensures ok { IfOk result (λ found. found ≡ listing_found names.now self.old metas.items) }
        ensures err { OnErr result (self.new ≡ self.old) }
    {
        self.found.add(names, self.from, self.to, metas)?;
        Ok(mem::replace(&mut self.found, Versions::new(alloc)))
    }

    /// With a page of the listing.
    fn page<C>(&mut self, alloc: Global, layout: &Layout<C>, page: Page) -> Turned<ListAnswer>
        ensures turned { (self.new, turned_by_number result) ≡ unless_lacking (lacks_memory (turned_by_number result)) self.old (listing_got layout.now.names layout.now.page self.old page) }
        ensures store_error { TellsErrorOf None result }
    {
        let ended = match next_after(&page) {
            Some(after) => match after.try_clone() {
                Ok(after) => self
                    .go_on(layout, after, page.metas.into_vec())
                    .map(|()| None),
                Err(error) => Err(error),
            },
            None => self
                .end(alloc, &layout.names, page.metas.into_vec())
                .map(Some),
        };
        match ended {
            Ok(None) => Turned::Goes,
            Ok(Some(found)) => Turned::Done(Ok(found)),
            Err(error) => Turned::Done(Err(error.into())),
        }
    }

    /// Takes the store's reply to its listing of a page. It keeps the versions within the bounds, asks for the page that
    /// begins after the last path of this one where that says that more follow, and else answers what it found, in the
    /// order of the pages. A growth that is refused is `NoMemory`, and leaves what was; any other error of the store is as it
    /// becomes.
    pub fn take<C>(
        &mut self,
        alloc: Global,
        layout: &Layout<C>,
        reply: Option<Reply>,
    ) -> Turned<ListAnswer>
        requires { IsListed reply }
        ensures turned { (self.new, turned_by_number result) ≡ unless_lacking (lacks_memory (turned_by_number result)) self.old (listing_turned layout.now.names layout.now.page self.old reply) }
        ensures store_error { TellsErrorOf (reply_told reply) result }
    {
        match reply {
            Some(Reply::List(Ok(page))) => self.page(alloc, layout, page),
            Some(Reply::List(Err(error))) => Turned::Done(Err(error.into())),
            _ => unreachable!(),
        }
    }
}
