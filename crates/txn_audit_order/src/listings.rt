//! Which call came before which, by what listings show.

use crate::graph::Graph;
use crate::precedence::Precedence;
use crate::spans::Span;
use std::alloc::{AllocError, Global};
use txn_audit_effects::calls::{Asked, version_of};
use txn_audit_effects::extents::{listings_asked, told_in};
use txn_audit_effects::standing::{Missing, Standing};
use txn_store::page::Page;

impl Precedence<'_> {
    /// The times that the versions leave a listing of which it can have missed the lives in one gap alone.
    fn narrowed(&self, span: Span, missing: &[Missing]) -> Span {
        let mut narrow = span;
        for (id, below) in missing {
            let gaps = self.gaps(narrow, *id, *below);
            if let (Some(next), false) = (gaps.first, gaps.are_more) {
                if let Some(gap) = self.gap(next, *id) {
                    narrow = gap.narrowed(narrow);
                }
            }
        }
        narrow
    }

    /// What a listing shows.
    fn list(
        &self,
        alloc: Global,
        graph: &mut Graph,
        at: usize,
        call: &Asked<'_>,
        standing: &Standing,
    ) -> Result<(), AllocError> {
        let Some((low, page)) = call.lists() else {
            return Ok(());
        };
        self.tell(graph, at, page)?;
        let told = told_in(alloc, page)?;
        let missing = standing.left_out(alloc, low, told.as_slice(), page.more)?;
        let top = told.as_slice().last().copied().unwrap_or(low);
        let (from, until) = self.lives.told(page, top, call.from, call.until);
        // Twice: what the first round narrows can leave one gap alone of a version that was passed already.
        let once = self.narrowed(Span { from, until }, missing.as_slice());
        let narrow = self.narrowed(once, missing.as_slice());
        let whole = Span::of(call);
        self.all_absent(graph, at, narrow, whole, missing.as_slice())?;
        self.goes_on(graph, at, page)
    }

    /// What the files of a page show.
    fn tell(&self, graph: &mut Graph, at: usize, page: &Page) -> Result<(), AllocError> {
        for meta in page.metas.as_slice() {
            if let Some(id) = version_of(&meta.location) {
                self.saw(graph, at, self.lives.with_token(id, meta.token.number()))?;
            }
        }
        Ok(())
    }

    /// What the versions show that a listing left out, by the times between which it took effect. Where a version leaves it no gap
    /// between these, which is so where some reply is not true, that is told by the times of its call.
    fn all_absent(
        &self,
        graph: &mut Graph,
        at: usize,
        narrow: Span,
        whole: Span,
        missing: &[Missing],
    ) -> Result<(), AllocError> {
        for (id, below) in missing {
            let span = match self.gaps(narrow, *id, *below).first {
                Some(_) => narrow,
                None => whole,
            };
            self.absent(graph, at, span, *id, *below)?;
        }
        Ok(())
    }

    /// What all listings show.
    pub(crate) fn listings(&self, alloc: Global, graph: &mut Graph) -> Result<(), AllocError> {
        let asked = listings_asked(alloc, self.calls)?;
        let mut standing = Standing::new(alloc, self.lives)?;
        self.list_all(alloc, graph, asked.as_slice(), &mut standing)
    }

    /// What these listings show, in the order in which they were asked.
    fn list_all(
        &self,
        alloc: Global,
        graph: &mut Graph,
        asked: &[(u64, usize)],
        standing: &mut Standing,
    ) -> Result<(), AllocError> {
        for (_, at) in asked {
            if let Some(call) = self.calls.get(*at) {
                standing.move_to(call)?;
                self.list(alloc, graph, *at, call, standing)?;
            }
        }
        Ok(())
    }

    /// A page that more follows was told after a version above its last one was made: versions are made in the order of their
    /// ids, and the newest stands.
    fn goes_on(&self, graph: &mut Graph, at: usize, page: &Page) -> Result<(), AllocError> {
        let last = if page.more {
            page.metas.as_slice().last()
        } else {
            None
        };
        match last {
            Some(meta) => match version_of(&meta.location) {
                Some(id) => graph.edge(self.maker_above(id), Some(at)),
                None => Ok(()),
            },
            None => Ok(()),
        }
    }
}
