//! Which call came before which, by what the replies show.

use crate::graph::Graph;
use crate::spans::Span;
use std::alloc::{AllocError, Global};
use txn_audit_effects::boundaries::Boundaries;
use txn_audit_effects::calls::{Asked, Name, name_of};
use txn_audit_effects::landings::{Fate, has_place};
use txn_audit_effects::lives::{Life, Lives};
use txn_audit_effects::removals::Concern;
use txn_store::path::Path;
use txn_store::request::{Reply, Request};
use txn_store::store::{PutMode, StoreError, Token};
use txn_store::types::boundary::read_boundary;

/// A call, and the place of its node.
#[derive(Clone, Copy)]
struct Node<'c, 'a> {
    at: usize,
    call: &'c Asked<'a>,
}

/// What the edges are made of.
#[derive(Clone, Copy)]
pub(crate) struct Precedence<'a> {
    pub calls: &'a [Asked<'a>],
    pub fates: &'a [Fate],
    pub lives: &'a Lives,
    pub boundaries: &'a Boundaries,
}

impl<'a> Precedence<'a> {
    /// The call that wrote a boundary.
    fn writer(&self, number: u64) -> Option<usize> {
        self.boundaries.writers.get(&number).copied()
    }

    /// The call that wrote the boundary after this one.
    fn writer_after(&self, number: u64) -> Option<usize> {
        let next = number.checked_add(1)?;
        let (_, call) = self.boundaries.writers.range(next..).next()?;
        Some(*call)
    }

    /// The call that made the first version above one.
    pub(crate) fn maker_above(&self, id: u64) -> Option<usize> {
        Some(self.lives.above(id)?.made_by)
    }

    /// The call that wrote the first boundary.
    fn first_writer(&self) -> Option<usize> {
        let (_, call) = self.boundaries.writers.first_key_value()?;
        Some(*call)
    }

    /// The boundaries rise.
    fn rises(&self, graph: &mut Graph) -> Result<(), AllocError> {
        let mut last = None;
        for call in self.boundaries.writers.values() {
            graph.edge(last, Some(*call))?;
            last = Some(*call);
        }
        Ok(())
    }

    /// A life is made, removed, and then made again; and a version is made on the one before it.
    fn lives(&self, graph: &mut Graph) -> Result<(), AllocError> {
        let lives = self.lives.lives.as_slice();
        let mut first: Option<Life> = None;
        for place in 0..lives.len() {
            let life = lives[place];
            graph.edge(Some(life.made_by), life.removed_by)?;
            if let Some(next) = self.lives.at(place.saturating_add(1), life.id) {
                graph.edge(life.removed_by, Some(next.made_by))?;
            }
            if let Some(before) = first {
                if before.id == life.id {
                    continue;
                }
                if before.id.saturating_add(1) == life.id {
                    graph.edge(Some(before.made_by), Some(life.made_by))?;
                }
            }
            first = Some(life);
        }
        Ok(())
    }

    /// A call saw this life.
    pub(crate) fn saw(
        &self,
        graph: &mut Graph,
        at: usize,
        life: Option<Life>,
    ) -> Result<(), AllocError> {
        if let Some(life) = life {
            graph.edge(Some(life.made_by), Some(at))?;
            graph.edge(Some(at), life.removed_by)?;
        }
        Ok(())
    }

    /// A call saw this boundary.
    fn saw_boundary(&self, graph: &mut Graph, at: usize, number: u64) -> Result<(), AllocError> {
        graph.edge(self.writer(number), Some(at))?;
        graph.edge(Some(at), self.writer_after(number))
    }

    /// The boundary of a token.
    fn number_of(&self, token: Token) -> Option<u64> {
        self.boundaries.of_token.get(&token.number()).copied()
    }

    /// A call saw the boundary of a token, where that is known.
    fn saw_token(
        &self,
        graph: &mut Graph,
        at: usize,
        token: Option<Token>,
    ) -> Result<(), AllocError> {
        match token {
            Some(token) => match self.number_of(token) {
                Some(number) => self.saw_boundary(graph, at, number),
                None => Ok(()),
            },
            None => Ok(()),
        }
    }

    /// What a get of a version shows.
    fn get_version(
        &self,
        graph: &mut Graph,
        node: Node<'_, '_>,
        id: u64,
    ) -> Result<(), AllocError> {
        match node.call.reply {
            Some(Reply::Get(Ok(got))) => {
                self.saw(
                    graph,
                    node.at,
                    self.lives.with_token(id, got.token.number()),
                )
            }
            Some(Reply::Get(Err(StoreError::NotFound))) => {
                self.absent(graph, node.at, Span::of(node.call), id, false)
            }
            _ => Ok(()),
        }
    }

    /// What a get of the boundary shows.
    fn get_boundary(
        &self,
        graph: &mut Graph,
        node: Node<'_, '_>,
        known: Option<Token>,
    ) -> Result<(), AllocError> {
        match node.call.reply {
            Some(Reply::Get(Ok(got))) => match read_boundary(got.bytes.as_slice()) {
                Some(number) => self.saw_boundary(graph, node.at, number),
                None => Ok(()),
            },
            Some(Reply::Get(Err(StoreError::NotModified))) => self.saw_token(graph, node.at, known),
            Some(Reply::Get(Err(StoreError::NotFound))) => {
                graph.edge(Some(node.at), self.first_writer())
            }
            _ => Ok(()),
        }
    }

    /// What a get shows.
    fn get(
        &self,
        graph: &mut Graph,
        node: Node<'_, '_>,
        path: &Path,
        known: Option<Token>,
    ) -> Result<(), AllocError> {
        match name_of(path) {
            Name::Version(id) => self.get_version(graph, node, id),
            Name::Boundary => self.get_boundary(graph, node, known),
        }
    }

    /// What an update of the boundary over the one of a token shows: what was written came after that, what was refused after
    /// another.
    fn update(
        &self,
        graph: &mut Graph,
        at: usize,
        token: Token,
        written: bool,
    ) -> Result<(), AllocError> {
        let Some(number) = self.number_of(token) else {
            return Ok(());
        };
        let before = if written {
            self.writer(number)
        } else {
            self.writer_after(number)
        };
        graph.edge(before, Some(at))
    }

    /// What a put shows that was refused, or that wrote over another.
    fn put(
        &self,
        graph: &mut Graph,
        node: Node<'_, '_>,
        path: &Path,
        mode: PutMode,
    ) -> Result<(), AllocError> {
        let Some(Reply::Put(answer)) = node.call.reply else {
            return Ok(());
        };
        match (name_of(path), answer, mode) {
            (Name::Version(id), Err(StoreError::AlreadyExists), _) => {
                self.present(graph, node.at, Span::of(node.call), id)
            }
            (Name::Boundary, Err(StoreError::AlreadyExists), _) => {
                graph.edge(self.first_writer(), Some(node.at))
            }
            (Name::Boundary, Ok(_), PutMode::Update(token)) => self.update(
                graph, node.at, token, true,
            ),
            (Name::Boundary, Err(StoreError::Precondition), PutMode::Update(token)) => {
                self.update(graph, node.at, token, false)
            }
            _ => Ok(()),
        }
    }

    /// What a call shows that is no listing.
    fn call(&self, graph: &mut Graph, node: Node<'_, '_>) -> Result<(), AllocError> {
        match node.call.request {
            Request::Get {
                path,
                if_none_match,
            } => self.get(graph, node, path, *if_none_match),
            Request::Put { path, mode, .. } => self.put(graph, node, path, *mode),
            Request::List { .. } | Request::Delete { .. } => Ok(()),
        }
    }

    /// Adds all edges that replies show.
    ///
    /// # Errors
    ///
    /// Want of memory alone. A part of the edges may have been added.
    pub fn link(
        &self,
        alloc: Global,
        graph: &mut Graph,
        idle: &[Concern],
    ) -> Result<(), AllocError> {
        self.rises(graph)?;
        self.lives(graph)?;
        for (id, at) in idle {
            if let Some(call) = self.calls.get(*at) {
                self.absent(graph, *at, Span::of(call), *id, false)?;
            }
        }
        for at in 0..self.calls.len() {
            let call = &self.calls[at];
            if has_place(self.fates, at) {
                graph.edge(call.before, Some(at))?;
                self.call(graph, Node { at, call })?;
            }
        }
        self.listings(alloc, graph)
    }
}
