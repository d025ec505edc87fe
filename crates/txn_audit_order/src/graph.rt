//! What comes before what, and an order of it.

use crate::spans::Choice;
use std::alloc::{AllocError, Global};
use std::cmp::Reverse;
use std::collections::{BTreeMap, BinaryHeap};

/// Nodes, each with what comes after it, and how many nodes it still waits for.
pub(crate) struct Graph {
    after: Vec<Vec<usize>>,
    waits: Vec<u64>,
    /// What was chosen, by the node that comes before another only so, and by that one.
    chosen: BTreeMap<(usize, usize), Choice>,
}

/// Nodes that wait for none, that of the least key first.
type Ready = BinaryHeap<Reverse<(u64, usize)>>;

impl Drop for Graph {
    /// Drops all of it: here, so that no function that owns a graph has to prove how each is dropped.
    fn drop(self) {
        let Graph {
            after: _,
            waits: _,
            chosen: _,
        } = self;
    }
}

impl Graph {
    /// So many nodes, none of them before another.
    ///
    /// # Errors
    ///
    /// Want of memory alone.
    pub fn new(alloc: Global, nodes: usize) -> Result<Graph, AllocError> {
        let mut after = Vec::with_capacity(alloc, nodes)?;
        for _ in 0..nodes {
            after.push(Vec::new(alloc))?;
        }
        Ok(Graph {
            after,
            waits: vec![in alloc; 0; nodes]?,
            chosen: BTreeMap::new(alloc),
        })
    }

    /// Notes that a node comes before another, where both are known.
    ///
    /// # Errors
    ///
    /// Want of memory alone. The edge is not noted.
    pub fn edge(&mut self, from: Option<usize>, to: Option<usize>) -> Result<(), AllocError> {
        let (Some(from), Some(to)) = (from, to) else {
            return Ok(());
        };
        if from == to {
            return Ok(());
        }
        if let Some(after) = self.after.get_mut(from) {
            after.push(to)?;
        }
        Ok(())
    }

    /// Notes that a node comes before another by this choice.
    ///
    /// # Errors
    ///
    /// Want of memory alone. The edge may be noted as one that none chose.
    pub fn choose(&mut self, from: usize, to: usize, choice: Choice) -> Result<(), AllocError> {
        self.edge(Some(from), Some(to))?;
        self.chosen.insert((from, to), choice)?;
        Ok(())
    }

    /// What was chosen so that a node comes before another, where that was.
    pub fn choice(&self, from: usize, to: usize) -> Option<Choice> {
        self.chosen.get(&(from, to)).copied()
    }

    /// A node comes before another no more by a choice.
    pub fn cut(&mut self, from: usize, to: usize) {
        self.chosen.remove(&(from, to));
        if let Some(after) = self.after.get_mut(from) {
            if let Some(place) = after.as_slice().iter().position(|node| *node == to) {
                after.swap_remove(place);
            }
        }
    }

    /// Counts for how many nodes each waits.
    fn count_waits(&mut self) {
        self.waits.as_mut_slice().fill(0);
        for after in &self.after {
            for node in after {
                if let Some(waits) = self.waits.get_mut(*node) {
                    *waits = waits.saturating_add(1);
                }
            }
        }
    }

    /// The node of this number that comes after a node.
    fn next(&self, node: usize, number: usize) -> Option<usize> {
        self.after.get(node)?.get(number).copied()
    }

    /// How many nodes come after a node.
    fn count(&self, node: usize) -> usize {
        match self.after.get(node) {
            Some(after) => after.len(),
            None => 0,
        }
    }

    /// Whether a node waits.
    fn is_waiting(&self, node: usize) -> bool {
        match self.waits.get(node) {
            Some(waits) => *waits > 0,
            None => false,
        }
    }

    /// Takes one from what a node waits for. True where it waits no more.
    fn release(&mut self, node: usize) -> bool {
        match self.waits.get_mut(node) {
            Some(waits) => {
                *waits = waits.saturating_sub(1);
                *waits == 0
            }
            None => false,
        }
    }

    /// Adds the nodes that wait for none.
    fn add_ready(&self, keys: &[u64], ready: &mut Ready) -> Result<(), AllocError> {
        for node in 0..keys.len() {
            if !self.is_waiting(node) {
                ready.push(Reverse((keys[node], node)))?;
            }
        }
        Ok(())
    }

    /// Adds the nodes that waited for a node, and wait for no other.
    fn release_after(
        &mut self,
        keys: &[u64],
        node: usize,
        ready: &mut Ready,
    ) -> Result<(), AllocError> {
        for number in 0..self.count(node) {
            if let Some(next) = self.next(node, number) {
                if self.release(next) {
                    let key = keys.get(next).copied().unwrap_or(0);
                    ready.push(Reverse((key, next)))?;
                }
            }
        }
        Ok(())
    }

    /// Takes the nodes in turn, until none is left that waits for none.
    fn take_all(
        &mut self,
        keys: &[u64],
        ready: &mut Ready,
        order: &mut Vec<usize>,
    ) -> Result<(), AllocError> {
        for _ in 0..keys.len() {
            let Some(Reverse((_, node))) = ready.pop() else {
                return Ok(());
            };
            order.push(node)?;
            self.release_after(keys, node, ready)?;
        }
        Ok(())
    }

    /// The nodes in an order: of those that wait for none, that of the least key first. Those that wait in a circle, or behind
    /// one, are not told.
    ///
    /// # Errors
    ///
    /// Want of memory alone. The edges stay as they were.
    pub fn sort(&mut self, alloc: Global, keys: &[u64]) -> Result<Vec<usize>, AllocError> {
        self.count_waits();
        let mut ready = BinaryHeap::new(alloc);
        self.add_ready(keys, &mut ready)?;
        let mut order = Vec::with_capacity(alloc, keys.len())?;
        self.take_all(keys, &mut ready, &mut order)?;
        Ok(order)
    }

    /// Notes a node as one that others wait for: for those that wait for none else, or not by a choice.
    fn note_before(&self, node: usize, befores: &mut Vec<Option<usize>>) {
        for number in 0..self.count(node) {
            if let Some(next) = self.next(node, number) {
                if let Some(before) = befores.get_mut(next) {
                    if before.is_none() || self.choice(node, next).is_none() {
                        *before = Some(node);
                    }
                }
            }
        }
    }

    /// For each node that waits, after a sort, one that it waits for.
    fn befores(&self, alloc: Global) -> Result<Vec<Option<usize>>, AllocError> {
        let nodes = self.waits.len();
        let mut befores = vec![in alloc; None; nodes]?;
        for node in 0..nodes {
            if self.is_waiting(node) {
                self.note_before(node, &mut befores);
            }
        }
        Ok(befores)
    }

    /// Goes back from a node to the first that a walk came by before, and notes which walk came by each first.
    fn walk(
        &self,
        befores: &[Option<usize>],
        first: usize,
        walk: u64,
        walks: &mut Vec<u64>,
    ) -> usize {
        let mut at = first;
        for _ in 0..self.waits.len() {
            match walks.get_mut(at) {
                Some(by) if *by == 0 => *by = walk,
                _ => return at,
            }
            at = before(befores, at);
        }
        at
    }

    /// The nodes of the circle in which a node lies, each before the one behind it, and the last before the first.
    fn round(
        &self,
        alloc: Global,
        befores: &[Option<usize>],
        start: usize,
    ) -> Result<Vec<usize>, AllocError> {
        let mut nodes = Vec::new(alloc);
        let mut at = start;
        for _ in 0..self.waits.len() {
            nodes.push(at)?;
            at = before(befores, at);
            if at == start {
                nodes.reverse();
                return Ok(nodes);
            }
        }
        Ok(nodes)
    }

    /// Circles of nodes, after a sort that did not tell all: in each a node comes before the one behind it, and the last before the first.
    /// No node lies in two.
    ///
    /// # Errors
    ///
    /// Want of memory alone.
    pub fn circles(&self, alloc: Global) -> Result<Vec<Vec<usize>>, AllocError> {
        let befores = self.befores(alloc)?;
        let mut walks = vec![in alloc; 0; self.waits.len()]?;
        let mut circles = Vec::new(alloc);
        for first in 0..self.waits.len() {
            if self.is_waiting(first) && walks.get(first) == Some(&0) {
                let walk = first as u64 + 1;
                let at = self.walk(befores.as_slice(), first, walk, &mut walks);
                if walks.get(at) == Some(&walk) {
                    circles.push(self.round(alloc, befores.as_slice(), at)?)?;
                }
            }
        }
        Ok(circles)
    }
}

/// The node before a node, itself where there is none.
fn before(befores: &[Option<usize>], node: usize) -> usize {
    match befores.get(node) {
        Some(Some(before)) => *before,
        _ => node,
    }
}
