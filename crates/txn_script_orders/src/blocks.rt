//! Moves put together by clients, so that a script reads well.

use crate::moves::Move;
use std::alloc::{AllocError, Global};

/// How far a way is from the plainest one: how many faults it has, how often the client changes, and how many events there are.
#[derive(Clone, Copy, Debug, PartialEq, Eq, PartialOrd, Ord)]
pub(crate) struct Cost {
    faults: usize,
    changes: usize,
    events: usize,
}

/// Moves that follow one another, of one client.
#[derive(Drop)]
pub(crate) struct Block {
    client: Option<usize>,
    pub(crate) moves: Vec<Move>,
}

/// Moves put together by clients.
#[derive(Drop)]
struct Blocks {
    alloc: Global,
    blocks: Vec<Block>,
    /// Of each client its last block.
    last: Vec<Option<usize>>,
    /// Of each client a begin and its looks, which are put off until it is due.
    late: Vec<Vec<Move>>,
}

impl Blocks {
    fn new(alloc: Global, clients: usize) -> Result<Blocks, AllocError> {
        let mut last = Vec::new(alloc);
        let mut late = Vec::new(alloc);
        for _client in 0..clients {
            last.push(None)?;
            late.push(Vec::new(alloc))?;
        }
        Ok(Blocks {
            alloc,
            blocks: Vec::new(alloc),
            last,
            late,
        })
    }

    /// Puts a begin off.
    fn put_off(&mut self, client: usize, step: Move) -> Result<(), AllocError> {
        if let Some(late) = self.late.get_mut(client) {
            late.push(step)?;
        }
        Ok(())
    }

    /// Puts a look behind what its client did last.
    fn look(&mut self, client: usize, step: Move) -> Result<(), AllocError> {
        let is_late = match self.late.get(client) {
            Some(late) => !late.is_empty(),
            None => false,
        };
        let Some(Some(last)) = self.last.get(client).copied() else {
            return self.put_off(client, step);
        };
        if is_late {
            return self.put_off(client, step);
        }
        if let Some(block) = self.blocks.get_mut(last) {
            block.moves.push(step)?;
        }
        Ok(())
    }

    /// What was put off of a client.
    fn due(&mut self, client: usize) -> Result<Vec<Move>, AllocError> {
        let mut moves = Vec::new(self.alloc);
        if let Some(late) = self.late.get_mut(client) {
            moves.append(late)?;
        }
        Ok(moves)
    }

    /// A move that others can see, behind what was put off of its client.
    fn meet(&mut self, client: usize, step: Move) -> Result<(), AllocError> {
        let mut moves = self.due(client)?;
        moves.push(step)?;
        if let Some(last) = self.last.get_mut(client) {
            *last = Some(self.blocks.len());
        }
        self.blocks.push(Block {
            client: Some(client),
            moves,
        })?;
        Ok(())
    }

    fn add(&mut self, step: Move) -> Result<(), AllocError> {
        match step {
            Move::Begin(client) => self.put_off(client, step),
            Move::Look(client) => self.look(client, step),
            Move::Serve(client)
            | Move::Fail(client, _)
            | Move::GiveUp(client)
            | Move::Crash(client) => self.meet(client, step),
            Move::Land(_) => {
                let mut moves = Vec::new(self.alloc);
                moves.push(step)?;
                self.blocks.push(Block {
                    client: None,
                    moves,
                })?;
                Ok(())
            }
        }
    }

    /// What is left of what was put off.
    fn end(&mut self) -> Result<(), AllocError> {
        for client in 0..self.late.len() {
            let moves = self.due(client)?;
            self.blocks.push(Block {
                client: Some(client),
                moves,
            })?;
        }
        Ok(())
    }
}

/// The same moves, with a client's own put next to those that others can see.
pub(crate) fn blocks_of(
    alloc: Global,
    moves: &[Move],
    clients: usize,
) -> Result<Vec<Block>, AllocError> {
    let mut blocks = Blocks::new(alloc, clients)?;
    for step in moves {
        blocks.add(*step)?;
    }
    blocks.end()?;
    Ok(blocks.blocks)
}

/// How far moves are from the plainest.
pub(crate) fn cost_of(blocks: &[Block]) -> Cost {
    let mut cost = Cost {
        faults: 0,
        changes: 0,
        events: 0,
    };
    let mut last = None;
    for block in blocks {
        if block.moves.is_empty() {
            continue;
        }
        if block.client.is_none() || (last.is_some() && last != block.client) {
            cost.changes = cost.changes.saturating_add(1);
        }
        last = block.client;
        for step in block.moves.as_slice() {
            cost.events = cost.events.saturating_add(1);
            if step.is_fault() {
                cost.faults = cost.faults.saturating_add(1);
            }
        }
    }
    cost
}
