//! The script of an outcome.

use crate::blocks::{Cost, blocks_of, cost_of};
use crate::moves::Move;
use crate::notes::Notes;
use crate::question::Question;
use crate::situation::Situation;
use crate::walk::Walk;
use std::alloc::{AllocError, Global};
use std::io::Write;

/// The moves from the first state to this one.
fn way_to(alloc: Global, walk: &Walk, state: usize) -> Result<Vec<Move>, AllocError> {
    let mut moves = Vec::new(alloc);
    let mut at = state;
    for _state in 0..walk.states.len() {
        let Some(state) = walk.states.get(at) else {
            break;
        };
        let Some((before, step)) = state.from else {
            break;
        };
        moves.push(step)?;
        at = before;
    }
    moves.reverse();
    Ok(moves)
}

/// The plainest way to an outcome: its cost, and the state.
#[derive(Clone, Copy)]
pub(crate) struct Plainest {
    pub(crate) cost: Cost,
    pub(crate) state: usize,
    pub(crate) outcome: usize,
}

/// The way to a state.
fn end_of(
    alloc: Global,
    walk: &Walk,
    question: &Question,
    state: usize,
    outcome: usize,
) -> Result<Plainest, AllocError> {
    let moves = way_to(alloc, walk, state)?;
    let blocks = blocks_of(alloc, moves.as_slice(), question.lists.len())?;
    Ok(Plainest {
        cost: cost_of(blocks.as_slice()),
        state,
        outcome,
    })
}

/// The plainest way to each outcome, the plainest first.
pub(crate) fn plainest_of(
    alloc: Global,
    walk: &Walk,
    question: &Question,
) -> Result<Vec<Plainest>, AllocError> {
    let mut best: Vec<Option<Plainest>> = Vec::new(alloc);
    for _outcome in 0..walk.images.len() {
        best.push(None)?;
    }
    for (state, known) in walk.states.iter().enumerate() {
        if let Some(outcome) = known.outcome {
            let way = end_of(alloc, walk, question, state, outcome)?;
            if let Some(best) = best.get_mut(outcome) {
                let is_better = match best {
                    Some(best) => way.cost < best.cost,
                    None => true,
                };
                if is_better {
                    *best = Some(way);
                }
            }
        }
    }
    let mut ways = Vec::new(alloc);
    for best in best.as_slice() {
        if let Some(way) = best {
            ways.push(*way)?;
        }
    }
    ways.sort_by_key(|way| (way.cost, way.state))?;
    Ok(ways)
}

/// A script, and a line for each client with how its calls ended.
#[derive(Drop)]
pub(crate) struct Scripted {
    pub(crate) script: Vec<u8>,
    pub(crate) clients: Vec<u8>,
}

/// Writes the line of each client.
fn write_clients(
    said: &[(Vec<u8>, u64)],
    clients: usize,
    text: &mut Vec<u8>,
) -> Result<(), AllocError> {
    for (index, (words, _)) in said.iter().enumerate() {
        if index < clients {
            let client = (index as u64).saturating_add(1);
            let Ok(()) = write!(text, "client {client}: ") else {
                return Err(AllocError);
            };
            text.extend_from_slice(words.as_slice())?;
            text.push(b'\n')?;
        }
    }
    Ok(())
}

/// What is noted of the way to a state.
fn notes_of(
    alloc: Global,
    walk: &Walk,
    question: &Question,
    state: usize,
) -> Result<Notes, AllocError> {
    let moves = way_to(alloc, walk, state)?;
    let blocks = blocks_of(alloc, moves.as_slice(), question.lists.len())?;
    let mut situation = Situation::open(alloc, question)?;
    let mut notes = Notes::new(alloc, situation.members.len())?;
    for _event in 0..u64::MAX {
        let Some(step) = situation.first_move() else {
            break;
        };
        notes.take(&mut situation, step)?;
    }
    for block in &blocks {
        for step in block.moves.as_slice() {
            notes.take(&mut situation, *step)?;
        }
    }
    notes.end(&situation, question.lists.len())?;
    Ok(notes)
}

/// The script of the way to a state.
pub(crate) fn script_of(
    alloc: Global,
    walk: &Walk,
    question: &Question,
    state: usize,
) -> Result<Scripted, AllocError> {
    let notes = notes_of(alloc, walk, question, state)?;
    let mut script: Vec<u8> = Vec::new(alloc);
    let clients = notes.said.len();
    let Ok(()) = writeln!(script, "clients {clients}") else {
        return Err(AllocError);
    };
    notes.write(&mut script)?;
    let mut lines: Vec<u8> = Vec::new(alloc);
    write_clients(notes.said.as_slice(), question.lists.len(), &mut lines)?;
    Ok(Scripted {
        script,
        clients: lines,
    })
}
