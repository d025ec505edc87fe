//! The walk through all orders, equal situations once.

use crate::keys::{Mirror, key_of, mirrors_of, outcome_of};
use crate::moves::Move;
use crate::question::Question;
use crate::rule::Rule;
use crate::rules::broken_by;
use crate::situation::Situation;
use std::alloc::{AllocError, Global};
use std::collections::HashMap;

/// The most states of a walk.
pub(crate) const MOST_STATES: usize = 1_000_000;

/// A state of the walk: how it was first reached, and where it leads.
#[derive(Drop)]
pub(crate) struct State {
    /// The state before it, and the move from there; none of the first.
    pub(crate) from: Option<(usize, Move)>,
    /// The states that its moves lead to.
    pub(crate) next: Vec<usize>,
    /// What it came to, where all is at its end.
    pub(crate) outcome: Option<usize>,
}

/// All states of a question.
#[derive(Drop)]
pub(crate) struct Walk {
    pub(crate) states: Vec<State>,
    /// The states in an order in which each stands before those that its moves lead to, from the last to the first.
    pub(crate) finished: Vec<usize>,
    /// Of each outcome how many mirror images it has.
    pub(crate) images: Vec<u64>,
    /// Whether the walk ended, and not at its bound, nor where a rule is broken.
    pub(crate) is_whole: bool,
    /// The first end that breaks a rule, and which.
    pub(crate) broken: Option<(usize, Rule)>,
}

/// A state on the way from the first one to where the walk is.
#[derive(Drop)]
struct Frame {
    state: usize,
    moves: Vec<Move>,
    /// How many of them were taken.
    taken: usize,
}

/// A walk on its way.
#[derive(Drop)]
struct Walker<'a> {
    alloc: Global,
    question: &'a Question,
    mirrors: Vec<Mirror>,
    known: HashMap<Vec<u8>, usize>,
    outcomes: HashMap<Vec<u8>, usize>,
    walk: Walk,
    frames: Vec<Frame>,
}

impl Frame {
    /// The next move, where there is one left.
    fn next(&mut self) -> Option<Move> {
        let step = *self.moves.get(self.taken)?;
        self.taken = self.taken.saturating_add(1);
        Some(step)
    }

    /// The move that was last taken.
    fn last(&self) -> Option<Move> {
        self.moves.get(self.taken.checked_sub(1)?).copied()
    }
}

impl<'a> Walker<'a> {
    /// The number of what a situation came to, where all is at its end.
    fn outcome(&mut self, situation: &Situation) -> Result<Option<usize>, AllocError> {
        if !situation.is_end() {
            return Ok(None);
        }
        let (key, images) = outcome_of(self.alloc, situation, self.mirrors.as_slice())?;
        if let Some(number) = self.outcomes.get(key.as_slice()) {
            let number = *number;
            drop(key);
            return Ok(Some(number));
        }
        let number = self.walk.images.len();
        self.outcomes.insert(key, number)?;
        self.walk.images.push(images)?;
        Ok(Some(number))
    }

    /// Holds the run to an end, which is the state of a number, against the rules.
    fn hold(&mut self, situation: &Situation, state: usize) -> Result<(), AllocError> {
        if let Some(rule) = broken_by(self.alloc, &situation.world)? {
            self.walk.broken = Some((state, rule));
        }
        Ok(())
    }

    /// The number of a situation's state, and whether it is new.
    fn visit(
        &mut self,
        situation: &Situation,
        from: Option<(usize, Move)>,
    ) -> Result<(usize, bool), AllocError> {
        let key = key_of(self.alloc, situation, self.mirrors.as_slice())?;
        if let Some(number) = self.known.get(key.as_slice()) {
            let number = *number;
            drop(key);
            return Ok((number, false));
        }
        let number = self.walk.states.len();
        let outcome = self.outcome(situation)?;
        if outcome.is_some() && self.walk.broken.is_none() {
            self.hold(situation, number)?;
        }
        self.known.insert(key, number)?;
        self.walk.states.push(State {
            from,
            next: Vec::new(self.alloc),
            outcome,
        })?;
        self.frames.push(Frame {
            state: number,
            moves: situation.moves()?,
            taken: 0,
        })?;
        Ok((number, true))
    }

    /// The situation of the last frame, from the start.
    fn replayed(&self) -> Result<Situation<'a>, AllocError> {
        let mut situation = Situation::open(self.alloc, self.question)?;
        situation.begin()?;
        let count = self.frames.len().saturating_sub(1);
        for frame in self.frames.as_slice().iter().take(count) {
            if let Some(step) = frame.last() {
                situation.take(step)?;
            }
        }
        Ok(situation)
    }

    /// The next move of the last frame. A frame that has none left is done with.
    fn next_move(&mut self) -> Result<Option<(usize, Move)>, AllocError> {
        let Some(frame) = self.frames.last_mut() else {
            return Ok(None);
        };
        let state = frame.state;
        if let Some(step) = frame.next() {
            return Ok(Some((state, step)));
        }
        self.frames.pop();
        self.walk.finished.push(state)?;
        Ok(None)
    }

    /// Goes through all orders.
    fn go(&mut self) -> Result<(), AllocError> {
        let mut situation = self.replayed()?;
        self.visit(&situation, None)?;
        let mut is_here = true;
        for _turn in 0..u64::MAX {
            if self.frames.is_empty() {
                break;
            }
            let Some((state, step)) = self.next_move()? else {
                is_here = false;
                continue;
            };
            if !is_here {
                situation = self.replayed()?;
            }
            is_here = false;
            if !situation.take(step)?.counts {
                continue;
            }
            if self.walk.states.len() >= MOST_STATES {
                self.walk.is_whole = false;
                break;
            }
            let (number, is_new) = self.visit(&situation, Some((state, step)))?;
            if self.walk.broken.is_some() {
                break;
            }
            is_here = is_new;
            if let Some(state) = self.walk.states.get_mut(state) {
                state.next.push(number)?;
            }
        }
        Ok(())
    }
}

/// All states of a question, or as many as there may be.
pub(crate) fn walk_of(alloc: Global, question: &Question) -> Result<Walk, AllocError> {
    let mut walker = Walker {
        alloc,
        question,
        mirrors: mirrors_of(alloc, question)?,
        known: HashMap::new(alloc),
        outcomes: HashMap::new(alloc),
        walk: Walk {
            states: Vec::new(alloc),
            finished: Vec::new(alloc),
            images: Vec::new(alloc),
            is_whole: true,
            broken: None,
        },
        frames: Vec::new(alloc),
    };
    walker.go()?;
    Ok(walker.walk)
}
