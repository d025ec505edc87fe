//! The rules of one history as plain code, by the words of the definitions: each row of a run is held against the rows before it, and
//! the views against all rows. It shares no code with the world.

use crate::rule::{Kept, Rule, keeps};
use std::alloc::{AllocError, Global};
use std::collections::{BTreeMap, BTreeSet};
use txn_history::event::{Answer, Call, PlainAnswer, PlainCall, ViewCall};
use txn_history::trace::{Row, RowOf};
use txn_history::view::View;
use txn_script_lines::record::{Record, RecordCodec, RecordEpoch};
use txn_world::world::World;

/// A view as answers show it: where it stands, and the epoch of a holder.
#[derive(Clone, Copy)]
pub(crate) struct Shown {
    pub id: u64,
    pub epoch: Option<u64>,
}

/// How many entries there are, and the boundary.
#[derive(Clone, Copy)]
pub(crate) struct Point {
    pub newest: u64,
    pub boundary: u64,
}

/// A call and what it made.
#[derive(Drop)]
pub(crate) struct Op<'a> {
    pub call: &'a Call<Record>,
    /// On which entry an update writes, 0 for none: where its view stood as it began.
    pub base: u64,
    /// How many points there were as it began, less one.
    pub start: usize,
    /// What it entered, and the names that it created.
    pub entered: Vec<(u64, Record)>,
    pub created: Vec<u64>,
    /// Of a delete, whether its version was gone at a row of the call, at or below the boundary.
    pub was_gone: bool,
    pub is_answered: bool,
}

/// What the rows so far made.
#[derive(Drop)]
pub struct Rules<'a> {
    pub(crate) alloc: Global,
    pub(crate) failed: &'a [u64],
    pub(crate) entries: Vec<Record>,
    pub(crate) standing: BTreeSet<u64>,
    pub(crate) boundary: u64,
    pub(crate) points: Vec<Point>,
    pub(crate) ops: Vec<Op<'a>>,
    pub(crate) views: BTreeMap<u64, Shown>,
    /// The ids that answers told.
    pub(crate) told: BTreeSet<u64>,
}

/// The view that a call uses, and whether it is to be a holder's.
pub(crate) fn view_of(call: &Call<Record>) -> Option<(u64, bool)> {
    match call {
        Call::Plain(_) => None,
        Call::View(call) => match call {
            ViewCall::Init(_) | ViewCall::Load => None,
            ViewCall::Refresh(view)
            | ViewCall::Update(view, _)
            | ViewCall::Claim(view)
            | ViewCall::ClaimAt(view, _) => Some((*view, false)),
            ViewCall::HolderRefresh(view) | ViewCall::HolderUpdate(view, _) => Some((*view, true)),
        },
    }
}

/// The value that a call writes on its base, but for a claim.
pub(crate) fn value_of(call: &Call<Record>) -> Option<Record> {
    match call {
        Call::Plain(PlainCall::Write(_, value))
        | Call::Plain(PlainCall::WriteUnchecked(_, value)) => Some(*value),
        Call::View(ViewCall::Init(value))
        | Call::View(ViewCall::Update(_, value))
        | Call::View(ViewCall::HolderUpdate(_, value)) => Some(*value),
        _ => None,
    }
}

impl<'a> Rules<'a> {
    /// Nothing has happened. These operations were told that their store call failed, which rows do not show.
    ///
    /// # Errors
    ///
    /// Want of memory alone.
    pub fn new(alloc: Global, failed: &'a [u64]) -> Result<Rules<'a>, AllocError> {
        let mut points = Vec::new(alloc);
        points.push(Point {
            newest: 0,
            boundary: 0,
        })?;
        Ok(Rules {
            alloc,
            failed,
            entries: Vec::new(alloc),
            standing: BTreeSet::new(alloc),
            boundary: 0,
            points,
            ops: Vec::new(alloc),
            views: BTreeMap::new(alloc),
            told: BTreeSet::new(alloc),
        })
    }

    /// How many entries there are.
    pub(crate) fn newest(&self) -> u64 {
        self.entries.len() as u64
    }

    /// An entry, counted from 1.
    pub(crate) fn entry(&self, id: u64) -> Option<Record> {
        self.entries.get(id.checked_sub(1)? as usize).copied()
    }

    /// The epoch of an entry, 0 where there is none.
    pub(crate) fn epoch_at(&self, id: u64) -> u64 {
        match self.entry(id) {
            Some(entry) => entry.epoch,
            None => 0,
        }
    }

    /// Whether an entry has a greater epoch than this.
    pub(crate) fn has_above(&self, epoch: u64) -> bool {
        self.entries.iter().any(|entry| entry.epoch > epoch)
    }

    /// The epoch that a view holds.
    pub(crate) fn held_by(&self, view: u64) -> Option<u64> {
        self.views.get(&view)?.epoch
    }

    /// A call that runs or ran.
    pub(crate) fn op(&self, op: u64) -> Option<&Op<'a>> {
        self.ops.get(op.checked_sub(1)? as usize)
    }

    /// The base of a call as it begins, 0 for none: whether it is known, and what it is.
    fn base_of(&self, call: &Call<Record>) -> Result<u64, Rule> {
        match call {
            Call::Plain(PlainCall::Write(base, _))
            | Call::Plain(PlainCall::WriteUnchecked(base, _)) => match base {
                None => Ok(0),
                Some(base) if self.told.contains(base) => Ok(*base),
                Some(_) => Err(Rule::Begin),
            },
            Call::View(ViewCall::Update(view, _)) | Call::View(ViewCall::HolderUpdate(view, _)) =>
                match self.views.get(view) {
                    Some(shown) => Ok(shown.id),
                    None => Err(Rule::Begin),
                },
            _ => Ok(0),
        }
    }

    /// Whether a call may begin.
    fn may_begin(&self, op: u64, call: &Call<Record>) -> Result<u64, Rule> {
        keeps(op == (self.ops.len() as u64).saturating_add(1), Rule::Begin)?;
        if let Some((view, is_holders)) = view_of(call) {
            let is_shown = self.views.contains_key(&view);
            keeps(
                is_shown && self.held_by(view).is_some() == is_holders,
                Rule::Begin,
            )?;
        }
        let base = self.base_of(call)?;
        if let Call::Plain(PlainCall::Advance(to)) = call {
            let is_low = self.told.iter().any(|told| told > to);
            keeps(*to == 0 || is_low, Rule::Begin)?;
        }
        // (a holder's value has to have the holder's epoch, which its answer says)
        if let (Some(value), false) = (
            value_of(call),
            matches!(call, Call::View(ViewCall::HolderUpdate(..))),
        ) {
            keeps(self.epoch_at(base) <= value.epoch, Rule::Begin)?;
        }
        Ok(base)
    }

    /// A call begins.
    fn begin(&mut self, op: u64, call: &'a Call<Record>) -> Result<Kept, AllocError> {
        let base = match self.may_begin(op, call) {
            Ok(base) => base,
            Err(rule) => return Ok(Err(rule)),
        };
        self.ops.push(Op {
            call,
            base,
            start: self.points.len().saturating_sub(1),
            entered: Vec::new(self.alloc),
            created: Vec::new(self.alloc),
            was_gone: false,
            is_answered: false,
        })?;
        self.pass();
        Ok(Ok(()))
    }

    /// Notes the ids that an answer tells, and the view that it shows.
    fn hear(&mut self, answer: &Answer<Record>) -> Result<(), AllocError> {
        match answer {
            Answer::Plain(PlainAnswer::Wrote(id))
            | Answer::Plain(PlainAnswer::Read(Some((id, _)))) => {
                self.told.insert(*id)?;
            }
            Answer::Plain(PlainAnswer::Ids(ids)) => {
                for id in ids.as_slice() {
                    self.told.insert(*id)?;
                }
            }
            Answer::Plain(_) => {}
            Answer::View(view, id, _) => {
                let epoch = self.held_by(*view);
                self.told.insert(*id)?;
                self.views.insert(*view, Shown { id: *id, epoch })?;
            }
            Answer::Held(view, id, _, epoch) => {
                let epoch = Some(self.held_by(*view).unwrap_or(*epoch));
                self.told.insert(*id)?;
                self.views.insert(*view, Shown { id: *id, epoch })?;
            }
        }
        Ok(())
    }

    /// A call is answered.
    fn answer(&mut self, op: u64, answer: &Answer<Record>) -> Result<Kept, AllocError> {
        if let Err(rule) = self.fits(op, answer) {
            return Ok(Err(rule));
        }
        if let Some(op) = self.ops.get_mut(op.saturating_sub(1) as usize) {
            op.is_answered = true;
        }
        self.hear(answer)?;
        Ok(Ok(()))
    }

    /// Takes the row that comes next: the rule that it breaks, if it breaks one.
    ///
    /// # Errors
    ///
    /// Want of memory alone. A part of the row may be noted then.
    pub fn take(&mut self, row: &'a Row<Record>) -> Result<Kept, AllocError> {
        match row {
            RowOf::Begun(op, call) => self.begin(*op, call),
            RowOf::Effect(op, request) => self.effect(*op, request),
            RowOf::Answered(op, answer) => self.answer(*op, answer),
        }
    }

    /// Whether a view that stands fits the rows: it has the entry at its id, stands where it was last shown, or above as a fenced holder,
    /// and has the epoch of its claim.
    pub fn stands(&self, number: u64, view: &View<Record>) -> Kept {
        let Some(shown) = self.views.get(&number) else {
            return Err(Rule::View);
        };
        let is_fenced = match view.epoch {
            Some(epoch) => epoch < view.object.epoch && shown.id <= view.id,
            None => false,
        };
        let is_entry = self.entry(view.id) == Some(view.object);
        let is_there = view.id == shown.id || is_fenced;
        keeps(
            is_entry && is_there && view.epoch == shown.epoch,
            Rule::View,
        )
    }
}

/// Holds the rows of a world against the rules, and the views as they stand: the first rule that is broken, where one is.
fn held(
    alloc: Global,
    world: &World<Record, RecordCodec, RecordEpoch>,
) -> Result<Kept, AllocError> {
    let mut rules = Rules::new(alloc, world.failed())?;
    for row in world.trace() {
        if let Err(rule) = rules.take(row)? {
            return Ok(Err(rule));
        }
    }
    for index in 0..world.views() {
        let number = index.saturating_add(1);
        if let Some(view) = world.view(number) {
            if let Err(rule) = rules.stands(number, view) {
                return Ok(Err(rule));
            }
        }
    }
    Ok(keeps(rules.boundary == world.boundary(), Rule::Raise))
}

/// The rule that a world breaks, where it breaks one: by its rows, or by the views as they stand.
///
/// # Errors
///
/// Want of memory alone.
pub(crate) fn broken_by(
    alloc: Global,
    world: &World<Record, RecordCodec, RecordEpoch>,
) -> Result<Option<Rule>, AllocError> {
    match held(alloc, world)? {
        Ok(()) => Ok(None),
        Err(rule) => Ok(Some(rule)),
    }
}
