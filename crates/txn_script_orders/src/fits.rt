//! Which answers fit the rows before them.

use crate::rule::{Kept, Rule, keeps};
use crate::rules::{Op, Point, Rules, value_of, view_of};
use std::ops::Bound;
use txn_history::event::{Answer, Call, PlainAnswer, PlainCall, ViewCall};
use txn_script_lines::record::Record;

/// Whether a number lies within bounds.
fn is_within(from: &Bound<u64>, to: &Bound<u64>, id: u64) -> bool {
    let low = match from {
        Bound::Included(from) => *from <= id,
        Bound::Excluded(from) => *from < id,
        Bound::Unbounded => true,
    };
    let high = match to {
        Bound::Included(to) => id <= *to,
        Bound::Excluded(to) => id < *to,
        Bound::Unbounded => true,
    };
    low && high
}

/// The id that an answer shows a view at, with its value, the view and the epoch of a claim that is held.
fn shown_in(answer: &Answer<Record>) -> Option<(u64, u64, Record, Option<u64>)> {
    match answer {
        Answer::Plain(_) => None,
        Answer::View(view, id, value) => Some((*view, *id, *value, None)),
        Answer::Held(view, id, value, epoch) => Some((*view, *id, *value, Some(*epoch))),
    }
}

impl<'a> Rules<'a> {
    /// How things stood as a call began.
    fn start(&self, op: &Op<'_>) -> Point {
        match self.points.get(op.start) {
            Some(point) => *point,
            None => Point {
                newest: 0,
                boundary: 0,
            },
        }
    }

    /// Whether this was the newest entry at a moment of a call.
    fn was_newest(&self, op: &Op<'_>, id: u64, value: Record) -> bool {
        let from = self.start(op).newest;
        from <= id && id <= self.newest() && self.entry(id) == Some(value)
    }

    /// Whether an unchecked read of an id may find this.
    fn is_found(&self, op: &Op<'_>, id: u64, found: Option<Record>) -> bool {
        match found {
            _ if id <= self.boundary => true,
            Some(value) => self.entry(id) == Some(value),
            None => self.start(op).newest < id,
        }
    }

    /// Whether these ids were a listing at a moment: entries within the bounds, and of those above the boundary all.
    fn is_listing(&self, point: Point, from: &Bound<u64>, to: &Bound<u64>, ids: &[u64]) -> bool {
        let mut last = 0u64;
        for id in ids {
            if *id <= last || point.newest < *id || !is_within(from, to, *id) {
                return false;
            }
            last = *id;
        }
        for id in point.boundary..point.newest {
            let id = id.saturating_add(1);
            if is_within(from, to, id) && !ids.contains(&id) {
                return false;
            }
        }
        true
    }

    /// Whether these ids were a listing at a moment of a call.
    fn was_listed(&self, op: &Op<'_>, from: &Bound<u64>, to: &Bound<u64>, ids: &[u64]) -> bool {
        for place in op.start..self.points.len() {
            if let Some(point) = self.points.get(place) {
                if self.is_listing(*point, from, to, ids) {
                    return true;
                }
            }
        }
        false
    }

    /// Whether an answer of a call without a view that is no refusal fits.
    fn plain_fits(
        &self,
        op: &Op<'_>,
        call: &PlainCall<Record>,
        answer: &PlainAnswer<Record>,
    ) -> Kept {
        match (call, answer) {
            (PlainCall::Write(base, value), PlainAnswer::Wrote(id)) => {
                let is_next = base.unwrap_or(0).checked_add(1) == Some(*id);
                keeps(is_next && op.entered.contains(&(*id, *value)), Rule::Write)
            }
            (PlainCall::WriteUnchecked(base, _), PlainAnswer::Wrote(id)) => {
                let is_next = base.unwrap_or(0).checked_add(1) == Some(*id);
                keeps(is_next && op.created.contains(id), Rule::Write)
            }
            (PlainCall::Read, PlainAnswer::Read(None)) => {
                keeps(self.start(op).newest == 0, Rule::Read)
            }
            (PlainCall::Read, PlainAnswer::Read(Some((id, value)))) => {
                keeps(self.was_newest(op, *id, *value), Rule::Read)
            }
            (PlainCall::ReadUnchecked(id), PlainAnswer::Value(found))
            | (PlainCall::ReadSeen(id), PlainAnswer::Value(found)) => {
                keeps(self.is_found(op, *id, *found), Rule::Value)
            }
            (PlainCall::ListIds(from, to), PlainAnswer::Ids(ids)) => {
                keeps(self.was_listed(op, from, to, ids.as_slice()), Rule::List)
            }
            (PlainCall::Delete(_), PlainAnswer::Done) => keeps(op.was_gone, Rule::Boundary),
            (PlainCall::Check(id), PlainAnswer::Done) => {
                keeps(self.start(op).boundary < *id, Rule::Boundary)
            }
            (PlainCall::Advance(to), PlainAnswer::Done) => keeps(
                *to <= self.boundary,
                Rule::Boundary,
            ),
            _ => Err(Rule::Once),
        }
    }

    /// Whether an answer that shows a view fits: its call, and where the view stood.
    fn view_fits(&self, op: &Op<'_>, call: &ViewCall<Record>, answer: &Answer<Record>) -> Kept {
        let Some((shown, id, value, epoch)) = shown_in(answer) else {
            return Err(Rule::Once);
        };
        let next = (self.views.len() as u64).saturating_add(1);
        let view = match view_of(op.call) {
            Some((view, _)) => view,
            None => next,
        };
        let stood = match self.views.get(&view) {
            Some(shown) => shown.id,
            None => 0,
        };
        keeps(shown == view && stood <= id, Rule::View)?;
        let is_entered = op.entered.contains(&(id, value));
        match call {
            ViewCall::Init(_) | ViewCall::Update(..) | ViewCall::HolderUpdate(..) => {
                keeps(is_entered && epoch.is_none(), Rule::Write)
            }
            ViewCall::Load | ViewCall::Refresh(_) => {
                keeps(
                    self.was_newest(op, id, value) && epoch.is_none(),
                    Rule::Read,
                )
            }
            ViewCall::HolderRefresh(view) => {
                let is_own = self.held_by(*view) == Some(value.epoch) && epoch.is_none();
                keeps(is_own && self.was_newest(op, id, value), Rule::Read)
            }
            ViewCall::Claim(_) | ViewCall::ClaimAt(..) => {
                let is_raised = self.epoch_at(id.saturating_sub(1)) < value.epoch;
                keeps(
                    is_entered && is_raised && epoch == Some(value.epoch),
                    Rule::Claim,
                )
            }
        }
    }

    /// Whether the base of a write was overtaken: there is a newer entry, and what it entered itself the boundary has reached.
    fn is_overtaken(&self, op: &Op<'_>) -> bool {
        let is_reached = op.entered.iter().all(|it| it.0 <= self.boundary);
        op.base < self.newest() && is_reached
    }

    /// Whether a refusal of a call fits, by its number. (Ids, epochs and tokens do not run out here.)
    fn refusal_fits(&self, number: u64, op: &Op<'_>, refused: u8) -> Kept {
        let is_fenced = match view_of(op.call) {
            Some((view, true)) => match self.held_by(view) {
                Some(epoch) => self.has_above(epoch),
                None => false,
            },
            _ => false,
        };
        match (refused, op.call) {
            (2, _) => keeps(self.failed.contains(&number), Rule::Refusal),
            (4, Call::View(ViewCall::Load)) => keeps(self.start(op).newest == 0, Rule::Refusal),
            (5, Call::Plain(PlainCall::Check(id))) => keeps(*id <= self.boundary, Rule::Boundary),
            (5, call) => keeps(
                value_of(call).is_some() && self.is_overtaken(op),
                Rule::Conflict,
            ),
            (6, Call::View(ViewCall::ClaimAt(_, at))) => {
                keeps(
                    self.entries.iter().any(|entry| *at <= entry.epoch),
                    Rule::Refusal,
                )
            }
            (6, _) => keeps(is_fenced, Rule::Refusal),
            (7, Call::Plain(PlainCall::Delete(id))) => {
                keeps(self.start(op).boundary < *id, Rule::Boundary)
            }
            (7, Call::View(ViewCall::HolderUpdate(view, value))) => {
                keeps(self.held_by(*view) != Some(value.epoch), Rule::Refusal)
            }
            _ => Err(Rule::Refusal),
        }
    }

    /// Whether an answer fits its call.
    pub(crate) fn fits(&self, number: u64, answer: &Answer<Record>) -> Kept {
        let Some(op) = self.op(number) else {
            return Err(Rule::Once);
        };
        keeps(!op.is_answered, Rule::Once)?;
        match (op.call, answer) {
            (_, Answer::Plain(PlainAnswer::Refused(refused))) => {
                self.refusal_fits(number, op, *refused)
            }
            (Call::Plain(call), Answer::Plain(answer)) => self.plain_fits(op, call, answer),
            (Call::View(call), answer) => self.view_fits(op, call, answer),
            _ => Err(Rule::Once),
        }
    }
}
