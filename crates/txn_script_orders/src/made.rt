//! What requests that changed the store made of it, and whether their calls may.

use crate::rule::{Kept, Rule, keeps};
use crate::rules::{Op, Point, Rules, value_of};
use std::alloc::AllocError;
use txn_drawing_moments::touches::asked::{Asked, asked_by};
use txn_history::event::{Call, PlainCall, ViewCall};
use txn_script_lines::record::{Record, read_record};
use txn_store::request::Request;

impl<'a> Rules<'a> {
    /// Notes of each delete whether its version is gone now.
    pub(crate) fn pass(&mut self) {
        for op in self.ops.iter_mut() {
            if let Call::Plain(PlainCall::Delete(id)) = op.call {
                let is_gone = *id <= self.boundary && !self.standing.contains(id);
                op.was_gone = op.was_gone || is_gone;
            }
        }
    }

    /// Whether a call asks to write this directly on an entry, 0 for none.
    fn writes_on(&self, op: &Op<'_>, base: u64, value: Record) -> bool {
        let old = self.entry(base);
        match op.call {
            Call::View(ViewCall::Claim(_)) => match old {
                Some(old) => value.payload == old.payload
                    && Some(value.epoch) == old.epoch.checked_add(1),
                None => false,
            },
            Call::View(ViewCall::ClaimAt(_, epoch)) => match old {
                Some(old) => value.payload == old.payload
                    && value.epoch == *epoch
                    && old.epoch < *epoch,
                None => false,
            },
            call => op.base == base && value_of(call) == Some(value),
        }
    }

    /// Whether a call may create this version, and whether it is an entry.
    fn may_create(&self, op: u64, id: u64, value: Option<Record>) -> Result<(Record, bool), Rule> {
        let Some(value) = value else {
            return Err(Rule::Entry);
        };
        let newest = self.newest();
        let is_entry = id > newest;
        let Some(op) = self.op(op) else {
            return Err(Rule::Entry);
        };
        keeps(
            id == 0 || self.writes_on(op, id.saturating_sub(1), value),
            Rule::Entry,
        )?;
        if !is_entry {
            let is_free = !self.standing.contains(&id) && id <= self.boundary && id != 0;
            keeps(is_free, Rule::Again)?;
            return Ok((value, false));
        }
        keeps(id == newest.saturating_add(1), Rule::Entry)?;
        keeps(self.epoch_at(newest) <= value.epoch, Rule::Entry)?;
        if let Call::View(ViewCall::HolderUpdate(view, _)) = op.call {
            let Some(epoch) = self.held_by(*view) else {
                return Err(Rule::Fence);
            };
            keeps(value.epoch == epoch && !self.has_above(epoch), Rule::Fence)?;
        }
        Ok((value, true))
    }

    /// A version is created.
    fn create(&mut self, op: u64, id: u64, value: Option<Record>) -> Result<Kept, AllocError> {
        let (value, is_entry) = match self.may_create(op, id, value) {
            Ok(created) => created,
            Err(rule) => return Ok(Err(rule)),
        };
        if is_entry {
            self.entries.push(value)?;
        }
        self.standing.insert(id)?;
        if let Some(op) = self.ops.get_mut(op.saturating_sub(1) as usize) {
            op.created.push(id)?;
            if is_entry {
                op.entered.push((id, value))?;
            }
        }
        Ok(Ok(()))
    }

    /// The boundary is raised.
    fn raise(&mut self, op: u64, to: u64) -> Kept {
        let is_asked = match self.op(op) {
            Some(op) => matches!(op.call, Call::Plain(PlainCall::Advance(it)) if *it == to),
            None => false,
        };
        keeps(
            is_asked && self.boundary < to && to < self.newest(),
            Rule::Raise,
        )?;
        self.boundary = to;
        Ok(())
    }

    /// A version is removed.
    fn remove(&mut self, op: u64, id: u64) -> Kept {
        let is_asked = match self.op(op) {
            Some(op) => matches!(op.call, Call::Plain(PlainCall::Delete(it)) if *it == id),
            None => false,
        };
        keeps(
            is_asked && id <= self.boundary && self.standing.contains(&id),
            Rule::Removal,
        )?;
        self.standing.remove(&id);
        Ok(())
    }

    /// What a request that changed the store made of it.
    fn made(&mut self, op: u64, asked: &Asked) -> Result<Kept, AllocError> {
        match asked {
            Asked::Create { id, value } => {
                let value = read_record(value.as_slice());
                self.create(op, *id, value)
            }
            Asked::Raise(to) => Ok(self.raise(op, *to)),
            Asked::Remove(id) => Ok(self.remove(op, *id)),
            _ => Ok(Err(Rule::Entry)),
        }
    }

    /// A call's request changes the store.
    pub(crate) fn effect(&mut self, op: u64, request: &Request) -> Result<Kept, AllocError> {
        let asked = asked_by(request)?;
        let kept = self.made(op, &asked)?;
        drop(asked);
        let point = Point {
            newest: self.newest(),
            boundary: self.boundary,
        };
        self.points.push(point)?;
        self.pass();
        Ok(kept)
    }
}
