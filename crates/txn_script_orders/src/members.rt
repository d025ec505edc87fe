//! A client on its way through its list.

use crate::signs::{CRASHED, Sign, push_answer, push_number};
use std::alloc::{AllocError, Global};
use txn_history::event::{Answer, PlainAnswer};
use txn_script_lines::record::Record;

/// A client on its way through its list.
#[derive(Drop)]
pub(crate) struct Member {
    /// How many calls of its list it has behind it.
    pub(crate) place: usize,
    /// The operation that runs.
    pub(crate) running: Option<u64>,
    /// The number of its newest view.
    pub(crate) view: Option<u64>,
    /// The id last told to it, with the epoch of its value.
    pub(crate) told: Option<(u64, u64)>,
    /// How its calls ended.
    pub(crate) answers: Vec<Sign>,
    /// What it has seen of the store since it began or crashed.
    pub(crate) seen: Vec<Sign>,
    /// How many events it made since then.
    pub(crate) turns: u64,
    /// How often it crashed.
    pub(crate) life: u64,
    /// How many of its calls were left out.
    pub(crate) skipped: u64,
}

/// What an answer tells of ids: the id and the epoch of its value.
fn told_by(answer: &Answer<Record>, entries: &[Record]) -> Option<(u64, u64)> {
    match answer {
        Answer::Plain(PlainAnswer::Wrote(id)) => match entries.get(id.saturating_sub(1) as usize) {
            Some(entry) => Some((*id, entry.epoch)),
            None => Some((*id, 0)),
        },
        Answer::Plain(PlainAnswer::Read(None)) => Some((0, 0)),
        Answer::Plain(PlainAnswer::Read(Some((id, value)))) => Some((*id, value.epoch)),
        Answer::Plain(_) => None,
        Answer::View(_, id, value) => Some((*id, value.epoch)),
        Answer::Held(_, id, value, _) => Some((*id, value.epoch)),
    }
}

/// The view that an answer is of.
fn view_in(answer: &Answer<Record>) -> Option<u64> {
    match answer {
        Answer::Plain(_) => None,
        Answer::View(view, _, _) | Answer::Held(view, _, _, _) => Some(*view),
    }
}

impl Member {
    /// A client that has begun nothing.
    pub(crate) fn new(alloc: Global) -> Member {
        Member {
            place: 0,
            running: None,
            view: None,
            told: None,
            answers: Vec::new(alloc),
            seen: Vec::new(alloc),
            turns: 0,
            life: 0,
            skipped: 0,
        }
    }

    /// Its call ended so.
    pub(crate) fn end(&mut self, mark: u64) -> Result<(), AllocError> {
        push_number(&mut self.answers, mark)?;
        self.running = None;
        self.place = self.place.saturating_add(1);
        Ok(())
    }

    /// Its call was answered.
    pub(crate) fn hear(
        &mut self,
        answer: &Answer<Record>,
        entries: &[Record],
    ) -> Result<(), AllocError> {
        push_answer(&mut self.answers, answer)?;
        if let Some(told) = told_by(answer, entries) {
            self.told = Some(told);
        }
        if let Some(view) = view_in(answer) {
            self.view = Some(view);
        }
        self.running = None;
        self.place = self.place.saturating_add(1);
        Ok(())
    }

    /// It crashed, and goes on at this place of its list.
    pub(crate) fn crash(&mut self, place: usize) -> Result<(), AllocError> {
        push_number(&mut self.answers, CRASHED)?;
        self.seen.clear();
        self.turns = 0;
        self.running = None;
        self.view = None;
        self.told = None;
        self.place = place;
        self.life = self.life.saturating_add(1);
        Ok(())
    }
}
