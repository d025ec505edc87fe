//! What a client was told: the ids that its checked calls answered, each with the epoch of its version.
ghost use Rattle.std.specs.Prelude.{◌≡◌, ◌++◌, ◌<◌, ◌≤◌, ℕ, [], IfOk, OnOk, Some, is_some, reverse, nat_eq, nat_lt, vec_len, vec_capacity};
ghost use Rattle.std.specs.HashMap.{get, spare};
ghost use Rattle.txn_client_journals.specs.Parts.{knows_base, is_below_known, epoch_told, epoch_written, note_of, note_plain, note_wrote, written_in};
ghost use Rattle.txn_history.specs.Lists.{numbered};
ghost use Rattle.txn_diary.specs.Notes.{note_at, as_told};

use crate::maps::insert_within;
use crate::standing::Standing;
use std::alloc::{AllocError, Global};
use std::collections::HashMap;
use std::mem::swap;
use txn_history::event::{Answer, Call, PlainAnswer, PlainCall};
use txn_machine::views::used::Used;
use txn_store::types::epoch::EpochField;
use txn_store::types::room::push_within;

/// The id that an answer tells, with the epoch of its version.
pub(crate) type Note = (u64, u64);

/// The epoch of what a checked write writes.
pub(crate) fn epoch_written<T, E: EpochField<T>>(epochs: &E, call: &Call<T>) -> Option<u64>
    ensures { result ≡ epoch_written (E.epoch_of epochs.now) call.now }
{
    match call {
        Call::Plain(PlainCall::Write(_, value)) => Some(epochs.get_epoch(value)),
        _ => None,
    }
}

/// The epoch of what this operation writes, where it is a checked write.
pub(crate) fn written_at(writes: &[Option<u64>], op: u64) -> Option<u64>
    ensures { result ≡ written_in (numbered writes.now op) }
{
    if op == 0 {
        return None;
    }
    match writes.get((op - 1) as usize) {
        Some(written) => *written,
        None => None,
    }
}

/// What the answer of a checked call without a view tells.
fn note_plain<T, E: EpochField<T>>(
    epochs: &E,
    written: Option<u64>,
    answer: &PlainAnswer<T>,
) -> Option<Note>
    ensures { as_told result ≡ note_plain (E.epoch_of epochs.now) written answer.now }
{
    match answer {
        PlainAnswer::Wrote(id) => match written {
            Some(epoch) => Some((*id, epoch)),
            None => None,
        },
        PlainAnswer::Read(Some((id, value))) => Some((*id, epochs.get_epoch(value))),
        _ => None,
    }
}

/// What the answer of a checked call tells.
pub(crate) fn note_of<T, E: EpochField<T>>(
    epochs: &E,
    written: Option<u64>,
    answer: &Answer<T>,
) -> Option<Note>
    ensures { as_told result ≡ note_of (E.epoch_of epochs.now) written (Some answer.now) }
{
    match answer {
        Answer::Plain(answer) => note_plain(epochs, written, answer),
        Answer::View(_, id, value) => Some((*id, epochs.get_epoch(value))),
        Answer::Held(_, id, value, _) => Some((*id, epochs.get_epoch(value))),
    }
}

/// Notes, with what is looked up in them.
#[derive(Drop)]
pub(crate) struct Notes {
    /// All that was noted, the first first.
    pub noted: Vec<Note>,
    /// The epoch of each id that was noted, as it was noted last.
    epochs: HashMap<u64, u64>,
    /// The greatest id that was noted, 0 where there is none.
    greatest: u64,
    ghost all_epochs: { (id : ℕ) → get nat_eq epochs id ≡ note_at (reverse noted.items) id },
    ghost all_below: { (n : ℕ) → nat_lt n greatest ≡ is_below_known (reverse noted.items) n },
}

impl Notes {
    ghost use Rattle.std.specs.Prelude.{◌≡◌, ◌++◌, ◌<◌, ◌≤◌, [], All, OnOk, IfOk, Some, true, reverse, vec_len, vec_capacity};
    ghost use Rattle.std.specs.HashMap.{spare, values};
    ghost use Rattle.txn_client_journals.specs.Parts.{knows_base, is_below_known, epoch_told};
    ghost use Rattle.txn_diary.specs.Notes.{as_told};
    ghost use Rattle.txn_diary.specs.Room.{HasRoom};
    ghost use Rattle.txn_diary.specs.Forgetting.{WereKnown, StillKnown, BaseStays, AreKeptNotes};

    /// No notes.
    pub fn new(alloc: Global) -> Notes
        ensures { result.noted.items ≡ [] }
    {
        Notes {
            noted: Vec::new(alloc),
            epochs: HashMap::new(alloc),
            greatest: 0,
        }
    }

    /// Whether a base is none, or an id that was noted.
    pub fn knows_base(&self, base: Option<u64>) -> bool
        ensures { result ≡ knows_base (reverse self.now.noted.items) base }
    {
        match base {
            Some(id) => self.epochs.contains_key(&id),
            None => true,
        }
    }

    /// Whether an id above this was noted.
    pub fn is_below(&self, to: u64) -> bool
        ensures { result ≡ is_below_known (reverse self.now.noted.items) to }
    {
        to < self.greatest
    }

    /// The epoch of the version of this id, 0 where it was not noted.
    pub fn epoch_of(&self, id: u64) -> u64
        ensures { result ≡ epoch_told (reverse self.now.noted.items) id }
    {
        match self.epochs.get(&id) {
            Some(epoch) => *epoch,
            None => 0,
        }
    }

    /// Makes room for one note.
    ///
    /// # Errors
    ///
    /// Want of memory alone. The notes are as they were.
    #[inline(always)]
    pub fn reserve(&mut self) -> Result<(), AllocError>
        ensures same { self.new.noted.items ≡ self.old.noted.items }
        ensures room { OnOk result (HasRoom self.new) }
    {
        self.noted.reserve(1)?;
        self.epochs.reserve(1)
    }

    /// Notes this, where there is room.
    pub fn add(&mut self, note: Option<Note>)
        requires { HasRoom self.old }
        ensures { reverse self.new.noted.items ≡ as_told note ++ reverse self.old.noted.items }
    {
        if let Some((id, epoch)) = note {
            push_within(&mut self.noted, (id, epoch));
            insert_within(&mut self.epochs, id, epoch);
            self.greatest = self.greatest.max(id);
        }
    }

    /// Notes of this id what all notes say, where they say something. The only error is want of memory, and then nothing changes.
    fn note(&mut self, all: &Notes, id: u64) -> Result<(), AllocError>
        requires { WereKnown (reverse all.now.noted.items) (reverse self.old.noted.items) }
        ensures known { WereKnown (reverse all.now.noted.items) (reverse self.new.noted.items) }
        ensures more { StillKnown (reverse self.old.noted.items) (reverse self.new.noted.items) }
        ensures noted { OnOk result (knows_base (reverse all.now.noted.items) (Some id) ≡ true → knows_base (reverse self.new.noted.items) (Some id) ≡ true) }
    {
        let Some(epoch) = all.epochs.get(&id) else {
            return Ok(());
        };
        self.reserve()?;
        self.add(Some((id, *epoch)));
        Ok(())
    }

    /// Notes the ids of the last of all notes, so many.
    fn note_last(&mut self, all: &Notes, last: usize) -> Result<(), AllocError>
        requires { WereKnown (reverse all.now.noted.items) (reverse self.old.noted.items) }
        ensures known { WereKnown (reverse all.now.noted.items) (reverse self.new.noted.items) }
        ensures more { StillKnown (reverse self.old.noted.items) (reverse self.new.noted.items) }
    {
        let from = all.noted.len().saturating_sub(last);
        for note in &all.noted.as_slice()[from..] {
            self.note(all, note.0)?;
        }
        Ok(())
    }

    /// Notes the id at which a view stands, where it does.
    fn note_base<T: Drop>(&mut self, all: &Notes, used: &Option<Used<T>>) -> Result<(), AllocError>
        requires { WereKnown (reverse all.now.noted.items) (reverse self.old.noted.items) }
        ensures known { WereKnown (reverse all.now.noted.items) (reverse self.new.noted.items) }
        ensures more { StillKnown (reverse self.old.noted.items) (reverse self.new.noted.items) }
        ensures base { OnOk result (BaseStays (reverse all.now.noted.items) (reverse self.new.noted.items) used.now) }
    {
        match used {
            Some(used) => self.note(all, used.view.id),
            None => Ok(()),
        }
    }

    /// Notes the ids at which views stand.
    fn note_bases<T: Drop>(&mut self, all: &Notes, views: &Standing<T>) -> Result<(), AllocError>
        requires { WereKnown (reverse all.now.noted.items) (reverse self.old.noted.items) }
        ensures known { WereKnown (reverse all.now.noted.items) (reverse self.new.noted.items) }
        ensures more { StillKnown (reverse self.old.noted.items) (reverse self.new.noted.items) }
        ensures bases { OnOk result (All (BaseStays (reverse all.now.noted.items) (reverse self.new.noted.items)) (values views.now.used)) }
    {
        for used in views.used.values() {
            self.note_base(all, used)?;
        }
        Ok(())
    }

    /// Has no notes any more. What they took in memory it keeps for others.
    fn clear(&mut self)
        ensures { self.new.noted.items ≡ [] }
    {
        self.noted.clear();
        self.epochs.clear();
        self.greatest = 0;
    }

    /// Becomes what is left of all notes once some are forgotten.
    fn keep<T: Drop>(
        &mut self,
        all: &Notes,
        views: &Standing<T>,
        last: usize,
    ) -> Result<(), AllocError>
        ensures notes { OnOk result (AreKeptNotes (reverse all.now.noted.items) (reverse self.new.noted.items)) }
        ensures bases { OnOk result (All (BaseStays (reverse all.now.noted.items) (reverse self.new.noted.items)) (values views.now.used)) }
    {
        self.clear();
        self.note(all, 0)?;
        self.note(all, all.greatest)?;
        self.note_last(all, last)?;
        self.note_bases(all, views)?;
        Ok(())
    }

    /// Forgets the ids that were noted before the last notes, so many, but for the greatest and those at which views stand. It does
    /// where it has more than twice as many notes as are left then, and memory suffices. What is left it writes to other notes, and
    /// changes places with them, so that notes take the same two places in memory again and again.
    pub fn forget<T: Drop>(&mut self, other: &mut Notes, views: &Standing<T>, last: usize)
        ensures notes { AreKeptNotes (reverse self.old.noted.items) (reverse self.new.noted.items) }
        ensures bases { All (BaseStays (reverse self.old.noted.items) (reverse self.new.noted.items)) (values views.now.used) }
    {
        let left = last.saturating_add(views.used.len()).saturating_add(2);
        if self.noted.len() / 2 < left {
            return;
        }
        if other.keep(self, views, last).is_ok() {
            swap(self, other);
        }
    }
}
