//! What recordings say happened, in an order of their store calls.

ghost use Rattle.std.specs.Prelude.{◌≡◌, IfOk, option_copied};
ghost use Rattle.txn_drawing_moments.specs.Numbers.{IsNumbered};
ghost use Rattle.txn_drawing_recordings.specs.Seen.{change_of};

use crate::lost::{has_reply, lost_calls};
use crate::numbers::{Numbers, number_in, numbered};
use crate::pace::{Pace, served_at};
use crate::replies::{has_changed, seen_by};
use crate::rings::{Ringed, ring_of};
use crate::times::Timed;
use std::alloc::{AllocError, Global};
use std::collections::BTreeMap;
use txn_audit_effects::clock::Clock;
use txn_audit_order::order::{CallPlace, Placed};
use txn_audit_recordings::row::RecordedRow;
use txn_drawing_moments::moment::{Kind, Moment, Ring, Said, Touch, When};
use txn_drawing_moments::moments::Moments;
use txn_drawing_moments::touches::asked::{Asked, asked_by};
use txn_drawing_moments::touches::files::Files;
use txn_history::event::Call;
use txn_script_lines::called::Called;
use txn_script_lines::text_form::LineValue;
use txn_store::request::{Reply, Request};
use txn_store::types::boundary::read_boundary;

/// Recordings of which the moments are told.
#[derive(Drop)]
struct Telling<'a, T> {
    alloc: Global,
    recordings: &'a [Vec<RecordedRow<T>>],
    pace: Pace<'a>,
    /// The calls that have rings, and their numbers.
    ringed: &'a [Ringed],
    rings: Numbers,
    /// Of each recording the row that comes next, and the operation that runs: 0 for none.
    next: Vec<usize>,
    running: Vec<u64>,
    /// How many operations have begun.
    begun: u64,
    /// The numbers of the calls that were left in flight, and how many there are.
    loose: Numbers,
    left: u64,
    /// The calls that have no place, and how many of them were told.
    lost: Vec<Timed>,
    told: usize,
    files: Files,
    moments: Moments,
}

/// The epoch of a holder, by its answer.
fn held_in(words: &str) -> Option<u64> {
    if !words.starts_with("holder ") {
        return None;
    }
    match words.rsplit_once(' ') {
        Some((_, epoch)) => read_boundary(epoch.as_bytes()),
        None => None,
    }
}

/// An answer, as it is drawn. The only error is want of memory.
fn said_of(alloc: Global, words: &str) -> Result<Said, AllocError> {
    Ok(Said {
        words: String::from_str(alloc, words)?,
        is_refusal: words.starts_with("refused"),
        held: held_in(words),
    })
}

impl<'a, T: LineValue> Telling<'a, T> {
    /// A row of a recording.
    fn row(&self, at: CallPlace) -> Option<&'a RecordedRow<T>> {
        match self.recordings.get(at.recording) {
            Some(rows) => rows.as_slice().get(at.row),
            None => None,
        }
    }

    /// The request of a call.
    fn request(&self, at: CallPlace) -> Option<&'a Request> {
        match self.row(at) {
            Some(RecordedRow::Ask(_, _, request)) => Some(request),
            _ => None,
        }
    }

    /// The row so many rows behind another of the same recording.
    fn behind(&self, at: CallPlace, rows: usize) -> Option<&'a RecordedRow<T>> {
        self.row(CallPlace {
            recording: at.recording,
            row: at.row.saturating_add(rows),
        })
    }

    /// The reply to a call, where one was seen.
    fn reply(&self, at: CallPlace) -> Option<&'a Reply> {
        match self.behind(at, 1) {
            Some(RecordedRow::Reply(_, _, reply)) => Some(reply),
            _ => None,
        }
    }

    /// How many rows a call has: with its reply or its failure, where that was seen.
    fn rows_of(&self, at: CallPlace) -> usize {
        match self.behind(at, 1) {
            Some(RecordedRow::Reply(..)) | Some(RecordedRow::Failed(..)) => 2,
            _ => 1,
        }
    }

    /// The ring of a call, where it has one.
    fn ring(&self, at: CallPlace) -> Option<Ring> {
        ring_of(self.ringed, number_in(&self.rings, at))
    }

    /// When a call was asked, where a row is one.
    fn asked(&self, at: CallPlace) -> Option<u64> {
        match self.row(at) {
            Some(RecordedRow::Ask(_, time, _)) => Some(self.pace.common(at.recording, *time)),
            _ => None,
        }
    }

    /// When a call had its reply, or had failed, where that was seen.
    fn replied(&self, at: CallPlace) -> Option<u64> {
        match self.behind(at, 1) {
            Some(RecordedRow::Reply(_, time, _)) | Some(RecordedRow::Failed(_, time)) => Some(
                self.pace.common(at.recording, *time),
            ),
            _ => None,
        }
    }

    /// When the store can have served a call, which comes next, where a row is one.
    fn served(&self, at: CallPlace) -> Option<u64> {
        let asked = self.asked(at)?;
        Some(served_at(self.pace.last, asked, self.replied(at)))
    }

    /// The operation that runs in a recording.
    fn operation(&self, recording: usize) -> u64 {
        match self.running.get(recording) {
            Some(op) => *op,
            None => 0,
        }
    }

    /// The row that comes next in a recording.
    fn next_row(&self, recording: usize) -> usize {
        match self.next.get(recording) {
            Some(row) => *row,
            None => 0,
        }
    }

    /// The row that comes next in a recording from here on.
    fn go_on(&mut self, recording: usize, row: usize) {
        if recording < self.next.len() {
            self.next[recording] = row;
        }
    }

    /// The operation that runs in a recording from here on.
    fn runs(&mut self, recording: usize, op: u64) {
        if recording < self.running.len() {
            self.running[recording] = op;
        }
    }

    /// The answer that stands in the row that comes next in a recording, which is then taken.
    fn answer(&mut self, recording: usize) -> Result<Option<Said>, AllocError> {
        let row = self.next_row(recording);
        match self.row(CallPlace { recording, row }) {
            Some(RecordedRow::Answer(_, words)) => {
                self.go_on(recording, row.saturating_add(1));
                Ok(Some(said_of(self.alloc, words.as_str())?))
            }
            _ => Ok(None),
        }
    }

    /// Tells a moment of a recording, with the answer that follows it there.
    fn tell(
        &mut self,
        recording: usize,
        kind: Kind,
        words: String,
        touch: Touch,
        ring: Option<Ring>,
        when: When,
    ) -> Result<(), AllocError> {
        let op = self.operation(recording);
        let answer = self.answer(recording)?;
        if answer.is_some() {
            self.runs(recording, 0);
        }
        self.push(recording, op, kind, words, touch, ring, answer, when)
    }

    /// Adds a moment.
    fn push(
        &mut self,
        recording: usize,
        op: u64,
        kind: Kind,
        words: String,
        touch: Touch,
        ring: Option<Ring>,
        answer: Option<Said>,
        when: When,
    ) -> Result<(), AllocError> {
        let number = self.moments.next();
        let client = (recording as u64).saturating_add(1);
        let left = Vec::new(self.alloc);
        self.moments.push(Moment {
            number,
            when,
            kind,
            client,
            op,
            words,
            answer,
            left,
            touch,
            ring,
        })
    }

    /// The last moment leaves this call in flight.
    fn leave(&mut self, at: CallPlace) -> Result<(), AllocError> {
        self.left = self.left.saturating_add(1);
        self.loose.insert((at.recording, at.row), self.left)?;
        self.moments.leave(self.left)
    }

    /// Tells that a call begins.
    fn begin(&mut self, recording: usize, row: usize, call: &Call<T>) -> Result<(), AllocError> {
        self.go_on(recording, row.saturating_add(1));
        self.begun = self.begun.saturating_add(1);
        let op = self.begun;
        self.runs(recording, op);
        let called = Called(call);
        let words = format!(in self.alloc; "{called}")?;
        // It has the time of its first call, which follows.
        let row = row.saturating_add(1);
        let when = self.pace.when(self.served(CallPlace { recording, row }));
        self.tell(recording, Kind::Begins, words, Touch::None, None, when)
    }

    /// Tells that a call was asked whose reply nobody saw, and which has no place before this: it is in flight, where it may still
    /// change something.
    fn lose(&mut self, at: CallPlace, request: &Request) -> Result<(), AllocError> {
        let asked = asked_by(request)?;
        let is_loose = asked.is_loose();
        drop(asked);
        self.go_on(at.recording, at.row.saturating_add(self.rows_of(at)));
        let ring = self.ring(at);
        let when = self.pace.when(self.asked(at));
        let words = String::new(self.alloc);
        self.tell(at.recording, Kind::Fails, words, Touch::None, ring, when)?;
        if is_loose {
            self.leave(at)?;
        }
        Ok(())
    }

    /// Tells the row that comes next in a recording, which is no call that has a place here.
    fn tell_row(&mut self, recording: usize) -> Result<(), AllocError> {
        let row = self.next_row(recording);
        let at = CallPlace { recording, row };
        match self.row(at) {
            Some(RecordedRow::Begin(_, call)) => self.begin(recording, row, call),
            Some(RecordedRow::Ask(_, _, request)) => self.lose(at, request),
            Some(RecordedRow::GiveUp(_)) => {
                self.go_on(recording, row.saturating_add(1));
                let words = String::new(self.alloc);
                self.tell(
                    recording,
                    Kind::GivesUp,
                    words,
                    Touch::None,
                    None,
                    When::Unknown,
                )?;
                self.runs(recording, 0);
                Ok(())
            }
            Some(RecordedRow::Answer(..)) => {
                let words = String::new(self.alloc);
                self.tell(
                    recording,
                    Kind::Looks,
                    words,
                    Touch::None,
                    None,
                    When::Unknown,
                )
            }
            _ => {
                self.go_on(recording, row.saturating_add(1));
                Ok(())
            }
        }
    }

    /// Tells the rows of a recording before this.
    fn tell_rows(&mut self, recording: usize, row: usize) -> Result<(), AllocError> {
        for _ in self.next_row(recording)..row {
            if self.next_row(recording) < row {
                self.tell_row(recording)?;
            }
        }
        Ok(())
    }

    /// Whether a call changes something that has this reply, or landed.
    fn changes(&self, asked: &Asked, reply: Option<&Reply>) -> bool
        ensures { result ≡ change_of self.now.files.standing asked.now (option_copied reply.entry) }
    {
        match (asked, reply) {
            (Asked::Remove(id), _) => self.files.has(*id),
            (_, Some(reply)) => has_changed(reply),
            (_, None) => true,
        }
    }

    /// Takes the store call that has its place here: what it did or saw.
    fn touch(&mut self, at: CallPlace, request: &Request) -> Result<Touch, AllocError> {
        let asked = asked_by(request)?;
        let reply = self.reply(at);
        let is_changed = self.changes(&asked, reply);
        let touch = self.files.take(asked, is_changed)?;
        match reply {
            Some(reply) => seen_by(self.alloc, touch, reply),
            None => Ok(touch),
        }
    }

    /// Tells the store call that has its place here.
    fn tell_call(&mut self, at: CallPlace) -> Result<(), AllocError> {
        let Some(request) = self.request(at) else {
            return Ok(());
        };
        let k = number_in(&self.loose, at);
        let words = String::new(self.alloc);
        if k != 0 {
            let touch = self.touch(at, request)?;
            return self.push(
                at.recording,
                0,
                Kind::Lands(k),
                words,
                touch,
                None,
                None,
                When::Unknown,
            );
        }
        self.tell_rows(at.recording, at.row)?;
        let touch = self.touch(at, request)?;
        let kind = if self.reply(at).is_some() {
            Kind::Serves
        } else {
            Kind::Fails
        };
        let served = self.served(at);
        self.pace.last = served.unwrap_or(self.pace.last);
        self.go_on(at.recording, at.row.saturating_add(self.rows_of(at)));
        let ring = self.ring(at);
        let when = self.pace.when(served);
        self.tell(at.recording, kind, words, touch, ring, when)?;
        self.finish_told(at.recording)
    }

    /// Tells a call that has no place, with the rows of its recording before it: where none of these is a call that has one.
    fn tell_lost(&mut self, at: CallPlace) -> Result<(), AllocError> {
        let from = self.next_row(at.recording);
        let Some(rows) = self.recordings.get(at.recording) else {
            return Ok(());
        };
        if at.row < from || has_reply(rows.as_slice(), from, at.row) {
            return Ok(());
        }
        self.tell_rows(at.recording, at.row.saturating_add(1))?;
        self.finish_told(at.recording)
    }

    /// Tells the calls without a place that were asked before the store can have served this one.
    fn tell_lost_before(&mut self, at: CallPlace) -> Result<(), AllocError> {
        let Some(served) = self.served(at) else {
            return Ok(());
        };
        for _ in self.told..self.lost.len() {
            let Some(lost) = self.lost.get(self.told).copied() else {
                return Ok(());
            };
            if lost.at >= served {
                return Ok(());
            }
            self.told = self.told.saturating_add(1);
            self.tell_lost(lost.call)?;
        }
        Ok(())
    }

    /// Tells that a client was killed, where its recording was told to its end.
    fn finish_told(&mut self, recording: usize) -> Result<(), AllocError> {
        match self.recordings.get(recording) {
            Some(rows) if rows.len() <= self.next_row(recording) => self.finish(recording),
            _ => Ok(()),
        }
    }

    /// Tells what is left of a recording, and that its client was killed, where it ends in the midst of a call.
    fn finish(&mut self, recording: usize) -> Result<(), AllocError> {
        let rows = match self.recordings.get(recording) {
            Some(rows) => rows.len(),
            None => 0,
        };
        self.tell_rows(recording, rows)?;
        if self.operation(recording) != 0 {
            let words = String::new(self.alloc);
            self.push(
                recording,
                0,
                Kind::Killed,
                words,
                Touch::None,
                None,
                None,
                When::Unknown,
            )?;
            self.runs(recording, 0);
        }
        Ok(())
    }
}

/// What recordings say happened, whose times are of these clocks, in this order of their store calls; calls that are not in it took no
/// effect. These calls have rings. A call has the first time at which the store can have served it in this order, a begin that of its
/// first call, and one whose reply nobody saw the time at which it was asked.
///
/// # Errors
///
/// Want of memory alone.
pub fn moments_of<T: LineValue>(
    alloc: Global,
    recordings: &[Vec<RecordedRow<T>>],
    clocks: &[Clock],
    order: &[Placed],
    ringed: &[Ringed],
) -> Result<Vec<Moment>, AllocError>
    ensures { IfOk result (λ moments. IsNumbered moments.items) }
{
    let mut next = Vec::new(alloc);
    next.resize(recordings.len(), 0)?;
    let mut running = Vec::new(alloc);
    running.resize(recordings.len(), 0)?;
    let mut telling = Telling {
        alloc,
        recordings,
        pace: Pace::of(recordings, clocks),
        ringed,
        rings: numbered(alloc, ringed)?,
        next,
        running,
        begun: 0,
        loose: BTreeMap::new(alloc),
        left: 0,
        lost: lost_calls(alloc, recordings, clocks, order)?,
        told: 0,
        files: Files::new(alloc),
        moments: Moments::new(alloc),
    };
    for placed in order {
        telling.tell_lost_before(placed.call)?;
        telling.tell_call(placed.call)?;
    }
    for recording in 0..recordings.len() {
        telling.finish(recording)?;
    }
    let Telling { moments, .. } = telling;
    Ok(moments.into_vec())
}
