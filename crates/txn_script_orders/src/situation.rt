//! A world on its way through a question, and what is kept beside it.

use crate::asked::Knows;
use crate::members::Member;
use crate::moves::Move;
use crate::question::{Allowed, Question, Step};
use crate::shown::{Shown, shown_of};
use crate::signs::{LOST, SKIPPED, push_number};
use std::alloc::{AllocError, Global};
use txn_drawing_moments::touches::asked::{Asked, asked_by};
use txn_history::event::{Answer, Call, Event, Failure, PlainAnswer, Told};
use txn_history::trace::RowOf;
use txn_script_lines::record::{Record, RecordCodec, RecordEpoch, read_record};
use txn_steps::boundary::ask::Ask;
use txn_store::request::Request;
use txn_store::store::PutMode;
use txn_store::types::layout::PAGE;
use txn_world::world::World;

/// The most events that the calls before all others take.
const MOST_BEFORE: u64 = 10_000;

/// A request that may still reach the store.
#[derive(Drop)]
pub(crate) struct Loose {
    /// Whose it was, counted from 0; the place of its call, and how often its client had crashed.
    pub(crate) client: usize,
    pub(crate) place: usize,
    pub(crate) life: u64,
    pub(crate) asked: Asked,
    /// The number of the token on which it was made, 0 where there was to be no file.
    pub(crate) token: u64,
}

/// What came of a move.
#[derive(Clone, Copy, Debug, PartialEq, Eq)]
pub(crate) struct Taken {
    /// Whether it did something that no other order does.
    pub(crate) counts: bool,
    /// The operation whose it was, 0 where it was of none.
    pub(crate) op: u64,
    /// Whether that was answered.
    pub(crate) is_answered: bool,
}

/// A world on its way.
#[derive(Drop)]
pub(crate) struct Situation<'a> {
    pub(crate) alloc: Global,
    pub(crate) question: &'a Question,
    pub(crate) world: World<Record, RecordCodec, RecordEpoch>,
    pub(crate) members: Vec<Member>,
    pub(crate) left: Allowed,
    pub(crate) loose: Vec<Loose>,
    pub(crate) entries: Vec<Record>,
    /// What the file of each version says, where it is there.
    pub(crate) files: Vec<Option<Record>>,
    /// How many puts changed the store: the number of the last token, since a store in memory counts them from 1.
    puts: u64,
    /// The number of the boundary file's token, 0 where there is no file.
    pub(crate) boundary_token: u64,
}

impl<'a> Situation<'a> {
    /// A world in which the calls before all others were made, and nothing else has happened.
    pub(crate) fn open(alloc: Global, question: &'a Question) -> Result<Situation<'a>, AllocError> {
        let others = question.lists.len().min(63);
        let clients = if question.before.is_empty() {
            others
        } else {
            others + 1
        };
        let mut members = Vec::new(alloc);
        for _client in 0..clients {
            members.push(Member::new(alloc))?;
        }
        let mut opened = Situation {
            alloc,
            question,
            world: World::new(alloc, RecordCodec, RecordEpoch, clients.max(1) as u64, PAGE)?,
            members,
            left: question.allowed,
            loose: Vec::new(alloc),
            entries: Vec::new(alloc),
            files: Vec::new(alloc),
            puts: 0,
            boundary_token: 0,
        };
        for client in 0..clients {
            opened.skip(client)?;
        }
        Ok(opened)
    }

    /// The list of a client.
    fn steps(&self, client: usize) -> &[Step] {
        match self.question.lists.get(client) {
            Some(list) => list.as_slice(),
            None => self.question.before.as_slice(),
        }
    }

    /// How many calls a client makes.
    pub(crate) fn length(&self, client: usize) -> usize {
        self.steps(client).len()
    }

    /// The call that a client begins next, where what it speaks of is there.
    fn call_of(&self, client: usize) -> Option<Call<Record>> {
        let member = self.members.get(client)?;
        let step = self.steps(client).get(member.place)?;
        let view = match member.view {
            Some(number) => match self.world.view(number) {
                Some(view) => Some((number, view)),
                None => None,
            },
            None => None,
        };
        let knows = Knows {
            client: (client as u64).saturating_add(1),
            place: (member.place as u64).saturating_add(1),
            told: member.told,
            view,
            entries: self.entries.as_slice(),
        };
        knows.call_of(*step)
    }

    /// The begin of a client's next call.
    fn begin_of(&self, client: usize) -> Option<Event<Record>> {
        Some(Event::Begin((client as u64).saturating_add(1), self.call_of(client)?))
    }

    /// Whether a client may begin its next call.
    pub(crate) fn may_begin(&self, client: usize) -> bool {
        match self.begin_of(client) {
            Some(event) => self.world.refusal(&event).is_none(),
            None => false,
        }
    }

    /// Leaves out the calls of a client that speak of what is not there.
    fn skip(&mut self, client: usize) -> Result<(), AllocError> {
        for _call in 0..self.length(client) {
            let is_there = self.call_of(client).is_some();
            let length = self.length(client);
            let Some(member) = self.members.get_mut(client) else {
                return Ok(());
            };
            if is_there || member.running.is_some() || member.place >= length {
                return Ok(());
            }
            member.end(SKIPPED)?;
            member.skipped = member.skipped.saturating_add(1);
        }
        Ok(())
    }

    /// What an operation asks for.
    pub(crate) fn asked_of(&self, op: u64) -> Result<Asked, AllocError> {
        match self.world.asks(op) {
            Some(Ask::Store(request)) => asked_by(request),
            Some(Ask::Look) => Ok(Asked::Nothing),
            None => Ok(Asked::Nothing),
        }
    }

    /// The boundary.
    pub(crate) fn boundary(&self) -> u64 {
        self.world.boundary()
    }

    /// What the running operation of a client asks for.
    fn asked(&self, client: usize) -> Result<Asked, AllocError> {
        let Some(member) = self.members.get(client) else {
            return Ok(Asked::Nothing);
        };
        match member.running {
            Some(op) => self.asked_of(op),
            None => Ok(Asked::Nothing),
        }
    }

    /// The operation that runs for a client, 0 where none does.
    fn op_of(&self, client: usize) -> u64 {
        match self.members.get(client) {
            Some(member) => member.running.unwrap_or(0),
            None => 0,
        }
    }

    /// The event of a move, where it may come.
    pub(crate) fn event_of(&self, step: Move) -> Option<Event<Record>> {
        Some(match step {
            Move::Begin(client) => self.begin_of(client)?,
            Move::Look(client) => Event::Look(self.op_of(client)),
            Move::Serve(client) => Event::Serve(self.op_of(client)),
            Move::Fail(client, failure) => Event::Fail(self.op_of(client), failure),
            Move::GiveUp(client) => Event::GiveUp(self.op_of(client)),
            Move::Crash(client) => Event::Crash((client as u64).saturating_add(1)),
            Move::Land(number) => Event::Land(number),
        })
    }

    /// Notes what a request that reached the store made of its files.
    fn settle(&mut self, asked: &Asked) -> Result<(), AllocError> {
        match asked {
            Asked::Create { id, value } => {
                self.puts = self.puts.saturating_add(1);
                let place = id.saturating_sub(1) as usize;
                let read = read_record(value.as_slice());
                if place == self.entries.len() {
                    if let Some(value) = read {
                        self.entries.push(value)?;
                        self.files.push(read)?;
                    }
                } else if let Some(file) = self.files.get_mut(place) {
                    *file = read;
                }
            }
            Asked::Raise(_) => {
                self.puts = self.puts.saturating_add(1);
                self.boundary_token = self.puts;
            }
            Asked::Remove(id) => {
                if let Some(file) = self.files.get_mut(id.saturating_sub(1) as usize) {
                    *file = None;
                }
            }
            _ => {}
        }
        Ok(())
    }

    /// Notes what the rows from this one on made of the files. True where there was something.
    fn settle_rows(&mut self, count: usize) -> Result<bool, AllocError> {
        let mut made = Vec::new(self.alloc);
        for row in self.world.trace().get(count..).unwrap_or(&[]) {
            if let RowOf::Effect(_, request) = row {
                made.push(asked_by(request)?)?;
            }
        }
        for asked in &made {
            self.settle(asked)?;
        }
        Ok(!made.is_empty())
    }

    /// The number of the token on which an operation's put is made, 0 where there is to be no file.
    fn token_of(&self, op: u64) -> u64 {
        match self.world.asks(op) {
            Some(
                Ask::Store(
                    Request::Put {
                        mode: PutMode::Update(token),
                        ..
                    },
                ),
            ) => token.number(),
            Some(Ask::Store(_)) => 0,
            Some(Ask::Look) => 0,
            None => 0,
        }
    }

    /// Notes a request that its client does not wait for any more.
    fn leave(&mut self, client: usize, asked: Asked, token: u64) -> Result<(), AllocError> {
        if !asked.is_loose() {
            drop(asked);
            return Ok(());
        }
        let (place, life) = match self.members.get(client) {
            Some(member) => (member.place, member.life),
            None => (0, 0),
        };
        self.loose.push(Loose {
            client,
            place,
            life,
            asked,
            token,
        })?;
        Ok(())
    }

    /// Notes what an event told a client.
    fn hear(&mut self, client: usize, told: &Told<Record>) -> Result<bool, AllocError> {
        let mut is_answered = false;
        if let Some(member) = self.members.get_mut(client) {
            member.turns = member.turns.saturating_add(1);
            match told {
                Told::Began(op) => member.running = Some(*op),
                Told::Answered(_, answer) => {
                    member.hear(answer, self.entries.as_slice())?;
                    is_answered = true;
                }
                _ => {}
            }
        }
        if is_answered {
            self.skip(client)?;
        }
        Ok(is_answered)
    }

    /// Uses up what a move costs.
    fn spend(&mut self, step: Move) {
        let left = &mut self.left;
        match step {
            Move::Fail(_, Failure::Before) => left.before = left.before.saturating_sub(1),
            Move::Fail(_, Failure::After) => left.after = left.after.saturating_sub(1),
            Move::Fail(_, Failure::Loose) => left.loose = left.loose.saturating_sub(1),
            Move::GiveUp(_) => left.giveups = left.giveups.saturating_sub(1),
            Move::Crash(_) => left.crashes = left.crashes.saturating_sub(1),
            Move::Land(_) => left.lands = left.lands.saturating_sub(1),
            _ => {}
        }
    }

    /// Gives up the call of a client, or all that it has.
    fn end(&mut self, client: usize, crashes: bool) -> Result<(), AllocError> {
        let place = if self.left.restarts {
            0
        } else {
            self.length(client)
        };
        if let Some(member) = self.members.get_mut(client) {
            member.turns = member.turns.saturating_add(1);
            if crashes {
                member.crash(place)?;
            } else {
                member.end(LOST)?;
            }
        }
        self.skip(client)
    }

    /// Takes a move of a client. What it asks for was this before.
    fn take_own(
        &mut self,
        client: usize,
        step: Move,
        event: Event<Record>,
    ) -> Result<Taken, AllocError> {
        let op = self.op_of(client);
        let asked = match step {
            Move::Begin(_) | Move::Look(_) => Asked::Nothing,
            _ => self.asked(client)?,
        };
        let shown = shown_of(
            self.alloc,
            self.files.as_slice(),
            self.world.boundary(),
            &asked,
        )?;
        let token = self.token_of(op);
        let count = self.world.trace().len();
        let Ok(told) = self.world.take(event) else {
            return Err(AllocError);
        };
        let is_changed = self.settle_rows(count)?;
        self.spend(step);
        let mut counts = true;
        match step {
            Move::Serve(_) => self.see(client, shown, is_changed)?,
            Move::Fail(_, Failure::After) => counts = is_changed,
            Move::Fail(_, Failure::Loose) | Move::GiveUp(_) | Move::Crash(_) => self.leave(
                client, asked, token,
            )?,
            _ => {}
        }
        let is_answered = match step {
            Move::GiveUp(_) => {
                self.end(client, false)?;
                false
            }
            Move::Crash(_) => {
                self.end(client, true)?;
                false
            }
            _ => self.hear(client, &told)?,
        };
        Ok(Taken {
            counts,
            op,
            is_answered,
        })
    }

    /// Notes what a serve showed.
    fn see(&mut self, client: usize, shown: Shown, is_changed: bool) -> Result<(), AllocError> {
        if let Some(member) = self.members.get_mut(client) {
            for sign in shown.signs.as_slice() {
                member.seen.push(*sign)?;
            }
            if shown.is_change {
                push_number(&mut member.seen, u64::from(is_changed))?;
            }
        }
        Ok(())
    }

    /// Takes a move. The only error is want of memory.
    pub(crate) fn take(&mut self, step: Move) -> Result<Taken, AllocError> {
        let nothing = Taken {
            counts: false,
            op: 0,
            is_answered: false,
        };
        let Some(event) = self.event_of(step) else {
            return Ok(nothing);
        };
        if let Some(client) = step.client() {
            return self.take_own(client, step, event);
        }
        let count = self.world.trace().len();
        let Ok(_) = self.world.take(event) else {
            return Err(AllocError);
        };
        self.spend(step);
        Ok(Taken {
            counts: self.settle_rows(count)?,
            op: 0,
            is_answered: false,
        })
    }

    /// Makes the calls before all others.
    pub(crate) fn begin(&mut self) -> Result<(), AllocError> {
        for _event in 0..MOST_BEFORE {
            let Some(step) = self.first_move() else {
                return Ok(());
            };
            self.take(step)?;
        }
        Ok(())
    }

    /// The answer that the last event told.
    pub(crate) fn last_answer(&self) -> Option<&Answer<Record>> {
        match self.world.trace().last() {
            Some(RowOf::Answered(_, answer)) => Some(answer),
            _ => None,
        }
    }
}
