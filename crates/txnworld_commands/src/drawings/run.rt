//! What happened in a world, event by event, as a drawing needs it.

ghost use Rattle.txn_drawing_moments.specs.Numbers.{IsNumbered};

use crate::drawings::seen::SeenWorld;
use crate::drawings::worded::{EventWords, Worded};
use std::alloc::{AllocError, Global};
use std::collections::{BTreeMap, BTreeSet};
use txn_drawing_moments::moment::{Kind, Moment, Said, Touch, When};
use txn_drawing_moments::moments::Moments;
use txn_drawing_moments::touches::asked::{Asked, asked_by};
use txn_drawing_moments::touches::files::Files;
use txn_history::event::{Answer, EventOf, Failure, PlainAnswer, Told};
use txn_history::trace::{Row, RowOf};
use txn_script::kind::Came;
use txn_script_lines::printed::Answered;
use txn_script_lines::text_form::LineValue;
use txn_steps::boundary::ask::Ask;

/// A request in flight.
#[derive(Drop)]
struct Loose {
    op: u64,
    client: u64,
    asked: Asked,
}

/// What is known of an event before it is taken.
#[derive(Drop)]
pub(crate) struct Before {
    kind: Kind,
    client: u64,
    op: u64,
    words: String,
    asked: Asked,
    fails: Option<Failure>,
    left: Vec<Loose>,
}

/// What happened in a world, event by event.
#[derive(Drop)]
pub struct Run {
    alloc: Global,
    clients: u64,
    moments: Moments,
    /// Of each operation, whose it is.
    owners: Vec<u64>,
    /// Of each client, which of its operations still run.
    running: BTreeMap<u64, BTreeSet<u64>>,
    loose: Vec<Loose>,
    files: Files,
}

/// The answer as it is drawn.
fn said_of<T: LineValue>(alloc: Global, answer: &Answer<T>) -> Result<Said, AllocError> {
    let answered = Answered(answer);
    let words = format!(in alloc; "{answered}")?;
    Ok(Said {
        words,
        is_refusal: matches!(answer, Answer::Plain(PlainAnswer::Refused(_))),
        held: match answer {
            Answer::Held(_, _, _, epoch) => Some(*epoch),
            _ => None,
        },
    })
}

impl Run {
    /// A world of so many clients, in which nothing has happened.
    ///
    /// # Errors
    ///
    /// Want of memory alone.
    pub fn new(alloc: Global, clients: u64) -> Result<Run, AllocError> {
        Ok(Run {
            alloc,
            clients,
            moments: Moments::new(alloc),
            owners: Vec::new(alloc),
            running: BTreeMap::new(alloc),
            loose: Vec::new(alloc),
            files: Files::new(alloc),
        })
    }

    /// How many clients there are, numbered from 1.
    pub fn clients(&self) -> u64 {
        self.clients
    }

    /// What happened, in order.
    pub fn moments(&self) -> &[Moment]
        ensures { IsNumbered result.now }
    {
        self.moments.as_slice()
    }

    /// Whose an operation is, 0 where it is not there.
    fn client_of(&self, op: u64) -> u64 {
        match self.owners.get(op.saturating_sub(1) as usize) {
            Some(client) if op != 0 => *client,
            _ => 0,
        }
    }

    /// What an operation asks for.
    fn asked<T, C, K: SeenWorld<T, C>>(world: &K, op: u64) -> Result<Asked, AllocError> {
        match world.asks(op) {
            Some(Ask::Store(request)) => asked_by(request),
            Some(Ask::Look) => Ok(Asked::Nothing),
            None => Ok(Asked::Nothing),
        }
    }

    /// Notes what an operation asks for as left in flight, where it may still reach the store.
    fn leave<T, C, K: SeenWorld<T, C>>(
        &self,
        world: &K,
        op: u64,
        left: &mut Vec<Loose>,
    ) -> Result<(), AllocError> {
        let asked = Run::asked::<T, C, K>(world, op)?;
        if asked.is_loose() {
            let client = self.client_of(op);
            left.push(Loose { op, client, asked })?;
        } else {
            drop(asked);
        }
        Ok(())
    }

    /// What an event leaves in flight, if it is taken.
    fn left_by<T, C, K: SeenWorld<T, C>>(
        &self,
        world: &K,
        event: &EventOf<C>,
    ) -> Result<Vec<Loose>, AllocError> {
        let mut left = Vec::new(self.alloc);
        match event {
            EventOf::Fail(op, Failure::Loose) | EventOf::GiveUp(op) => {
                self.leave::<T, C, K>(world, *op, &mut left)?;
            }
            EventOf::Crash(client) => {
                if let Some(running) = self.running.get(client) {
                    for op in running {
                        self.leave::<T, C, K>(world, *op, &mut left)?;
                    }
                }
            }
            _ => {}
        }
        Ok(left)
    }

    /// Whose an event is, and of which operation.
    fn owner_of<C>(&self, event: &EventOf<C>) -> (u64, u64) {
        match event {
            EventOf::Begin(client, _) => (*client, 0),
            EventOf::Look(op) | EventOf::Serve(op) | EventOf::Fail(op, _) | EventOf::GiveUp(op) => {
                (self.client_of(*op), *op)
            }
            EventOf::Land(k) => match self.loose.get(k.saturating_sub(1) as usize) {
                Some(loose) if *k != 0 => (loose.client, loose.op),
                _ => (0, 0),
            },
            EventOf::Crash(client) => (*client, 0),
        }
    }

    /// What the event does to the object, if it is taken.
    fn asked_in<T, C, K: SeenWorld<T, C>>(
        &self,
        world: &K,
        event: &EventOf<C>,
    ) -> Result<Asked, AllocError> {
        match event {
            EventOf::Serve(op) | EventOf::Fail(op, _) => Run::asked::<T, C, K>(world, *op),
            EventOf::Land(k) => match self.loose.get(k.saturating_sub(1) as usize) {
                Some(loose) => loose.asked.try_clone(),
                None => Ok(Asked::Nothing),
            },
            _ => Ok(Asked::Nothing),
        }
    }

    /// What is known of an event before it is taken. The only error is want of memory.
    pub(crate) fn before<T, C: Worded, K: SeenWorld<T, C>>(
        &self,
        world: &K,
        event: &EventOf<C>,
    ) -> Result<Before, AllocError> {
        let words = EventWords(event);
        let (client, op) = self.owner_of(event);
        Ok(Before {
            kind: kind_of(event),
            client,
            op,
            words: format!(in self.alloc; "{words}")?,
            asked: self.asked_in::<T, C, K>(world, event)?,
            fails: match event {
                EventOf::Fail(_, failure) => Some(*failure),
                _ => None,
            },
            left: self.left_by::<T, C, K>(world, event)?,
        })
    }

    /// Notes whose an operation is.
    fn own(&mut self, op: u64, client: u64) -> Result<(), AllocError> {
        let place = op.saturating_sub(1) as usize;
        if place < self.owners.len() {
            self.owners[place] = client;
        } else {
            self.owners.push(client)?;
        }
        Ok(())
    }

    /// Notes that an operation runs from here on.
    fn starts(&mut self, op: u64, client: u64) -> Result<(), AllocError> {
        self.own(op, client)?;
        if let Some(running) = self.running.get_mut(&client) {
            running.insert(op)?;
            return Ok(());
        }
        let mut running = BTreeSet::new(self.alloc);
        running.insert(op)?;
        self.running.insert(client, running)?;
        Ok(())
    }

    /// Notes that an operation has ended.
    fn ends(&mut self, op: u64, client: u64) -> Result<(), AllocError> {
        if let Some(running) = self.running.get_mut(&client) {
            running.remove(&op);
        }
        self.own(op, client)
    }

    /// Notes what an event told of its operation: its number, and its answer.
    fn heard<T: LineValue>(
        &mut self,
        before: &Before,
        told: &Told<T>,
    ) -> Result<(u64, Option<Said>), AllocError> {
        match told {
            Told::Began(op) => {
                self.starts(*op, before.client)?;
                Ok((*op, None))
            }
            Told::Answered(op, answer) => {
                self.ends(*op, before.client)?;
                Ok((*op, Some(said_of(self.alloc, answer)?)))
            }
            Told::GaveUp(op) => {
                self.ends(*op, before.client)?;
                Ok((*op, None))
            }
            Told::Crashed(client) => {
                drop(self.running.remove(client));
                Ok((0, None))
            }
            Told::Went(op) => Ok((*op, None)),
            Told::Landed(_, _) => Ok((before.op, None)),
        }
    }

    /// Notes the requests that are in flight from here on: their numbers.
    fn let_loose(&mut self, left: Vec<Loose>) -> Result<Vec<u64>, AllocError> {
        let mut numbers = Vec::new(self.alloc);
        for loose in left {
            self.loose.push(loose)?;
            numbers.push(self.loose.len() as u64)?;
        }
        Ok(numbers)
    }

    /// Notes an event that was taken.
    fn take<T: LineValue>(
        &mut self,
        before: Before,
        told: &Told<T>,
        is_changed: bool,
    ) -> Result<(), AllocError> {
        let (op, answer) = self.heard(&before, told)?;
        let Before {
            kind,
            client,
            op: _,
            words,
            asked,
            fails,
            left,
        } = before;
        let left = self.let_loose(left)?;
        let touch = if fails.is_some() && !is_changed {
            drop(asked);
            Touch::None
        } else {
            self.files.take(asked, is_changed)?
        };
        let number = self.moments.next();
        self.moments.push(Moment {
            number,
            when: When::Number,
            kind,
            client,
            op,
            words,
            answer,
            left,
            touch,
            ring: None,
        })
    }

    /// Notes an event that was refused, with the name of its fault.
    fn refuse(&mut self, before: Before, fault: &str) -> Result<(), AllocError> {
        let words = before.words.as_str();
        let words = format!(in self.alloc; "{words} {fault}")?;
        let number = self.moments.next();
        self.moments.push(Moment {
            number,
            when: When::Number,
            kind: Kind::Refused,
            client: before.client,
            op: before.op,
            words,
            answer: None,
            left: Vec::new(self.alloc),
            touch: Touch::None,
            ring: None,
        })?;
        drop(before);
        Ok(())
    }

    /// Notes what came of an event, and the rows that it added. The only error is want of memory.
    pub(crate) fn after<T: LineValue>(
        &mut self,
        before: Before,
        came: &Came<T>,
        rows: &[Row<T>],
    ) -> Result<(), AllocError> {
        match came {
            Came::Told(told) => {
                let is_changed = rows.iter().any(|row| matches!(row, RowOf::Effect(..)));
                self.take(before, told, is_changed)
            }
            Came::Refused(line) => self.refuse(before, line.name),
        }
    }
}

/// What kind of event this is, if it is taken.
fn kind_of<C>(event: &EventOf<C>) -> Kind {
    match event {
        EventOf::Begin(..) => Kind::Begins,
        EventOf::Look(_) => Kind::Looks,
        EventOf::Serve(_) => Kind::Serves,
        EventOf::Fail(..) => Kind::Fails,
        EventOf::GiveUp(_) => Kind::GivesUp,
        EventOf::Land(k) => Kind::Lands(*k),
        EventOf::Crash(_) => Kind::Crashes,
    }
}
