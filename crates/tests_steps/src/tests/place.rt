//! A place: a store and two clients that share it. A table of their calls, of any kind, is played over it.
ghost use Rattle.std.specs.Prelude.{◌≡◌, ◌≤◌, IfOk};

use crate::tests::told::Told::Fails;
use crate::tests::told::{Error, Told};
use bytes::Bytes;
use std::alloc::Global;
use std::mem;
use txn_script_lines::record::Record;
use txn_steps::boundary::caches::Caches;
use txn_steps::boundary::turned::Turned;
use txn_steps_driven::drive::{At, Drive};
use txn_store::failing::{FailingStore, When};
use txn_store::in_memory::InMemory;
use txn_store::path::{Path, PathFault};
use txn_store::store::{ObjectStore, PutMode};
use txn_store::types::id::MonotonicId;
use txn_store::types::layout::{Layout, PAGE};

/// A layout whose pages have so many files at most.
pub(crate) fn a_layout<C: Drop>(alloc: Global, page: u64, codec: C) -> Result<Layout<C>, PathFault>
    ensures { IfOk result (λ layout. layout.page ≡ page) }
{
    let root = Path::from_text(alloc, "root")?;
    let mut layout = Layout::new(alloc, &root, "test", "val", codec)?;
    layout.page = page;
    Ok(layout)
}

/// A store that counts its calls, of which one may fail.
type Store = FailingStore<InMemory>;

/// A client's copy of a version.
#[derive(Clone, Copy)]
pub(crate) struct View {
    pub id: MonotonicId,
    pub value: Record,
    /// The epoch that it was claimed with, or 0.
    pub held: u64,
}

#[derive(Drop)]
pub(crate) struct Client {
    pub caches: Caches,
    pub view: Option<View>,
}

/// Which client makes a call.
#[derive(Clone, Copy, PartialEq)]
pub(crate) enum Seat {
    A,
    B,
}

/// The store, the client that makes a call, and the other one.
#[derive(Drop)]
pub(crate) struct Place {
    pub store: Store,
    pub client: Client,
    pub other: Client,
    /// Which of the two makes the call.
    seat: Seat,
    /// How many calls the store had served when the call began.
    before: u64,
    /// Whether the call came to its end before the last of its steps.
    early: bool,
}

fn a_client() -> Client {
    Client {
        caches: Caches::new(),
        view: None,
    }
}

/// A place in which nothing has happened, the nth call of whose store fails. Client A begins.
fn a_place(alloc: Global, nth: u64) -> Place {
    Place {
        store: FailingStore::new(InMemory::new(alloc), nth, When::Before),
        client: a_client(),
        other: a_client(),
        seat: Seat::A,
        before: 0,
        early: false,
    }
}

/// How many calls a store has served.
fn calls_of(store: &Store) -> u64 {
    let counts = store.counts();
    counts
        .puts
        .saturating_add(counts.gets)
        .saturating_add(counts.lists)
        .saturating_add(counts.deletes)
}

impl Place {
    /// A call begins here: what the store has served so far is not counted as its own.
    pub(crate) fn begin(&mut self) {
        self.before = calls_of(&self.store);
        self.early = false;
    }

    /// The other client makes the next call.
    pub(crate) fn turn(&mut self) {
        mem::swap(&mut self.client, &mut self.other);
    }

    /// This client makes the next call.
    fn seat(&mut self, seat: Seat) {
        if seat != self.seat {
            self.seat = seat;
            self.turn();
        }
    }

    /// Puts a file, in place of any other, and says whether that is done.
    pub(crate) fn put(&mut self, path: &Path, bytes: &'static [u8]) -> bool {
        let bytes = Bytes::from_static(bytes);
        self.store.put(path, &bytes, &PutMode::Overwrite).is_ok()
    }
}

/// Drives an operation for so many steps and drops it. That is proved once here, for any of them.
pub(crate) fn driven<C, A: Drop, O: Drive<C, Store, Answer = A> + Drop>(
    at: &At<C>,
    place: &mut Place,
    op: O,
    steps: u64,
) -> Turned<A>
    requires { O.asks at.now.layout.now op }
{
    let mut op = op;
    let Place {
        store,
        client,
        early,
        ..
    } = place;
    let caches = &mut client.caches;
    match op.drive(at, store, caches, steps.saturating_sub(1)) {
        Some(answer) => {
            *early = true;
            Turned::Done(answer)
        }
        None => op.step(at, store, caches),
    }
}

/// A call of a client, or something done beside it.
pub(crate) trait Play<C> {
    ghost use Rattle.std.specs.Prelude.{◌≤◌};

    /// Plays it, driven for so many steps at most, or says why it cannot be started.
    fn play(self, at: &At<C>, place: &mut Place, steps: u64) -> Result<Told, Error>
        requires { 1 ≤ at.now.layout.now.page };
}

/// What a call says, how many calls of the store it made, and whether it was done with fewer steps than it was given.
type Played = (Told, u64, bool);

/// Makes a client's call, driven for so many steps.
fn played<C, K: Play<C>>(at: &At<C>, place: &mut Place, seat: Seat, call: K, steps: u64) -> Played
    requires { 1 ≤ at.now.layout.now.page }
{
    place.seat(seat);
    place.begin();
    let told = match call.play(at, place, steps) {
        Ok(told) => told,
        Err(error) => Fails(error.number()),
    };
    let calls = calls_of(&place.store).saturating_sub(place.before);
    (told, calls, place.early)
}

/// A client's call, what it says, and how many calls of the store and how many looks it takes.
pub(crate) type Row<K> = (Seat, K, Told, u64, u64);

/// Calls in a place of their own, by what they show.
pub(crate) type Scenario<K> = (&'static str, &'static [Row<K>]);

/// The first row that goes otherwise, counted from 0, with what it says and takes, where there is one.
fn other_in<C, K: Play<C> + Copy>(
    at: &At<C>,
    place: &mut Place,
    rows: &[Row<K>],
) -> Option<(usize, Played)>
    requires { 1 ≤ at.now.layout.now.page }
{
    for (index, (seat, call, said, calls, looks)) in rows.iter().enumerate() {
        let steps = calls.saturating_add(*looks);
        let played = played(at, place, *seat, *call, steps);
        if played != (*said, *calls, false) {
            return Some((index, played));
        }
    }
    None
}

/// The same, in a place of its own, with pages of so many files, the nth call of whose store fails.
pub(crate) fn other<C: Drop, K: Play<C> + Copy>(
    alloc: Global,
    page: u64,
    codec: C,
    nth: u64,
    rows: &[Row<K>],
) -> Result<Option<(usize, Played)>, PathFault>
    requires { 1 ≤ page }
{
    let layout = a_layout(alloc, page, codec)?;
    let at = At {
        alloc,
        layout: &layout,
    };
    Ok(other_in(&at, &mut a_place(alloc, nth), rows))
}

/// The first of these scenarios that goes otherwise, counted from 0, with the row that does, where there is one.
pub(crate) fn other_of<C: Drop + Copy, K: Play<C> + Copy>(
    alloc: Global,
    codec: C,
    scenarios: &[Scenario<K>],
) -> Result<Option<(usize, usize, Played)>, PathFault> {
    for (at, scenario) in scenarios.iter().enumerate() {
        if let Some((row, played)) = other(alloc, PAGE, codec, 0, scenario.1)? {
            return Ok(Some((at, row, played)));
        }
    }
    Ok(None)
}
