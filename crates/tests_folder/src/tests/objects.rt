//! Objects of the library over a store in memory that several clients share.

use std::alloc::{AllocError, Global};
use std::cell::Cell;
use std::io;
use std::test::Fail;
use txn_history::event::{Answer, Call};
use txn_script_lines::record::{Record, RecordCodec, RecordEpoch};
use txn_store::in_memory::InMemory;
use txn_store::request::{Reply, Request};
use txnobj::clients::recorder::Recorder;
use txnobj::{
    CallbackFault, DirtyObject, Error, FenceableTransactionalObject, MonotonicId, NoInvariant,
    ObjectClient, Readings, SharedStore, SimpleTransactionalObject, SystemClock,
    TransactionalObject, TransactionalStorageProtocol,
};

/// Why a call failed.
#[derive(Clone, Copy, Debug, PartialEq, Eq)]
enum Fault {
    /// The store is away.
    Away,
}

/// A store in memory, which is away where there is none.
type Place = Cell<Option<InMemory>>;

/// The store that is in a place, for one of those who share it.
#[derive(Drop)]
struct Shared<'a> {
    place: &'a Place,
}

// What others leave in it meanwhile no clause says.
impl SharedStore for Shared<'_> {
    ghost serves = { λ _ _ _ _. Unit {0} };

    type Fault = Fault;

    fn serve(&mut self, alloc: Global, request: &Request) -> Result<Reply, Fault> {
        let Some(mut store) = self.place.take() else {
            return Err(Fault::Away);
        };
        let reply = store.serve(alloc, request);
        self.place.set(Some(store));
        Ok(reply)
    }
}

/// Keeps nothing.
#[derive(Drop)]
pub struct Unkept;

impl Recorder<Record> for Unkept {
    ghost hands = { λ _ _ _. Unit {0} };

    fn begun(&mut self, _op: u64, _call: &Call<Record>) -> io::Result<()> {
        Ok(())
    }

    fn asked(&mut self, _op: u64, _request: &Request) -> io::Result<()> {
        Ok(())
    }

    fn replied(&mut self, _op: u64, _reply: &Reply) -> io::Result<()> {
        Ok(())
    }

    fn failed(&mut self, _op: u64) -> io::Result<()> {
        Ok(())
    }

    fn gave_up(&mut self, _op: u64) -> io::Result<()> {
        Ok(())
    }

    fn answered(&mut self, _op: u64, _answer: &Answer<Record>) -> io::Result<()> {
        Ok(())
    }
}

/// A clock that goes on by a millisecond with each reading.
#[derive(Drop)]
struct Ticks {
    at: u64,
    given: Readings,
}

impl SystemClock for Ticks {
    ghost readings = { λ clock. clock.given };

    fn now_millis(&mut self) -> u64 {
        self.at = self.at.wrapping_add(1);
        self.given.push(self.at);
        self.at
    }
}

type One<'a> = ObjectClient<Record, RecordCodec, RecordEpoch, Shared<'a>, Unkept>;

pub type View = SimpleTransactionalObject<Record, NoInvariant>;

type Holder = FenceableTransactionalObject<Record, NoInvariant>;

type Outcome<A> = Result<A, Error<Fault>>;

/// A client of this number of the store in a place.
fn client<'a>(alloc: Global, place: &'a Place, number: u64) -> Result<One<'a>, AllocError> {
    let number = number.max(1);
    ObjectClient::new(
        alloc,
        number,
        RecordCodec,
        RecordEpoch,
        Shared { place },
        Unkept,
    )
}

/// One more than what a version says, as the next candidate.
pub fn next_of(view: &View) -> Result<Option<DirtyObject<Record, MonotonicId>>, CallbackFault> {
    let mut dirty = view.prepare_dirty()?;
    dirty.value.payload = dirty.value.payload.saturating_add(1);
    Ok(Some(dirty))
}

/// The same of a holder's version.
fn next_held(held: &Holder) -> Result<Option<DirtyObject<Record, MonotonicId>>, CallbackFault> {
    let mut dirty = held.prepare_dirty()?;
    dirty.value.payload = dirty.value.payload.saturating_add(1);
    Ok(Some(dirty))
}

/// What came of a call, in words.
fn said(alloc: Global, outcome: &Outcome<()>) -> Result<String, AllocError> {
    match outcome {
        Ok(()) => String::from_str(alloc, "ok"),
        Err(Error::ObjectStoreError(Some(Fault::Away))) => String::from_str(alloc, "away"),
        Err(error) => format!(in alloc; "{error}"),
    }
}

/// The version that a view is at.
fn at(alloc: Global, view: &View) -> Result<String, AllocError> {
    let id = view.id().id();
    let value = view.object();
    format!(in alloc; "{id} {value}")
}

/// An object that one client made, and another has in a view.
fn two_views(alloc: Global, first: &mut One<'_>, second: &mut One<'_>) -> Outcome<(View, View)> {
    let value = Record {
        epoch: 0,
        payload: 1,
    };
    let view: View = SimpleTransactionalObject::init(alloc, first, value)?;
    let other: View = SimpleTransactionalObject::load(alloc, second)?;
    Ok((view, other))
}

/// An update by one more.
fn update_once(view: &mut View, client: &mut One<'_>) -> Outcome<()> {
    let mut dirty = view.prepare_dirty()?;
    dirty.value.payload = dirty.value.payload.saturating_add(1);
    view.update(client, dirty)
}

/// A second client's update on the version that a first has overtaken, the same candidate once more after a refresh, and then
/// an update that is made again.
fn overtaken(alloc: Global, place: &Place) -> Outcome<String> {
    let mut first = client(alloc, place, 1)?;
    let mut second = client(alloc, place, 2)?;
    let (mut view, mut other) = two_views(alloc, &mut first, &mut second)?;
    update_once(&mut view, &mut first)?;
    let conflict = said(alloc, &update_once(&mut other, &mut second))?;
    let old = other.prepare_dirty()?;
    other.refresh(&mut second)?;
    let again = said(alloc, &other.update(&mut second, old))?;
    update_once(&mut view, &mut first)?;
    other.maybe_apply_update(&mut second, &next_of)?;
    let at = at(alloc, &other)?;
    Ok(format!(in alloc; "{conflict}, {again}, {at}")?)
}

/// A claim that may take so many milliseconds.
fn claimed(alloc: Global, client: &mut One<'_>, timeout: u64) -> Outcome<Holder> {
    let view: View = SimpleTransactionalObject::load(alloc, client)?;
    let mut clock = Ticks {
        at: 0,
        given: Readings::new(),
    };
    FenceableTransactionalObject::init(view, client, timeout, &mut clock)
}

/// A claim whose time is over before its first attempt.
fn late(alloc: Global, client: &mut One<'_>) -> Result<String, AllocError> {
    match claimed(alloc, client, 1) {
        Ok(_) => String::from_str(alloc, "claimed"),
        Err(error) => format!(in alloc; "{error}"),
    }
}

/// A holder who writes, is fenced by another's claim, and writes no more.
fn fenced(alloc: Global, place: &Place) -> Outcome<String> {
    let mut first = client(alloc, place, 3)?;
    let mut second = client(alloc, place, 4)?;
    let mut older = claimed(alloc, &mut first, 1_000)?;
    older.maybe_apply_update(&mut first, &next_held)?;
    let late = late(alloc, &mut second)?;
    let newer = claimed(alloc, &mut second, 1_000)?;
    let fenced = said(alloc, &older.maybe_apply_update(&mut first, &next_held))?;
    let epochs = (older.local_epoch(), newer.local_epoch());
    Ok(format!(in alloc; "{late}, epochs {} and {}, {fenced}", epochs.0, epochs.1)?)
}

/// The versions that a collection below an id leaves.
fn collected(alloc: Global, client: &mut One<'_>, id: u64) -> Outcome<String> {
    let removed = client.collect_below(MonotonicId::new(id))?;
    let ids = client.list(std::ops::Bound::Unbounded, std::ops::Bound::Unbounded)?;
    let mut text = format!(in alloc; "{removed} removed, left")?;
    for id in ids.as_slice() {
        let word = format!(in alloc; " {id}")?;
        text.push_str(word.as_str())?;
    }
    Ok(text)
}

/// Collections below a version in the middle, below one that is not there yet, and where nothing is left to collect.
fn collections(alloc: Global, place: &Place) -> Outcome<String> {
    let mut client = client(alloc, place, 5)?;
    let some = collected(alloc, &mut client, 3)?;
    let all = collected(alloc, &mut client, 1_000)?;
    let none = collected(alloc, &mut client, 1_000)?;
    Ok(format!(in alloc; "{some}; {all}; {none}")?)
}

/// A read while the store is away, and after.
fn away(alloc: Global, place: &Place) -> Outcome<String> {
    let mut client = client(alloc, place, 6)?;
    let store = place.take();
    let away = said(alloc, &client.delete(MonotonicId::new(1)))?;
    place.set(store);
    let back = said(alloc, &client.delete(MonotonicId::new(1)))?;
    Ok(format!(in alloc; "{away}, {back}")?)
}

/// What came of a scene.
fn played(alloc: Global, scene: Outcome<String>) -> Result<String, AllocError> {
    match scene {
        Ok(text) => Ok(text),
        Err(error) => format!(in alloc; "{error}"),
    }
}

/// What each scene is to say.
const OBJECTS: &str = "object version exists, object version exists, 4 0:4
object update timed out, epochs 1 and 2, detected newer client
2 removed, left 3 4 5 6 7; 4 removed, left 7; 0 removed, left 7
away, ok
";

/// All scenes, on one store.
fn all(alloc: Global) -> Result<String, AllocError> {
    let place = Cell::new(Some(InMemory::new(alloc)));
    let first = played(alloc, overtaken(alloc, &place))?;
    let second = played(alloc, fenced(alloc, &place))?;
    let third = played(alloc, collections(alloc, &place))?;
    let last = played(alloc, away(alloc, &place))?;
    format!(in alloc; "{first}\n{second}\n{third}\n{last}\n")
}

#[test]
fn objects_are_updated_claimed_and_collected(rt: HostRuntime) -> Result<(), Fail> {
    assert_eq!(rt; all(rt.alloc())?.as_str(), OBJECTS);
    Ok(())
}
