//! Reads that run alone.
ghost use Rattle.std.specs.Prelude.{◌≡◌, ℕ, ◌≤◌, Option, Result};
ghost use Rattle.txn_store.specs.declared.types.error.TransactionalObjectError.{TransactionalObjectError};
ghost use Rattle.txn_steps.specs.declared.seen.ReadSeenOp.{ReadSeenOp};
ghost use Rattle.txn_steps.specs.declared.seen.ReadSeenOp.TheVariants as seen;
ghost use Rattle.txn_steps_driven.specs.DriveEnds.{AnswersWithin};
ghost use Rattle.txn_steps_driven.specs.DriveReads.{seen_asks, latest_asks, read_asks};
ghost use Rattle.txn_steps_driven.specs.DriveRuns.{Scene, Drives};
ghost use Rattle.txn_steps_driven.specs.DriveSteps.{CanReadSeen, SeenSteps, CanReadLatest, LatestSteps, CanRead, ReadSteps};

use crate::drive::{At, Drive};
use crate::replies::reply_to;
use txn_steps::boundary::caches::Caches;
use txn_steps::boundary::turned::Turned;
use txn_steps::latest::{LatestOp, ReadAnswer};
use txn_steps::read::ReadOp;
use txn_steps::seen::{ReadSeenOp, ValueAnswer};
use txn_store::store::ObjectStore;
use txn_store::types::codec::ObjectCodec;
use txn_store::types::layout::Layout;

/// A read of one id looks at what is held, and else gets the version and looks to hold it.
impl<T: Drop, C: ObjectCodec<T>, S: ObjectStore> Drive<C, S> for ReadSeenOp<T> {
    type Answer = ValueAnswer<T>;

    ghost asks = { λ layout op. CanReadSeen op };

    ghost leads = { λ layout. SeenSteps layout.names (C.decoded layout.codec) };

    ghost asks_again = { λ layout a b can step. seen_asks layout.names (C.decoded layout.codec) a b can step };

    fn step(&mut self, at: &At<C>, store: &mut S, caches: &mut Caches) -> Turned<Self::Answer> {
        let reply = reply_to(at.alloc, store, self.ask());
        self.take(at.alloc, at.layout, &mut caches.latest, reply)
    }
}

/// An unchecked read probes from the greatest held version on, or lists and gets, a page or a version a call.
impl<T: Drop, C: ObjectCodec<T>, S: ObjectStore> Drive<C, S> for LatestOp<T> {
    type Answer = ReadAnswer<T>;

    ghost asks = { λ layout op. CanReadLatest op × (1 ≤ layout.page) };

    ghost leads = { λ layout. LatestSteps layout.names layout.page (C.decoded layout.codec) };

    ghost asks_again = { λ layout a b can step. (latest_asks layout.names layout.page can.1 (C.decoded layout.codec) a b can.0 step, can.1) };

    fn step(&mut self, at: &At<C>, store: &mut S, caches: &mut Caches) -> Turned<Self::Answer> {
        let reply = reply_to(at.alloc, store, self.ask());
        let latest = &mut caches.latest;
        self.take(at.alloc, at.layout, latest, reply)
    }
}

/// A read reads unchecked, and then checks the id that it found; where that is refused it starts again.
impl<T: Drop, C: ObjectCodec<T>, S: ObjectStore> Drive<C, S> for ReadOp<T> {
    type Answer = ReadAnswer<T>;

    ghost asks = { λ layout op. CanRead op × (1 ≤ layout.page) };

    ghost leads = { λ layout. ReadSteps layout.names layout.boundary layout.page (C.decoded layout.codec) };

    ghost asks_again = { λ layout a b can step. (read_asks layout.names layout.page can.1 (C.decoded layout.codec) layout.boundary a b can.0 step, can.1) };

    fn step(&mut self, at: &At<C>, store: &mut S, caches: &mut Caches) -> Turned<Self::Answer> {
        let reply = reply_to(at.alloc, store, self.ask());
        self.take(at.alloc, at.layout, caches, reply)
    }
}

/// The law of a read of one id that runs alone from its start: it answers within three steps.
pub fn seen_answers_soon<T: Drop, C: ObjectCodec<T>>(_layout: &Layout<C>)
    ensures { (id steps : ℕ) (a b : Scene (ReadSeenOp T)) (answer : Option (Result (Option T) TransactionalObjectError)) → a.op ≡ seen.Looks id → Drives (SeenSteps _layout.now.names (C.decoded _layout.now.codec)) steps a answer b → AnswersWithin 3 steps answer }
{}
