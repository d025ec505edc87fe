//! Operations that run alone.
ghost use Rattle.std.specs.Prelude.{◌≡◌, ℕ, ◌+◌, ◌^◌, ◌<◌, ◌≤◌, List, Option, Some, Result};
ghost use Rattle.std.specs.declared.ops.Bound.{Bound};
ghost use Rattle.txn_store.specs.types.Numbers.{number_of};
ghost use Rattle.txn_store.specs.declared.types.error.TransactionalObjectError.{TransactionalObjectError};
ghost use Rattle.txn_steps.specs.declared.delete.DeleteUncheckedOp.{DeleteUncheckedOp};
ghost use Rattle.txn_steps.specs.declared.listing.ListOp.{ListOp};
ghost use Rattle.txn_steps.specs.declared.write.WriteUncheckedOp.{WriteUncheckedOp};
ghost use Rattle.txn_steps.specs.Deletes.{removal_started};
ghost use Rattle.txn_steps.specs.Listed.{Listed};
ghost use Rattle.txn_steps.specs.Listings.{listing_started};
ghost use Rattle.txn_steps.specs.Writes.{unchecked_started};
ghost use Rattle.txn_steps_driven.specs.DriveEnds.{WriteDriven, DeleteDriven, ListDriven};
ghost use Rattle.txn_steps_driven.specs.DriveLaws.{write_unchecked_asks, delete_unchecked_asks, list_asks};
ghost use Rattle.txn_steps_driven.specs.DriveRuns.{Scene, Drives};
ghost use Rattle.txn_steps_driven.specs.DriveSteps.{WriteUncheckedSteps, DeleteUncheckedSteps, ListSteps};
ghost use Rattle.txn_steps_driven.specs.ListRuns.{CanList};
ghost use Rattle.txn_steps_driven.specs.RemovalRuns.{CanRemove};
ghost use Rattle.txn_steps_driven.specs.WriteRuns.{CanWrite};

use crate::replies::reply_to;
use std::alloc::Global;
use txn_steps::boundary::caches::Caches;
use txn_steps::boundary::turned::Turned;
use txn_steps::delete::{DeleteAnswer, DeleteUncheckedOp};
use txn_steps::listing::{ListAnswer, ListOp};
use txn_steps::write::{WriteAnswer, WriteUncheckedOp};
use txn_store::store::ObjectStore;
use txn_store::types::codec::ObjectCodec;
use txn_store::types::layout::Layout;

/// Where an operation runs: what it grows with, and the layout of its object.
#[derive(Drop)]
pub struct At<'a, C> {
    /// The memory that it grows with.
    pub alloc: Global,
    /// The layout of its object.
    pub layout: &'a Layout<C>,
}

/// An operation that can run alone, over the caches of its client and a store that it is lent.
pub trait Drive<C, S: ObjectStore> {
    ghost use Rattle.std.specs.Prelude.{◌≡◌, ℕ, None};
    ghost use Rattle.txn_store.specs.declared.types.layout.Layout.{Layout};
    ghost use Rattle.txn_steps.specs.declared.boundary.turned.Turned.{Turned};
    ghost use Rattle.txn_steps.specs.declared.boundary.turned.Turned.TheVariants.{Goes};
    ghost use Rattle.txn_steps_driven.specs.DriveRuns.{Scene, Drives};

    /// What it answers.
    type Answer;

    /// It has not ended, and a store can serve what it asks for.
    ghost asks: { Layout C → Self → Type 0 };

    /// What a step may lead to, and what it says.
    ghost leads: { Layout C → Scene Self → Turned Self.Answer → Scene Self → Type 0 };

    /// One look or one store call.
    fn step(&mut self, at: &At<C>, store: &mut S, caches: &mut Caches) -> Turned<Self::Answer>
        requires { asks at.now.layout.now self.old }
        ensures { leads at.now.layout.now (record { op = self.old; caches = caches.old; store = S.state store.old }) result (record { op = self.new; caches = caches.new; store = S.state store.new }) };

    /// Where it goes on, it asks again.
    ghost asks_again: { (layout : Layout C) (a b : Scene Self) → asks layout a.op → leads layout a Goes b → asks layout b.op };

    /// Runs it alone, one look or one store call a step, until it answers. None comes where the steps are spent first; it
    /// can then go on from where it is.
    final fn drive(
        &mut self,
        at: &At<C>,
        store: &mut S,
        caches: &mut Caches,
        steps: u64,
    ) -> Option<Self::Answer>
        requires { asks at.now.layout.now self.old }
        ensures runs { Drives (leads at.now.layout.now) steps (record { op = self.old; caches = caches.old; store = S.state store.old }) result (record { op = self.new; caches = caches.new; store = S.state store.new }) }
        ensures spent { result ≡ None → asks at.now.layout.now self.new }
    {
        'steps: for _step in 0..steps {
            match self.step(at, store, caches) {
                Turned::Goes => {}
                Turned::Done(answer) => return Some(answer),
            }
        }
        None
    }
}

/// An unchecked write asks for its create, and then looks to hold what it created.
impl<C, S: ObjectStore> Drive<C, S> for WriteUncheckedOp {
    type Answer = WriteAnswer;

    ghost asks = { λ layout op. CanWrite op };

    ghost leads = { λ layout. WriteUncheckedSteps };

    ghost asks_again = { λ layout a b can step. write_unchecked_asks a b can step };

    fn step(&mut self, at: &At<C>, store: &mut S, caches: &mut Caches) -> Turned<WriteAnswer> {
        self.take(&mut caches.latest, reply_to(at.alloc, store, self.ask()))
    }
}

/// An unchecked delete asks for its removal, and then looks to drop what was held.
impl<C, S: ObjectStore> Drive<C, S> for DeleteUncheckedOp {
    type Answer = DeleteAnswer;

    ghost asks = { λ layout op. CanRemove op.step op.request };

    ghost leads = { λ layout. DeleteUncheckedSteps };

    ghost asks_again = { λ layout a b can step. delete_unchecked_asks a b can step };

    fn step(&mut self, at: &At<C>, store: &mut S, caches: &mut Caches) -> Turned<DeleteAnswer> {
        self.take(&mut caches.latest, reply_to(at.alloc, store, self.ask()))
    }
}

/// A listing asks for page after page.
impl<C, S: ObjectStore> Drive<C, S> for ListOp {
    type Answer = ListAnswer;

    ghost asks = { λ layout op. CanList op.request × (1 ≤ layout.page) };

    ghost leads = { λ layout. ListSteps layout.names layout.page };

    ghost asks_again = { λ layout a b can step. (list_asks layout.names layout.page can.1 a b can.0 step, can.1) };

    fn step(&mut self, at: &At<C>, store: &mut S, _caches: &mut Caches) -> Turned<ListAnswer> {
        self.take(at.alloc, at.layout, reply_to(at.alloc, store, self.ask()))
    }
}

/// The law of an unchecked write that runs alone from its start: it answers and leaves what `write_version` does, and two
/// steps are enough.
pub fn write_driven<T, C: ObjectCodec<T>>(_layout: &Layout<C>)
    ensures { (base : Option ℕ) (value : T) (steps : ℕ) (a b : Scene WriteUncheckedOp) (answer : Option (Result ℕ TransactionalObjectError)) → number_of base + 1 < 2 ^ 64 → C.decoded _layout.now.codec (C.encoded _layout.now.codec value) ≡ Some value → a.op ≡ unchecked_started _layout.now.names base (C.encoded _layout.now.codec value) → Drives WriteUncheckedSteps steps a answer b → WriteDriven _layout.now.names (C.decoded _layout.now.codec) base (C.encoded _layout.now.codec value) value steps a answer b }
{}

/// The law of an unchecked delete that runs alone from its start: it answers and leaves what `delete_version` does, and
/// two steps are enough.
pub fn delete_driven<T, C: ObjectCodec<T>>(_layout: &Layout<C>)
    ensures { (id steps : ℕ) (a b : Scene DeleteUncheckedOp) (answer : Option (Result (Unit {0}) TransactionalObjectError)) → a.op ≡ removal_started _layout.now.names id → Drives DeleteUncheckedSteps steps a answer b → DeleteDriven _layout.now.names (C.decoded _layout.now.codec) id steps a answer b }
{}

/// The law of a listing that runs alone from its start: it answers and leaves what `list_versions` does, and a step a page
/// is enough, where a page has room for one file at least.
pub fn list_driven<T, C: ObjectCodec<T>>(_layout: &Layout<C>)
    requires { 1 ≤ _layout.now.page }
    ensures { (from to : Bound ℕ) (steps : ℕ) (a b : Scene ListOp) (answer : Option (Result (List Listed) TransactionalObjectError)) → a.op ≡ listing_started _layout.now.names _layout.now.page from to → Drives (ListSteps _layout.now.names _layout.now.page) steps a answer b → ListDriven _layout.now.names (C.decoded _layout.now.codec) _layout.now.page from to steps a answer b }
{}
