//! The attempts of a claim.
ghost use Rattle.std.specs.Prelude.{◌≡◌, true, Some, None, Option, IfOk};
ghost use Rattle.txn_store.specs.declared.store.StoreError.{StoreError};
ghost use Rattle.txn_store.specs.types.Clones.{IsExactClone};
ghost use Rattle.txn_steps.specs.boundary.Steps.{by_number, turned_by_number, lacks_memory, HasErrorOf, TellsErrorOf};
ghost use Rattle.txn_steps.specs.boundary.Asking.{asks, reply_told, unless_lacking};
ghost use Rattle.txn_steps_views.specs.Lacking.{lacks, or_lacking};
ghost use Rattle.txn_steps_views.specs.Readings.{GoesAs};
ghost use Rattle.txn_steps_views.specs.Attempts.{entered, attempted, attempted_again, followed, held_at, refreshing, attempt_told, refresh_told, claiming_asked, claiming_turned, claiming_caches_after, IsMade, IsAttempting, IsRefreshing, IsClaimingReply, IsClaimingInRange};
ghost use Rattle.txn_steps_views.specs.Shortages.{IsShort, LacksAsWrite};

use crate::copies::Copies;
use crate::outcome::{Outcome, ViewAnswer};
use std::alloc::Global;
use std::mem;
use txn_steps::boundary::ask::Ask;
use txn_steps::boundary::caches::Caches;
use txn_steps::boundary::turned::Turned;
use txn_steps::latest::ReadAnswer;
use txn_steps::read::ReadOp;
use txn_steps::write::{WriteAnswer, WriteOp};
use txn_store::request::Reply;
use txn_store::types::codec::ObjectCodec;
use txn_store::types::epoch::{EpochField, next_epoch};
use txn_store::types::id::MonotonicId;
use txn_store::types::layout::Layout;
use txn_store::types::step_error::{ErrorKind, StepError};

/// Where a claim is.
#[derive(Drop)]
pub enum Claiming<T> {
    /// Its attempt writes this value, which has this epoch.
    Writes(WriteOp, Copies<T>, u64),
    /// Its attempt was overtaken, and it reads the newest version for the next one.
    Reads(ReadOp<T>),
    /// It was answered.
    Ended,
}

/// What a claim does next, or the refusal that it answers.
pub(crate) type Attempt<T> = Result<Claiming<T>, StepError>;

/// Writes the value, with this epoch set, directly on the version of this id.
fn enter<T: Clone, C: ObjectCodec<T>, X: EpochField<T>>(
    alloc: Global,
    layout: &Layout<C>,
    epochs: &X,
    epoch: u64,
    id: MonotonicId,
    mut value: T,
) -> Attempt<T>
    requires { IsExactClone T.is_clone }
    ensures entered { by_number result ≡ or_lacking (lacks (by_number result)) (entered layout.now.names layout.now.boundary (C.encoded layout.now.codec) (X.with_epoch epochs.now) epoch id value) }
    ensures made { IfOk result (IsMade (C.encoded layout.now.codec) (C.decoded layout.now.codec) (X.epoch_of epochs.now)) }
    ensures store_error { HasErrorOf None result }
{
    epochs.set_epoch(&mut value, epoch);
    let write = WriteOp::start(alloc, layout, Some(id), &value)?;
    match Copies::of(value) {
        Ok(copies) => Ok(Claiming::Writes(write, copies, epoch)),
        // (by a call: in place, the proof would follow each state that may be dropped)
        Err(error) => {
            drop(write);
            Err(error.into())
        }
    }
}

/// An attempt of a claim on this version: it writes its value with the epoch that the claim sets there.
fn attempt<T: Clone, C: ObjectCodec<T>, X: EpochField<T>>(
    alloc: Global,
    layout: &Layout<C>,
    epochs: &X,
    asked: Option<u64>,
    id: MonotonicId,
    value: T,
) -> Attempt<T>
    requires { IsExactClone T.is_clone }
    ensures attempted { by_number result ≡ or_lacking (lacks (by_number result)) (attempted layout.now.names layout.now.boundary (C.encoded layout.now.codec) (X.epoch_of epochs.now) (X.with_epoch epochs.now) asked id value) }
    ensures made { IfOk result (IsMade (C.encoded layout.now.codec) (C.decoded layout.now.codec) (X.epoch_of epochs.now)) }
    ensures store_error { HasErrorOf None result }
{
    let epoch = next_epoch(asked, epochs.get_epoch(&value))?;
    enter(alloc, layout, epochs, epoch, id, value)
}

/// The first attempt, on the view's version.
pub(crate) fn begin<T: Clone, C: ObjectCodec<T>, X: EpochField<T>>(
    alloc: Global,
    layout: &Layout<C>,
    epochs: &X,
    asked: Option<u64>,
    id: MonotonicId,
    object: &T,
) -> Attempt<T>
    requires { IsExactClone T.is_clone }
    ensures attempted { by_number result ≡ or_lacking (lacks (by_number result)) (attempted layout.now.names layout.now.boundary (C.encoded layout.now.codec) (X.epoch_of epochs.now) (X.with_epoch epochs.now) asked id object.now) }
    ensures made { IfOk result (IsMade (C.encoded layout.now.codec) (C.decoded layout.now.codec) (X.epoch_of epochs.now)) }
{
    let epoch = next_epoch(asked, epochs.get_epoch(object))?;
    enter(alloc, layout, epochs, epoch, id, object.clone()?)
}

/// The next attempt, on the version that was found, which has to be there.
fn attempt_again<T: Clone, C: ObjectCodec<T>, X: EpochField<T>>(
    alloc: Global,
    layout: &Layout<C>,
    epochs: &X,
    asked: Option<u64>,
    found: Option<(MonotonicId, T)>,
) -> Attempt<T>
    requires { IsExactClone T.is_clone }
    ensures attempted { by_number result ≡ or_lacking (lacks (by_number result)) (attempted_again layout.now.names layout.now.boundary (C.encoded layout.now.codec) (X.epoch_of epochs.now) (X.with_epoch epochs.now) asked found) }
    ensures made { IfOk result (IsMade (C.encoded layout.now.codec) (C.decoded layout.now.codec) (X.epoch_of epochs.now)) }
    ensures store_error { HasErrorOf None result }
{
    match found {
        Some((id, value)) => attempt(alloc, layout, epochs, asked, id, value),
        None => Err(ErrorKind::InvalidObjectState.into()),
    }
}

/// It reads the newest version.
fn refresh<T: Drop, C>(layout: &Layout<C>) -> Attempt<T>
    ensures refreshing { by_number result ≡ or_lacking (lacks (by_number result)) (refreshing layout.now.boundary) }
    ensures store_error { HasErrorOf None result }
{
    Ok(Claiming::Reads(ReadOp::start(layout)?))
}

impl<T: Drop> Claiming<T> {
    /// What it asks for. It takes no memory.
    pub fn ask(&self) -> Ask<'_>
        ensures { asks result ≡ claiming_asked self.now }
    {
        match self {
            Claiming::Writes(write, _, _) => write.ask(),
            Claiming::Reads(read) => read.ask(),
            Claiming::Ended => Ask::Look,
        }
    }

    /// It is this next. It takes no memory.
    fn go_to(&mut self, next: Claiming<T>)
        ensures { self.new ≡ next }
    {
        drop(mem::replace(self, next));
    }

    /// Its attempt was written as the version of this id, and it ends. It takes no memory.
    fn hold(&mut self, id: MonotonicId) -> Outcome<T>
        requires { IsAttempting self.old }
        ensures next { self.new ≡ Claiming.Ended }
        ensures held { Some result ≡ held_at id self.old }
    {
        match mem::replace(self, Claiming::Ended) {
            Claiming::Writes(_, copies, epoch) => Outcome::Held(id, copies, epoch),
            _ => unreachable!(),
        }
    }

    /// It goes on so, or is answered the refusal. It takes no memory.
    fn follow(&mut self, next: Attempt<T>) -> Turned<ViewAnswer<T>>
        ensures followed { (self.new, turned_by_number result) ≡ followed (by_number next) }
        ensures store_error { (told : Option StoreError) → HasErrorOf told next → TellsErrorOf told result }
    {
        match next {
            Ok(next) => {
                self.go_to(next);
                Turned::Goes
            }
            Err(error) => {
                self.go_to(Claiming::Ended);
                Turned::Done(Err(error))
            }
        }
    }
}

impl<T: Drop> Claiming<T> {
    /// Its attempt's write says this: a conflict leads to a read of the newest version.
    fn after_write<C>(
        &mut self,
        layout: &Layout<C>,
        told: Turned<WriteAnswer>,
    ) -> Turned<ViewAnswer<T>>
        requires { IsAttempting self.old }
        ensures turned { (self.new, turned_by_number result) ≡ unless_lacking (lacks_memory (turned_by_number result)) Claiming.Ended (attempt_told layout.now.boundary self.old (turned_by_number told)) }
        ensures short { lacks_memory (turned_by_number result) ≡ true → IsShort (turned_by_number told) }
        ensures store_error { (error : Option StoreError) → TellsErrorOf error told → TellsErrorOf error result }
    {
        match told {
            Turned::Goes => Turned::Goes,
            Turned::Done(Ok(id)) => Turned::Done(Ok(self.hold(id))),
            Turned::Done(Err(error)) if error.is_sequenced_write_conflict() => {
                self.follow(refresh(layout))
            }
            Turned::Done(Err(error)) => {
                self.go_to(Claiming::Ended);
                Turned::Done(Err(error))
            }
        }
    }
}

impl<T: Clone> Claiming<T> {
    /// Its read says this: what it finds leads to the next attempt.
    fn after_read<C: ObjectCodec<T>, X: EpochField<T>>(
        &mut self,
        alloc: Global,
        layout: &Layout<C>,
        epochs: &X,
        asked: Option<u64>,
        told: Turned<ReadAnswer<T>>,
    ) -> Turned<ViewAnswer<T>>
        requires exact { IsExactClone T.is_clone }
        requires reading { IsRefreshing self.old }
        ensures turned { (self.new, turned_by_number result) ≡ unless_lacking (lacks_memory (turned_by_number result)) Claiming.Ended (refresh_told layout.now.names layout.now.boundary (C.encoded layout.now.codec) (X.epoch_of epochs.now) (X.with_epoch epochs.now) asked self.old (turned_by_number told)) }
        ensures goes { GoesAs (turned_by_number told) (turned_by_number result) }
        ensures made { IsMade (C.encoded layout.now.codec) (C.decoded layout.now.codec) (X.epoch_of epochs.now) self.new }
        ensures store_error { (error : Option StoreError) → TellsErrorOf error told → TellsErrorOf error result }
    {
        match told {
            Turned::Goes => Turned::Goes,
            Turned::Done(Ok(found)) => {
                self.follow(attempt_again(alloc, layout, epochs, asked, found))
            }
            Turned::Done(Err(error)) => {
                self.go_to(Claiming::Ended);
                Turned::Done(Err(error))
            }
        }
    }

    /// Takes the store's reply to what it asks, or none for a look, in a claim that asks for this epoch, or for the next one.
    /// Where an attempt is written, the view is at that, as the holder of its epoch. Each further attempt is on the version
    /// that the read before it finds; where the epoch that is asked for is not above that of this version, it is `Fenced`,
    /// where there is no next epoch or id, `IdExhausted`, and where there is no version, `InvalidObjectState`. Any other error
    /// of the write and of the read is answered, and a growth that is refused is `NoMemory`. An answer ends it. It asks that a
    /// clone is the same value.
    pub fn take<C: ObjectCodec<T>, X: EpochField<T>>(
        &mut self,
        alloc: Global,
        layout: &Layout<C>,
        epochs: &X,
        asked: Option<u64>,
        caches: &mut Caches,
        reply: Option<Reply>,
    ) -> Turned<ViewAnswer<T>>
        requires exact { IsExactClone T.is_clone }
        requires reply { IsClaimingReply self.old reply }
        requires range { IsClaimingInRange self.old }
        ensures turned { (self.new, turned_by_number result) ≡ unless_lacking (lacks_memory (turned_by_number result)) Claiming.Ended (claiming_turned layout.now.names layout.now.boundary layout.now.page (C.encoded layout.now.codec) (C.decoded layout.now.codec) (X.epoch_of epochs.now) (X.with_epoch epochs.now) asked self.old caches.old reply) }
        ensures made { IsRefreshing self.old → IsMade (C.encoded layout.now.codec) (C.decoded layout.now.codec) (X.epoch_of epochs.now) self.new }
        // Memory is lacked in an attempt only once its write is overtaken, or where that lacks it.
        ensures short { LacksAsWrite self.old caches.old reply (lacks_memory (turned_by_number result)) }
        ensures caches { caches.new ≡ claiming_caches_after self.old caches.old (turned_by_number result) }
        ensures store_error { TellsErrorOf (reply_told reply) result }
    {
        match self {
            Claiming::Writes(write, _, _) => {
                let told = write.take(caches, reply);
                self.after_write(layout, told)
            }
            Claiming::Reads(read) => {
                let told = read.take(alloc, layout, caches, reply);
                self.after_read(alloc, layout, epochs, asked, told)
            }
            Claiming::Ended => unreachable!(),
        }
    }
}
