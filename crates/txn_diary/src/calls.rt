//! The operations of a client, which it may forget once they have ended.
ghost use Rattle.std.specs.Prelude.{◌≡◌, ◌≤◌, ◌^◌, None, Decides, vec_len};
ghost use Rattle.txn_machine.specs.Doing.{asked};
ghost use Rattle.txn_diary.specs.Forgetting.{HaveEnded};

use crate::kills::{end_all, left_by};
use crate::notes::written_at;
use std::alloc::{AllocError, Global};
use txn_client_journals::rows::Left;
use txn_client_journals::tables::operations::{self, Usage};
use txn_machine::doing::{Ending, Operation};
use txn_steps::boundary::ask::Ask;
use txn_steps::boundary::caches::Caches;
use txn_store::request::Reply;
use txn_store::types::codec::ObjectCodec;
use txn_store::types::epoch::EpochField;
use txn_store::types::layout::Layout;
use txn_store::types::room::push_within;

/// How many operations are forgotten at most. More than these no client makes.
const MOST: u64 = 1 << 62;

/// The operations of a client, numbered from 1, each with the epoch of its value, where it is a checked write. The first of them
/// may have been forgotten.
#[derive(Drop)]
pub(crate) struct Calls<T: Drop> {
    /// How many were forgotten. All of them had ended.
    pub forgotten: u64,
    /// The others.
    pub operations: Vec<Operation<T>>,
    /// Of each of these the epoch of what it writes.
    pub writes: Vec<Option<u64>>,
    ghost few: { forgotten ≤ 2 ^ 62 },
    ghost each: { vec_len writes ≡ vec_len operations },
}

/// Whether an operation has ended: it asks for nothing.
fn has_ended<T: Drop>(operation: &Operation<T>) -> bool
    ensures { Decides result (asked operation.now.doing ≡ None) }
{
    match operation.doing.ask() {
        None => true,
        Some(Ask::Look) => false,
        Some(Ask::Store(_)) => false,
    }
}

/// Whether each of these operations has ended.
fn have_ended<T: Drop>(operations: &[Operation<T>]) -> bool
    ensures { Decides result (HaveEnded operations.now) }
{
    operations.iter().all(|operation| has_ended(operation))
}

impl<T: Drop> Calls<T> {
    ghost use Rattle.std.specs.Prelude.{◌≡◌, ◌++◌, ◌∷◌, ◌<◌, ◌≤◌, ◌-◌, ◌^◌, [], None, IfOk, Some, OnOk, IsSome, length, map};
    ghost use Rattle.std.specs.Option.{option_map};
    ghost use Rattle.txn_history.specs.Lists.{numbered};
    ghost use Rattle.txn_history.specs.GoesOn.{all_left_loose};
    ghost use Rattle.txn_machine.specs.plain.Doing.{asks_as};
    ghost use Rattle.txn_machine.specs.Machine.{ended_by, seen_operations};
    ghost use Rattle.txn_client_journals.specs.tables.Operations.{asked_by, usage_of, Ends};
    ghost use Rattle.txn_client_journals.specs.Parts.{written_in};
    ghost use Rattle.txn_client_journals.specs.Journals.{as_pair};
    ghost use Rattle.txn_diary.specs.Forgetting.{AreKeptOperations, AreKeptWrites, HaveEnded, AreForgotten};
    ghost use Rattle.txn_diary.specs.Shown.{operations_of, writes_of};
    ghost use Rattle.txn_diary.specs.Room.{HasRoomForCall};

    /// No operations.
    pub fn new(alloc: Global) -> Calls<T>
        ensures operations { operations_of result ≡ [] }
        ensures writes { writes_of result ≡ [] }
    {
        Calls {
            forgotten: 0,
            operations: Vec::new(alloc),
            writes: Vec::new(alloc),
        }
    }

    /// How many there ever were.
    #[inline(always)]
    pub fn len(&self) -> u64
        ensures is { result ≡ length (operations_of self.now) }
        ensures few { result < 2 ^ 64 - 1 }
    {
        self.forgotten + self.operations.len() as u64
    }

    /// What an operation asks for: nothing where it is not there, or has ended.
    #[inline(always)]
    pub fn asks(&self, op: u64) -> Option<Ask<'_>>
        ensures { asks_as result ≡ asked_by (operations_of self.now) op }
    {
        if op <= self.forgotten {
            return None;
        }
        operations::asked(&self.operations, op - self.forgotten)
    }

    /// Whose an operation is that runs, and the view that it uses.
    #[inline(always)]
    pub fn usage_at(&self, op: u64) -> Usage
        requires { IsSome (asked_by (operations_of self.now) op) }
        ensures { option_map usage_of (numbered (operations_of self.now) op) ≡ Some result }
    {
        operations::usage_at(&self.operations, op - self.forgotten)
    }

    /// The epoch of what this operation writes, where it is a checked write and is kept.
    pub fn written(&self, op: u64) -> Option<u64>
        ensures { result ≡ written_in (numbered (writes_of self.now) op) }
    {
        if op <= self.forgotten {
            return None;
        }
        written_at(&self.writes, op - self.forgotten)
    }

    /// Makes room for one.
    ///
    /// # Errors
    ///
    /// Want of memory alone. The operations are as they were.
    #[inline(always)]
    pub fn reserve(&mut self) -> Result<(), AllocError>
        ensures operations { operations_of self.new ≡ operations_of self.old }
        ensures writes { writes_of self.new ≡ writes_of self.old }
        ensures room { OnOk result (HasRoomForCall self.new) }
    {
        self.operations.reserve(1)?;
        self.writes.reserve(1)
    }

    /// Adds one, where there is room.
    pub fn add(&mut self, operation: Operation<T>, written: Option<u64>)
        requires { HasRoomForCall self.old }
        ensures operations { operations_of self.new ≡ operations_of self.old ++ operation ∷ [] }
        ensures writes { writes_of self.new ≡ writes_of self.old ++ written ∷ [] }
    {
        push_within(&mut self.operations, operation);
        push_within(&mut self.writes, written);
    }

    /// Ends an operation that runs, without an answer.
    pub fn end(&mut self, op: u64)
        requires { IsSome (asked_by (operations_of self.old) op) }
        ensures ends { Ends (operations_of self.old) op (operations_of self.new) }
        ensures writes { writes_of self.new ≡ writes_of self.old }
    {
        operations::end(&mut self.operations, op - self.forgotten);
    }

    /// Forgets all operations, where none of them runs.
    pub fn forget(&mut self)
        ensures ended { length (operations_of self.old) ≤ 2 ^ 62 → HaveEnded (operations_of self.old) → AreForgotten (operations_of self.new) }
        ensures operations { AreKeptOperations (operations_of self.old) (operations_of self.new) }
        ensures writes { AreKeptWrites (operations_of self.old) (writes_of self.old) (writes_of self.new) }
    {
        let more = self.operations.len() as u64;
        if more > MOST - self.forgotten || !have_ended(&self.operations) {
            return;
        }
        self.operations.clear();
        self.writes.clear();
        self.forgotten += more;
    }

    /// The puts and deletes that the client's operations ask for, in the order of their numbers.
    ///
    /// # Errors
    ///
    /// Want of memory alone, which changes nothing.
    pub fn left_by(&self, alloc: Global, client: u64) -> Result<Vec<Left>, AllocError>
        ensures { IfOk result (λ lefts. map as_pair lefts.items ≡ all_left_loose client 1 (seen_operations (operations_of self.now))) }
    {
        left_by(alloc, client, self.forgotten + 1, &self.operations)
    }

    /// Ends the client's operations.
    pub fn end_all(&mut self, client: u64)
        ensures operations { operations_of self.new ≡ map (ended_by client) (operations_of self.old) }
        ensures writes { writes_of self.new ≡ writes_of self.old }
    {
        end_all(&mut self.operations, client);
    }
}

impl<T: Clone> Calls<T> {
    ghost use Rattle.std.specs.Prelude.{◌≡◌, IsSome};
    ghost use Rattle.txn_store.specs.types.Clones.{IsExactClone};
    ghost use Rattle.txn_history.specs.Names.{world_names, world_boundary};
    ghost use Rattle.txn_client_journals.specs.tables.Operations.{asked_by, TakesReply, TakesTurn};
    ghost use Rattle.txn_diary.specs.Shown.{operations_of, writes_of};

    /// Hands an operation the store's reply, or none for a look, with its client's caches. Where it is answered it has ended.
    #[inline(always)]
    pub fn turn<C: ObjectCodec<T>, E: EpochField<T>>(
        &mut self,
        alloc: Global,
        layout: &Layout<C>,
        epochs: &E,
        caches: &mut Caches,
        op: u64,
        reply: Option<Reply>,
    ) -> Option<Ending<T>>
        requires exact { IsExactClone T.is_clone }
        requires names { layout.now.names ≡ world_names }
        requires boundary { layout.now.boundary ≡ world_boundary }
        requires takes { TakesReply (operations_of self.old) op reply }
        requires runs { IsSome (asked_by (operations_of self.old) op) }
        ensures turn { TakesTurn layout.now.page (C.encoded layout.now.codec) (C.decoded layout.now.codec) (E.epoch_of epochs.now) (E.with_epoch epochs.now) (operations_of self.old) caches.old op reply (operations_of self.new) caches.new result }
        ensures writes { writes_of self.new ≡ writes_of self.old }
    {
        operations::turn(
            alloc,
            layout,
            epochs,
            &mut self.operations,
            caches,
            op - self.forgotten,
            reply,
        )
    }
}
