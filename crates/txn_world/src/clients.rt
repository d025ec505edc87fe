//! What the clients keep: their caches, their operations, and which of those run.
ghost use Rattle.std.specs.Prelude.{◌≡◌, ◌||◌, ◌&&◌, ◌==◌, ◌++◌, ◌∷◌, [], ◌<◌, ◌≤◌, ◌+◌, ◌-◌, ℕ, not, true, false, Some, IfOk, OnOk, IsSome, is_ok, if◌then◌else◌, replicate, nat_eq, vec_len, vec_capacity};
ghost use Rattle.std.specs.List.{list_any};
ghost use Rattle.txn_history.specs.GoesOn.{as_loose};
ghost use Rattle.txn_machine.specs.plain.Machine.{no_caches};
ghost use Rattle.txn_machine.specs.declared.doing.Operation.{Operation};
ghost use Rattle.txn_history.specs.Lists.{numbered};
ghost use Rattle.txn_client_journals.specs.tables.Views.{IsFromOne};
ghost use Rattle.txn_world.specs.Owning.{owns};
ghost use Rattle.txn_world.specs.Running.{runs_for, requests_left, ended_where};

use crate::numbers::{clear, new_sets};
use std::alloc::{AllocError, Global};
use std::collections::HashSet;
use txn_client_journals::tables::operations::{self, Usage, asked, loose_copy, runs};
use txn_machine::doing::{Doing, Ending, Operation};
use txn_machine::traces::sets::ascending;
use txn_machine::work::Work;
use txn_steps::boundary::caches::Caches;
use txn_store::request::{Reply, Request};
use txn_store::types::codec::ObjectCodec;
use txn_store::types::epoch::EpochField;
use txn_store::types::layout::Layout;
use txn_store::types::room::push_within;

/// Adds a request as a loose one, where there is one, where there is room.
pub(crate) fn push_loose(loose: &mut Vec<(u64, Request)>, op: u64, copy: Option<Request>)
    requires { vec_len loose.old < vec_capacity loose.old }
    ensures { loose.new.items ≡ loose.old.items ++ as_loose op copy }
{
    if let Some(request) = copy {
        push_within(loose, (op, request));
    }
}

/// The requests that these operations leave loose, in this order. The only error is want of memory.
fn requests_left<T: Drop>(
    alloc: Global,
    operations: &[Operation<T>],
    ops: &[u64],
) -> Result<Vec<(u64, Request)>, AllocError>
    ensures { IfOk result (λ left. left.items ≡ requests_left operations.now ops.now) }
{
    let mut left = Vec::new(alloc);
    for op in ops {
        let copy = loose_copy(asked(operations, *op))?;
        left.reserve(1)?;
        push_loose(&mut left, *op, copy);
    }
    Ok(left)
}

/// Ends an operation that is there.
fn end_one<T: Drop>(operations: &mut Vec<Operation<T>>, op: u64)
    requires { IsSome (numbered operations.old.items op) }
    ensures { (n : ℕ) → numbered operations.new.items n ≡ ended_where (nat_eq n op) (numbered operations.old.items n) }
{
    operations::end(operations, op);
}

/// Ends these operations, which are there.
fn end_all<T: Drop>(operations: &mut Vec<Operation<T>>, ops: &[u64])
    requires { (n : ℕ) → list_any (nat_eq n) ops.now ≡ true → IsSome (numbered operations.old.items n) }
    ensures { (n : ℕ) → numbered operations.new.items n ≡ ended_where (list_any (nat_eq n) ops.now) (numbered operations.old.items n) }
{
    for op in ops {
        end_one(operations, *op);
    }
}

/// Enters an operation with its client's, where it runs.
fn enlist(
    running: &mut Vec<HashSet<u64>>,
    client: u64,
    op: u64,
    runs: bool,
) -> Result<(), AllocError>
    requires some { 1 ≤ client }
    requires within { client ≤ vec_len running.old }
    ensures entered { (c n : ℕ) → owns running.new.items c n ≡ (owns running.old.items c n || ((is_ok result && runs) && ((client == c) && (op == n)))) }
    ensures len { vec_len running.new ≡ vec_len running.old }
{
    if runs {
        running[(client - 1) as usize].insert(op)?;
    }
    Ok(())
}

/// Makes room for an operation, and enters it with its client's, where it runs.
fn enter<T: Drop>(
    operations: &mut Vec<Operation<T>>,
    running: &mut Vec<HashSet<u64>>,
    client: u64,
    runs: bool,
) -> Result<(), AllocError>
    requires some { 1 ≤ client }
    requires within { client ≤ vec_len running.old }
    ensures operations { operations.new.items ≡ operations.old.items }
    ensures operations_len { vec_len operations.new ≡ vec_len operations.old }
    ensures room { OnOk result (vec_len operations.new < vec_capacity operations.new) }
    ensures entered { (c n : ℕ) → owns running.new.items c n ≡ (owns running.old.items c n || ((is_ok result && runs) && ((client == c) && (vec_len operations.old + 1 == n)))) }
    ensures len { vec_len running.new ≡ vec_len running.old }
{
    operations.reserve(1)?;
    enlist(running, client, operations.len() as u64 + 1, runs)
}

/// Pushes where room was made, and else lets go.
fn push_where<T: Drop>(
    items: &mut Vec<T>,
    item: T,
    made: Result<(), AllocError>,
) -> Result<(), AllocError>
    requires { OnOk made (vec_len items.old < vec_capacity items.old) }
    ensures items { items.new.items ≡ (if is_ok made then items.old.items ++ item ∷ [] else items.old.items) }
    ensures result { result ≡ made }
{
    made?;
    push_within(items, item);
    Ok(())
}

/// Takes an operation from its client's, where it ends.
fn delist(running: &mut Vec<HashSet<u64>>, client: u64, op: u64, ends: bool)
    requires some { 1 ≤ client }
    requires within { client ≤ vec_len running.old }
    ensures left { (c n : ℕ) → owns running.new.items c n ≡ (owns running.old.items c n && not (ends && ((client == c) && (op == n)))) }
    ensures len { vec_len running.new ≡ vec_len running.old }
{
    if ends {
        running[(client - 1) as usize].remove(&op);
    }
}

/// The caches of so many clients, all empty. The only error is want of memory.
fn new_caches(alloc: Global, count: u64) -> Result<Vec<Caches>, AllocError>
    ensures { IfOk result (λ caches. caches.items ≡ replicate count no_caches) }
{
    let mut caches = Vec::new(alloc);
    for _ in 0..count {
        caches.push(Caches::new())?;
    }
    Ok(caches)
}

/// The clients, numbered from 1.
#[derive(Drop)]
pub(crate) struct Clients<T> {
    pub count: u64,
    /// What each client keeps.
    pub caches: Vec<Caches>,
    /// The operations of all clients, numbered from 1.
    pub operations: Vec<Operation<T>>,
    /// The numbers of each client's operations that have not ended.
    running: Vec<HashSet<u64>>,
    ghost wide: { vec_len caches ≡ count },
    ghost each: { vec_len running ≡ count },
    ghost all_running: { (client op : ℕ) → owns running.items client op ≡ runs_for operations.items client op },
    ghost from_one: { (op : ℕ) (o : Operation T) → numbered operations.items op ≡ Some o → IsFromOne o.view },
}

impl<T: Clone> Clients<T> {
    ghost use Rattle.std.specs.Prelude.{◌≡◌, ◌≤◌, ◌-◌, ◌++◌, ◌∷◌, [], map, replicate, slice_set, Some, IfOk, OnOk, OnErr, IsSome};
    ghost use Rattle.std.specs.Option.{option_map};
    ghost use Rattle.txn_history.specs.Lists.{numbered};
    ghost use Rattle.txn_history.specs.GoesOn.{all_left_loose};
    ghost use Rattle.txn_history.specs.Names.{world_names, world_boundary};
    ghost use Rattle.txn_store.specs.types.Clones.{IsExactClone};
    ghost use Rattle.txn_machine.specs.plain.Machine.{no_caches};
    ghost use Rattle.txn_machine.specs.Machine.{ended_by, seen_operations};
    ghost use Rattle.txn_client_journals.specs.tables.Operations.{asked_by, usage_of, TakesReply};
    ghost use Rattle.txn_client_journals.specs.tables.Views.{IsFromOne};
    ghost use Rattle.txn_world.specs.Acting.{EndsAmong, TurnsAmong};

    /// So many clients that did nothing yet.
    ///
    /// # Errors
    ///
    /// Want of memory alone. There are no clients then.
    pub fn new(alloc: Global, count: u64) -> Result<Clients<T>, AllocError>
        ensures count { IfOk result (λ clients. clients.count ≡ count) }
        ensures caches { IfOk result (λ clients. clients.caches.items ≡ replicate count no_caches) }
        ensures operations { IfOk result (λ clients. clients.operations.items ≡ []) }
    {
        Ok(Clients {
            count,
            caches: new_caches(alloc, count)?,
            operations: Vec::new(alloc),
            running: new_sets(alloc, count)?,
        })
    }

    /// Whose an operation is that has not ended, and the view that it uses.
    pub fn usage(&self, op: u64) -> Usage
        requires { IsSome (asked_by self.now.operations.items op) }
        ensures same { option_map usage_of (numbered self.now.operations.items op) ≡ Some result }
        ensures view { IsFromOne result.view }
        ensures some { 1 ≤ result.client }
        ensures within { result.client ≤ self.now.count }
    {
        operations::usage_at(&self.operations, op)
    }

    /// Adds an operation.
    ///
    /// # Errors
    ///
    /// Want of memory alone, which changes nothing.
    pub fn add(&mut self, alloc: Global, of: Usage, doing: Doing<T>) -> Result<(), AllocError>
        requires some { 1 ≤ of.client }
        requires within { of.client ≤ self.old.count }
        requires view { IsFromOne of.view }
        ensures count { self.new.count ≡ self.old.count }
        ensures caches { self.new.caches.items ≡ self.old.caches.items }
        ensures ok { OnOk result (self.new.operations.items ≡ self.old.operations.items ++ record { client = of.client; view = of.view; claims = of.claims; doing = doing } ∷ []) }
        ensures err { OnErr result (self.new.operations.items ≡ self.old.operations.items) }
    {
        let running = runs(&doing);
        let work = Work::new(alloc, doing)?;
        let made = enter(&mut self.operations, &mut self.running, of.client, running);
        let operation = Operation {
            client: of.client,
            view: of.view,
            claims: of.claims,
            doing: work,
        };
        push_where(&mut self.operations, operation, made)
    }

    /// Hands an operation the store's reply, or none for a look. Where it is answered it has ended.
    pub fn turn<C: ObjectCodec<T>, E: EpochField<T>>(
        &mut self,
        alloc: Global,
        layout: &Layout<C>,
        epochs: &E,
        op: u64,
        reply: Option<Reply>,
    ) -> Option<Ending<T>>
        requires exact { IsExactClone T.is_clone }
        requires names { layout.now.names ≡ world_names }
        requires boundary { layout.now.boundary ≡ world_boundary }
        requires takes { TakesReply self.old.operations.items op reply }
        ensures count { self.new.count ≡ self.old.count }
        ensures turned { TurnsAmong layout.now.page (C.encoded layout.now.codec) (C.decoded layout.now.codec) (E.epoch_of epochs.now) (E.with_epoch epochs.now) self.old.operations.items self.old.caches.items op reply self.new.operations.items self.new.caches.items result }
    {
        let client = self.usage(op).client;
        let caches = &mut self.caches[(client - 1) as usize];
        let ending = operations::turn(
            alloc,
            layout,
            epochs,
            &mut self.operations,
            caches,
            op,
            reply,
        );
        delist(&mut self.running, client, op, ending.is_some());
        ending
    }

    /// Ends an operation that runs.
    pub fn end(&mut self, op: u64)
        requires { IsSome (asked_by self.old.operations.items op) }
        ensures count { self.new.count ≡ self.old.count }
        ensures caches { self.new.caches.items ≡ self.old.caches.items }
        ensures ended { EndsAmong self.old.operations.items self.old.caches.items op self.new.operations.items }
    {
        let client = self.usage(op).client;
        operations::end(&mut self.operations, op);
        delist(&mut self.running, client, op, true);
    }

    /// A client gives up its operations, and loses its caches. What its operations asked for becomes loose. It takes time by
    /// how many of the client's operations run.
    ///
    /// # Errors
    ///
    /// Want of memory alone, which changes nothing.
    pub fn crash(
        &mut self,
        alloc: Global,
        client: u64,
        loose: &mut Vec<(u64, Request)>,
    ) -> Result<(), AllocError>
        requires some { 1 ≤ client }
        requires within { client ≤ self.old.count }
        ensures count { self.new.count ≡ self.old.count }
        ensures operations { OnOk result (self.new.operations.items ≡ map (ended_by client) self.old.operations.items) }
        ensures caches { OnOk result (self.new.caches.items ≡ slice_set self.old.caches.items (client - 1) no_caches) }
        ensures loose { OnOk result (loose.new.items ≡ loose.old.items ++ all_left_loose client 1 (seen_operations self.old.operations.items)) }
        ensures err_operations { OnErr result (self.new.operations.items ≡ self.old.operations.items) }
        ensures err_caches { OnErr result (self.new.caches.items ≡ self.old.caches.items) }
        ensures err_loose { OnErr result (loose.new.items ≡ loose.old.items) }
    {
        let ops = ascending(alloc, &self.running[(client - 1) as usize])?;
        let mut left = requests_left(alloc, &self.operations, &ops)?;
        loose.append(&mut left)?;
        end_all(&mut self.operations, &ops);
        clear(&mut self.running, client);
        self.caches[(client - 1) as usize] = Caches::new();
        Ok(())
    }
}
