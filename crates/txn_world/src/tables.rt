//! All that a world keeps, and its step.
ghost use Rattle.std.specs.Prelude.{◌≡◌};

use crate::clients::{Clients, push_loose};
use crate::ends::{refuse, tell, tell_begin};
use crate::reach::{Taker, reach, reach_asked};
use crate::views::Views;
use std::alloc::{AllocError, Global};
use txn_client_journals::tables::calls::view_used;
use txn_client_journals::tables::layout::world_layout;
use txn_client_journals::tables::operations::{Usage, asked, loose_copy};
use txn_history::event::{Call, Event, EventFault, Failure, Told};
use txn_history::trace::Row;
use txn_machine::doing::{is_claim, start};
use txn_machine::traces::sets::ascending;
use txn_machine::traces::trace::Trace;
use txn_steps::boundary::ask::Ask;
use txn_store::in_memory::InMemory;
use txn_store::request::Request;
use txn_store::types::codec::ObjectCodec;
use txn_store::types::epoch::EpochField;
use txn_store::types::room::push_within;

/// All that a world keeps.
#[derive(Drop)]
pub(crate) struct Tables<T: Drop, C: ObjectCodec<T> + Drop, E: EpochField<T>> {
    alloc: Global,
    pub clients: Clients<T>,
    pub views: Views<T>,
    store: InMemory,
    /// Requests that may still reach the store, each with its operation.
    pub loose: Vec<(u64, Request)>,
    /// The operations whose store call failed.
    pub failed: Vec<u64>,
    pub trace: Trace<T, C, E>,
    ghost wide: { views.count ≡ clients.count },
}

impl<T: Clone, C: ObjectCodec<T> + Drop, E: EpochField<T>> Tables<T, C, E> {
    ghost use Rattle.std.specs.Prelude.{◌≡◌, ◌<◌, ◌≤◌, true, false, None, Some, IfOk, OnOk, OnErr, IsSome, vec_len, vec_capacity};
    ghost use Rattle.txn_history.specs.Lists.{numbered};
    ghost use Rattle.txn_history.specs.Seen.{Look, asks_of};
    ghost use Rattle.txn_history.specs.History.{boundary, AreErased};
    ghost use Rattle.txn_history.specs.Allowed.{is_client, fault_of};
    ghost use Rattle.txn_history.specs.Calls.{view_used};
    ghost use Rattle.txn_machine.specs.plain.Doing.{asks_as};
    ghost use Rattle.txn_machine.specs.plain.Machine.{fault_met};
    ghost use Rattle.txn_store.specs.types.Clones.{IsExactClone};
    ghost use Rattle.txn_machine.specs.Machine.{opening, seen_calls, seen_of, Begins, Looks, Served, FailsFirst, FailsAfter, GivesUp, Lands, Crashes, Steps, Takes};
    ghost use Rattle.txn_client_journals.specs.tables.Operations.{asked_by, request_of};
    ghost use Rattle.txn_client_journals.specs.tables.Views.{IsFromOne};
    ghost use Rattle.txn_world.specs.Answering.{IsAnswerable, ToldFailure};
    ghost use Rattle.txn_world.specs.Shown.{shown};

    /// The tables of a world in which nothing has happened.
    ///
    /// # Errors
    ///
    /// Want of memory alone. There are no tables then.
    pub fn new(
        alloc: Global,
        codec: C,
        epochs: E,
        clients: u64,
        page: u64,
    ) -> Result<Tables<T, C, E>, AllocError>
        ensures shown { IfOk result (λ tables. shown tables ≡ opening clients page) }
        ensures codec { IfOk result (λ tables. tables.trace.layout.codec ≡ codec) }
        ensures epochs { IfOk result (λ tables. tables.trace.field ≡ epochs) }
    {
        let layout = world_layout(alloc, codec, page)?;
        Ok(Tables {
            alloc,
            clients: Clients::new(alloc, clients)?,
            views: Views::new(alloc, clients)?,
            store: InMemory::new(alloc),
            loose: Vec::new(alloc),
            failed: Vec::new(alloc),
            trace: Trace::new(alloc, layout, epochs),
        })
    }

    pub fn rows(&self) -> &[Row<T>]
        ensures { result.now ≡ (shown self.now).trace }
    {
        &self.trace.rows
    }

    pub fn failed(&self) -> &[u64]
        ensures { result.now ≡ (shown self.now).failed }
    {
        &self.failed
    }

    pub fn boundary(&self) -> u64
        ensures { result ≡ boundary (shown self.now).trace }
    {
        self.trace.reached
    }

    /// The ids whose versions were removed, each once and ascending.
    ///
    /// # Errors
    ///
    /// Want of memory alone, which changes nothing.
    pub fn erased(&self, alloc: Global) -> Result<Vec<u64>, AllocError>
        ensures { IfOk result (λ ids. AreErased (shown self.now).trace ids.items) }
    {
        ascending(alloc, &self.trace.erased)
    }

    /// What an operation asks for: nothing where it is not there, or has ended.
    pub fn asks(&self, op: u64) -> Option<Ask<'_>>
        ensures { asks_as result ≡ asks_of (seen_calls (shown self.now)) op }
    {
        asked(&self.clients.operations, op)
    }

    fn begin(&mut self, client: u64, call: Call<T>) -> Result<Told<T>, AllocError>
        requires exact { IsExactClone T.is_clone }
        requires there { is_client (shown self.old).clients client ≡ true }
        requires view { IsFromOne (view_used call) }
        ensures layout { self.new.trace.layout ≡ self.old.trace.layout }
        ensures field { self.new.trace.field ≡ self.old.trace.field }
        ensures err { OnErr result (shown self.new ≡ shown self.old) }
        ensures ok { IfOk result (λ told. Begins (C.encoded self.old.trace.layout.codec) (C.decoded self.old.trace.layout.codec) (E.epoch_of self.old.trace.field) (E.with_epoch self.old.trace.field) (shown self.old) client call told (shown self.new)) }
    {
        self.trace.reserve()?;
        let of = Usage {
            client,
            view: view_used(&call),
            claims: is_claim(&call),
        };
        let (doing, refusal) = start(
            self.alloc,
            &self.trace.layout,
            &self.trace.field,
            &call,
            self.views.find(of.view),
        )?;
        let op = self.clients.operations.len() as u64 + 1;
        self.clients.add(self.alloc, of, doing)?;
        self.views.take(of.view, op);
        self.trace.begin(op, call);
        Ok(tell_begin(&mut self.trace, &mut self.views, op, of, refusal))
    }

    fn look(&mut self, op: u64) -> Result<Told<T>, AllocError>
        requires exact { IsExactClone T.is_clone }
        requires fit { IsAnswerable (shown self.old) }
        requires asks { asked_by (shown self.old).operations op ≡ Some Look }
        ensures layout { self.new.trace.layout ≡ self.old.trace.layout }
        ensures field { self.new.trace.field ≡ self.old.trace.field }
        ensures err { OnErr result (shown self.new ≡ shown self.old) }
        ensures ok { IfOk result (λ told. Looks (C.encoded self.old.trace.layout.codec) (C.decoded self.old.trace.layout.codec) (E.epoch_of self.old.trace.field) (E.with_epoch self.old.trace.field) (shown self.old) op told (shown self.new)) }
    {
        let of = self.clients.usage(op);
        self.views.reserve(of.client)?;
        self.trace.reserve()?;
        let ending = self.clients.turn(self.alloc, &self.trace.layout, &self.trace.field, op, None);
        let ending = self.trace.afford(ending);
        Ok(tell(&mut self.trace, &mut self.views, op, of, ending))
    }

    fn serve(&mut self, op: u64) -> Result<Told<T>, AllocError>
        requires exact { IsExactClone T.is_clone }
        requires fit { IsAnswerable (shown self.old) }
        requires asks { IsSome (request_of (asked_by (shown self.old).operations op)) }
        ensures layout { self.new.trace.layout ≡ self.old.trace.layout }
        ensures field { self.new.trace.field ≡ self.old.trace.field }
        ensures err { OnErr result (shown self.new ≡ shown self.old) }
        ensures ok { IfOk result (λ told. Served (C.encoded self.old.trace.layout.codec) (C.decoded self.old.trace.layout.codec) (E.epoch_of self.old.trace.field) (E.with_epoch self.old.trace.field) (shown self.old) op told (shown self.new)) }
    {
        let alloc = self.alloc;
        let of = self.clients.usage(op);
        self.views.reserve(of.client)?;
        let reply = reach_asked(
            alloc,
            &self.clients.operations,
            &mut self.store,
            &mut self.trace,
            op,
            Taker::Operation,
        )?;
        let ending = self.clients.turn(
            alloc,
            &self.trace.layout,
            &self.trace.field,
            op,
            Some(reply),
        );
        let ending = self.trace.afford(ending);
        Ok(tell(&mut self.trace, &mut self.views, op, of, ending))
    }

    /// Tells an operation that its store call failed, where there is room for it.
    fn tell_failure(&mut self, op: u64) -> Told<T>
        requires asks { IsSome (asked_by (shown self.old).operations op) }
        requires room_failed { vec_len self.old.failed < vec_capacity self.old.failed }
        requires room { vec_len self.old.trace.rows < vec_capacity self.old.trace.rows }
        ensures layout { self.new.trace.layout ≡ self.old.trace.layout }
        ensures field { self.new.trace.field ≡ self.old.trace.field }
        ensures failed { ToldFailure (shown self.old) op result (shown self.new) }
    {
        let of = self.clients.usage(op);
        push_within(&mut self.failed, op);
        self.clients.end(op);
        refuse(&mut self.trace, &mut self.views, op, of, 2)
    }

    /// Makes room for a loose request, a failed operation and an answer.
    fn make_room(&mut self) -> Result<(), AllocError>
        ensures layout { self.new.trace.layout ≡ self.old.trace.layout }
        ensures field { self.new.trace.field ≡ self.old.trace.field }
        ensures same { shown self.new ≡ shown self.old }
        ensures room_loose { OnOk result (vec_len self.new.loose < vec_capacity self.new.loose) }
        ensures room_failed { OnOk result (vec_len self.new.failed < vec_capacity self.new.failed) }
        ensures room { OnOk result (vec_len self.new.trace.rows < vec_capacity self.new.trace.rows) }
    {
        self.loose.reserve(1)?;
        self.failed.reserve(1)?;
        self.trace.reserve()
    }

    fn fail_before(&mut self, op: u64) -> Result<Told<T>, AllocError>
        requires asks { IsSome (request_of (asked_by (shown self.old).operations op)) }
        ensures layout { self.new.trace.layout ≡ self.old.trace.layout }
        ensures field { self.new.trace.field ≡ self.old.trace.field }
        ensures err { OnErr result (shown self.new ≡ shown self.old) }
        ensures ok { IfOk result (λ told. FailsFirst (shown self.old) op told false (shown self.new)) }
    {
        self.make_room()?;
        Ok(self.tell_failure(op))
    }

    fn fail_loose(&mut self, op: u64) -> Result<Told<T>, AllocError>
        requires asks { IsSome (request_of (asked_by (shown self.old).operations op)) }
        ensures layout { self.new.trace.layout ≡ self.old.trace.layout }
        ensures field { self.new.trace.field ≡ self.old.trace.field }
        ensures err { OnErr result (shown self.new ≡ shown self.old) }
        ensures ok { IfOk result (λ told. FailsFirst (shown self.old) op told true (shown self.new)) }
    {
        let copy = loose_copy(asked(&self.clients.operations, op))?;
        self.make_room()?;
        push_loose(&mut self.loose, op, copy);
        Ok(self.tell_failure(op))
    }

    fn fail_after(&mut self, op: u64) -> Result<Told<T>, AllocError>
        requires asks { IsSome (request_of (asked_by (shown self.old).operations op)) }
        ensures layout { self.new.trace.layout ≡ self.old.trace.layout }
        ensures field { self.new.trace.field ≡ self.old.trace.field }
        ensures err { OnErr result (shown self.new ≡ shown self.old) }
        ensures ok { IfOk result (λ told. FailsAfter (shown self.old) op told (shown self.new)) }
    {
        self.failed.reserve(1)?;
        let alloc = self.alloc;
        let reply = reach_asked(
            alloc,
            &self.clients.operations,
            &mut self.store,
            &mut self.trace,
            op,
            Taker::Nobody,
        )?;
        // By a call: in place, the proof would follow each reply that may be dropped here.
        drop(reply);
        Ok(self.tell_failure(op))
    }

    fn give_up(&mut self, op: u64) -> Result<Told<T>, AllocError>
        requires asks { IsSome (asked_by (shown self.old).operations op) }
        ensures layout { self.new.trace.layout ≡ self.old.trace.layout }
        ensures field { self.new.trace.field ≡ self.old.trace.field }
        ensures err { OnErr result (shown self.new ≡ shown self.old) }
        ensures ok { IfOk result (λ told. GivesUp (shown self.old) op told (shown self.new)) }
    {
        let of = self.clients.usage(op);
        let copy = loose_copy(asked(&self.clients.operations, op))?;
        self.loose.reserve(1)?;
        push_loose(&mut self.loose, op, copy);
        self.clients.end(op);
        self.views.let_go(of.view, of.claims);
        Ok(Told::GaveUp(op))
    }

    fn land(&mut self, number: u64) -> Result<Told<T>, AllocError>
        requires there { IsSome (numbered (shown self.old).loose number) }
        ensures layout { self.new.trace.layout ≡ self.old.trace.layout }
        ensures field { self.new.trace.field ≡ self.old.trace.field }
        ensures err { OnErr result (shown self.new ≡ shown self.old) }
        ensures ok { IfOk result (λ told. Lands (shown self.old) number told (shown self.new)) }
    {
        let alloc = self.alloc;
        let (op, request) = &self.loose[(number - 1) as usize];
        let (reply, changed) = reach(
            alloc,
            &mut self.store,
            &mut self.trace,
            *op,
            request,
            Taker::Nobody,
        )?;
        drop(reply);
        Ok(Told::Landed(number, changed))
    }

    fn crash(&mut self, client: u64) -> Result<Told<T>, AllocError>
        requires there { is_client (shown self.old).clients client ≡ true }
        ensures layout { self.new.trace.layout ≡ self.old.trace.layout }
        ensures field { self.new.trace.field ≡ self.old.trace.field }
        ensures err { OnErr result (shown self.new ≡ shown self.old) }
        ensures ok { IfOk result (λ told. Crashes (shown self.old) client told (shown self.new)) }
    {
        self.clients.crash(self.alloc, client, &mut self.loose)?;
        self.views.crash(client);
        Ok(Told::Crashed(client))
    }

    /// The step of an event that is not refused. The only error is want of memory, and then nothing changes.
    fn step(&mut self, event: Event<T>) -> Result<Told<T>, AllocError>
        requires exact { IsExactClone T.is_clone }
        requires fit { IsAnswerable (shown self.old) }
        requires allowed { fault_of (C.decoded self.old.trace.layout.codec) (E.epoch_of self.old.trace.field) (seen_of (shown self.old)) (shown self.old).trace event ≡ None }
        ensures layout { self.new.trace.layout ≡ self.old.trace.layout }
        ensures field { self.new.trace.field ≡ self.old.trace.field }
        ensures err { OnErr result (shown self.new ≡ shown self.old) }
        ensures ok { IfOk result (λ told. Steps (C.encoded self.old.trace.layout.codec) (C.decoded self.old.trace.layout.codec) (E.epoch_of self.old.trace.field) (E.with_epoch self.old.trace.field) (shown self.old) event told (shown self.new)) }
    {
        match event {
            Event::Begin(client, call) => self.begin(client, call),
            Event::Look(op) => self.look(op),
            Event::Serve(op) => self.serve(op),
            Event::Fail(op, Failure::Before) => self.fail_before(op),
            Event::Fail(op, Failure::After) => self.fail_after(op),
            Event::Fail(op, Failure::Loose) => self.fail_loose(op),
            Event::GiveUp(op) => self.give_up(op),
            Event::Land(number) => self.land(number),
            Event::Crash(client) => self.crash(client),
        }
    }

    /// Takes one event. What it needs to grow is made room for before its first effect.
    ///
    /// # Errors
    ///
    /// Those of [`World::take`](crate::world::World::take), by the same rules. They change nothing.
    pub fn take(&mut self, event: Event<T>) -> Result<Told<T>, EventFault>
        requires exact { IsExactClone T.is_clone }
        requires fit { IsAnswerable (shown self.old) }
        ensures fault { fault_met result ≡ fault_of (C.decoded self.old.trace.layout.codec) (E.epoch_of self.old.trace.field) (seen_of (shown self.old)) (shown self.old).trace event }
        ensures layout { self.new.trace.layout ≡ self.old.trace.layout }
        ensures field { self.new.trace.field ≡ self.old.trace.field }
        ensures err { OnErr result (shown self.new ≡ shown self.old) }
        ensures ok { IfOk result (λ told. Takes (C.encoded self.old.trace.layout.codec) (C.decoded self.old.trace.layout.codec) (E.epoch_of self.old.trace.field) (E.with_epoch self.old.trace.field) (shown self.old) event told (shown self.new)) }
    {
        if let Some(fault) = self.refusal(&event) {
            return Err(fault);
        }
        match self.step(event) {
            Ok(told) => Ok(told),
            Err(_) => Err(EventFault::NoMemory),
        }
    }
}
