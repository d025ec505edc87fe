//! Clients over one store, one event at a time.
ghost use Rattle.std.specs.Prelude.{◌≡◌, ◌≤◌, map, length, IfOk, OnErr, Some};
ghost use Rattle.std.specs.Option.{option_copied, ForSome};
ghost use Rattle.txn_history.specs.History.{history, stored, boundary, AreErased, HasContents};
ghost use Rattle.txn_history.specs.Seen.{asks_of, view_of};
ghost use Rattle.txn_history.specs.Added.{AddsRows};
ghost use Rattle.txn_history.specs.OneHistory.{IsOneHistory};
ghost use Rattle.txn_history.specs.Views.{ViewsFit};
ghost use Rattle.txn_history.specs.Laws.{HasOneClaimer};
ghost use Rattle.txn_history.specs.Allowed.{is_busy, fault_of};
ghost use Rattle.txn_history.specs.GoesOn.{GoesOn};
ghost use Rattle.txn_machine.specs.plain.Doing.{asks_as};
ghost use Rattle.txn_store.specs.types.Clones.{IsExactClone};
ghost use Rattle.txn_machine.specs.plain.Machine.{fault_met};
ghost use Rattle.txn_machine.specs.Machine.{opening, seen_calls, seen_views, seen_of, next_event, Takes, RunsPast};
ghost use Rattle.txn_world.specs.Runs.{EndsRun};

use crate::tables::Tables;
use std::alloc::{AllocError, Global};
use std::marker::Model;
use txn_history::event::{Event, EventFault, Told};
use txn_history::trace::Row;
use txn_history::view::View;
use txn_machine::traces::entries::entries_of;
use txn_steps::boundary::ask::Ask;
use txn_store::types::codec::ObjectCodec;
use txn_store::types::epoch::EpochField;

/// Clients over one store. Contracts see its codec, where its values keep their epochs, and the state that
/// its events lead to.
pub struct World<T: Clone, C: ObjectCodec<T> + Drop, E: EpochField<T>> {
    tables: Tables<T, C, E>,
}

impl<T: Clone, C: ObjectCodec<T> + Drop, E: EpochField<T>> Drop for World<T, C, E> {
    /// Drops all that the world keeps: here, so that no crate above has to prove how each part is dropped.
    fn drop(self) {
        let World { tables: _ } = self;
    }
}

impl<T: Clone, C: ObjectCodec<T> + Drop, E: EpochField<T>> Model for World<T, C, E> {
    ghost use Rattle.txn_machine.specs.Machine.{WorldState};

    ghost Value = { WorldState T C E };

    ghost use Rattle.std.specs.Coded.{codes};
    ghost use Rattle.txn_store.specs.Memory.{files_code};

    ghost coded = { Prim.hlevel (codes, files_code) };

    ghost use Rattle.txn_world.specs.Runs.{EndsRun};
    ghost use Rattle.txn_world.specs.Shown.{shown, shown_world};

    ghost view = { λ world. shown_world world.tables };

    ghost invariant = { λ world. EndsRun (C.encoded world.tables.trace.layout.codec) (C.decoded world.tables.trace.layout.codec) (E.epoch_of world.tables.trace.field) (E.with_epoch world.tables.trace.field) (shown world.tables) };
}

impl<T: Clone, C: ObjectCodec<T> + Drop, E: EpochField<T>> World<T, C, E> {
    /// A world in which nothing has happened, with clients 1 to `clients`, of which there are 1 to 64. A listing has pages of
    /// at most `page` files, at least 1.
    ///
    /// # Errors
    ///
    /// Want of memory alone. There is no world then.
    pub fn new(
        alloc: Global,
        codec: C,
        epochs: E,
        clients: u64,
        page: u64,
    ) -> Result<World<T, C, E>, AllocError>
        requires some { 1 ≤ clients }
        requires few { clients ≤ 64 }
        requires paged { 1 ≤ page }
        ensures { IfOk result (λ world. world ≡ record { codec = codec; epochs = epochs; state = opening clients page }) }
    {
        Ok(World {
            tables: Tables::new(alloc, codec, epochs, clients, page)?,
        })
    }

    /// Takes one event, and tells what it led to. The base of an update is the version at which its view stands.
    ///
    /// # Errors
    ///
    /// An event is refused exactly where the rows and what stands beside them say so, and then changes nothing:
    ///
    /// - [`EventFault::UnknownNumber`] for what is not there or has ended, and for a view that is not there, is another
    ///   client's or is of the other kind.
    /// - [`EventFault::NotAsked`] for a look in place of a store call or a store call in place of a look.
    /// - Of a begin also [`EventFault::ViewBusy`], [`EventFault::UnknownBase`], [`EventFault::BoundaryTooHigh`] and
    ///   [`EventFault::EpochLowered`], in this order.
    /// - [`EventFault::NoMemory`] only where a growth was refused.
    pub fn take(&mut self, event: Event<T>) -> Result<Told<T>, EventFault>
        requires { IsExactClone T.is_clone }
        ensures refused { fault_met result ≡ fault_of (C.decoded self.old.codec) (E.epoch_of self.old.epochs) (seen_of self.old.state) self.old.state.trace event }
        ensures codec { self.new.codec ≡ self.old.codec }
        ensures epochs { self.new.epochs ≡ self.old.epochs }
        ensures err { OnErr result (self.new ≡ self.old) }
        // The step, as a function of the state, but for want of memory.
        ensures ok { IfOk result (λ told. Takes (C.encoded self.old.codec) (C.decoded self.old.codec) (E.epoch_of self.old.epochs) (E.with_epoch self.old.epochs) self.old.state event told self.new.state) }
        ensures rows { IfOk result (λ told. AddsRows (seen_calls self.old.state) self.old.state.trace self.old.state.store.files event told self.new.state.trace self.new.state.store.files) }
        // Which operations run, what is loose, whose store call failed, and which views are made, move and end.
        ensures goes_on { IfOk result (λ told. GoesOn (seen_of self.old.state) event told self.new.state.trace (seen_of self.new.state)) }
    {
        self.tables.take(event)
    }

    /// Why an event would be refused, want of memory aside, and none where it would not. It takes no memory.
    pub fn refusal(&self, event: &Event<T>) -> Option<EventFault>
        ensures { result ≡ fault_of (C.decoded self.now.codec) (E.epoch_of self.now.epochs) (seen_of self.now.state) self.now.state.trace event.now }
    {
        self.tables.refusal(event)
    }

    /// Takes these events in order, past those that are refused, and says how many were taken. An event
    /// that is refused for want of memory is passed over too.
    pub fn run(&mut self, events: Vec<Event<T>>) -> u64
        requires { IsExactClone T.is_clone }
        ensures codec { self.new.codec ≡ self.old.codec }
        ensures epochs { self.new.epochs ≡ self.old.epochs }
        ensures run { RunsPast (C.encoded self.old.codec) (C.decoded self.old.codec) (E.epoch_of self.old.epochs) (E.with_epoch self.old.epochs) self.old.state events.items result self.new.state }
    {
        let mut count = 0;
        for event in events {
            if self.take(event).is_ok() {
                count += 1;
            }
        }
        count
    }

    /// What happened, row by row. It takes no memory.
    pub fn trace(&self) -> &[Row<T>]
        ensures rows { result.now ≡ self.now.state.trace }
        // Events led here, one after another, from a world in which nothing had happened.
        ensures run { EndsRun (C.encoded self.now.codec) (C.decoded self.now.codec) (E.epoch_of self.now.epochs) (E.with_epoch self.now.epochs) self.now.state }
        // Whatever events came, the versions are one history, and each answer fits it.
        ensures one_history { IsOneHistory (C.decoded self.now.codec) (E.epoch_of self.now.epochs) (E.with_epoch self.now.epochs) self.now.state.failed result.now }
        // No epoch is held by two claims.
        ensures one_claimer { HasOneClaimer result.now }
        // The store has the contents of the empty store after the requests of the effects.
        ensures stored { HasContents self.now.state.store.files (stored result.now) }
    {
        self.tables.rows()
    }

    /// The operations whose store call failed, in the order of the failures. It takes no memory.
    pub fn failed(&self) -> &[u64]
        ensures { result.now ≡ self.now.state.failed }
    {
        self.tables.failed()
    }

    /// What an operation asks for: a store call, or a look at its client's caches, and nothing where it is not there or has
    /// ended. It takes no memory.
    pub fn asks(&self, op: u64) -> Option<Ask<'_>>
        ensures { asks_as result ≡ asks_of (seen_calls self.now.state) op }
    {
        self.tables.asks(op)
    }

    /// The event that gives an operation what it asks for: a look where it asks for a look, and else a serve. Where it asks
    /// for nothing, as one that has ended, the serve is refused. It takes no memory.
    pub fn next_event(&self, op: u64) -> Event<T>
        ensures { result ≡ next_event self.now.state op }
    {
        match self.asks(op) {
            Some(Ask::Look) => Event::Look(op),
            Some(Ask::Store(_)) => Event::Serve(op),
            None => Event::Serve(op),
        }
    }

    /// How many views were made. They are numbered from 1, in the order of the answers that made them. It takes no memory.
    pub fn views(&self) -> u64
        ensures count { result ≡ length self.now.state.views }
        // Each view that stands is a copy of the entry at its id, stands where it was last shown, or above as a fenced holder, and
        // a holder's epoch is that of its claim.
        ensures views_fit { ViewsFit (C.decoded self.now.codec) (E.epoch_of self.now.epochs) self.now.state.trace (seen_views self.now.state.views) }
    {
        self.tables.views.len()
    }

    /// A view as it stands: its client, the id and the value of its version, and the epoch of a holder. There is none where no
    /// view of this number was made, or where it has ended: by its client's crash, or by a claim on it that was not held. It
    /// takes no memory.
    pub fn view(&self, number: u64) -> Option<&View<T>>
        ensures view { option_copied result ≡ view_of (seen_of self.now.state) number }
        // Its client is one of the clients.
        ensures client { ForSome (option_copied result) (λ view. (1 ≤ view.client) × (view.client ≤ self.now.state.clients)) }
    {
        self.tables.view(number)
    }

    /// Whether an operation runs on the view of this number. None does where no view of this number was made, or where it has
    /// ended. It looks at that view alone, and takes no memory.
    pub fn is_busy(&self, view: u64) -> bool
        ensures { result ≡ is_busy (seen_of self.now.state) self.now.state.trace (Some view) }
    {
        self.tables.is_busy(Some(view))
    }

    /// How many clients there are, numbered from 1. It takes no memory.
    pub fn clients(&self) -> u64
        ensures { result ≡ self.now.state.clients }
    {
        self.tables.clients.count
    }

    /// The history: the values of the versions, in the order of their first creation. It goes over the rows once.
    ///
    /// # Errors
    ///
    /// Want of memory alone. The world is as it was.
    pub fn entries(&self, alloc: Global) -> Result<Vec<T>, AllocError>
        ensures { IfOk result (λ entries. map Some entries.items ≡ history (C.decoded self.now.codec) self.now.state.trace) }
    {
        let tables = &self.tables;
        entries_of(
            alloc,
            &tables.trace.layout,
            &tables.trace.field,
            tables.failed(),
            tables.rows(),
        )
    }

    /// The boundary: the number that its file says, 0 where it is missing. It takes no memory.
    pub fn boundary(&self) -> u64
        ensures { result ≡ boundary self.now.state.trace }
    {
        self.tables.boundary()
    }

    /// The ids whose versions were removed, each once and ascending.
    ///
    /// # Errors
    ///
    /// Want of memory alone. The world is as it was.
    pub fn erased(&self, alloc: Global) -> Result<Vec<u64>, AllocError>
        ensures { IfOk result (λ ids. AreErased self.now.state.trace ids.items) }
    {
        self.tables.erased(alloc)
    }
}
