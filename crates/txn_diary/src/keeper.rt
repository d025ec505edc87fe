//! A client that writes nothing down: what it keeps, and what each thing that it does makes of that.
ghost use Rattle.std.specs.Option.{ForSome};
ghost use Rattle.std.specs.Prelude.{◌≡◌, ℕ, Option, IfOk, IfErr, OnOk};
ghost use Rattle.txn_diary.specs.Room.{HasRoom, HasRoomForCall, HasRoomForView};
ghost use Rattle.txn_diary.specs.Shown.{shown};
ghost use Rattle.txn_client_journals.specs.Logged.{IsReceiptOf};
ghost use Rattle.txn_machine.specs.Doing.{refusal_in};
ghost use Rattle.txn_machine.specs.Machine.{answered};
ghost use Rattle.txn_machine.specs.plain.Doing.{first_of};

use crate::step::{receipt_refusal, reply_refusal};
use crate::tables::Tables;
use std::alloc::{AllocError, Global};
use std::marker::Model;
use std::sync::{Mutex, Wait};
use txn_client_journals::logged::LoggedStore;
use txn_client_journals::rows::{Act, Left, Receipt};
use txn_client_journals::tables::operations::request_of;
use txn_client_journals::tables::refusals::{ask_refusal, end_refusal};
use txn_client_journals::tables::views::{Answers, get};
use txn_history::event::{Answer, Call, EventFault, PlainAnswer};
use txn_history::view::View;
use txn_steps::boundary::ask::Ask;
use txn_steps::boundary::caches::Caches;
use txn_store::request::{Reply, Request};
use txn_store::types::codec::ObjectCodec;
use txn_store::types::epoch::EpochField;

/// One client of a store, which knows of the store nothing but the replies to its calls, and writes nothing down. Each thing
/// that it does gives what a journal's row of it says, so that its caller can keep the journal, or hand it on, or drop it.
/// Its type keeps that some journal leads to what it keeps.
///
/// Clauses see its number, its codec, where its values keep their epochs, what it keeps, and whether it was not killed.
pub struct Keeper<T: Clone, C: ObjectCodec<T> + Drop, E: EpochField<T>> {
    tables: Tables<T, C, E>,
    alive: bool,
}

impl<T: Clone, C: ObjectCodec<T> + Drop, E: EpochField<T>> Drop for Keeper<T, C, E> {
    /// Drops all that the client keeps: here, so that no crate above has to prove how each part is dropped.
    fn drop(self) {
        let Keeper {
            tables: _,
            alive: _,
        } = self;
    }
}

impl<T: Clone, C: ObjectCodec<T> + Drop, E: EpochField<T>> Model for Keeper<T, C, E> {
    ghost use Rattle.std.specs.Prelude.{◌≤◌};
    ghost use Rattle.std.specs.Coded.{codes};
    ghost use Rattle.txn_store.specs.Memory.{files_code};
    ghost use Rattle.txn_diary.specs.Keepers.{KeeperState, IsLed};
    ghost use Rattle.txn_diary.specs.Shown.{keeper_of};

    ghost Value = { KeeperState T C E };

    ghost coded = { Prim.hlevel (codes, files_code) };

    ghost view = { λ k. keeper_of k.tables k.alive };

    ghost invariant = { λ k. (1 ≤ k.tables.client) × (1 ≤ k.tables.layout.page) × IsLed C.encoded C.decoded E.epoch_of E.with_epoch (keeper_of k.tables k.alive) };
}

impl<T: Clone, C: ObjectCodec<T> + Drop, E: EpochField<T>> Keeper<T, C, E> {
    ghost use Rattle.std.specs.Prelude.{◌≡◌, ◌≤◌, ◌<◌, ◌-◌, ◌^◌, None, Some, true, false, length, IfOk, OnErr};
    ghost use Rattle.std.specs.Option.{ForSome, option_copied};
    ghost use Rattle.txn_store.specs.types.Clones.{IsExactClone};
    ghost use Rattle.txn_history.specs.Allowed.{ask_fault};
    ghost use Rattle.txn_history.specs.Seen.{Store};
    ghost use Rattle.txn_machine.specs.Machine.{seen_view, used_by};
    ghost use Rattle.txn_machine.specs.plain.Doing.{asks_as, first_of};
    ghost use Rattle.txn_machine.specs.plain.Machine.{fault_met};
    ghost use Rattle.txn_client_journals.specs.declared.rows.Act.TheVariants as acts;
    ghost use Rattle.txn_client_journals.specs.declared.rows.Step.TheVariants as steps;
    ghost use Rattle.txn_client_journals.specs.Parts.{no_part};
    ghost use Rattle.txn_diary.specs.Keepers.{keeper_asked, keeper_refusal, end_fault, fault_if, IsReceiptFault, IsReplyFault, IsTurn, IsLed, Does, Forgets};
    ghost use Rattle.txn_diary.specs.Forgetting.{KeepsBases, HaveEnded, AreForgotten};

    /// A client of this number, at least 1, that has done nothing. A listing has pages of at most `page` files, at least 1.
    ///
    /// # Errors
    ///
    /// Want of memory alone, which changes nothing.
    pub fn new(
        alloc: Global,
        client: u64,
        codec: C,
        epochs: E,
        page: u64,
    ) -> Result<Keeper<T, C, E>, AllocError>
        requires some { 1 ≤ client }
        requires paged { 1 ≤ page }
        ensures { IfOk result (λ keeper. keeper ≡ record { client = client; page = page; codec = codec; epochs = epochs; part = no_part; alive = true }) }
    {
        Ok(Keeper {
            tables: Tables::new(alloc, client, codec, epochs, page)?,
            alive: true,
        })
    }

    /// The client's number.
    pub fn client(&self) -> u64
        ensures is { result ≡ self.now.client }
        // Some journal leads to what it keeps.
        ensures led { IsLed C.encoded C.decoded E.epoch_of E.with_epoch self.now }
    {
        self.tables.client
    }

    /// How many operations began: the number of the last.
    pub fn begun(&self) -> u64
        ensures is { result ≡ length self.now.part.operations }
        ensures few { result < 2 ^ 64 - 1 }
    {
        self.tables.calls.len()
    }

    /// What an operation asks for: nothing where it is not there, or has ended, and where the client was killed. It takes no
    /// memory.
    #[inline(always)]
    pub fn asks(&self, op: u64) -> Option<Ask<'_>>
        ensures { asks_as result ≡ keeper_asked self.now op }
    {
        if !self.alive {
            return None;
        }
        self.tables.asks(op)
    }

    /// The view of this number as it stands: none where it is not there, or has ended. It takes no memory.
    pub fn view(&self, number: u64) -> Option<&View<T>>
        ensures { option_copied result ≡ seen_view (used_by self.now.part.views (Some number)) }
    {
        get(&self.tables.views, number)
    }

    /// What it has cached of the store. It takes no memory.
    pub fn caches(&self) -> &Caches
        ensures { result.now ≡ self.now.part.caches }
    {
        &self.tables.caches
    }

    /// Why a begin of this call is refused, if it is, want of memory aside. It takes no memory.
    pub fn begin_refusal(&self, call: &Call<T>) -> Option<EventFault>
        ensures { result ≡ keeper_refusal (E.epoch_of self.now.epochs) self.now call.now }
    {
        if !self.alive {
            return Some(EventFault::UnknownNumber);
        }
        self.tables.begin_refusal(call)
    }

    /// Why an operation is refused this reply, if it is, want of memory aside. It takes no memory.
    pub fn reply_refusal(&self, op: u64, reply: &Reply) -> Option<EventFault>
        ensures { IsReplyFault (keeper_asked self.now op) reply.now result }
    {
        reply_refusal(self.asks(op), reply)
    }

    /// Why a kill is refused, if it is, want of memory aside: the client was killed before.
    pub(crate) fn kill_refusal(&self) -> Option<EventFault>
        ensures { result ≡ fault_if self.now.alive None }
    {
        if self.alive {
            None
        } else {
            Some(EventFault::UnknownNumber)
        }
    }

    /// Lets a view go: it is not there any more, and its value is freed. It is no step, and no journal tells it. Nothing happens
    /// where there is no such view. It takes no memory.
    pub fn end_view(&mut self, number: u64)
        ensures forgets { Forgets self.old self.new }
        ensures ended { used_by self.new.part.views (Some number) ≡ None }
    {
        self.tables.end_view(number);
    }

    /// Forgets what it no longer needs: its operations, where none of them runs, and of the ids that its checked calls answered
    /// all but the bases of its views, the greatest, and those of the last answers, so many as are asked for. It is no step, and
    /// no journal tells it. It only refuses more begins then: those on a base that it forgot. Where memory is wanting it keeps
    /// what it has. The time that it takes is spread over the answers since it forgot before.
    pub fn forget(&mut self, last: usize)
        ensures forgets { Forgets self.old self.new }
        // (more than 2^62 operations no client makes)
        ensures ended { length self.old.part.operations ≤ 2 ^ 62 → HaveEnded self.old.part.operations → AreForgotten self.new.part.operations }
        ensures views { self.new.part.views ≡ self.old.part.views }
        ensures bases { KeepsBases self.old.part self.new.part }
    {
        self.tables.forget(last);
    }

    /// Begins a call as the operation of the next number: its answer, where it is refused at once, for a journal and for the
    /// caller. The base of an update is the version at which its view stands.
    ///
    /// # Errors
    ///
    /// They are tested in this order, and leave the client as it was: [`EventFault::UnknownNumber`] for a client that was killed,
    /// and for a view that is not there, has ended or is of the other kind; [`EventFault::ViewBusy`] for one on which an operation
    /// runs; [`EventFault::UnknownBase`] for a base that no checked call of this client answered;
    /// [`EventFault::BoundaryTooHigh`] for a boundary that is neither 0 nor below such an id; [`EventFault::EpochLowered`] for
    /// a value whose epoch is below that of its base; [`EventFault::NoMemory`] where a growth was refused.
    #[inline(never)]
    pub fn begin(&mut self, call: &Call<T>) -> Result<Option<Answers<T>>, EventFault>
        requires { IsExactClone T.is_clone }
        ensures refused { fault_met result ≡ keeper_refusal (E.epoch_of self.old.epochs) self.old call.now }
        ensures err { OnErr result (self.new ≡ self.old) }
        ensures ok { IfOk result (λ answers. Does C.encoded C.decoded E.epoch_of E.with_epoch self.old (steps.Begin call.now) (first_of answers) self.new) }
        ensures twice { IfOk result (λ answers. ForSome answers (λ pair. pair.1 ≡ pair.0)) }
    {
        if let Some(fault) = self.begin_refusal(call) {
            return Err(fault);
        }
        make_room(&mut self.tables)?;
        let Ok(refusal) = self.tables.begin(call) else {
            return Err(EventFault::NoMemory);
        };
        Ok(refusals(refusal))
    }

    /// An operation looks at the client's caches, as it asks to: its answer, if it ends with one, for a journal and for the
    /// caller.
    ///
    /// # Errors
    ///
    /// They leave the client as it was: [`EventFault::UnknownNumber`] for an operation that is not there or has ended,
    /// [`EventFault::NotAsked`] for one that asks for a store call, [`EventFault::NoMemory`] where a growth was refused.
    #[inline(always)]
    pub fn look(&mut self, op: u64) -> Result<Option<Answers<T>>, EventFault>
        requires { IsExactClone T.is_clone }
        ensures refused { fault_met result ≡ ask_fault false (keeper_asked self.old op) }
        ensures err { OnErr result (self.new ≡ self.old) }
        ensures ok { IfOk result (λ answers. Does C.encoded C.decoded E.epoch_of E.with_epoch self.old (steps.Act op acts.Look) (first_of answers) self.new) }
        ensures twice { IfOk result (λ answers. ForSome answers (λ pair. pair.1 ≡ pair.0)) }
    {
        if let Some(fault) = ask_refusal(false, self.asks(op)) {
            return Err(fault);
        }
        make_room(&mut self.tables)?;
        Ok(self.tables.turn(op, None))
    }

    /// An operation takes the store's reply to what it asked for, wherever the receipt comes from: its answer, if it ends with
    /// one, for a journal and for the caller.
    ///
    /// # Errors
    ///
    /// They leave the client as it was: [`EventFault::UnknownNumber`] for an operation that is not there or has ended,
    /// [`EventFault::NotAsked`] for one that asks for a look, for a receipt of another request, and for a reply of another kind,
    /// [`EventFault::NoMemory`] where a growth was refused. Where that happens after the store served the call, its effect
    /// stands, and [`Keeper::failed`] ends the operation.
    pub fn receive(&mut self, op: u64, receipt: &Receipt) -> Result<Option<Answers<T>>, EventFault>
        requires { IsExactClone T.is_clone }
        ensures refused { IsReceiptFault (keeper_asked self.old op) receipt.now (fault_met result) }
        ensures err { OnErr result (self.new ≡ self.old) }
        ensures ok { IfOk result (λ answers. Does C.encoded C.decoded E.epoch_of E.with_epoch self.old (steps.Act op (acts.Receive receipt.now)) (first_of answers) self.new) }
        ensures twice { IfOk result (λ answers. ForSome answers (λ pair. pair.1 ≡ pair.0)) }
    {
        if let Some(fault) = receipt_refusal(self.asks(op), receipt) {
            return Err(fault);
        }
        let Ok(reply) = receipt.reply.try_clone() else {
            return Err(EventFault::NoMemory);
        };
        self.reply(op, reply)
    }

    /// The same by the store's reply alone, which is taken to be that to what the operation asks for. Nothing is copied.
    ///
    /// # Errors
    ///
    /// They leave the client as it was: [`EventFault::UnknownNumber`] for an operation that is not there or has ended,
    /// [`EventFault::NotAsked`] for one that asks for a look, and for a reply of another kind, [`EventFault::NoMemory`] where a
    /// growth was refused.
    #[inline(always)]
    pub fn reply(&mut self, op: u64, reply: Reply) -> Result<Option<Answers<T>>, EventFault>
        requires { IsExactClone T.is_clone }
        ensures refused { IsReplyFault (keeper_asked self.old op) reply (fault_met result) }
        ensures err { OnErr result (self.new ≡ self.old) }
        // (whatever place the reply has in a log)
        ensures ok { (request : Request) (place : ℕ) → keeper_asked self.old op ≡ Some (Store request) → IfOk result (λ answers. Does C.encoded C.decoded E.epoch_of E.with_epoch self.old (steps.Act op (acts.Receive (record { place = place; request = request; reply = reply }))) (first_of answers) self.new) }
        ensures twice { IfOk result (λ answers. ForSome answers (λ pair. pair.1 ≡ pair.0)) }
    {
        if let Some(fault) = reply_refusal(self.asks(op), &reply) {
            drop(reply);
            return Err(fault);
        }
        make_room(&mut self.tables)?;
        Ok(self.tables.turn(op, Some(reply)))
    }

    /// The store call of an operation failed, and nobody knows whether it took effect: the operation is answered with the
    /// refusal 2, told for a journal and for the caller. With it comes what the operation asked for, which may still reach the
    /// store, if it is a put or a delete.
    ///
    /// # Errors
    ///
    /// They leave the client as it was: [`EventFault::UnknownNumber`] for an operation that is not there or has ended,
    /// [`EventFault::NotAsked`] for one that asks for a look, [`EventFault::NoMemory`] where a growth was refused.
    pub fn failed(&mut self, op: u64) -> Result<(Request, Option<Answers<T>>), EventFault>
        ensures refused { fault_met result ≡ ask_fault true (keeper_asked self.old op) }
        ensures err { OnErr result (self.new ≡ self.old) }
        ensures ok { IfOk result (λ did. Does C.encoded C.decoded E.epoch_of E.with_epoch self.old (steps.Act op (acts.Fails did.0)) (first_of did.1) self.new) }
        ensures twice { IfOk result (λ did. ForSome did.1 (λ pair. pair.1 ≡ pair.0)) }
    {
        if let Some(fault) = ask_refusal(true, self.asks(op)) {
            return Err(fault);
        }
        let Some(request) = request_of(self.asks(op)) else {
            unreachable!();
        };
        let Ok(request) = request.try_clone() else {
            return Err(EventFault::NoMemory);
        };
        make_room(&mut self.tables)?;
        let answers = self.tables.refuse(op, 2);
        Ok((request, answers))
    }

    /// An operation is given up, and ends without an answer: the put or the delete that it asks for, which may still reach the
    /// store.
    ///
    /// # Errors
    ///
    /// They leave the client as it was: [`EventFault::UnknownNumber`] for an operation that is not there or has ended,
    /// [`EventFault::NoMemory`] where a growth was refused.
    pub fn give_up(&mut self, op: u64) -> Result<Option<Request>, EventFault>
        ensures refused { fault_met result ≡ end_fault (keeper_asked self.old op) }
        ensures err { OnErr result (self.new ≡ self.old) }
        ensures ok { IfOk result (λ left. Does C.encoded C.decoded E.epoch_of E.with_epoch self.old (steps.Act op (acts.GiveUp left)) None self.new) }
    {
        if let Some(fault) = end_refusal(self.asks(op)) {
            return Err(fault);
        }
        let Ok(left) = self.tables.give_up(op) else {
            return Err(EventFault::NoMemory);
        };
        Ok(left)
    }

    /// The client was killed: its operations, its views and its caches are gone, and it does nothing more. The puts and deletes
    /// that its operations asked for may still reach the store. It takes time by how many operations and views there ever were.
    ///
    /// # Errors
    ///
    /// They leave the client as it was: [`EventFault::UnknownNumber`] where it was killed before, [`EventFault::NoMemory`] where a
    /// growth was refused.
    pub fn killed(&mut self) -> Result<Vec<Left>, EventFault>
        ensures refused { fault_met result ≡ fault_if self.old.alive None }
        ensures err { OnErr result (self.new ≡ self.old) }
        ensures ok { IfOk result (λ lefts. Does C.encoded C.decoded E.epoch_of E.with_epoch self.old (steps.Killed lefts) None self.new) }
    {
        if let Some(fault) = self.kill_refusal() {
            return Err(fault);
        }
        let Ok(lefts) = self.tables.kill() else {
            return Err(EventFault::NoMemory);
        };
        self.alive = false;
        Ok(lefts)
    }

    /// An operation that asks for a store call has it served under one lock, and takes the reply. Where the call was refused
    /// for memory, nothing reached the store, and the operation is answered with the refusal 9.
    fn serve<R: Wait>(
        &mut self,
        rt: &R,
        store: &Mutex<LoggedStore>,
        op: u64,
    ) -> Result<(Act, Option<Answers<T>>), EventFault>
        requires exact { IsExactClone T.is_clone }
        requires asks { ask_fault true (keeper_asked self.old op) ≡ None }
        ensures refused { fault_met result ≡ None }
        ensures err { OnErr result (self.new ≡ self.old) }
        ensures ok { IfOk result (λ did. IsTurn did.0 × Does C.encoded C.decoded E.epoch_of E.with_epoch self.old (steps.Act op did.0) (first_of did.1) self.new) }
        ensures twice { IfOk result (λ did. ForSome did.1 (λ pair. pair.1 ≡ pair.0)) }
    {
        make_room(&mut self.tables)?;
        let Some(request) = request_of(self.asks(op)) else {
            unreachable!();
        };
        match serve_under(rt, self.tables.alloc, store, self.tables.client, request) {
            Ok((taken, reply)) => {
                let answers = self.tables.turn(op, Some(reply));
                Ok((Act::Receive(taken), answers))
            }
            Err(_) => {
                let answers = self.tables.refuse(op, 9);
                Ok((Act::Lacks, answers))
            }
        }
    }

    /// An operation does what it asks for: it looks at the client's caches, which takes no lock, or has one call served by the
    /// store under its lock. What it did, and its answer, if it ends with one, for a journal and for the caller. Room for what
    /// the client keeps is made before the store is called; a call that finds no memory does not reach the store, and the
    /// operation is answered with the refusal 9.
    ///
    /// # Errors
    ///
    /// They leave the client as it was, and nothing has reached the store: [`EventFault::UnknownNumber`] for an operation that is
    /// not there or has ended, [`EventFault::NoMemory`] where a growth was refused.
    pub fn step<R: Wait>(
        &mut self,
        rt: &R,
        store: &Mutex<LoggedStore>,
        op: u64,
    ) -> Result<(Act, Option<Answers<T>>), EventFault>
        requires { IsExactClone T.is_clone }
        ensures refused { fault_met result ≡ end_fault (keeper_asked self.old op) }
        ensures err { OnErr result (self.new ≡ self.old) }
        ensures ok { IfOk result (λ did. IsTurn did.0 × Does C.encoded C.decoded E.epoch_of E.with_epoch self.old (steps.Act op did.0) (first_of did.1) self.new) }
        ensures twice { IfOk result (λ did. ForSome did.1 (λ pair. pair.1 ≡ pair.0)) }
    {
        match self.asks(op) {
            None => Err(EventFault::UnknownNumber),
            Some(Ask::Look) => Ok((Act::Look, self.look(op)?)),
            Some(Ask::Store(_)) => self.serve(rt, store, op),
        }
    }
}

/// Makes room for what a step adds to what the client keeps.
#[inline(always)]
fn make_room<T: Clone, C: ObjectCodec<T> + Drop, E: EpochField<T>>(
    tables: &mut Tables<T, C, E>,
) -> Result<(), EventFault>
    ensures shown { shown tables.new ≡ shown tables.old }
    ensures client { tables.new.client ≡ tables.old.client }
    ensures layout { tables.new.layout ≡ tables.old.layout }
    ensures epochs { tables.new.epochs ≡ tables.old.epochs }
    ensures err { IfErr result (λ fault. fault ≡ EventFault.NoMemory) }
    ensures room_call { OnOk result (HasRoomForCall tables.new.calls) }
    ensures room_views { OnOk result (HasRoomForView tables.new.views) }
    ensures room_notes { OnOk result (HasRoom tables.new.notes) }
{
    match tables.reserve() {
        Ok(()) => Ok(()),
        Err(_) => Err(EventFault::NoMemory),
    }
}

/// The refusal of this number twice, where there is one.
#[inline(always)]
fn refusals<T>(refusal: Option<u8>) -> Option<Answers<T>>
    ensures answer { (count : ℕ) (view : Option ℕ) → first_of result ≡ answered count view (refusal_in refusal) }
    ensures twice { ForSome result (λ pair. pair.1 ≡ pair.0) }
{
    let number = refusal?;
    Some((
        Answer::Plain(PlainAnswer::Refused(number)),
        Answer::Plain(PlainAnswer::Refused(number)),
    ))
}

/// Serves one request of a client under one lock, and logs it: the receipt, and the reply once more.
fn serve_under<R: Wait>(
    rt: &R,
    alloc: Global,
    store: &Mutex<LoggedStore>,
    client: u64,
    request: &Request,
) -> Result<(Receipt, Reply), AllocError>
    ensures receipt { IfOk result (λ pair. IsReceiptOf request.now pair.0) }
    ensures again { IfOk result (λ pair. pair.1 ≡ pair.0.reply) }
{
    store.lock(rt).serve_noted(alloc, client, request)
}
