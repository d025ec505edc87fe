//! The unchecked calls of a client, and what they cached.
ghost use Rattle.std.specs.Prelude.{◌≡◌, ◌<◌, ◌++◌, IfErr, OnOk, OnErr, vec_len, vec_capacity};
ghost use Rattle.txn_client_seat.specs.Numbered.{waits_at};
ghost use Rattle.txn_client_seat.specs.UncheckedCalls.{joined, goes_on, Suits, IsUncheckedDue};

use crate::unchecked_op::UncheckedOp;
use crate::waiting::{drop_at, find, take_out};
use std::alloc::{AllocError, Global};
use std::marker::Model;
use txn_history::event::{EventFault, PlainAnswer};
use txn_script_lines::values::entry::{Entry, EntryCodec};
use txn_steps::boundary::ask::Ask;
use txn_steps::boundary::caches::Caches;
use txn_steps::boundary::window::Window;
use txn_steps::delete::DeleteUncheckedOp;
use txn_steps::latest::LatestOp;
use txn_store::request::Reply;
use txn_store::types::id::MonotonicId;
use txn_store::types::layout::Layout;
use txn_store::types::room::push_within;
use txn_store::version_names::VersionNames;

/// The number of the first unchecked operation. No client has so many others.
const FIRST: u64 = 1 << 63;
/// How many there are at most.
const MOST: u64 = (1 << 63) - 1;

/// The unchecked operations of a client of entries, with the versions that they cached. They stand beside the client, whose own
/// operations and caches they leave as they are: no theorem of many clients speaks of them.
///
/// Clauses see how many files a page of a listing has, how many began, those that run, and what is cached.
pub struct UncheckedCalls {
    alloc: Global,
    layout: Layout<EntryCodec>,
    begun: u64,
    running: Vec<(u64, UncheckedOp)>,
    cached: Window,
}

impl Drop for UncheckedCalls {
    /// Drops all of it: here, so that no crate above has to prove how each part is dropped.
    fn drop(self) {
        let UncheckedCalls {
            alloc: _,
            layout: _,
            begun: _,
            running: _,
            cached: _,
        } = self;
    }
}

impl Model for UncheckedCalls {
    ghost use Rattle.std.specs.Prelude.{◌≡◌, ◌≤◌, ◌^◌, ◌-◌};
    ghost use Rattle.txn_history.specs.Names.{world_names};
    ghost use Rattle.txn_client_seat.specs.UncheckedCalls.{UncheckedState, unchecked_of, AreInRange};

    ghost Value = { UncheckedState };

    ghost view = { λ u. unchecked_of u.layout.page u.begun u.running.items u.cached };

    ghost invariant = { λ u. (u.layout.names ≡ world_names) × (u.begun ≤ 2 ^ 63 - 1) × AreInRange u.running.items };
}

/// What a read begins with, beside a client that has these caches. The only error is want of memory.
fn join(cached: &mut Window, known: &Caches) -> Result<(), AllocError>
    ensures ok { OnOk result (cached.new ≡ joined known.now cached.old) }
    ensures err { OnErr result (cached.new ≡ cached.old) }
{
    let newest = match known.latest.greatest() {
        Some(version) => Some(version.try_clone()?),
        None => None,
    };
    if let Some(boundary) = &known.boundary {
        cached.forget_through(MonotonicId::new(boundary.number));
    }
    if let Some(version) = newest {
        cached.keep(version);
    }
    Ok(())
}

/// Whether the operation of this number runs, and asks for a reply of this kind, or for a look where there is none.
///
/// # Errors
///
/// [`EventFault::UnknownNumber`] where it does not run, [`EventFault::NotAsked`] where it asks for something else.
fn suits(running: &[(u64, UncheckedOp)], op: u64, reply: &Option<Reply>) -> Result<(), EventFault>
    ensures ok { OnOk result (Suits (waits_at op running.now) reply.now) }
    ensures refused { IfErr result (IsUncheckedDue (waits_at op running.now) reply.now) }
{
    match find(running, op) {
        None => Err(EventFault::UnknownNumber),
        Some(operation) => {
            if operation.suits(reply) {
                Ok(())
            } else {
                Err(EventFault::NotAsked)
            }
        }
    }
}

/// An operation runs on, where it has no answer.
fn go_on(
    running: &mut Vec<(u64, UncheckedOp)>,
    op: u64,
    operation: UncheckedOp,
    answer: &Option<PlainAnswer<Entry>>,
)
    requires { vec_len running.old < vec_capacity running.old }
    ensures { running.new.items ≡ running.old.items ++ goes_on op operation answer.now }
{
    match answer {
        None => push_within(running, (op, operation)),
        Some(_) => drop(operation),
    }
}

impl UncheckedCalls {
    ghost use Rattle.std.specs.Prelude.{◌≡◌, IfOk, IfErr, OnOk, OnErr, is_some};
    ghost use Rattle.std.specs.Option.{option_map};
    ghost use Rattle.txn_history.specs.Names.{world_names};
    ghost use Rattle.txn_steps.specs.boundary.Asking.{asks};
    ghost use Rattle.txn_client_seat.specs.Numbered.{waits_at};
    ghost use Rattle.txn_client_seat.specs.UncheckedCalls.{no_unchecked, next_unchecked, read_begun, delete_begun, asked_unchecked, given_up, TakesUnchecked, IsUncheckedDue};

    /// None began. The layout's names are those of the clients' versions. It takes no memory.
    pub fn new(alloc: Global, layout: Layout<EntryCodec>) -> UncheckedCalls
        requires { layout.names ≡ world_names }
        ensures { result ≡ no_unchecked layout.page }
    {
        UncheckedCalls {
            alloc,
            layout,
            begun: 0,
            running: Vec::new(alloc),
            cached: Window::new(),
        }
    }

    /// The names that requests have for versions. It takes no memory.
    pub fn names(&self) -> &VersionNames
        ensures { result.now ≡ world_names }
    {
        &self.layout.names
    }

    /// What an operation asks for: nothing where it does not run. It takes no memory.
    pub fn asks(&self, op: u64) -> Option<Ask<'_>>
        ensures { option_map asks result ≡ asked_unchecked self.now op }
    {
        Some(find(self.running.as_slice(), op)?.ask())
    }

    /// Whether an operation of this number runs. It takes no memory.
    pub fn runs(&self, op: u64) -> bool
        ensures { result ≡ is_some (waits_at op self.now.running) }
    {
        find(self.running.as_slice(), op).is_some()
    }

    /// Begins a read of the newest version, beside a client that has these caches: its number.
    ///
    /// # Errors
    ///
    /// Want of memory alone, which changes nothing.
    pub fn begin_read(&mut self, known: &Caches) -> Result<u64, AllocError>
        ensures number { IfOk result (λ op. op ≡ next_unchecked self.old) }
        ensures ok { OnOk result (self.new ≡ read_begun known.now self.old) }
        ensures err { OnErr result (self.new ≡ self.old) }
    {
        if self.begun == MOST {
            return Err(AllocError);
        }
        self.running.reserve(1)?;
        join(&mut self.cached, known)?;
        let op = FIRST + self.begun;
        push_within(
            &mut self.running,
            (op, UncheckedOp::Read(LatestOp::start())),
        );
        self.begun += 1;
        Ok(op)
    }

    /// Begins a delete of the version of this id: its number.
    ///
    /// # Errors
    ///
    /// Want of memory alone, which changes nothing.
    pub fn begin_delete(&mut self, id: u64) -> Result<u64, AllocError>
        ensures number { IfOk result (λ op. op ≡ next_unchecked self.old) }
        ensures ok { OnOk result (self.new ≡ delete_begun id self.old) }
        ensures err { OnErr result (self.new ≡ self.old) }
    {
        if self.begun == MOST {
            return Err(AllocError);
        }
        self.running.reserve(1)?;
        let delete = DeleteUncheckedOp::start(self.alloc, &self.layout, MonotonicId::new(id))?;
        let op = FIRST + self.begun;
        push_within(&mut self.running, (op, UncheckedOp::Delete(delete)));
        self.begun += 1;
        Ok(op)
    }

    /// An operation takes the store's reply to what it asked for, or none for a look: its answer, where it ends. A reply that
    /// says `Failed` is its refusal 2: a delete of which nobody knows whether it took effect.
    ///
    /// # Errors
    ///
    /// They leave all as it was: [`EventFault::UnknownNumber`] for an operation that does not run, [`EventFault::NotAsked`] for
    /// one that asks for something else, [`EventFault::NoMemory`] where a growth was refused.
    pub fn take(
        &mut self,
        op: u64,
        reply: Option<Reply>,
    ) -> Result<Option<PlainAnswer<Entry>>, EventFault>
        ensures ok { IfOk result (λ answer. TakesUnchecked self.old op reply answer self.new) }
        ensures refused { IfErr result (IsUncheckedDue (waits_at op self.old.running) reply) }
        ensures err { OnErr result (self.new ≡ self.old) }
    {
        suits(self.running.as_slice(), op, &reply)?;
        let Ok(()) = self.running.reserve(1) else {
            return Err(EventFault::NoMemory);
        };
        let Some(mut operation) = take_out(&mut self.running, op) else {
            unreachable!();
        };
        let answer = operation.take(self.alloc, &self.layout, &mut self.cached, reply);
        go_on(&mut self.running, op, operation, &answer);
        Ok(answer)
    }

    /// Gives an operation up: it runs no more. A delete that it asked for may still reach the store.
    pub fn give_up(&mut self, op: u64)
        ensures { self.new ≡ given_up op self.old }
    {
        drop_at(&mut self.running, op);
    }
}
