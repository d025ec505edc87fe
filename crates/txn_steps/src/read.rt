//! A read of the newest version, as a state.
ghost use Rattle.std.specs.Prelude.{◌≡◌, IfOk};
ghost use Rattle.txn_steps.specs.boundary.Steps.{turned_by_number, lacks_memory, TellsErrorOf};
ghost use Rattle.txn_steps.specs.boundary.Asking.{asks, reply_told, unless_lacking};
ghost use Rattle.txn_steps.specs.Reads.{read_started, read_asked, read_turned, read_caches_after, read_chosen, read_accepted, IsReading, IsChecking, IsReadReply, IsInRange};

use crate::boundary::ask::Ask;
use crate::boundary::boundary_read::BoundaryRead;
use crate::boundary::caches::Caches;
use crate::boundary::check::CheckOp;
use crate::boundary::turned::Turned;
use crate::latest::{LatestOp, ReadAnswer};
use std::alloc::{AllocError, Global};
use std::mem;
use txn_store::request::Reply;
use txn_store::types::codec::ObjectCodec;
use txn_store::types::id::MonotonicId;
use txn_store::types::layout::Layout;

/// A read of the newest version: an unchecked read, and the check of the id that it finds. An id that is refused starts it
/// again.
#[derive(Drop)]
pub enum ReadOp<T> {
    /// It reads. The read of the boundary for the check that follows is made beforehand, so that nothing grows once a
    /// version is found.
    Reads(LatestOp<T>, BoundaryRead),
    /// It found this version, and checks its id.
    Checks(MonotonicId, T, CheckOp),
    /// It has answered a version.
    Ended,
}

impl<T: Drop> ReadOp<T> {
    /// A read, which begins with a look.
    ///
    /// # Errors
    ///
    /// Want of memory alone, which changes nothing.
    pub fn start<C>(layout: &Layout<C>) -> Result<ReadOp<T>, AllocError>
        ensures { IfOk result (λ op. op ≡ read_started layout.now.boundary) }
    {
        let boundary = BoundaryRead::start(&layout.boundary)?;
        Ok(ReadOp::Reads(LatestOp::start(), boundary))
    }

    /// What it asks for. It takes no memory.
    pub fn ask(&self) -> Ask<'_>
        ensures { asks result ≡ read_asked self.now }
    {
        match self {
            ReadOp::Reads(latest, _) => latest.ask(),
            ReadOp::Checks(_, _, check) => check.ask(),
            ReadOp::Ended => Ask::Look,
        }
    }

    /// It is this next. It takes no memory.
    fn go_to(&mut self, next: ReadOp<T>)
        ensures { self.new ≡ next }
    {
        drop(mem::replace(self, next));
    }

    /// It found this version, and checks its id. It takes no memory.
    fn choose(&mut self, id: MonotonicId, value: T)
        requires { IsReading self.old }
        ensures { self.new ≡ read_chosen self.old id value }
    {
        let ReadOp::Reads(latest, boundary) = mem::replace(self, ReadOp::Ended) else {
            unreachable!()
        };
        // (by a call: in place, the proof would follow each state that may be dropped)
        drop(latest);
        self.go_to(ReadOp::Checks(id, value, CheckOp::of_read(id, boundary)));
    }

    /// The check accepted the version that it found, which it answers. It takes no memory.
    fn accept(&mut self) -> Turned<ReadAnswer<T>>
        requires { IsChecking self.old }
        ensures turned { (self.new, turned_by_number result) ≡ read_accepted self.old }
        ensures store_error { TellsErrorOf None result }
    {
        let ReadOp::Checks(id, value, check) = mem::replace(self, ReadOp::Ended) else {
            unreachable!()
        };
        // (by a call: in place, the proof would follow each state that may be dropped)
        drop(check);
        Turned::Done(Ok(Some((id, value))))
    }

    /// Takes the store's reply to what it asks, or none for a look. It answers `None` where the unchecked read does, and
    /// the version that it found where the check accepts it; a version that the check refuses starts the read again.
    /// Bytes that the codec refuses are `CallbackError`, a growth that is refused is `NoMemory`, and leaves what was; an
    /// error of the check or of the store ends the read.
    pub fn take<C: ObjectCodec<T>>(
        &mut self,
        alloc: Global,
        layout: &Layout<C>,
        caches: &mut Caches,
        reply: Option<Reply>,
    ) -> Turned<ReadAnswer<T>>
        requires reply { IsReadReply self.old reply }
        requires range { IsInRange self.old }
        ensures turned { (self.new, turned_by_number result) ≡ unless_lacking (lacks_memory (turned_by_number result)) self.old (read_turned layout.now.names layout.now.boundary layout.now.page (C.decoded layout.now.codec) self.old caches.old reply) }
        ensures caches { caches.new ≡ read_caches_after self.old caches.old (turned_by_number result) }
        ensures store_error { TellsErrorOf (reply_told reply) result }
    {
        match self {
            ReadOp::Reads(latest, _) => match latest.take(
                alloc,
                layout,
                &mut caches.latest,
                reply,
            ) {
                Turned::Done(Ok(Some((id, value)))) => {
                    self.choose(id, value);
                    Turned::Goes
                }
                told => told,
            },
            ReadOp::Checks(_, _, check) => match check.take(caches, reply) {
                Turned::Goes => Turned::Goes,
                Turned::Done(Ok(())) => self.accept(),
                Turned::Done(Err(error)) if error.is_sequenced_write_conflict() => {
                    self.again(layout)
                }
                Turned::Done(Err(error)) => Turned::Done(Err(error)),
            },
            ReadOp::Ended => unreachable!(),
        }
    }

    /// It starts again.
    fn again<C>(&mut self, layout: &Layout<C>) -> Turned<ReadAnswer<T>>
        ensures turned { (self.new, turned_by_number result) ≡ unless_lacking (lacks_memory (turned_by_number result)) self.old (read_started layout.now.boundary, Turned.Goes) }
        ensures store_error { TellsErrorOf None result }
    {
        match ReadOp::start(layout) {
            Ok(next) => {
                self.go_to(next);
                Turned::Goes
            }
            Err(error) => Turned::Done(Err(error.into())),
        }
    }
}
