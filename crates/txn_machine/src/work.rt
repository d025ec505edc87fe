//! What an operation does next, behind a pointer while it runs.
ghost use Rattle.std.specs.Prelude.{◌≡◌, IfOk};

use crate::doing::{Doing, Ending, plain_ending, view_ending};
use crate::plain::doing::PlainDoing;
use std::alloc::{AllocError, Global};
use std::marker::Model;
use std::mem;
use txn_steps::boundary::ask::Ask;
use txn_steps::boundary::caches::Caches;
use txn_store::request::Reply;
use txn_store::types::codec::ObjectCodec;
use txn_store::types::epoch::EpochField;
use txn_store::types::layout::Layout;

/// What is kept of what an operation does next.
#[derive(Drop)]
enum Kept<T> {
    Runs(Box<Doing<T>>),
    Ended,
}

/// What an operation does next: some 400 bytes behind a pointer while it runs, and none once it has ended, since a world
/// keeps each operation that it had. A clause sees what the operation does.
#[derive(Drop)]
pub struct Work<T> {
    kept: Kept<T>,
}

impl<T> Model for Work<T> {
    ghost use Rattle.txn_machine.specs.declared.doing.Doing.{Doing};

    ghost Value = { Doing T };

    ghost use Rattle.txn_machine.specs.Work.{doing_kept};

    ghost view = { λ w. doing_kept w.kept };
}

impl<T: Drop> Work<T> {
    ghost use Rattle.std.specs.Prelude.{◌≡◌, IfOk, if◌then◌else◌};
    ghost use Rattle.txn_machine.specs.plain.Doing.{asks_as};
    ghost use Rattle.txn_machine.specs.Doing.{asked, ended};

    /// An operation that does this next. One that has ended needs no memory.
    ///
    /// # Errors
    ///
    /// Want of memory alone, which changes nothing.
    pub fn new(alloc: Global, doing: Doing<T>) -> Result<Work<T>, AllocError>
        ensures { IfOk result (λ work. work ≡ doing) }
    {
        let kept = if doing.has_ended() {
            Kept::Ended
        } else {
            Kept::Runs(Box::new(alloc, doing)?)
        };
        Ok(Work { kept })
    }

    /// What it asks for: a store call, or a look at its client's caches, and nothing where it has ended. It takes no
    /// memory.
    #[inline(always)]
    pub fn ask(&self) -> Option<Ask<'_>>
        ensures { asks_as result ≡ asked self.now }
    {
        match &self.kept {
            Kept::Runs(doing) => doing.ask(),
            Kept::Ended => None,
        }
    }

    /// Ends it without an answer. It takes no memory, and gives back what it kept.
    pub fn end(&mut self)
        ensures { self.new ≡ ended }
    {
        drop(mem::replace(&mut self.kept, Kept::Ended));
    }

    /// The same, where this says so.
    fn end_where(&mut self, ends: bool)
        ensures { self.new ≡ (if ends then ended else self.old) }
    {
        if ends {
            self.end();
        }
    }
}

impl<T: Clone> Work<T> {
    ghost use Rattle.std.specs.Prelude.{◌≡◌};
    ghost use Rattle.txn_store.specs.types.Clones.{IsExactClone};
    ghost use Rattle.txn_history.specs.Names.{world_names, world_boundary};
    ghost use Rattle.txn_machine.specs.Doing.{caches_after, InRange, IsReply, Turns};

    /// Takes the store's reply to what it asks, or none for a look, and leaves its client's caches as its step says. An
    /// answer ends the operation, which gives back what it kept. Where a growth is refused the answer is the refusal 9.
    pub fn take<C: ObjectCodec<T>, E: EpochField<T>>(
        &mut self,
        alloc: Global,
        layout: &Layout<C>,
        epochs: &E,
        caches: &mut Caches,
        reply: Option<Reply>,
    ) -> Option<Ending<T>>
        requires exact { IsExactClone T.is_clone }
        requires names { layout.now.names ≡ world_names }
        requires boundary { layout.now.boundary ≡ world_boundary }
        requires asked { IsReply self.old reply }
        requires range { InRange self.old }
        ensures turned { Turns layout.now.page (C.encoded layout.now.codec) (C.decoded layout.now.codec) (E.epoch_of epochs.now) (E.with_epoch epochs.now) self.old caches.old reply (self.new, result) }
        ensures caches { caches.new ≡ caches_after self.old caches.old result }
    {
        let ending = match &mut self.kept {
            Kept::Runs(doing) => match &mut **doing {
                Doing::Plain(doing) => plain_ending(doing.take(alloc, layout, caches, reply)),
                Doing::View(op) => view_ending(op.take(alloc, layout, epochs, caches, reply)),
            },
            Kept::Ended => unreachable!(),
        };
        self.end_where(ending.is_some());
        ending
    }
}
