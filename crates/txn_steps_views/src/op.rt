//! Any call on a view.
ghost use Rattle.std.specs.Prelude.{◌≡◌};
ghost use Rattle.txn_store.specs.types.Clones.{IsExactClone};
ghost use Rattle.txn_steps.specs.boundary.Steps.{turned_by_number, lacks_memory, TellsErrorOf};
ghost use Rattle.txn_steps.specs.boundary.Asking.{asks, reply_told};
ghost use Rattle.txn_steps_views.specs.ViewOps.{view_asked, view_caches_after, view_turned, IsViewReply, IsViewInRange, IsClaimReading, IsViewMade, MayLack};

use crate::claim::ClaimOp;
use crate::entry::EntryOp;
use crate::outcome::ViewAnswer;
use crate::view_read::ViewReadOp;
use std::alloc::Global;
use txn_steps::boundary::ask::Ask;
use txn_steps::boundary::caches::Caches;
use txn_steps::boundary::turned::Turned;
use txn_store::request::Reply;
use txn_store::types::codec::ObjectCodec;
use txn_store::types::epoch::EpochField;
use txn_store::types::layout::Layout;

/// The state of any call on a view.
#[derive(Drop)]
pub enum ViewOp<T> {
    /// It writes a value that a view then shows: an init, an update, or that of a holder.
    Enters(EntryOp<T>),
    /// It reads the newest version, which a view then shows: a load, a refresh, or that of a holder.
    Reads(ViewReadOp<T>),
    /// It makes a view a holder.
    Claims(ClaimOp<T>),
}

impl<T: Drop> ViewOp<T> {
    /// What it asks for. It takes no memory.
    pub fn ask(&self) -> Ask<'_>
        ensures { asks result ≡ view_asked self.now }
    {
        match self {
            ViewOp::Enters(op) => op.ask(),
            ViewOp::Reads(op) => op.read.ask(),
            ViewOp::Claims(op) => op.claiming.ask(),
        }
    }
}

impl<T: Clone> ViewOp<T> {
    /// Takes the store's reply to what it asks, or none for a look, as the call's own state does, and answers as that. An
    /// answer ends it. It asks that a clone is the same value.
    pub fn take<C: ObjectCodec<T>, X: EpochField<T>>(
        &mut self,
        alloc: Global,
        layout: &Layout<C>,
        epochs: &X,
        caches: &mut Caches,
        reply: Option<Reply>,
    ) -> Turned<ViewAnswer<T>>
        requires exact { IsExactClone T.is_clone }
        requires reply { IsViewReply self.old reply }
        requires range { IsViewInRange self.old }
        ensures turned { (self.new, turned_by_number result) ≡ view_turned layout.now.names layout.now.boundary layout.now.page (C.encoded layout.now.codec) (C.decoded layout.now.codec) (X.epoch_of epochs.now) (X.with_epoch epochs.now) (lacks_memory (turned_by_number result)) self.old caches.old reply }
        // What a claim that reads goes on to write is read back, and has the epoch that was set.
        ensures made { IsClaimReading self.old → IsViewMade (C.encoded layout.now.codec) (C.decoded layout.now.codec) (X.epoch_of epochs.now) self.new }
        // A claim's attempt lacks memory only where its write was overtaken, or lacked it.
        ensures short { MayLack self.old caches.old reply (lacks_memory (turned_by_number result)) }
        ensures caches { caches.new ≡ view_caches_after self.old caches.old (turned_by_number result) }
        ensures store_error { TellsErrorOf (reply_told reply) result }
    {
        match self {
            ViewOp::Enters(op) => op.take(caches, reply),
            ViewOp::Reads(op) => {
                let told = op.read.take(alloc, layout, caches, reply);
                op.after_read(epochs, told)
            }
            ViewOp::Claims(op) => {
                op.claiming
                    .take(alloc, layout, epochs, op.asked, caches, reply)
            }
        }
    }
}
