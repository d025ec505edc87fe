//! A call that reads the newest version for a view, run alone.

use crate::with_epochs::WithEpochs;
use txn_steps::boundary::caches::Caches;
use txn_steps::boundary::turned::Turned;
use txn_steps_driven::drive::{At, Drive};
use txn_steps_driven::replies::reply_to;
use txn_steps_views::outcome::ViewAnswer;
use txn_steps_views::view_read::ViewReadOp;
use txn_store::store::ObjectStore;
use txn_store::types::codec::ObjectCodec;
use txn_store::types::epoch::EpochField;

/// It reads the newest version, and makes a view of it or moves its view to it; for a holder it tests the epoch. It asks that a
/// clone is the same value.
impl<T: Clone, X: EpochField<T>, C: ObjectCodec<T>, S: ObjectStore> Drive<C, S>
    for WithEpochs<ViewReadOp<T>, X> {
    ghost use Rattle.std.specs.Prelude.{◌≤◌};
    ghost use Rattle.txn_store.specs.types.Clones.{IsExactClone};
    ghost use Rattle.txn_steps_driven.specs.DriveSteps.{CanRead};
    ghost use Rattle.txn_steps_laws.specs.CallLaws.{view_read_asks};
    ghost use Rattle.txn_steps_laws.specs.CallRuns.{ViewReadSteps};

    type Answer = ViewAnswer<T>;

    ghost asks = { λ layout call. CanRead call.op.read × (1 ≤ layout.page) × IsExactClone T.is_clone };

    ghost leads = { λ layout. ViewReadSteps layout.names layout.boundary layout.page (C.decoded layout.codec) X.epoch_of };

    ghost asks_again = { λ layout a b can step. (view_read_asks layout.names layout.boundary layout.page can.1 (C.decoded layout.codec) X.epoch_of a b can.0 step, can.1, can.2) };

    fn step(&mut self, at: &At<C>, store: &mut S, caches: &mut Caches) -> Turned<Self::Answer> {
        let WithEpochs { op, epochs } = self;
        let reply = reply_to(at.alloc, store, op.read.ask());
        let told = op.read.take(at.alloc, at.layout, caches, reply);
        op.after_read(epochs, told)
    }
}
