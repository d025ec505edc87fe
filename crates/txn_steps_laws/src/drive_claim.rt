//! The call that makes a view a holder, run alone.

use crate::with_epochs::WithEpochs;
use txn_steps::boundary::caches::Caches;
use txn_steps::boundary::turned::Turned;
use txn_steps_driven::drive::{At, Drive};
use txn_steps_driven::replies::reply_to;
use txn_steps_views::claim::ClaimOp;
use txn_steps_views::outcome::ViewAnswer;
use txn_store::store::ObjectStore;
use txn_store::types::codec::ObjectCodec;
use txn_store::types::epoch::EpochField;

/// A claim writes its view's value with the next epoch, or with the one that is asked for, and where that is overtaken reads
/// the newest version and tries again. It asks that a clone is the same value.
impl<T: Clone, X: EpochField<T>, C: ObjectCodec<T>, S: ObjectStore> Drive<C, S>
    for WithEpochs<ClaimOp<T>, X> {
    ghost use Rattle.std.specs.Prelude.{◌≤◌};
    ghost use Rattle.txn_store.specs.types.Clones.{IsExactClone};
    ghost use Rattle.txn_steps_laws.specs.ClaimLaws.{claim_asks};
    ghost use Rattle.txn_steps_laws.specs.ClaimSteps.{CanClaim, ClaimSteps};

    type Answer = ViewAnswer<T>;

    ghost asks = { λ layout call. CanClaim call.op.claiming × (1 ≤ layout.page) × IsExactClone T.is_clone };

    ghost leads = { λ layout. ClaimSteps layout.names layout.boundary layout.page (C.encoded layout.codec) (C.decoded layout.codec) X.epoch_of X.with_epoch };

    ghost asks_again = { λ layout a b can step. (claim_asks layout.names layout.boundary layout.page can.1 (C.encoded layout.codec) (C.decoded layout.codec) X.epoch_of X.with_epoch a b can.0 step, can.1, can.2) };

    fn step(&mut self, at: &At<C>, store: &mut S, caches: &mut Caches) -> Turned<Self::Answer> {
        let WithEpochs { op, epochs } = self;
        let reply = reply_to(at.alloc, store, op.claiming.ask());
        op.claiming
            .take(at.alloc, at.layout, epochs, op.asked, caches, reply)
    }
}
