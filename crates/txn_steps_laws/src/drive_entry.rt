//! A call that writes a value that a view then shows, run alone.

use crate::call::ViewCall;
use txn_steps::boundary::caches::Caches;
use txn_steps::boundary::turned::Turned;
use txn_steps_driven::drive::{At, Drive};
use txn_steps_driven::replies::reply_to;
use txn_steps_views::entry::EntryOp;
use txn_steps_views::outcome::ViewAnswer;
use txn_store::store::ObjectStore;

/// It writes the first version, and makes a view of it; or it writes on a view's version, also on a holder's, and moves the
/// view to it.
impl<T: Drop, C, S: ObjectStore> Drive<C, S> for ViewCall<EntryOp<T>> {
    ghost use Rattle.txn_steps_laws.specs.CallLaws.{entry_asks};
    ghost use Rattle.txn_steps_laws.specs.CallRuns.{CanEnter, EntrySteps};

    type Answer = ViewAnswer<T>;

    ghost asks = { λ layout call. CanEnter call.op };

    ghost leads = { λ layout. EntrySteps };

    ghost asks_again = { λ layout a b can step. entry_asks a b can step };

    fn step(&mut self, at: &At<C>, store: &mut S, caches: &mut Caches) -> Turned<Self::Answer> {
        let reply = reply_to(at.alloc, store, self.op.ask());
        self.op.take(caches, reply)
    }
}
