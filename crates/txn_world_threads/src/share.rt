//! A worker's share of a kept world makes calls, as the client of its number.
ghost use Rattle.std.specs.Prelude.{◌≡◌};
ghost use Rattle.txn_store.specs.types.Clones.{IsExactClone};

use crate::caller::{Caller, Heard, Next, Numbered, hear};
use crate::kept::{Kept, Share};
use std::sync::{Mutex, Wait};
use txn_history::event::{Event, EventFault};
use txn_store::types::codec::ObjectCodec;
use txn_store::types::epoch::EpochField;

impl Numbered for Share {
    ghost numbered = { λ share. share.worker };

    fn number(&self) -> u64 {
        self.worker()
    }
}

/// Each event is taken under one lock.
impl<T: Clone, C: ObjectCodec<T> + Drop, E: EpochField<T>> Caller<T, Mutex<Kept<T, C, E>>>
    for Share {
    ghost use Rattle.txn_store.specs.types.Clones.{IsExactClone};
    ghost use Rattle.std.specs.Prelude.{◌≡◌, IfOk};
    ghost use Rattle.txn_world_threads.specs.GoesOn.{Grows, grows_on};
    ghost use Rattle.txn_world_threads.specs.Kept.{one_more};

    ghost goes = { Grows };

    // Which event it was the journal says, which stands behind the lock.
    ghost took = { λ old _ _ new. new ≡ one_more old };

    fn take<R: Wait>(
        &mut self,
        rt: &R,
        place: &Mutex<Kept<T, C, E>>,
        next: Next<T>,
    ) -> Result<Heard, EventFault>
        requires { IsExactClone T.is_clone }
        ensures goes { Grows self.old 1 self.new }
        ensures took { IfOk result (λ _. self.new ≡ one_more self.old) }
    {
        match next {
            Next::Begin(call) => {
                let begin = Event::Begin(self.worker(), call);
                Ok(hear(place.lock(rt).take(self, begin)?))
            }
            Next::Step(op) => Ok(hear(place.lock(rt).take_next(self, op)?)),
        }
    }

    ghost laws = { grows_on };
}
