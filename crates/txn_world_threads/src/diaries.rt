//! A client with its diary makes calls, beside others with whom it shares a store under a lock and nothing else.
ghost use Rattle.std.specs.Prelude.{◌≡◌};
ghost use Rattle.txn_store.specs.types.Clones.{IsExactClone};

use crate::caller::{Caller, Heard, Next, Numbered, hear};
use std::sync::{Mutex, Wait};
use txn_client_journals::logged::LoggedStore;
use txn_diary::diary::Diary;
use txn_history::event::EventFault;
use txn_store::types::codec::ObjectCodec;
use txn_store::types::epoch::EpochField;

impl<T: Clone, C: ObjectCodec<T> + Drop, E: EpochField<T>> Numbered for Diary<T, C, E> {
    ghost numbered = { λ diary. diary.client };

    fn number(&self) -> u64 {
        self.client()
    }
}

/// A client begins a call and looks at its caches by itself, and has each call of the store served under one lock.
impl<T: Clone, C: ObjectCodec<T> + Drop, E: EpochField<T>> Caller<T, Mutex<LoggedStore>>
    for Diary<T, C, E> {
    ghost use Rattle.txn_store.specs.types.Clones.{IsExactClone};
    ghost use Rattle.std.specs.Prelude.{IfOk};
    ghost use Rattle.txn_world_threads.specs.GoesOn.{Lengthens, lengthens_on};
    ghost use Rattle.txn_world_threads.specs.Done.{TookRow};

    ghost goes = { Lengthens };

    ghost took = { TookRow };

    fn take<R: Wait>(
        &mut self,
        rt: &R,
        place: &Mutex<LoggedStore>,
        next: Next<T>,
    ) -> Result<Heard, EventFault>
        requires { IsExactClone T.is_clone }
        ensures goes { Lengthens self.old 1 self.new }
        ensures took { IfOk result (λ heard. TookRow self.old next heard self.new) }
    {
        match next {
            Next::Begin(call) => Ok(hear(&self.begin(call)?)),
            Next::Step(op) => Ok(hear(&self.step(rt, place, op)?)),
        }
    }

    ghost laws = { lengthens_on };
}
