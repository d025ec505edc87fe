//! Who makes calls, event by event.
ghost use Rattle.std.specs.Prelude.{◌≡◌};
ghost use Rattle.txn_world_threads.specs.Work.{base_read, heard_of};

use std::sync::Wait;
use txn_history::event::{Answer, Call, EventFault, PlainAnswer, Told};

/// What a worker's next event is to do.
#[derive(Drop)]
pub enum Next<T> {
    /// It begins a call.
    Begin(Call<T>),
    /// It gives the operation of this number what it asks for: a look at its client's caches, or one call of the store.
    Step(u64),
}

/// What a worker hears of its event.
pub enum Heard {
    /// The operation of this number goes on.
    Goes(u64),
    /// The call was answered. A read gives the base for a write: the id that it found, or that it found
    /// none.
    Ended(Option<Option<u64>>),
}

/// The base for a write that the answer gives.
fn base_read<T>(answer: &Answer<T>) -> Option<Option<u64>>
    ensures { result ≡ base_read answer.now }
{
    match answer {
        Answer::Plain(PlainAnswer::Read(None)) => Some(None),
        Answer::Plain(PlainAnswer::Read(Some((id, _)))) => Some(Some(*id)),
        _ => None,
    }
}

/// What a worker hears of what its event told.
pub(crate) fn hear<T>(told: &Told<T>) -> Heard
    ensures { result ≡ heard_of told.now }
{
    match told {
        Told::Began(op) | Told::Went(op) => Heard::Goes(*op),
        Told::Answered(_, answer) => Heard::Ended(base_read(answer)),
        // A worker makes no event that tells these.
        Told::GaveUp(_) | Told::Landed(_, _) | Told::Crashed(_) => Heard::Ended(None),
    }
}

/// Who has a number among those that make calls.
pub trait Numbered {
    ghost use Rattle.std.specs.Prelude.{◌≡◌, ℕ};

    /// The number.
    ghost numbered: { Self → ℕ };

    /// The number, by which a gate knows it.
    fn number(&self) -> u64
        ensures { result ≡ numbered self.now };
}

/// Who makes calls, an event at a time, beside others with whom it shares a place: a worker's share of a
/// kept world, or a client with its diary, which shares a store.
pub trait Caller<T: Clone, P>: Numbered {
    ghost use Rattle.std.specs.Prelude.{ℕ, IfOk};
    ghost use Rattle.txn_store.specs.types.Clones.{IsExactClone};
    ghost use Rattle.txn_world_threads.specs.GoesOn.{GoesOn};
    ghost use Rattle.txn_world_threads.specs.declared.caller.Next.{Next};
    ghost use Rattle.txn_world_threads.specs.declared.caller.Heard.{Heard};

    /// It is the same caller, after so many more events at most.
    ghost goes: { Self → ℕ → Self → Type 0 };

    /// It took this event, and heard this of it.
    ghost took: { Self → Next T → Heard → Self → Type 0 };

    /// Takes its next event, and hears what it told.
    fn take<R: Wait>(&mut self, rt: &R, place: &P, next: Next<T>) -> Result<Heard, EventFault>
        requires { IsExactClone T.is_clone }
        ensures goes { goes self.old 1 self.new }
        ensures took { IfOk result (λ heard. took self.old next heard self.new) };

    /// It is itself after no event, more events follow on others, and it keeps its number.
    ghost laws: { GoesOn Self.numbered goes };
}
