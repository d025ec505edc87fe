//! An operation is given what it asks for, one event after another, until it is answered.
ghost use Rattle.std.specs.Prelude.{◌≡◌, IfOk, IfErr};
ghost use Rattle.txn_store.specs.types.Clones.{IsExactClone};
ghost use Rattle.txn_world.specs.finishing.Finishing.{Finishes, Stops};
ghost use Rattle.txn_world.specs.finishing.Telling.{answer_told};

use crate::world::World;
use txn_history::event::{Answer, EventFault, Told};
use txn_steps::boundary::ask::Ask;
use txn_store::types::codec::ObjectCodec;
use txn_store::types::epoch::EpochField;

/// An operation's answer, and how many looks and serves it took. A listing takes as many serves as there are pages, so they are
/// counted in more than 64 bits.
#[derive(Debug, Drop)]
pub struct Finished<T> {
    /// What the operation was answered.
    pub answer: Answer<T>,
    /// How many looks and serves it took, the last of which told the answer.
    pub events: u128,
}

/// The answer that an event told, if it told one.
fn answer_told<T: Drop>(told: Told<T>) -> Option<Answer<T>>
    ensures { result ≡ answer_told told }
{
    match told {
        Told::Answered(_, answer) => Some(answer),
        _ => None,
    }
}

/// Gives an operation what it asks for, look by look and serve by serve, until it is answered: the answer, and how many it
/// took. These are no more than the operation has left alone, and where its call has just begun, no more than the call
/// takes alone.
///
/// # Errors
///
/// [`EventFault::UnknownNumber`] where the operation is not there or has ended, as one that was answered, was told of a failed
/// store call, was given up or crashed: nothing changed. [`EventFault::NoMemory`] where a growth was refused: the operation went
/// on so far, and runs, so that it can be finished later. There are no others.
pub fn finish<T: Clone, C: ObjectCodec<T> + Drop, E: EpochField<T>>(
    world: &mut World<T, C, E>,
    op: u64,
) -> Result<Finished<T>, EventFault>
    requires { IsExactClone T.is_clone }
    ensures codec { world.new.codec ≡ world.old.codec }
    ensures epochs { world.new.epochs ≡ world.old.epochs }
    ensures ok { IfOk result (λ finished. Finishes (C.encoded world.old.codec) (C.decoded world.old.codec) (E.epoch_of world.old.epochs) (E.with_epoch world.old.epochs) world.old.state op finished.answer finished.events world.new.state) }
    ensures err { IfErr result (λ fault. Stops (C.encoded world.old.codec) (C.decoded world.old.codec) (E.epoch_of world.old.epochs) (E.with_epoch world.old.epochs) world.old.state op fault world.new.state) }
{
    let Some(Ask::Look | Ask::Store(_)) = world.asks(op) else {
        return Err(EventFault::UnknownNumber);
    };
    // Events led to the world, as its trace says: from where those lead an operation has an end.
    let _ = world.trace();
    let mut events = 0;
    loop {
        let event = world.next_event(op);
        let told = world.take(event)?;
        events += 1;
        if let Some(answer) = answer_told(told) {
            return Ok(Finished { answer, events });
        }
    }
}
