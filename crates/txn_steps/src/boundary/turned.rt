//! What an operation says when it has looked or taken a reply.
ghost use Rattle.std.specs.Prelude.{◌≡◌, Some, None, Err, IfOk, IfErr, unwrap_or};
ghost use Rattle.txn_store.specs.declared.types.error.TransactionalObjectError.TheVariants.{NoMemory};

use std::alloc::AllocError;
use txn_store::types::step_error::{ErrorKind, StepError};

/// Whether an operation goes on, or is done with an answer.
#[derive(Debug, Drop)]
pub enum Turned<A> {
    /// It goes on, and asks again.
    Goes,
    /// It is done, with this answer.
    Done(A),
}

/// What an operation does next where it goes on, and what it says.
pub type Step<O, A> = (Option<O>, Turned<Result<A, StepError>>);

/// Goes on as this operation.
///
/// # Errors
///
/// `NoMemory`, as its answer, where the operation could not be made for want of memory.
pub fn goes_as<O, A>(next: Result<O, AllocError>) -> Step<O, A>
    ensures goes { IfOk next (λ op. result ≡ (Some op, Turned.Goes)) }
    ensures lacks { IfErr next (λ _. result ≡ (None, Turned.Done (Err NoMemory))) }
{
    match next {
        Ok(next) => (Some(next), Turned::Goes),
        Err(_) => (None, Turned::Done(Err(ErrorKind::NoMemory.into()))),
    }
}

/// Takes the step: what it says, and the operation goes on as the next one where there is one. (In place: by a call, each step
/// of each operation would be moved once more.)
///
/// # Errors
///
/// Those of the answer of the step, where it has one.
#[inline(always)]
pub fn taken<O: Drop, A>(op: &mut O, step: Step<O, A>) -> Turned<Result<A, StepError>>
    ensures says { result ≡ step.1 }
    ensures next { op.new ≡ unwrap_or step.0 op.old }
{
    let (next, turned) = step;
    if let Some(next) = next {
        *op = next;
    }
    turned
}
