//! What a reply says.
ghost use Rattle.std.specs.Prelude.{◌≡◌, Decides, Err};
ghost use Rattle.txn_store.specs.declared.store.StoreError.TheVariants as errors;
ghost use Rattle.txn_client_journals.specs.Honest.{SaysFailed};

use txn_client_journals::same::same_error;
use txn_store::request::Reply;
use txn_store::store::StoreError;

/// Whether an answer of the store says that the call failed.
#[inline(always)]
fn is_failure<A>(answer: &Result<A, StoreError>) -> bool
    ensures { Decides result (answer.now ≡ Err errors.Failed) }
{
    match answer {
        Ok(_) => false,
        Err(error) => same_error(*error, StoreError::Failed),
    }
}

/// Whether the reply says that the call failed, and nobody knows whether it took effect. It takes no memory.
#[inline(always)]
pub fn has_failed(reply: &Reply) -> bool
    ensures { Decides result (SaysFailed reply.now) }
{
    match reply {
        Reply::Put(answer) => is_failure(answer),
        Reply::Get(answer) => is_failure(answer),
        Reply::List(answer) => is_failure(answer),
        Reply::Delete(answer) => is_failure(answer),
    }
}
