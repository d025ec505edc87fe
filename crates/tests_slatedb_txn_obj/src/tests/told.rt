//! What calls tell.
use txn_store::types::error::TransactionalObjectError;

/// What a call tells, an error as its number.
#[derive(Clone, Copy, Debug, PartialEq, Eq)]
pub(crate) enum Told {
    Did,
    Wrote(u64),
    /// A version and its value.
    Found(u64, u64),
    Nothing,
    /// The value of one version.
    Value(Option<u64>),
    Fails(u8),
}

/// What a call without a value tells.
pub(crate) fn did(answer: &Result<(), TransactionalObjectError>) -> Told {
    match answer {
        Ok(()) => Told::Did,
        Err(error) => Told::Fails(error.number()),
    }
}
