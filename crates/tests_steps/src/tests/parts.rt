//! A codec's refusal in an answer.
use crate::tests::place::a_layout;
use bytes::Bytes;
use std::alloc::{AllocError, Global};
use std::test::Fail;
use txn_steps::boundary::turned::Turned;
use txn_steps::seen::{ReadUncheckedOp, ValueAnswer};
use txn_store::request::Reply;
use txn_store::store::{Got, Token};
use txn_store::types::error::TransactionalObjectError;
use txn_store::types::id::MonotonicId;
use txn_store::types::test_utils::NumberCodec;

/// What a read of one id makes of a version whose bytes are no number.
fn read_of_no_number(alloc: Global) -> Result<Turned<ValueAnswer<u64>>, Fail> {
    let layout = a_layout(alloc, 1, NumberCodec)?;
    let op = ReadUncheckedOp::start(alloc, &layout, MonotonicId::new(1))?;
    let got = Got {
        bytes: Bytes::from_static(b"7 bytes"),
        token: Token::new(1),
    };
    Ok(op.take(alloc, &layout, Some(Reply::Get(Ok(got)))))
}

/// The codec's words in an answer, where it refused.
fn refusal(alloc: Global, turned: Turned<ValueAnswer<u64>>) -> Result<Option<String>, AllocError> {
    match turned {
        Turned::Done(Err(error)) => match error.into() {
            TransactionalObjectError::CallbackError(kept) => {
                Ok(Some(format!(in alloc; "{kept}")?))
            }
            _ => Ok(None),
        },
        _ => Ok(None),
    }
}

#[test]
fn an_answer_keeps_the_refusal_of_a_codec(rt: HostRuntime) -> Result<(), Fail> {
    let words = refusal(rt.alloc(), read_of_no_number(rt.alloc())?)?;
    assert!(rt; words.is_some_and(|words| words.as_str() == "not eight bytes"));
    Ok(())
}
