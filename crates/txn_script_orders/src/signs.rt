//! What clients were told and have seen, as signs that keys are made of.

use std::alloc::AllocError;
use txn_history::event::{Answer, PlainAnswer};
use txn_script_lines::record::Record;

/// A number, or the payload of a value, which has another name in a mirror image.
#[derive(Clone, Copy, Debug, PartialEq, Eq)]
pub(crate) enum Sign {
    Number(u64),
    Payload(u64),
}

/// A call ended without an answer.
pub(crate) const LOST: u64 = 1;

/// A call was left out, because what it speaks of is not there.
pub(crate) const SKIPPED: u64 = 2;

/// The client crashed.
pub(crate) const CRASHED: u64 = 3;

/// The client waits for its call to be allowed.
pub(crate) const WAITS: u64 = 4;

/// Adds a number.
pub(crate) fn push_number(signs: &mut Vec<Sign>, number: u64) -> Result<(), AllocError> {
    signs.push(Sign::Number(number))?;
    Ok(())
}

/// Adds a value.
pub(crate) fn push_value(signs: &mut Vec<Sign>, value: Record) -> Result<(), AllocError> {
    signs.push(Sign::Number(value.epoch))?;
    signs.push(Sign::Payload(value.payload))?;
    Ok(())
}

/// Adds the answer of a call without a view.
fn push_plain(signs: &mut Vec<Sign>, answer: &PlainAnswer<Record>) -> Result<(), AllocError> {
    match answer {
        PlainAnswer::Wrote(id) => {
            push_number(signs, 5)?;
            push_number(signs, *id)
        }
        PlainAnswer::Read(None) => push_number(signs, 6),
        PlainAnswer::Read(Some((id, value))) => {
            push_number(signs, 7)?;
            push_number(signs, *id)?;
            push_value(signs, *value)
        }
        PlainAnswer::Value(None) => push_number(signs, 8),
        PlainAnswer::Value(Some(value)) => {
            push_number(signs, 9)?;
            push_value(signs, *value)
        }
        PlainAnswer::Ids(ids) => {
            push_number(signs, 10)?;
            push_number(signs, ids.as_slice().len() as u64)?;
            for id in ids.as_slice() {
                push_number(signs, *id)?;
            }
            Ok(())
        }
        PlainAnswer::Done => push_number(signs, 11),
        PlainAnswer::Refused(number) => {
            push_number(signs, 14)?;
            push_number(signs, u64::from(*number))
        }
    }
}

/// Adds an answer. The number of a view is left out: a client uses its own.
pub(crate) fn push_answer(
    signs: &mut Vec<Sign>,
    answer: &Answer<Record>,
) -> Result<(), AllocError> {
    match answer {
        Answer::Plain(answer) => push_plain(signs, answer),
        Answer::View(_, id, value) => {
            push_number(signs, 12)?;
            push_number(signs, *id)?;
            push_value(signs, *value)
        }
        Answer::Held(_, id, value, epoch) => {
            push_number(signs, 13)?;
            push_number(signs, *id)?;
            push_value(signs, *value)?;
            push_number(signs, *epoch)
        }
    }
}
