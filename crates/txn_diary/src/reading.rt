//! What stands in a journal: its answers and its receipts.
ghost use Rattle.std.specs.Prelude.{◌≡◌, ◌<◌, ◌-◌, ◌^◌, ◌++◌, IfOk, map, vec_len, vec_capacity};
ghost use Rattle.std.specs.Option.{option_copied};
ghost use Rattle.txn_client_journals.specs.Verdict.{receipts_in};
ghost use Rattle.txn_diary.specs.Reading.{op_of, begun_by, with_answer, answers_from, receipt_of, as_receipts};

use std::alloc::{AllocError, Global};
use txn_client_journals::rows::{Act, JournalRow, Receipt, Step};
use txn_history::event::Answer;
use txn_store::types::room::push_within;

/// The operation that a step is of, where so many began before it: 0 for a kill.
fn op_of<T>(begun: u64, step: &Step<T>) -> u64
    requires { begun < 2 ^ 64 - 1 }
    ensures { result ≡ op_of begun step.now }
{
    match step {
        Step::Begin(_) => begun + 1,
        Step::Act(op, _) => *op,
        Step::Killed(_) => 0,
    }
}

/// How many operations began, with a step, where so many began before it.
fn begun_by<T>(begun: u64, step: &Step<T>) -> u64
    requires { begun < 2 ^ 64 - 1 }
    ensures { result ≡ begun_by begun step.now }
{
    match step {
        Step::Begin(_) => begun + 1,
        _ => begun,
    }
}

/// Adds an answer, where there is one, where there is room.
fn add_answer<'a, T>(
    answers: &mut Vec<(u64, &'a Answer<T>)>,
    op: u64,
    answer: Option<&'a Answer<T>>,
)
    requires { vec_len answers.old < vec_capacity answers.old }
    ensures { map (λ pair. (pair.0, pair.1.now)) answers.new.items ≡ map (λ pair. (pair.0, pair.1.now)) answers.old.items ++ with_answer op (option_copied answer.entry) }
{
    if let Some(answer) = answer {
        push_within(answers, (op, answer));
    }
}

/// The answers of a journal, each with the number of its operation. The only error is want of memory.
pub(crate) fn answers_of<T>(
    alloc: Global,
    rows: &[JournalRow<T>],
) -> Result<Vec<(u64, &Answer<T>)>, AllocError>
    ensures { IfOk result (λ answers. map (λ pair. (pair.0, pair.1.now)) answers.items ≡ answers_from 0 rows.now) }
{
    let mut answers = Vec::new(alloc);
    let mut begun = 0;
    for row in rows {
        answers.reserve(1)?;
        add_answer(&mut answers, op_of(begun, &row.step), row.answer.as_ref());
        begun = begun_by(begun, &row.step);
    }
    Ok(answers)
}

/// The receipt of a step, where it takes one.
fn receipt_of<T>(step: &Step<T>) -> Option<&Receipt>
    ensures { option_copied result ≡ receipt_of step.now }
{
    match step {
        Step::Act(_, Act::Receive(receipt)) => Some(receipt),
        _ => None,
    }
}

/// Adds a receipt, where there is one, where there is room.
fn add_receipt<'a>(receipts: &mut Vec<&'a Receipt>, receipt: Option<&'a Receipt>)
    requires { vec_len receipts.old < vec_capacity receipts.old }
    ensures { map (λ r. r.now) receipts.new.items ≡ map (λ r. r.now) receipts.old.items ++ as_receipts (option_copied receipt.entry) }
{
    if let Some(receipt) = receipt {
        push_within(receipts, receipt);
    }
}

/// The receipts of a journal. The only error is want of memory.
pub(crate) fn receipts_of<T>(
    alloc: Global,
    rows: &[JournalRow<T>],
) -> Result<Vec<&Receipt>, AllocError>
    ensures { IfOk result (λ receipts. map (λ r. r.now) receipts.items ≡ receipts_in rows.now) }
{
    let mut receipts = Vec::new(alloc);
    for row in rows {
        receipts.reserve(1)?;
        add_receipt(&mut receipts, receipt_of(&row.step));
    }
    Ok(receipts)
}
