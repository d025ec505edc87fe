//! What a client notes of a step, and what it is told.
ghost use Rattle.std.specs.Prelude.{◌≡◌, ◌<◌, ◌++◌, ◌∷◌, [], Decides, unwrap_or, vec_len, vec_capacity};
ghost use Rattle.std.specs.Option.{ForSome};
ghost use Rattle.txn_history.specs.declared.event.EventFault.TheVariants as faults;
ghost use Rattle.txn_history.specs.declared.event.ToldOf.TheVariants as tolds;
ghost use Rattle.txn_history.specs.Added.{told_of};
ghost use Rattle.txn_client_journals.specs.declared.rows.Step.TheVariants as steps;
ghost use Rattle.txn_machine.specs.plain.Doing.{asks_as, first_of};
ghost use Rattle.txn_diary.specs.Keepers.{IsReceiptFault, IsReplyFault};
ghost use Rattle.txn_client_journals.specs.Logged.{IsOfKind};

use txn_client_journals::rows::{Act, JournalRow, Receipt, Step};
use txn_client_journals::same::same_request;
use txn_client_journals::tables::views::Answers;
use txn_history::event::{EventFault, Told};
use txn_steps::boundary::ask::Ask;
use txn_store::request::{Reply, Request};
use txn_store::types::room::push_within;

/// Whether a reply is of the request's kind.
#[inline(always)]
fn is_of_kind(request: &Request, reply: &Reply) -> bool
    ensures { Decides result (IsOfKind request.now reply.now) }
{
    match (request, reply) {
        (Request::Put { .. }, Reply::Put(_)) => true,
        (Request::Get { .. }, Reply::Get(_)) => true,
        (Request::List { .. }, Reply::List(_)) => true,
        (Request::Delete { .. }, Reply::Delete(_)) => true,
        _ => false,
    }
}

/// Why an operation that asks for this is refused a receipt, where it is.
pub(crate) fn receipt_refusal(ask: Option<Ask<'_>>, receipt: &Receipt) -> Option<EventFault>
    ensures { IsReceiptFault (asks_as ask.entry) receipt.now result }
{
    match ask {
        None => Some(EventFault::UnknownNumber),
        Some(Ask::Look) => Some(EventFault::NotAsked),
        Some(Ask::Store(request)) => {
            if same_request(request, &receipt.request) && is_of_kind(request, &receipt.reply) {
                None
            } else {
                Some(EventFault::NotAsked)
            }
        }
    }
}

/// Why an operation that asks for this is refused a reply, where it is.
#[inline(always)]
pub(crate) fn reply_refusal(ask: Option<Ask<'_>>, reply: &Reply) -> Option<EventFault>
    ensures { IsReplyFault (asks_as ask.entry) reply.now result }
{
    match ask {
        None => Some(EventFault::UnknownNumber),
        Some(Ask::Look) => Some(EventFault::NotAsked),
        Some(Ask::Store(request)) => {
            if is_of_kind(request, reply) {
                None
            } else {
                Some(EventFault::NotAsked)
            }
        }
    }
}

/// Why a step stops whose row finds no room: what it is refused for, where it is, else want of memory.
pub(crate) fn lack(refusal: Option<EventFault>) -> EventFault
    ensures { result ≡ unwrap_or refusal faults.NoMemory }
{
    refusal.unwrap_or(EventFault::NoMemory)
}

/// Notes a step with its answer, where there is room, and tells the answer, or this where there is none.
pub(crate) fn note<T: Drop>(
    rows: &mut Vec<JournalRow<T>>,
    step: Step<T>,
    op: u64,
    otherwise: Told<T>,
    answers: Option<Answers<T>>,
) -> Told<T>
    requires room { vec_len rows.old < vec_capacity rows.old }
    requires twice { ForSome answers (λ pair. pair.1 ≡ pair.0) }
    ensures rows { rows.new.items ≡ rows.old.items ++ record { step = step; answer = first_of answers } ∷ [] }
    ensures told { result ≡ told_of otherwise op (first_of answers) }
{
    match answers {
        None => {
            push_within(rows, JournalRow { step, answer: None });
            otherwise
        }
        Some((answer, copy)) => {
            push_within(
                rows,
                JournalRow {
                    step,
                    answer: Some(answer),
                },
            );
            Told::Answered(op, copy)
        }
    }
}

/// Notes what an operation did, and tells its answer, or that it went on.
pub(crate) fn note_act<T: Drop>(
    rows: &mut Vec<JournalRow<T>>,
    op: u64,
    act: Act,
    answers: Option<Answers<T>>,
) -> Told<T>
    requires room { vec_len rows.old < vec_capacity rows.old }
    requires twice { ForSome answers (λ pair. pair.1 ≡ pair.0) }
    ensures rows { rows.new.items ≡ rows.old.items ++ record { step = steps.Act op act; answer = first_of answers } ∷ [] }
    ensures told { result ≡ told_of (tolds.Went op) op (first_of answers) }
{
    note(rows, Step::Act(op, act), op, Told::Went(op), answers)
}
