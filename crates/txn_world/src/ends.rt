//! What an operation that ends leaves of its view, adds to the rows, and is told.
ghost use Rattle.std.specs.Prelude.{◌≡◌, ◌++◌, ◌∷◌, [], ◌<◌, ◌≤◌, ℕ, length, vec_len, vec_capacity};
ghost use Rattle.std.specs.HashSet.{spare};
ghost use Rattle.std.specs.Option.{ForSome};
ghost use Rattle.txn_history.specs.declared.event.ToldOf.TheVariants as tolds;
ghost use Rattle.txn_history.specs.declared.trace.RowOf.TheVariants.{Answered};
ghost use Rattle.txn_history.specs.Added.{told_of, answer_rows};
ghost use Rattle.txn_machine.specs.Doing.{refusal_in};
ghost use Rattle.txn_machine.specs.Machine.{answered, let_go, views_changed, views_after};
ghost use Rattle.txn_client_journals.specs.tables.Views.{IsFromOne};
ghost use Rattle.txn_machine.specs.traces.Beside.{ending_count};
ghost use Rattle.txn_world.specs.Owning.{room_of};

use crate::views::Views;
use txn_client_journals::tables::operations::Usage;
use txn_history::event::{Answer, PlainAnswer, Told};
use txn_machine::doing::Ending;
use txn_machine::traces::trace::Trace;
use txn_store::types::codec::ObjectCodec;
use txn_store::types::epoch::EpochField;

/// What the end of an operation, where it ends, leaves of its view and adds to the rows, and what is told: the answer, or
/// that the operation went on.
pub(crate) fn tell<T: Drop, C: ObjectCodec<T> + Drop, E: EpochField<T>>(
    trace: &mut Trace<T, C, E>,
    views: &mut Views<T>,
    op: u64,
    of: Usage,
    ending: Option<Ending<T>>,
) -> Told<T>
    requires room { vec_len trace.old.rows < vec_capacity trace.old.rows }
    requires spare { ForSome ending (λ e. ending_count e ≤ spare trace.old.told) }
    requires view { IsFromOne of.view }
    requires some { 1 ≤ of.client }
    requires within { of.client ≤ views.old.count }
    requires room_view { vec_len views.old.used < vec_capacity views.old.used }
    requires room_owned { 1 ≤ room_of views.old.owned.items of.client }
    ensures layout { trace.new.layout ≡ trace.old.layout }
    ensures field { trace.new.field ≡ trace.old.field }
    ensures told { result ≡ told_of (tolds.Went op) op (answered (length views.old.used.items) of.view ending) }
    ensures rows { trace.new.rows.items ≡ trace.old.rows.items ++ answer_rows op (answered (length views.old.used.items) of.view ending) }
    ensures views { views.new.used.items ≡ views_after views.old.used.items of.client of.view of.claims ending }
    ensures count { views.new.count ≡ views.old.count }
{
    match views.settle(of, ending) {
        None => Told::Went(op),
        Some((answer, copy)) => {
            trace.answer(op, answer);
            Told::Answered(op, copy)
        }
    }
}

/// An operation is refused: it lets its view go, and the rows gain its answer, which is told.
pub(crate) fn refuse<T: Drop, C: ObjectCodec<T> + Drop, E: EpochField<T>>(
    trace: &mut Trace<T, C, E>,
    views: &mut Views<T>,
    op: u64,
    of: Usage,
    number: u8,
) -> Told<T>
    requires room { vec_len trace.old.rows < vec_capacity trace.old.rows }
    requires view { IsFromOne of.view }
    ensures layout { trace.new.layout ≡ trace.old.layout }
    ensures field { trace.new.field ≡ trace.old.field }
    ensures told { result ≡ tolds.Answered op (Answer.Plain (PlainAnswer.Refused number)) }
    ensures rows { trace.new.rows.items ≡ trace.old.rows.items ++ Answered op (Answer.Plain (PlainAnswer.Refused number)) ∷ [] }
    ensures views { views.new.used.items ≡ views_changed views.old.used.items of.view (let_go of.claims) }
    ensures count { views.new.count ≡ views.old.count }
{
    views.let_go(of.view, of.claims);
    trace.answer(op, Answer::Plain(PlainAnswer::Refused(number)));
    Told::Answered(op, Answer::Plain(PlainAnswer::Refused(number)))
}

/// A begin is told, or that its operation was refused at once.
pub(crate) fn tell_begin<T: Drop, C: ObjectCodec<T> + Drop, E: EpochField<T>>(
    trace: &mut Trace<T, C, E>,
    views: &mut Views<T>,
    op: u64,
    of: Usage,
    refusal: Option<u8>,
) -> Told<T>
    requires room { vec_len trace.old.rows < vec_capacity trace.old.rows }
    requires view { IsFromOne of.view }
    ensures layout { trace.new.layout ≡ trace.old.layout }
    ensures field { trace.new.field ≡ trace.old.field }
    ensures told { (count : ℕ) → result ≡ told_of (tolds.Began op) op (answered count of.view (refusal_in refusal)) }
    ensures rows { (count : ℕ) → trace.new.rows.items ≡ trace.old.rows.items ++ answer_rows op (answered count of.view (refusal_in refusal)) }
    ensures views { views.new.used.items ≡ views_after views.old.used.items of.client of.view of.claims (refusal_in refusal) }
    ensures count { views.new.count ≡ views.old.count }
{
    match refusal {
        None => Told::Began(op),
        Some(number) => refuse(trace, views, op, of, number),
    }
}
