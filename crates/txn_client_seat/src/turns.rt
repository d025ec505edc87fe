//! What a client does, with the answers and the rows that wait beside it.
ghost use Rattle.std.specs.Prelude.{◌≡◌, ◌<◌, ◌++◌, ℕ, List, IfErr, OnOk, OnErr, option_map, string_bytes, vec_len, vec_capacity};
ghost use Rattle.std.specs.Option.{ForSome};
ghost use Rattle.txn_client_journals.specs.Honest.{SaysFailed};
ghost use Rattle.txn_client_seat.specs.Kept.{HasRoom, seen};
ghost use Rattle.txn_client_seat.specs.Lines.{answer_line, asked_line};
ghost use Rattle.txn_client_seat.specs.Waiting.{IsLine, adds};
ghost use Rattle.txn_machine.specs.plain.Doing.{first_of};
ghost use Rattle.txn_client_seat.specs.Desks.{seat_at};
ghost use Rattle.txn_client_seat.specs.Numbered.{as_waiting};
ghost use Rattle.txn_client_seat.specs.Seats.{IsBegin, IsOwnAsking, IsOwnLook, IsOwnTake, IsOwnGiveUp, IsUncheckedTurn, is_unchecked};

use crate::rows_kept::{self, KeptRows, note, note_line};
use crate::rows_made;
use crate::unchecked_calls::UncheckedCalls;
use txn_client_journals::tables::views::Answers;
use txn_diary::keeper::Keeper;
use txn_diary::kinds::has_failed;
use txn_history::event::{Answer, Call, EventFault, PlainAnswer};
use txn_script_lines::values::entry::{Entry, EntryCodec, EntryEpoch};
use txn_steps::boundary::ask::Ask;
use txn_store::request::{Reply, Request};
use txn_store::types::room::push_within;

/// A client of entries.
pub(crate) type Kept = Keeper<Entry, EntryCodec, EntryEpoch>;

/// What waits for the caller of a client.
#[derive(Drop)]
pub(crate) struct Desk {
    /// The answers, by their operations' numbers.
    pub answers: Vec<(u64, Answer<Entry>)>,
    /// The rows, where the client is recorded.
    pub rows: Option<KeptRows>,
    /// Its unchecked operations.
    pub unchecked: UncheckedCalls,
}

/// Makes room for one answer and one row.
fn make_room(desk: &mut Desk) -> Result<(), EventFault>
    ensures answers { desk.new.answers.items ≡ desk.old.answers.items }
    ensures rows { seen desk.new.rows ≡ seen desk.old.rows }
    ensures unchecked { desk.new.unchecked ≡ desk.old.unchecked }
    ensures room { OnOk result (vec_len desk.new.answers < vec_capacity desk.new.answers) }
    ensures room_rows { OnOk result (HasRoom desk.new.rows) }
    ensures err { IfErr result (λ fault. fault ≡ EventFault.NoMemory) }
{
    let Ok(()) = desk.answers.reserve(1) else {
        return Err(EventFault::NoMemory);
    };
    match rows_kept::make_room(&mut desk.rows) {
        Ok(()) => Ok(()),
        Err(_) => Err(EventFault::NoMemory),
    }
}

/// An operation's answer waits too, where it has one, and so does the row of what was done, within the room that there is.
fn tell(desk: &mut Desk, op: u64, line: Option<String>, answers: Option<Answers<Entry>>)
    requires room { vec_len desk.old.answers < vec_capacity desk.old.answers }
    requires room_rows { HasRoom desk.old.rows }
    requires twice { ForSome answers (λ pair. pair.1 ≡ pair.0) }
    ensures answers { desk.new.answers.items ≡ desk.old.answers.items ++ as_waiting op (first_of answers) }
    ensures rows { (told : ℕ → List ℕ) → IsLine (seen desk.old.rows) told (option_map (λ s. string_bytes s) line) → seen desk.new.rows ≡ adds (seen desk.old.rows) (λ at. told at ++ answer_line op (first_of answers)) }
    ensures unchecked { desk.new.unchecked ≡ desk.old.unchecked }
{
    match answers {
        Some((answer, copy)) => {
            push_within(&mut desk.answers, (op, copy));
            note(&mut desk.rows, line, op, Some(answer));
        }
        None => note(&mut desk.rows, line, op, None),
    }
}

/// The answer of an unchecked operation waits too, where it has one, within the room that there is.
fn tell_plain(desk: &mut Desk, op: u64, answer: Option<PlainAnswer<Entry>>)
    requires { vec_len desk.old.answers < vec_capacity desk.old.answers }
    ensures answers { desk.new.answers.items ≡ desk.old.answers.items ++ as_waiting op (option_map Answer.Plain answer) }
    ensures rows { seen desk.new.rows ≡ seen desk.old.rows }
    ensures unchecked { desk.new.unchecked ≡ desk.old.unchecked }
{
    if let Some(answer) = answer {
        push_within(&mut desk.answers, (op, Answer::Plain(answer)));
    }
}

/// Begins a call: the operation's number.
pub(crate) fn begin(
    keeper: &mut Kept,
    desk: &mut Desk,
    call: &Call<Entry>,
) -> Result<u64, EventFault>
    ensures { IsBegin call.now (seat_at keeper.old desk.old) result (seat_at keeper.new desk.new) }
{
    let op = keeper.begun() + 1;
    if let Err(fault) = make_room(desk) {
        return Err(fault);
    }
    let Ok(line) = rows_made::begun(&desk.rows, op, call) else {
        return Err(EventFault::NoMemory);
    };
    match keeper.begin(call) {
        Ok(answers) => {
            tell(desk, op, line, answers);
            Ok(op)
        }
        Err(fault) => Err(fault),
    }
}

/// An operation looks at the client's caches.
pub(crate) fn look(keeper: &mut Kept, desk: &mut Desk, op: u64) -> Result<(), EventFault>
    ensures { IsOwnLook op (seat_at keeper.old desk.old) result (seat_at keeper.new desk.new) }
{
    if let Err(fault) = make_room(desk) {
        return Err(fault);
    }
    let line = rows_made::looked(&desk.rows);
    match keeper.look(op) {
        Ok(answers) => {
            tell(desk, op, line, answers);
            Ok(())
        }
        Err(fault) => Err(fault),
    }
}

/// The row of what an operation is about to ask waits too.
fn note_asked(desk: &mut Desk, op: u64, request: &Request) -> Result<(), EventFault>
    ensures answers { desk.new.answers ≡ desk.old.answers }
    ensures unchecked { desk.new.unchecked ≡ desk.old.unchecked }
    ensures ok { OnOk result (seen desk.new.rows ≡ adds (seen desk.old.rows) (asked_line op request.now)) }
    ensures unchanged { OnErr result (seen desk.new.rows ≡ seen desk.old.rows) }
    ensures err { IfErr result (λ fault. fault ≡ EventFault.NoMemory) }
{
    let Ok(()) = rows_kept::make_room(&mut desk.rows) else {
        return Err(EventFault::NoMemory);
    };
    let Ok(line) = rows_made::asked(&desk.rows, op, request) else {
        return Err(EventFault::NoMemory);
    };
    note_line(&mut desk.rows, line);
    Ok(())
}

/// An operation is about to ask the store what it asks for.
pub(crate) fn asking(keeper: &Kept, desk: &mut Desk, op: u64) -> Result<(), EventFault>
    ensures { IsOwnAsking op (seat_at keeper.now desk.old) result (seat_at keeper.now desk.new) }
{
    match keeper.asks(op) {
        None => Err(EventFault::UnknownNumber),
        Some(Ask::Look) => Err(EventFault::NotAsked),
        Some(Ask::Store(request)) => note_asked(desk, op, request),
    }
}

/// An operation takes the store's reply.
fn receive(keeper: &mut Kept, desk: &mut Desk, op: u64, reply: Reply) -> Result<(), EventFault>
    requires serves { SaysFailed reply → ⊥ }
    ensures { IsOwnTake op reply (seat_at keeper.old desk.old) result (seat_at keeper.new desk.new) }
{
    if let Err(fault) = make_room(desk) {
        return Err(fault);
    }
    let Ok(line) = rows_made::replied(&desk.rows, op, &reply) else {
        return Err(EventFault::NoMemory);
    };
    match keeper.reply(op, reply) {
        Ok(answers) => {
            tell(desk, op, line, answers);
            Ok(())
        }
        Err(fault) => Err(fault),
    }
}

/// An operation's store call failed.
fn fail(keeper: &mut Kept, desk: &mut Desk, op: u64, reply: Reply) -> Result<(), EventFault>
    requires failed { SaysFailed reply }
    ensures { IsOwnTake op reply (seat_at keeper.old desk.old) result (seat_at keeper.new desk.new) }
{
    if let Some(fault) = keeper.reply_refusal(op, &reply) {
        return Err(fault);
    }
    if let Err(fault) = make_room(desk) {
        return Err(fault);
    }
    let Ok(line) = rows_made::failed(&desk.rows, op) else {
        return Err(EventFault::NoMemory);
    };
    match keeper.failed(op) {
        Ok((_, answers)) => {
            tell(desk, op, line, answers);
            Ok(())
        }
        Err(fault) => Err(fault),
    }
}

/// An operation is given up.
pub(crate) fn give_up(keeper: &mut Kept, desk: &mut Desk, op: u64) -> Result<(), EventFault>
    ensures { IsOwnGiveUp op (seat_at keeper.old desk.old) result (seat_at keeper.new desk.new) }
{
    let Ok(()) = rows_kept::make_room(&mut desk.rows) else {
        return Err(EventFault::NoMemory);
    };
    let Ok(line) = rows_made::given_up(&desk.rows, op) else {
        return Err(EventFault::NoMemory);
    };
    match keeper.give_up(op) {
        Ok(left) => {
            drop(left);
            note_line(&mut desk.rows, line);
            Ok(())
        }
        Err(fault) => Err(fault),
    }
}

/// An operation takes the store's reply, or that its store call failed.
pub(crate) fn take(
    keeper: &mut Kept,
    desk: &mut Desk,
    op: u64,
    reply: Reply,
) -> Result<(), EventFault>
    ensures { IsOwnTake op reply (seat_at keeper.old desk.old) result (seat_at keeper.new desk.new) }
{
    if has_failed(&reply) {
        fail(keeper, desk, op, reply)
    } else {
        receive(keeper, desk, op, reply)
    }
}

/// Whether an operation of this number is unchecked.
pub(crate) fn is_unchecked(keeper: &Kept, desk: &Desk, op: u64) -> bool
    ensures { result ≡ is_unchecked (seat_at keeper.now desk.now) op }
{
    match keeper.asks(op) {
        Some(Ask::Look) => false,
        Some(Ask::Store(_)) => false,
        None => desk.unchecked.runs(op),
    }
}

/// An unchecked operation takes the store's reply, or none for a look.
pub(crate) fn turn_unchecked(
    keeper: &Kept,
    desk: &mut Desk,
    op: u64,
    reply: Option<Reply>,
) -> Result<(), EventFault>
    ensures { IsUncheckedTurn op reply (seat_at keeper.now desk.old) result (seat_at keeper.now desk.new) }
{
    if let Err(fault) = make_room(desk) {
        return Err(fault);
    }
    match desk.unchecked.take(op, reply) {
        Ok(answer) => {
            tell_plain(desk, op, answer);
            Ok(())
        }
        Err(fault) => Err(fault),
    }
}
