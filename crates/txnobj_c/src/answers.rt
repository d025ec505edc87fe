//! How an operation ended.
ghost use Rattle.std.specs.Prelude.{◌≡◌, is_some};
ghost use Rattle.txnobj_c.specs.Clients.{asked_in, answer_in, LetsGo};
ghost use Rattle.txnobj_c.specs.Copied.{copied_into, bytes_answered, ids_answered};
ghost use Rattle.txnobj_c.specs.Told.{told_of};
ghost use Rattle.txn_machine.specs.plain.Doing.{asks_as};
ghost use Rattle.std.specs.Option.{option_copied};

use crate::calls::{DONE, UNKNOWN};
use crate::client::Client;
use crate::copied::{bytes_answered, copy_bytes, copy_ids, ids_answered};
use crate::told::{Answered, answer_told, runs};
use std::alloc::Global;
use txn_history::event::Answer;
use txn_script_lines::values::entry::Entry;
use txn_steps::boundary::ask::Ask;

/// Whether an operation that asks for this, or for nothing, runs.
fn is_running(ask: Option<Ask<'_>>) -> bool
    ensures { result ≡ is_some (asks_as ask.entry) }
{
    match ask {
        None => false,
        Some(Ask::Look) => true,
        Some(Ask::Store(_)) => true,
    }
}

/// Says how an operation ended, or that it runs; the code of it.
fn say(answer: Option<&Answer<Entry>>, running: bool, out: &mut Answered) -> u8
    ensures { (result, out.new) ≡ told_of (option_copied answer.entry) running out.old }
{
    match answer {
        Some(answer) => {
            *out = answer_told(answer);
            DONE
        }
        None if running => {
            *out = runs();
            DONE
        }
        None => UNKNOWN,
    }
}

/// Says how an operation ended, or that it runs. Code 1 for one that is not there, was given up or let go.
#[unsafe(no_mangle)]
pub extern "C" fn txnobj_answered(
    alloc: Global,
    client: &mut Client,
    op: u64,
    out: &mut Answered,
) -> u8
    ensures client { client.new.value ≡ client.old.value }
    ensures told { (result, out.new) ≡ told_of (answer_in client.old.value op) (is_some (asked_in client.old.value op)) out.old }
{
    let Some(seat) = client.take(alloc) else {
        return UNKNOWN;
    };
    let code = say(seat.answer(op), is_running(seat.asks(op)), out);
    client.put(alloc, seat);
    code
}

/// Copies the bytes of the value that was answered, into as many bytes as it has. Whether it did.
#[unsafe(no_mangle)]
pub extern "C" fn txnobj_answered_bytes(
    alloc: Global,
    client: &mut Client,
    op: u64,
    out: &mut [u8],
) -> bool
    ensures client { client.new.value ≡ client.old.value }
    ensures copied { (result, out.new) ≡ copied_into (bytes_answered (answer_in client.old.value op)) out.old }
{
    let Some(seat) = client.take(alloc) else {
        return false;
    };
    let done = copy_bytes(bytes_answered(seat.answer(op)), out);
    client.put(alloc, seat);
    done
}

/// Copies the ids that were answered, into as many numbers as there are. Whether it did.
#[unsafe(no_mangle)]
pub extern "C" fn txnobj_answered_ids(
    alloc: Global,
    client: &mut Client,
    op: u64,
    out: &mut [u64],
) -> bool
    ensures client { client.new.value ≡ client.old.value }
    ensures copied { (result, out.new) ≡ copied_into (ids_answered (answer_in client.old.value op)) out.old }
{
    let Some(seat) = client.take(alloc) else {
        return false;
    };
    let done = copy_ids(ids_answered(seat.answer(op)), out);
    client.put(alloc, seat);
    done
}

/// Lets the answer of an operation go. Code 1 where none waits.
#[unsafe(no_mangle)]
pub extern "C" fn txnobj_end(alloc: Global, client: &mut Client, op: u64) -> u8
    ensures { LetsGo op client.old.value result client.new.value }
{
    let Some(mut seat) = client.take(alloc) else {
        return UNKNOWN;
    };
    let waited = seat.as_mut().let_go(op);
    client.put(alloc, seat);
    if waited { DONE } else { UNKNOWN }
}
