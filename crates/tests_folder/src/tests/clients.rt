//! A client over a store in memory and with a recorder, of which a letter is kept for each thing that happens to either.

use std::alloc::{AllocError, AllocGlobal, Global};
use std::cell::Cell;
use std::io;
use std::io::ErrorKind;
use std::test::Fail;
use txn_history::event::{Answer, Call};
use txn_script_lines::printed::Answered;
use txn_script_lines::record::{Record, RecordCodec, RecordEpoch};
use txn_script_lines::text_form::TextForm;
use txn_store::in_memory::InMemory;
use txn_store::request::{Reply, Request};
use txnobj::clients::client::Client;
use txnobj::clients::recorder::Recorder;
use txnobj::clients::serve::Serve;
use txnobj::clients::stop::Stop;

/// The most looks and store calls of a call.
const STEPS: u64 = 50;

/// What happens, a letter for each thing: what a recorder is handed, and the calls of a store. None while one is added.
type Letters = Cell<Option<String>>;

/// Adds a letter.
fn add(letters: &Letters, letter: char) -> Result<(), AllocError> {
    let Some(mut text) = letters.take() else {
        return Err(AllocError);
    };
    let added = text.push(letter);
    letters.set(Some(text));
    added
}

/// A store in memory, as what a client calls, which adds a letter for each call.
#[derive(Drop)]
struct Memory<'a> {
    store: InMemory,
    letters: &'a Letters,
}

// What a call leaves in it follows from the request and the reply.
impl Serve for Memory<'_> {
    ghost use Rattle.std.specs.Prelude.{◌≡◌};
    ghost use Rattle.txn_store.specs.MemoryServes.{memory_after};

    ghost serves = { λ old request reply new. new.store.memory ≡ memory_after request reply old.store.memory };

    fn serve(&mut self, alloc: Global, request: &Request) -> Reply {
        let _ = add(self.letters, 's');
        self.store.serve(alloc, request)
    }
}

/// Adds a letter for each thing that it is handed, and fails at the one before which so many others come.
#[derive(Drop)]
struct Noting<'a> {
    letters: &'a Letters,
    left: u64,
}

impl Noting<'_> {
    fn note(&mut self, letter: char) -> io::Result<()> {
        match self.left.checked_sub(1) {
            Some(left) => self.left = left,
            None => return Err(io::Error::from(ErrorKind::Other)),
        }
        add(self.letters, letter)?;
        Ok(())
    }
}

impl Recorder<Record> for Noting<'_> {
    ghost hands = { λ _ _ _. Unit {0} };

    fn begun(&mut self, _op: u64, _call: &Call<Record>) -> io::Result<()> {
        self.note('b')
    }

    fn asked(&mut self, _op: u64, _request: &Request) -> io::Result<()> {
        self.note('?')
    }

    fn replied(&mut self, _op: u64, _reply: &Reply) -> io::Result<()> {
        self.note('!')
    }

    fn failed(&mut self, _op: u64) -> io::Result<()> {
        self.note('f')
    }

    fn gave_up(&mut self, _op: u64) -> io::Result<()> {
        self.note('g')
    }

    fn answered(&mut self, _op: u64, _answer: &Answer<Record>) -> io::Result<()> {
        self.note('a')
    }
}

type Recorded<'a> = Client<Record, RecordCodec, RecordEpoch, Memory<'a>, Noting<'a>>;

/// A client whose recorder fails after so many things.
fn client<'a>(alloc: Global, letters: &'a Letters, left: u64) -> Result<Recorded<'a>, AllocError> {
    let store = InMemory::new(alloc);
    let store = Memory { store, letters };
    let recorder = Noting { letters, left };
    Client::new(alloc, 1, RecordCodec, RecordEpoch, 1_000, store, recorder)
}

/// What a call is answered.
fn told(alloc: Global, client: &mut Recorded<'_>, words: &str) -> Result<String, AllocError> {
    let Some(call) = Call::read_text(alloc, words)? else {
        return String::from_str(alloc, "no call");
    };
    match client.call(call, STEPS) {
        Ok(answer) => {
            let answered = Answered(&answer);
            format!(in alloc; "{answered}")
        }
        Err(stop) => format!(in alloc; "{stop}"),
    }
}

/// The calls of a table, a line each, with what they are answered.
fn played(alloc: Global, client: &mut Recorded<'_>, table: &str) -> Result<String, AllocError> {
    let mut text = String::new(alloc);
    for line in table.lines() {
        let (call, _) = line.split_once(" = ").unwrap_or((line, ""));
        let answer = told(alloc, client, call)?;
        let row = format!(in alloc; "{call} = {answer}\n")?;
        text.push_str(row.as_str())?;
    }
    Ok(text)
}

const CALLS: &str = "init 0:1 = view 1 at 1 0:1
claim 1 = holder 1 at 2 1:1 epoch 1
write - 0:1 = refused 5 ObjectVersionExists
";

/// What happens with these, the store called after each thing that is asked: a put and a get of the boundary for each of the
/// first two; the third finds the name taken.
const LETTERS: &str = "b?s!?s!ab?s!?s!ab?s!a";

/// What happens where a recorder fails after so many things: nothing more, and no further call is made. The store is called for
/// what the recorder has alone.
const FAILING: &str = "0 unrecorded false
1 unrecorded b false
2 unrecorded b?s false
3 unrecorded b?s! false
4 unrecorded b?s!?s false
5 unrecorded b?s!?s! false
6 answered b?s!?s!a true
";

/// No letters.
fn none(alloc: Global) -> Letters {
    Cell::new(Some(String::new(alloc)))
}

/// What the calls of a table are answered, what happens with them, and whether the client goes on.
fn recorded(alloc: Global, table: &str) -> Result<String, AllocError> {
    let letters = none(alloc);
    let mut client = client(alloc, &letters, u64::MAX)?;
    let text = played(alloc, &mut client, table)?;
    let goes_on = client.goes_on();
    drop(client);
    let letters = letters.take().unwrap_or(String::new(alloc));
    format!(in alloc; "{text}{letters} {goes_on}")
}

/// How a call ends whose client's recorder fails after so many things.
fn ended(alloc: Global, letters: &Letters, left: u64) -> Result<(&'static str, bool), AllocError> {
    let mut client = client(alloc, letters, left)?;
    let Some(call) = Call::read_text(alloc, "init 0:1")? else {
        return Ok(("no call", false));
    };
    let ended = match client.call(call, STEPS) {
        Ok(_) => "answered",
        Err(Stop::Unrecorded(_)) => "unrecorded",
        Err(_) => "stopped",
    };
    Ok((ended, client.goes_on()))
}

/// The same as a row, with what happened.
fn failing(alloc: Global, left: u64) -> Result<String, AllocError> {
    let letters = none(alloc);
    let (ended, goes_on) = ended(alloc, &letters, left)?;
    let letters = letters.take().unwrap_or(String::new(alloc));
    let happened = if letters.is_empty() { "" } else { " " };
    format!(in alloc; "{left} {ended}{happened}{letters} {goes_on}\n")
}

/// The rows of all.
fn all_failing(alloc: Global) -> Result<String, AllocError> {
    let mut text = String::new(alloc);
    for left in 0..7 {
        let row = failing(alloc, left)?;
        text.push_str(row.as_str())?;
    }
    Ok(text)
}

/// Ten versions, one after another.
const VERSIONS: &str = "init 0:1
update 1 0:2
update 1 0:3
update 1 0:4
update 1 0:5
update 1 0:6
update 1 0:7
update 1 0:8
update 1 0:9
update 1 0:10
";

/// A base that is older than what the client keeps is not known, and a view is not there that it let go.
const FORGOTTEN: &str = "write 2 0:11 = the client does not permit the call: fault 3
refresh 1 = view 1 at 10 0:10
the client does not permit the call: fault 1";

/// What a client is answered that keeps the id of its last answer alone, and then lets its view go.
fn forgetful(alloc: Global) -> Result<String, AllocError> {
    let letters = none(alloc);
    let mut client = client(alloc, &letters, u64::MAX)?;
    client.keep_last(1);
    drop(played(alloc, &mut client, VERSIONS)?);
    let text = played(alloc, &mut client, "write 2 0:11\nrefresh 1")?;
    client.end_view(1);
    let gone = told(alloc, &mut client, "refresh 1")?;
    format!(in alloc; "{text}{gone}")
}

#[test]
fn client_forgets_what_it_does_not_need(rt: HostRuntime) -> Result<(), Fail> {
    assert_eq!(rt; forgetful(rt.alloc())?.as_str(), FORGOTTEN);
    Ok(())
}

#[test]
fn calls_are_answered_and_recorded(rt: HostRuntime) -> Result<(), Fail> {
    let expected = format!(in rt.alloc(); "{CALLS}{LETTERS} true")?;
    assert_eq!(rt; recorded(rt.alloc(), CALLS)?.as_str(), expected.as_str());
    Ok(())
}

#[test]
fn recorder_that_fails_ends_its_client(rt: HostRuntime) -> Result<(), Fail> {
    assert_eq!(rt; all_failing(rt.alloc())?.as_str(), FAILING);
    Ok(())
}
