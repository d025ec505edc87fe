//! The commands.

use crate::audit::audit;
use crate::bench::bench;
use crate::drawn::{picture, trace};
use crate::ending::{Halt, NOTHING, reason};
use crate::opened::{open, other_root, root_of, store_of};
use crate::printed::{
    print_claim, print_collected, print_first, print_history, print_ids, print_newest, print_put,
    print_put_on, print_value,
};
use crate::values::bytes_of;
use crate::watch::watch;
use std::time::{Duration, SystemTime};
use txn_folder::repair::Repair;
use txn_folder_files::beside::examine_beside;
use txn_folder_files::doctor::{Report, examine};
use txn_history::event::{Answer, Call, PlainAnswer};
use txn_script_lines::printed::Answered;
use txn_script_lines::text_form::TextForm;
use txn_script_lines::values::entry::{Entry, EntryCodec};
use txn_store::types::id::MonotonicId;
use txnobj::protocol::TransactionalStorageProtocol;
use txnobj_folder::clock::MachineClock;
use txnobj_folder::opening::EntryClient;
use txnobj_words::lines::print_number;
use txnobj_words::options::{Command, Options, Source};
use txnobj_words::repaired::print_repaired;

/// The number of a refusal for want of memory.
const NO_MEMORY: u8 = 9;

/// Does what the words ask for: the status.
///
/// # Errors
///
/// What stops the command, as its own function says.
pub fn run(rt: &HostRuntime, options: &Options<'_>) -> Result<u8, Halt> {
    if options.diary.is_some() && !options.command.is_of_client() {
        return Err(Halt::Words("this command records nothing: leave out --diary"));
    }
    match &options.command {
        Command::Audit {
            diaries,
            clock_error,
        } => audit(rt, diaries.as_slice(), *clock_error),
        Command::Trace(drawing) => trace(rt, drawing),
        Command::Picture(drawing) => picture(rt, drawing),
        Command::Doctor { beside } => doctor(rt, options, *beside),
        Command::Clean(seconds) => clean(rt, options, *seconds),
        Command::Repair => repair(rt, options),
        Command::Bench { times, lists } => bench(rt, options, *times, *lists),
        command => of_client(rt, &mut open(rt, options)?, command),
    }
}

/// What a client does for a command. Where memory lacked in the middle of a call, and not of its answer, it has ended.
fn of_client(
    rt: &HostRuntime,
    client: &mut EntryClient,
    command: &Command<'_>,
) -> Result<u8, Halt> {
    match done(rt, client, command) {
        Err(Halt::Refused(NO_MEMORY)) if !client.goes_on() => Err(Halt::NoMemory),
        done => done,
    }
}

/// What a client does for a command: the status.
fn done(rt: &HostRuntime, client: &mut EntryClient, command: &Command<'_>) -> Result<u8, Halt> {
    let alloc = rt.alloc();
    let out = &mut rt.stdout();
    match command {
        Command::Init(value) => print_first(alloc, out, client, bytes_of(rt, *value)?)?,
        Command::Get { id: true } => print_newest(alloc, out, client)?,
        Command::Get { id: false } => print_value(alloc, out, client)?,
        Command::Put { value, base, epoch } => put(rt, client, *value, *base, *epoch)?,
        Command::Claim { epoch } => claim(rt, client, *epoch)?,
        Command::List => print_ids(alloc, out, client)?,
        Command::History => print_history(alloc, out, client)?,
        Command::Watch { after, seconds } => return watch(rt, client, *after, *seconds),
        Command::Advance(id) => advance(client, *id)?,
        Command::Delete(id) => client.delete(MonotonicId::new(*id))?,
        Command::Collect => print_collected(alloc, out, client)?,
        Command::Shell => shell(rt, client)?,
        _ => return Err(Halt::Words("this is no command of a client")),
    }
    Ok(0)
}

/// Writes a version on this base, or on the newest.
fn put(
    rt: &HostRuntime,
    client: &mut EntryClient,
    value: Source<'_>,
    base: Option<u64>,
    epoch: Option<u64>,
) -> Result<(), Halt> {
    let value = bytes_of(rt, value)?;
    match base {
        Some(base) => print_put_on(rt.alloc(), &mut rt.stdout(), client, base, epoch, &value),
        None => print_put(rt.alloc(), &mut rt.stdout(), client, epoch, &value),
    }
}

/// Claims an epoch by one call, which goes on after conflicts by itself.
fn claim(rt: &HostRuntime, client: &mut EntryClient, epoch: Option<u64>) -> Result<(), Halt> {
    let mut clock = MachineClock::new(rt)?;
    client.set_attempts(1);
    print_claim(rt.alloc(), &mut rt.stdout(), client, &mut clock, epoch)
}

/// Raises the boundary to an id below the newest.
fn advance(client: &mut EntryClient, id: u64) -> Result<(), Halt> {
    let newest = client.try_read_latest()?;
    drop(newest);
    client.advance(MonotonicId::new(id))?;
    Ok(())
}

/// Prints an answer, and why the store failed, where it says so.
fn say_answer(rt: &HostRuntime, client: &EntryClient, answer: &Answer<Entry>) -> Result<(), Halt> {
    rt.println(Answered(answer))?;
    if let (Answer::Plain(PlainAnswer::Refused(2)), Some(fault)) = (answer, client.fault()) {
        rt.eprintln(Halt::Call(fault))?;
    }
    Ok(())
}

/// Makes the call of a line, and prints its answer, or why it has none.
fn take_line(rt: &HostRuntime, client: &mut EntryClient, line: &str) -> Result<(), Halt> {
    let Some(call) = Call::<Entry>::read_text(rt.alloc(), line)? else {
        return Ok(rt.println("bad call")?);
    };
    match client.call(call) {
        Ok(answer) => {
            let said = say_answer(rt, client, &answer);
            drop(answer);
            said
        }
        Err(stop) => say_halt(rt, Halt::from(stop)),
    }
}

/// Makes the call of each line, and prints its answer.
fn shell(rt: &HostRuntime, client: &mut EntryClient) -> Result<(), Halt> {
    for line in rt.lines(rt.alloc()) {
        let line = line?;
        take_line(rt, client, line.as_str())?;
    }
    Ok(())
}

/// Prints why a call has no answer, where the calls of other lines go on.
fn say_halt(rt: &HostRuntime, halt: Halt) -> Result<(), Halt> {
    match halt {
        Halt::NotPermitted(fault) => {
            let why = reason(fault);
            println!(rt; "not permitted: {why}")?;
        }
        Halt::NoEnd => rt.println("refused 11 TurnsExhausted")?,
        halt => return Err(halt),
    }
    Ok(())
}

/// Tests the folder of the options, and then beside another mount of it, where the first serves alone.
fn doctor(rt: &HostRuntime, options: &Options<'_>, beside: Option<&str>) -> Result<u8, Halt> {
    let root = root_of(rt, options)?;
    let other = other_root(rt, beside)?;
    let report = examine(rt, rt.alloc(), root)?;
    let status = say_report(rt, &report)?;
    match other {
        Some(other) if status == 0 => doctor_beside(rt, root, other),
        _ => Ok(status),
    }
}

/// Tests two mounts of one folder: the status.
fn doctor_beside(rt: &HostRuntime, root: &str, other: &str) -> Result<u8, Halt> {
    let report = examine_beside(rt, rt.alloc(), root, other)?;
    rt.print(&report)?;
    if report.serves() {
        return Ok(0);
    }
    Ok(NOTHING)
}

/// Prints a report, and says whether the folder serves: the status.
fn say_report(rt: &HostRuntime, report: &Report) -> Result<u8, Halt> {
    rt.print(report)?;
    match report.first_failed() {
        None => Ok(0),
        Some(_) => Ok(NOTHING),
    }
}

/// Removes what writers left that were killed.
fn clean(rt: &HostRuntime, options: &Options<'_>, seconds: u64) -> Result<u8, Halt> {
    let mut store = store_of(rt, options)?;
    let now = SystemTime::now(rt)?;
    let removed = match now.checked_sub(Duration::from_secs(seconds)) {
        None => 0,
        Some(before) => store.clean(before).map_err(Halt::Store)?,
    };
    print_number(rt.alloc(), &mut rt.stdout(), removed)?;
    Ok(0)
}

/// Removes the versions above the newest that is a value, and says which.
fn repair(rt: &HostRuntime, options: &Options<'_>) -> Result<u8, Halt> {
    let store = store_of(rt, options)?;
    match store.repair(rt.alloc(), &EntryCodec)? {
        Repair::Kept(why) => Err(Halt::Kept(why)),
        Repair::Removed { newest, removed } => {
            print_repaired(rt.alloc(), &mut rt.stdout(), newest, removed.as_slice())?;
            Ok(0)
        }
    }
}
