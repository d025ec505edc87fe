//! A run of workers on threads, round one world and then with diaries round one store, and what it prints.

ghost use Rattle.std.specs.Prelude.{◌≡◌, ◌≤◌, ◌⊎◌, Some, Bool, IfOk, IfErr};
ghost use Rattle.std.specs.Io.KnownBytes.{Appends};
ghost use Rattle.txn_script_lines.specs.declared.stop.Stop.TheVariants as stops;
ghost use Rattle.txnworld_commands.specs.Threads.{tally_text, audit_text, report_text, says_begun, says_answered, begun_count, answered_count};
ghost use Rattle.txnworld_commands.specs.Tallies.{AgreeAs, Tallies, IsTally, IsHaltOf};
ghost use Rattle.txnworld_commands.specs.Reports.{IsReport, PrintsReport, Halts, NamesHalt};

use crate::diaries::run_diaries;
use crate::halt::Halt;
use crate::workers::work_off;
use std::alloc::Global;
use std::io::Write;
use std::sync::{Mutex, Wait};
use std::thread::Threads;
use std::{fmt, io};
use txn_client_journals::fault::AuditFault;
use txn_history::trace::Row;
use txn_script::printer::Printer;
use txn_script_lines::record::{Record, RecordCodec, RecordEpoch};
use txn_script_lines::stop::Stop;
use txn_store::types::layout::PAGE;
use txn_world::world::World;
use txn_world_threads::finish::finish;
use txn_world_threads::kept::{Kept, Share};

/// What a run of workers left.
#[derive(Clone, Copy, Debug, PartialEq, Eq)]
pub struct Tally {
    pub workers: u64,
    /// How many calls began.
    pub calls: u64,
    /// How many calls were answered.
    pub answers: u64,
    /// How many versions the history has.
    pub history: u64,
    /// Whether the world has as many clients as there are workers, and each worker's count is that of its rows in the journal.
    pub agree: bool,
}

/// Its lines, of which the last lacks its line feed.
impl fmt::Display for Tally {
    ghost output = { λ tally. Some (tally_text tally) };

    fn fmt<W: fmt::Write>(&self, f: &mut fmt::Formatter<W>) -> fmt::Result {
        let Tally {
            workers,
            calls,
            answers,
            history,
            agree,
        } = *self;
        let verdict = if agree { "agree" } else { "differ" };
        write!(
            f,
            "workers {workers}\ncalls {calls}\nanswers {answers}\nhistory {history}\ncounts {verdict}"
        )
    }
}

/// Whether an audit agrees, as a line shows it.
#[derive(Clone, Copy)]
struct Verdict(Result<(), AuditFault>);

impl fmt::Display for Verdict {
    ghost output = { λ verdict. Some (audit_text verdict.0) };

    fn fmt<W: fmt::Write>(&self, f: &mut fmt::Formatter<W>) -> fmt::Result {
        match self.0 {
            Ok(()) => write!(f, "ok"),
            Err(fault) => write!(f, "fault {}", fault.number()),
        }
    }
}

/// What both passes of a run left.
#[derive(Clone, Copy, Debug, PartialEq, Eq)]
pub struct Report {
    /// What the workers round one world left.
    pub tally: Tally,
    /// What an audit finds of the clients that share only a store.
    pub audit: Result<(), AuditFault>,
}

impl Report {
    ghost use Rattle.std.specs.Prelude.{◌≡◌};
    ghost use Rattle.txnworld_commands.specs.Threads.{passes};

    /// Whether the counts and the audit agree.
    fn passes(&self) -> bool
        ensures { result ≡ passes self.now }
    {
        self.tally.agree && self.audit.is_ok()
    }
}

/// Its lines, of which the last lacks its line feed.
impl fmt::Display for Report {
    ghost output = { λ report. Some (report_text report) };

    fn fmt<W: fmt::Write>(&self, f: &mut fmt::Formatter<W>) -> fmt::Result {
        let Report { tally, audit } = *self;
        let verdict = Verdict(audit);
        write!(f, "{tally}\naudit {verdict}")
    }
}

/// Whether a row says that a call began.
fn says_begun(row: &Row<Record>) -> bool
    ensures { result ≡ says_begun row.now }
{
    matches!(row, Row::Begun(_, _))
}

/// Whether a row says that a call was answered.
fn says_answered(row: &Row<Record>) -> bool
    ensures { result ≡ says_answered row.now }
{
    matches!(row, Row::Answered(_, _))
}

/// How many rows say that a call began, and how many that one was answered.
fn counted(rows: &[Row<Record>]) -> (u64, u64)
    ensures begun { result.0 ≡ begun_count rows.now }
    ensures answered { result.1 ≡ answered_count rows.now }
{
    let mut calls = 0;
    let mut answers = 0;
    for row in rows {
        if says_begun(row) {
            calls += 1;
        }
        if says_answered(row) {
            answers += 1;
        }
    }
    (calls, answers)
}

/// Whether the shares finish the kept world.
fn counts_agree(kept: Kept<Record, RecordCodec, RecordEpoch>, shares: Vec<Share>) -> bool
    ensures { AgreeAs kept shares.items result }
{
    finish(kept, shares).is_ok()
}

/// What the workers of these shares left.
fn tally_of(
    alloc: Global,
    workers: u64,
    kept: Kept<Record, RecordCodec, RecordEpoch>,
    shares: Vec<Share>,
) -> Result<Tally, Stop>
    ensures ok { IfOk result (Tallies workers kept shares.items) }
    ensures err { IfErr result (λ stop. stop ≡ stops.NoMemory) }
{
    let (calls, answers) = counted(kept.world().trace());
    let Ok(entries) = kept.world().entries(alloc) else {
        return Err(Stop::NoMemory);
    };
    let history = entries.len() as u64;
    let each_has_one = kept.world().clients() == workers;
    let counts = counts_agree(kept, shares);
    Ok(Tally {
        workers,
        calls,
        answers,
        history,
        agree: counts && each_has_one,
    })
}

/// Lets so many workers work at the same time round one world, each as a client of its own.
fn run_workers<R: Threads + Wait + Sync>(rt: &R, alloc: Global, workers: u64) -> Result<Tally, Halt>
    requires some { 1 ≤ workers }
    requires few { workers ≤ 64 }
    ensures tally { IfOk result (IsTally workers) }
    ensures halt { IfErr result (IsHaltOf workers) }
{
    let world = World::new(alloc, RecordCodec, RecordEpoch, workers, PAGE)?;
    let (kept, shares) = Kept::new(alloc, world, workers)?;
    let kept = Mutex::new(kept);
    let shares = work_off(rt, alloc, &kept, shares)?;
    Ok(tally_of(alloc, workers, kept.into_inner(), shares)?)
}

/// Lets so many workers work round one world, and then so many clients that share only a store.
fn run_both<R: Threads + Wait + Sync>(rt: &R, alloc: Global, workers: u64) -> Result<Report, Halt>
    requires some { 1 ≤ workers }
    requires few { workers ≤ 64 }
    ensures report { IfOk result (IsReport workers) }
    ensures halt { IfErr result (IsHaltOf workers) }
{
    let tally = run_workers(rt, alloc, workers)?;
    let audit = run_diaries(rt, alloc, workers)?;
    Ok(Report { tally, audit })
}

/// Runs the workers and prints what they left. Says whether their counts and the audit agree.
fn print_threads<R: Threads + Wait + Sync, W: Write>(
    rt: &R,
    alloc: Global,
    workers: u64,
    out: &mut W,
) -> Result<bool, Halt>
    requires some { 1 ≤ workers }
    requires few { workers ≤ 64 }
    ensures printed { IfOk result (λ passed. PrintsReport workers passed (W.contents out.old) (W.contents out.new)) }
    ensures halt { IfErr result (λ halt. Halts workers halt out.old out.new) }
{
    let report = run_both(rt, alloc, workers)?;
    let mut printer = Printer::new(alloc);
    printer.print_line(report)?;
    printer.write_out(out)?;
    match out.flush() {
        Ok(()) => Ok(report.passes()),
        Err(_) => Err(Halt::Stop(Stop::WriteFailed)),
    }
}

/// Runs the workers and prints what they left, or names on `err` what halted them, and gives the exit
/// status. The only error is that of `err`.
fn run_or_name<R: Threads + Wait + Sync, W: Write, E: Write>(
    rt: &R,
    alloc: Global,
    workers: u64,
    out: &mut W,
    err: &mut E,
) -> io::Result<u8>
    requires some { 1 ≤ workers }
    requires few { workers ≤ 64 }
    ensures status { IfOk result (λ status. status ≤ 1) }
    ensures silent { IfOk result (λ status. status ≡ 0 → err.new ≡ err.old) }
    ensures done { IfOk result (λ status. status ≡ 0
        → PrintsReport workers Bool.true (W.contents out.old) (W.contents out.new)) }
    // The counts or the audit do not agree, or what halted the run is named.
    ensures failed { IfOk result (λ status. status ≡ 1
        → PrintsReport workers Bool.false (W.contents out.old) (W.contents out.new)
        ⊎ NamesHalt workers out.old out.new (E.contents err.old) (E.contents err.new)) }
{
    match print_threads(rt, alloc, workers, out) {
        Ok(true) => Ok(0),
        Ok(false) => Ok(1),
        Err(halt) => {
            err.writeln(halt)?;
            Ok(1)
        }
    }
}

/// Runs so many workers on threads twice, round one world, and then each with a diary round one store, prints what they left,
/// and gives the exit status: 0, or 1 where their counts differ, where the audit of the diaries finds a fault, where a worker
/// stopped, where memory was wanting or the writer failed. The last three are named on `err`; where a worker stopped or memory
/// was wanting none of the lines is printed.
pub fn run_threads<R: Threads + Wait + Sync, W: Write, E: Write>(
    rt: &R,
    alloc: Global,
    workers: u64,
    out: &mut W,
    err: &mut E,
) -> u8
    requires some { 1 ≤ workers }
    requires few { workers ≤ 64 }
    ensures status { result ≤ 1 }
    // Nothing is said where nothing went wrong.
    ensures silent { result ≡ 0 → err.new ≡ err.old }
    // What is written is what a run of one client after another leaves, and its counts agree; and the clients of the second
    // pass shared only the store.
    ensures done { result ≡ 0 → PrintsReport workers Bool.true (W.contents out.old) (W.contents out.new) }
{
    // Nothing is left to tell a failure of `err` to.
    run_or_name(rt, alloc, workers, out, err).unwrap_or(1)
}
