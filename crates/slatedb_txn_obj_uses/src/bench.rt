//! Each workload's figure, and the lines of the commands.
ghost use Rattle.std.specs.Prelude.{◌≡◌, ◌≤◌, Some, OnOk, IfOk};
ghost use Rattle.slatedb_txn_obj_uses.specs.Printed.{figure_text, passed_text, PrintsLine, Prints};

use crate::command::Command;
use crate::fault::{Fault, Halt};
use crate::rounds::{ROUNDS, middle_of, nanos_a_call};
use crate::setting::Setting;
use crate::workload::Workload;
use std::alloc::Global;
use std::io::Write;
use std::time::{Clock, Duration, Instant};
use std::{fmt, io};

/// How many calls of each workload `check` makes.
const FEW: u64 = 3;

/// The nanoseconds of a workload's call.
#[derive(Drop)]
struct Figure {
    workload: Workload,
    nanos: u128,
}

impl fmt::Display for Figure {
    ghost output = { λ figure. Some (figure_text figure.workload figure.nanos) };

    fn fmt<W: fmt::Write>(&self, f: &mut fmt::Formatter<W>) -> fmt::Result {
        write!(f, "{} {}", self.workload, self.nanos)
    }
}

/// A workload whose calls were made, each with the right answer.
#[derive(Drop)]
struct Passed(Workload);

impl fmt::Display for Passed {
    ghost output = { λ passed. Some (passed_text passed.0) };

    fn fmt<W: fmt::Write>(&self, f: &mut fmt::Formatter<W>) -> fmt::Result {
        write!(f, "{} ok", self.0)
    }
}

/// What the clock shows.
fn now(clock: &impl Clock) -> Result<Instant, Fault> {
    match Instant::now(clock) {
        Ok(now) => Ok(now),
        Err(_) => Err(Fault::ClockFailed),
    }
}

/// The time that so many calls take.
fn time_of_calls(
    clock: &impl Clock,
    setting: &mut Setting,
    workload: Workload,
    calls: u64,
) -> Result<Duration, Fault> {
    let start = now(clock)?;
    setting.perform(workload, calls)?;
    Ok(now(clock)?.duration_since(start))
}

/// The time that so many calls take, in a new store. The time of what they stand on is not counted.
fn time_in_a_store(
    clock: &impl Clock,
    alloc: Global,
    workload: Workload,
    calls: u64,
) -> Result<Duration, Fault> {
    let mut setting = Setting::new(alloc, workload.versions())?;
    time_of_calls(clock, &mut setting, workload, calls)
}

/// The time that the calls of a round take.
fn time_of_round(clock: &impl Clock, alloc: Global, workload: Workload) -> Result<Duration, Fault> {
    let stores = workload.stores();
    let calls = workload.calls() / stores;
    let mut time = Duration::ZERO;
    for _ in 0..stores {
        time = time.saturating_add(time_in_a_store(clock, alloc, workload, calls)?);
    }
    Ok(time)
}

/// The nanoseconds of a workload's call: the middle of its rounds.
fn measure(clock: &impl Clock, alloc: Global, workload: Workload) -> Result<u128, Fault> {
    let calls = workload.calls();
    let mut figures = [0; ROUNDS];
    for figure in figures.iter_mut() {
        *figure = nanos_a_call(time_of_round(clock, alloc, workload)?, calls);
    }
    Ok(middle_of(&mut figures))
}

/// Makes a few calls of a workload.
fn try_out(alloc: Global, workload: Workload) -> Result<(), Fault> {
    Setting::new(alloc, workload.versions())?.perform(workload, FEW)
}

/// A run of a command: the clock that it reads, and where its memory is.
#[derive(Drop)]
struct Run<'r, R> {
    clock: &'r R,
    alloc: Global,
    command: Command,
}

impl<R: Clock> Run<'_, R> {
    /// Measures a workload, or makes a few of its calls, and prints its line.
    fn print_line<W: Write>(&self, workload: Workload, out: &mut W) -> Result<(), Fault>
        ensures { OnOk result (PrintsLine self.now.command workload (W.contents out.old) (W.contents out.new)) }
    {
        let written = match self.command {
            Command::Run => {
                let nanos = measure(self.clock, self.alloc, workload)?;
                out.writeln(Figure { workload, nanos })
            }
            Command::Check => {
                try_out(self.alloc, workload)?;
                out.writeln(Passed(workload))
            }
        };
        match written {
            Ok(()) => Ok(()),
            Err(_) => Err(Fault::WriteFailed),
        }
    }

    /// The same, flushed, and the workload is named where it stops.
    fn print_or_halt<W: Write>(&self, workload: Workload, out: &mut W) -> Result<(), Halt>
        ensures { OnOk result (PrintsLine self.now.command workload (W.contents out.old) (W.contents out.new)) }
    {
        if let Err(fault) = self.print_line(workload, out) {
            return Err(Halt { workload, fault });
        }
        match out.flush() {
            Ok(()) => Ok(()),
            Err(_) => Err(Halt {
                workload,
                fault: Fault::WriteFailed,
            }),
        }
    }

    /// Prints the line of each workload, in the order in which they are declared.
    fn print_lines<W: Write>(&self, out: &mut W) -> Result<(), Halt>
        ensures { OnOk result (Prints self.now.command (W.contents out.old) (W.contents out.new)) }
    {
        self.print_or_halt(Workload::Update, out)?;
        self.print_or_halt(Workload::ReadWarm, out)?;
        self.print_or_halt(Workload::LoadCold100, out)?;
        self.print_or_halt(Workload::List10000, out)?;
        self.print_or_halt(Workload::LoadClaimFresh, out)
    }
}

/// The same as `run_command`. The only error is that of `err`.
fn run_or_name<R: Clock, W: Write, E: Write>(
    clock: &R,
    alloc: Global,
    command: Command,
    out: &mut W,
    err: &mut E,
) -> io::Result<u8>
    ensures status { IfOk result (λ status. status ≤ 1) }
    ensures silent { IfOk result (λ status. status ≡ 0 → err.new ≡ err.old) }
    ensures done { IfOk result (λ status. status ≡ 0 → Prints command (W.contents out.old) (W.contents out.new)) }
{
    let run = Run {
        clock,
        alloc,
        command,
    };
    match run.print_lines(out) {
        Ok(()) => Ok(0),
        Err(halt) => {
            err.writeln(halt)?;
            Ok(1)
        }
    }
}

/// Prints the line of each workload, and gives the exit status: 0, or 1 where one stops, which is then named on `err`. The
/// lines before it stand.
pub fn run_command<R: Clock, W: Write, E: Write>(
    clock: &R,
    alloc: Global,
    command: Command,
    out: &mut W,
    err: &mut E,
) -> u8
    ensures status { result ≤ 1 }
    // Nothing is said where nothing went wrong.
    ensures silent { result ≡ 0 → err.new ≡ err.old }
    ensures done { result ≡ 0 → Prints command (W.contents out.old) (W.contents out.new) }
{
    // Nothing is left to tell a failure of `err` to.
    run_or_name(clock, alloc, command, out, err).unwrap_or(1)
}
