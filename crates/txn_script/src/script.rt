//! The run of a script: each line in its turn, what it prints, and the end lines.

ghost use Rattle.std.specs.Prelude.{◌≡◌, ℕ, ◌≤◌, ◌++◌, ◌∷◌, [], List, Some, None, IfOk, IfErr, IfSome, IfNone, OnOk};
ghost use Rattle.std.specs.Option.{option_map};
ghost use Rattle.std.specs.Io.KnownBytes.{Appends};
ghost use Rattle.txn_script_lines.specs.declared.line.Line.{Line};
ghost use Rattle.txn_script.specs.Printed.{with_feed, pinned_line, entries_text, view_line, views_text};
ghost use Rattle.txn_script.specs.Rules.{rules_of};
ghost use Rattle.txn_script.specs.Records.{record_rules};
ghost use Rattle.txn_script.specs.Script.{IsClients, Steps, RunsOperation, PageSteps, EventSteps, MayStand, EndsWith, LeadsTo, IsPrinted, StopsAfter, RunEnds, ended_status};
ghost use Rattle.txn_script_lines.specs.Reading.{reader_of, number_of, OnBadLine};
ghost use Rattle.txn_script.specs.Reading.{OpensWorld, OpensBad};
ghost use Rattle.txn_script.specs.Printing.{held, Gathers, IsUnchanged, StopsLine, StopsWithin, StopsInEnd};
ghost use Rattle.txn_history.specs.Seen.{view_of};
ghost use Rattle.txn_machine.specs.Machine.{seen_of, seen_views};

use crate::kind::{Came, ScriptWorld};
use crate::printer::Printer;
use std::alloc::Global;
use std::io::{BufRead, BufReader, Read, Write};
use std::mem;
use txn_history::event::{Call, EventOf, Told};
use txn_script_lines::line::Line;
use txn_script_lines::lines::Lines;
use txn_script_lines::printed::{AnswerLine, Answered, BoundaryLine, EntryLine, IdsLine, ViewLine};
use txn_script_lines::record::{Record, RecordCodec, RecordEpoch};
use txn_script_lines::stop::Stop;
use txn_script_lines::text_form::{LineValue, TextForm};
use txn_store::types::layout::PAGE;
use txn_world::world::World;

/// The most clients that a script may have.
const MOST_CLIENTS: u64 = 64;

/// The most files of a page that a script may set.
const MOST_PAGE: u64 = 1000;

/// How many events a `run` makes at most.
const MOST_TURNS: u64 = 100;

/// Takes an event and prints what it is told, where that is printed. True where neither an answer nor
/// a fault was told, so that an operation that took its turn goes on.
fn take_event<T: LineValue, C: TextForm, K: ScriptWorld<T, C>>(
    world: &mut K,
    event: EventOf<C>,
    printer: &mut Printer,
) -> Result<bool, Stop>
    ensures ok { IfOk result (λ going. (text : List ℕ)
        × Steps (rules_of C.text C.fits T.text K.rules) (K.state world.old) event going text (K.state world.new)
        × Gathers printer.old printer.new text) }
    ensures err { IfErr result
        (λ stop. (stop ≡ Stop.NoMemory) × IsUnchanged printer.old printer.new) }
{
    let Ok(came) = world.take(event) else {
        return Err(Stop::NoMemory);
    };
    match came {
        Came::Told(Told::Answered(op, answer)) => {
            let answered = Answered(&answer);
            printer.print_line(AnswerLine { op, answered })?;
            Ok(false)
        }
        Came::Told(Told::Began(_)) => Ok(true),
        Came::Told(Told::Went(_)) => Ok(true),
        Came::Told(Told::GaveUp(_)) => Ok(true),
        Came::Told(Told::Landed(_, _)) => Ok(true),
        Came::Told(Told::Crashed(_)) => Ok(true),
        Came::Refused(line) => {
            printer.print_line(line)?;
            Ok(false)
        }
    }
}

/// Gives an operation what it asks for until it is answered.
fn run_operation<T: LineValue, C: TextForm, K: ScriptWorld<T, C>>(
    world: &mut K,
    op: u64,
    printer: &mut Printer,
) -> Result<(), Stop>
    ensures ok { OnOk result ((text : List ℕ)
        × RunsOperation (rules_of C.text C.fits T.text K.rules) 100 (K.state world.old) op text (K.state world.new)
        × Gathers printer.old printer.new text) }
    ensures err { IfErr result
        (λ stop. (stop ≡ Stop.NoMemory) × IsUnchanged printer.old printer.new) }
{
    for _turn in 0..MOST_TURNS {
        let event = world.next_event(op);
        if !take_event::<T, C, K>(world, event, printer)? {
            return Ok(());
        }
    }
    Ok(())
}

/// The world that a `page` line makes, directly after the line of so many clients. `bad` is its refusal where it may
/// not stand there.
fn paged<T: LineValue, C: TextForm, K: ScriptWorld<T, C>>(
    alloc: Global,
    opened: Option<u64>,
    size: u64,
    bad: Stop,
) -> Result<K, Stop>
    requires { IfSome opened IsClients }
    ensures ok { IfOk result (λ world. PageSteps opened size [] (K.state world)) }
    ensures err { IfErr result (λ stop. StopsLine {C = C} stop bad opened (Line.Page size)) }
{
    let Some(clients) = opened else {
        return Err(bad);
    };
    if size < 1 || MOST_PAGE < size {
        return Err(bad);
    }
    match K::open(alloc, clients, size) {
        Ok(world) => Ok(world),
        Err(_) => Err(Stop::NoMemory),
    }
}

/// Takes what a line says, where `opened` is how many clients the line before it has opened a world for, if it has.
/// `bad` is the line's refusal where it may not stand there.
fn take_line<T: LineValue, C: TextForm, K: ScriptWorld<T, C>>(
    alloc: Global,
    world: &mut K,
    opened: Option<u64>,
    line: Line<C>,
    bad: Stop,
    printer: &mut Printer,
) -> Result<(), Stop>
    requires { IfSome opened IsClients }
    ensures ok { OnOk result ((text : List ℕ)
        × EventSteps (rules_of C.text C.fits T.text K.rules) opened (K.state world.old) line text (K.state world.new)
        × Gathers printer.old printer.new text) }
    ensures err { IfErr result
        (λ stop. StopsLine stop bad opened line × IsUnchanged printer.old printer.new) }
{
    match line {
        Line::Clients(_) => return Err(bad),
        Line::Page(size) => {
            drop(mem::replace(world, paged::<T, C, K>(alloc, opened, size, bad)?));
        }
        Line::Event(event) => {
            take_event::<T, C, K>(world, event, printer)?;
        }
        Line::Run(op) => run_operation::<T, C, K>(world, op, printer)?,
    }
    Ok(())
}

/// Prints the entries, numbered from 1.
fn print_entries<T: LineValue, W: Write>(
    entries: &[T],
    printer: &mut Printer,
    out: &mut W,
) -> Result<(), Stop>
    ensures ok { OnOk result
        (Appends (held (W.contents out.old) printer.old) (held (W.contents out.new) printer.new)
        (entries_text T.text 1 entries.now)) }
    ensures err { IfErr result (λ stop. StopsWithin stop (entries_text T.text 1 entries.now)
        (held (W.contents out.old) printer.old) (held (W.contents out.new) printer.new)) }
{
    for (index, entry) in entries.iter().enumerate() {
        let number = index + 1;
        printer.print_line(EntryLine {
            number,
            value: entry,
        })?;
        printer.write_full(out)?;
    }
    Ok(())
}

/// Prints the line of the view of a number, where it has not ended.
fn print_view<T: LineValue, C: TextForm, K: ScriptWorld<T, C>>(
    world: &K,
    number: u64,
    printer: &mut Printer,
) -> Result<(), Stop>
    ensures ok { OnOk result (Gathers printer.old printer.new
        (view_line T.text number (view_of (seen_of (K.state world.now)) number))) }
    ensures err { IfErr result
        (λ stop. (stop ≡ Stop.NoMemory) × IsUnchanged printer.old printer.new) }
{
    match world.view(number) {
        None => Ok(()),
        Some(view) => printer.print_line(ViewLine { number, view }),
    }
}

/// Prints the lines of the views that have not ended.
fn print_views<T: LineValue, C: TextForm, K: ScriptWorld<T, C>, W: Write>(
    world: &K,
    printer: &mut Printer,
    out: &mut W,
) -> Result<(), Stop>
    ensures ok { OnOk result (Appends (held (W.contents out.old) printer.old)
        (held (W.contents out.new) printer.new) (views_text T.text 1 (seen_views (K.state world.now).views))) }
    ensures err { IfErr result (λ stop. StopsWithin stop
        (views_text T.text 1 (seen_views (K.state world.now).views))
        (held (W.contents out.old) printer.old) (held (W.contents out.new) printer.new)) }
{
    for index in 0..world.views() {
        print_view::<T, C, K>(world, index + 1, printer)?;
        printer.write_full(out)?;
    }
    Ok(())
}

/// Prints the line of what is pinned, where values pin some.
fn print_pinned(pinned: Option<Vec<u64>>, printer: &mut Printer) -> Result<(), Stop>
    ensures ok { OnOk result (Gathers printer.old printer.new (pinned_line (option_map (λ ids. ids.items) pinned))) }
    ensures err { IfErr result
        (λ stop. (stop ≡ Stop.NoMemory) × IsUnchanged printer.old printer.new) }
{
    let Some(ids) = pinned else {
        return Ok(());
    };
    printer.print_line(IdsLine::Pinned(ids))
}

/// Prints what is left at the end: the entries, the boundary, the erased ids, what is pinned where values pin some, and the
/// views as they stand.
///
/// # Errors
///
/// `WriteFailed` where the writer failed, `NoMemory` where a growth was refused. A front of the text may have been written. The
/// world is as it was.
pub fn print_end<T: LineValue, C: TextForm, K: ScriptWorld<T, C>, W: Write>(
    alloc: Global,
    world: &K,
    printer: &mut Printer,
    out: &mut W,
) -> Result<(), Stop>
    ensures ok { OnOk result ((text : List ℕ) × EndsWith (rules_of C.text C.fits T.text K.rules) (K.state world.now) text
        × Appends (held (W.contents out.old) printer.old) (held (W.contents out.new) printer.new) text) }
    ensures err { IfErr result (λ stop. StopsInEnd (rules_of C.text C.fits T.text K.rules) stop (K.state world.now)
        (held (W.contents out.old) printer.old) (held (W.contents out.new) printer.new)) }
{
    let Ok(entries) = world.entries(alloc) else {
        return Err(Stop::NoMemory);
    };
    let Ok(erased) = world.erased(alloc) else {
        return Err(Stop::NoMemory);
    };
    let Ok(pinned) = world.pinned(alloc) else {
        return Err(Stop::NoMemory);
    };
    print_entries(&entries, printer, out)?;
    printer.print_line(BoundaryLine(world.boundary()))?;
    printer.print_line(IdsLine::Erased(erased))?;
    print_pinned(pinned, printer)?;
    print_views::<T, C, K, W>(world, printer, out)
}

/// For how many clients a line opens a script, if it may stand first.
fn clients_of<T, C: TextForm>(line: Option<Line<C>>) -> Option<u64>
    ensures some { IfSome result (λ clients.
        (line ≡ Some (Line.Clients clients)) × (1 ≤ clients) × (clients ≤ 64)) }
    ensures none { IfNone result (IfSome line (λ said. ¬ (MayStand {T = T} None said))) }
{
    match line {
        Some(Line::Clients(clients)) if 1 <= clients && clients <= MOST_CLIENTS => Some(clients),
        _ => None,
    }
}

/// The world that the first line opens, and for how many clients.
fn open<T: LineValue, C: TextForm, K: ScriptWorld<T, C>, R: BufRead>(
    alloc: Global,
    lines: &mut Lines<R>,
) -> Result<(K, u64), Stop>
    ensures ok { IfOk result (λ opened. OpensWorld (rules_of C.text C.fits T.text K.rules) (R.remaining (reader_of lines.old)) (number_of lines.old)
        (R.remaining (reader_of lines.new)) (number_of lines.new) opened.1 (K.state opened.0)) }
    ensures clients { IfOk result (λ opened. IsClients opened.1) }
    ensures bad { IfErr result (λ stop. OnBadLine stop
        (OpensBad (rules_of C.text C.fits T.text K.rules) (R.remaining (reader_of lines.old)) (number_of lines.old))) }
{
    let Some(clients) = clients_of::<T, C>(lines.next_line()?) else {
        return Err(lines.bad());
    };
    match K::open(alloc, clients, PAGE) {
        Ok(world) => Ok((world, clients)),
        Err(_) => Err(Stop::NoMemory),
    }
}

/// Takes each line of a script, and prints what it is told and what is left: the world that the lines lead to.
fn play<T: LineValue, C: TextForm, K: ScriptWorld<T, C>, R: BufRead, W: Write>(
    alloc: Global,
    lines: &mut Lines<R>,
    printer: &mut Printer,
    out: &mut W,
) -> Result<K, Stop>
    requires { number_of lines.old ≡ 0 }
    ensures ok { OnOk result (IsPrinted (rules_of C.text C.fits T.text K.rules) (R.remaining (reader_of lines.old))
        (held (W.contents out.old) printer.old) (held (W.contents out.new) printer.new)) }
    ensures leads { IfOk result (λ world. LeadsTo (rules_of C.text C.fits T.text K.rules) (R.remaining (reader_of lines.old)) (K.state world)) }
    ensures stop { IfErr result (λ stop. StopsAfter (rules_of C.text C.fits T.text K.rules) stop (R.remaining (reader_of lines.old))
        (held (W.contents out.old) printer.old) (held (W.contents out.new) printer.new)) }
{
    let (mut world, clients) = open::<T, C, K, R>(alloc, lines)?;
    let mut opened = Some(clients);
    for _line in 0..u64::MAX {
        let Some(line) = lines.next_line()? else {
            print_end::<T, C, K, W>(alloc, &world, printer, out)?;
            return Ok(world);
        };
        let bad = lines.bad();
        take_line::<T, C, K>(alloc, &mut world, opened, line, bad, printer)?;
        opened = None;
        printer.write_full(out)?;
    }
    Err(Stop::ReadFailed)
}

/// Reads a script of worlds of the kind `K` and prints what it does, both through buffers: the world that its lines lead to.
///
/// # Errors
///
/// `BadLine` only where that line may not stand there: what the lines before it print is written. `ReadFailed`, `WriteFailed`
/// and `NoMemory` where the reader, the writer or a growth failed: a front of what the lines print may have been written. There
/// is no world then.
pub fn play_world<T: LineValue, C: TextForm, K: ScriptWorld<T, C>, R: Read + Drop, W: Write>(
    alloc: Global,
    reader: R,
    out: &mut W,
) -> Result<K, Stop>
    // What is written is what the script prints, and nothing else.
    ensures ok { OnOk result
        (IsPrinted (rules_of C.text C.fits T.text K.rules) (R.remaining reader) (W.contents out.old) (W.contents out.new)) }
    ensures leads { IfOk result (λ world. LeadsTo (rules_of C.text C.fits T.text K.rules) (R.remaining reader) (K.state world)) }
    ensures stop { IfErr result
        (λ stop. StopsAfter (rules_of C.text C.fits T.text K.rules) stop (R.remaining reader) (W.contents out.old) (W.contents out.new)) }
{
    let Ok(reader) = BufReader::new(alloc, reader) else {
        return Err(Stop::NoMemory);
    };
    let mut lines = Lines::new(alloc, reader);
    let mut printer = Printer::new(alloc);
    let ended = play::<T, C, K, BufReader<R>, W>(alloc, &mut lines, &mut printer, out);
    // What was printed stands, however the script ended.
    printer.write_out(out)?;
    let Ok(()) = out.flush() else {
        return Err(Stop::WriteFailed);
    };
    ended
}

/// The same, where the world is not asked for.
///
/// # Errors
///
/// Those of [`play_world`], which leave the same.
pub fn print_world<T: LineValue, C: TextForm, K: ScriptWorld<T, C>, R: Read + Drop, W: Write>(
    alloc: Global,
    reader: R,
    out: &mut W,
) -> Result<(), Stop>
    ensures ok { OnOk result
        (IsPrinted (rules_of C.text C.fits T.text K.rules) (R.remaining reader) (W.contents out.old) (W.contents out.new)) }
    ensures stop { IfErr result
        (λ stop. StopsAfter (rules_of C.text C.fits T.text K.rules) stop (R.remaining reader) (W.contents out.old) (W.contents out.new)) }
{
    drop(play_world::<T, C, K, R, W>(alloc, reader, out)?);
    Ok(())
}

/// The exit status of a script that ended so: 0, 2 for a bad line, 1 for another fault. A fault is named on `err`.
pub fn exit_status<E: Write>(ended: Result<(), Stop>, err: &mut E) -> u8
    ensures status { result ≡ ended_status ended }
    // Nothing is said where nothing went wrong.
    ensures silent { result ≡ 0 → err.new ≡ err.old }
{
    match ended {
        Ok(()) => 0,
        Err(stop) => stop.tell(err),
    }
}

/// Reads a script of records and prints what it does, both through buffers.
///
/// # Errors
///
/// Those of [`play_world`], which leave the same.
pub fn print_script<R: Read + Drop, W: Write>(
    alloc: Global,
    reader: R,
    out: &mut W,
) -> Result<(), Stop>
    // What is written is what the script prints, and nothing else.
    ensures ok { OnOk result
        (IsPrinted record_rules (R.remaining reader) (W.contents out.old) (W.contents out.new)) }
    ensures stop { IfErr result
        (λ stop. StopsAfter record_rules stop (R.remaining reader) (W.contents out.old) (W.contents out.new)) }
{
    print_world::<Record, Call<Record>, World<Record, RecordCodec, RecordEpoch>, R, W>(
        alloc, reader, out,
    )
}

/// Runs a script of records, and gives the exit status: 0, 2 for a bad line, 1 for another fault, which is named
/// on `err`.
pub fn run_script<R: Read + Drop, W: Write, E: Write>(
    alloc: Global,
    reader: R,
    out: &mut W,
    err: &mut E,
) -> u8
    ensures { RunEnds record_rules result (R.remaining reader) (W.contents out.old) (W.contents out.new) err.old err.new }
{
    let ended = print_script(alloc, reader, out);
    exit_status(ended, err)
}
